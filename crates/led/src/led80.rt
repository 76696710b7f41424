// LED-80 as a cipher.
use crate::columns::Columns;
use crate::expanded::Expanded;
use cipher::keyed::Keyed;

// LED with a key of 80 bits, on columns. A run reads tables at secret places, so where memory is cached its time may tell of the block and
// the key.
pub type Led80 = Keyed<Expanded<Columns>, 10, 8>;

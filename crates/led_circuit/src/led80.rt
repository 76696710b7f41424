// LED-80 as a cipher.
use crate::state::Planes;
use cipher::keyed::Keyed;
use led::expanded::Expanded;

// LED with a key of 80 bits, on bit planes.
pub type Led80 = Keyed<Expanded<Planes>, 10, 8>;

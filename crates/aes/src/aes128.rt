// AES-128 as a cipher.
use crate::expanded::Expanded;
use crate::rounds::Columns;
use cipher::keyed::Keyed;

// AES with a key of 128 bits, on the four columns of the state as words.
pub type Aes128 = Keyed<Expanded<Columns>, 16, 16>;

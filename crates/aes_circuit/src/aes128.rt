// AES-128 as a cipher.
use crate::planes::Planes;
use aes::expanded::Expanded;
use cipher::keyed::Keyed;

// AES with a key of 128 bits, on bit planes.
pub type Aes128 = Keyed<Expanded<Planes>, 16, 16>;

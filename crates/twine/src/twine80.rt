// TWINE-80 as a cipher.
use crate::expanded::Expanded;
use crate::round_key::SpacedKey;
use cipher::keyed::Keyed;

// TWINE with a key of 80 bits, by a table at secret places.
pub type Twine80 = Keyed<Expanded<SpacedKey>, 10, 8>;

// TWINE-80 as a cipher.
use crate::round_key::LaneKey;
use cipher::keyed::Keyed;
use twine::expanded::Expanded;

// TWINE with a key of 80 bits, in lanes.
pub type Twine80 = Keyed<Expanded<LaneKey>, 10, 8>;

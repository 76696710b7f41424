// The S-box at bytes.
ghost use Rattle.std.specs.Prelude.{◌≡◌};
ghost use Rattle.aes.specs.Sbox.{S, AffineOfInverse};

use crate::planes::Planes;
use aes::rounds::state_of;
use aes::schedule::SubWords;
use aes::state::State;

// The S-box at a byte: the affine map of the byte's inverse in GF(2^8).
pub fn sub_byte(byte: u8) -> u8
    ensures is { result ≡ S byte }
    ensures law { AffineOfInverse byte result }
{
    let mut block = [0; 16];
    block[0] = byte;
    Planes::of_bytes(&block).sub_bytes().to_bytes()[0]
}

impl SubWords for Planes {
    fn sub_word(word: u32) -> u32 {
        let s = Planes::of_bytes(&state_of([word, 0, 0, 0]))
            .sub_bytes()
            .to_bytes();
        u32::from_be_bytes([s[0], s[1], s[2], s[3]])
    }
}

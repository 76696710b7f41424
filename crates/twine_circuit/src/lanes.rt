// Eight 4-bit words in the lanes of 32 bits, so that one operation works on all of them: bit k of lane i is the bit 8 k + i.
ghost use Rattle.std.specs.Prelude.{◌≡◌, ◌<◌};
ghost use Rattle.bits.specs.Lanes.{lane};
ghost use Rattle.bits.specs.Linear.{value};
ghost use Rattle.twine_circuit.specs.Halves.{place, lanes, spreading};

use std::array;
use twine::words::{Word, Words};

// The word in lane 0.
fn spread(word: u8) -> u32
    ensures { result ≡ value 32 spreading word }
{
    let w = word as u32;
    (w & 0x1) ^ ((w << 7) & 0x100) ^ ((w << 14) & 0x1_0000) ^ ((w << 21) & 0x100_0000)
}

// The word of lane 0.
#[tactic(auto, unfolding(bits::specs::Lanes::lane))]
fn collected(x: u32) -> Word
    ensures { result.value ≡ lane place x 0 }
{
    Word {
        value: (x % 2 + (x >> 8) % 2 * 2 + (x >> 16) % 2 * 4 + (x >> 24) % 2 * 8) as u8,
    }
}

// The lanes that hold these words.
pub(crate) fn packed(words: Words<8>) -> u32
    ensures { lanes result ≡ words.values }
{
    let mut x = 0;
    for (i, word) in words.values.iter().enumerate() {
        x ^= spread(*word) << i;
    }
    x
}

// The words in the lanes.
pub(crate) fn unpacked(x: u32) -> Words<8>
    ensures { result.values ≡ lanes x }
{
    Words {
        values: array::from_fn(|i| collected(x >> i).value),
    }
}

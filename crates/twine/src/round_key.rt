// A round key in 64 bits.
ghost use Rattle.std.specs.Prelude.{◌≡◌};
ghost use Rattle.twine.specs.Split.{OddZero, key_words};

use crate::round::encrypted;
use crate::schedule::RoundKey;
use crate::words::{Word, Words};

// Its words stand at the even places, where `round` adds them.
#[derive(Clone, Copy)]
pub struct SpacedKey {
    pub(crate) bits: u64,
    ghost spaced: { OddZero bits },
}

impl RoundKey for SpacedKey {
    ghost words = { λ k. key_words k.bits };

    fn substitute(word: Word) -> Word {
        Word {
            value: SBOX[word.value as usize],
        }
    }

    fn of_register(register: &Words<20>) -> Self {
        let wk = &register.values;
        let words = [wk[1], wk[3], wk[4], wk[6], wk[13], wk[14], wk[15], wk[16]];
        SpacedKey {
            bits: u64::from_be_bytes(words) << 4,
        }
    }

    fn encrypt(keys: &[Self; 36], block: &[u8; 8]) -> [u8; 8] {
        encrypted(keys, u64::from_be_bytes(*block)).to_be_bytes()
    }
}

// The S-box.
const SBOX: [u8; 16] = [
    0xc, 0x0, 0xf, 0xa, 0x2, 0xb, 0x9, 0x5, 0x8, 0x3, 0xd, 0x7, 0x1, 0xe, 0x6, 0x4,
];

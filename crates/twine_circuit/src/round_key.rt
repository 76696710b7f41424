// A round key in lanes.
ghost use Rattle.twine_circuit.specs.Halves.{key_words};

use crate::halves::Halves;
use crate::lanes::packed;
use crate::round::{encrypted, sboxes};
use twine::schedule::RoundKey;
use twine::words::{Word, Words};

// Each of its words is in the lane where `round` adds it.
#[derive(Clone, Copy)]
pub struct LaneKey {
    pub(crate) lanes: u32,
}

impl RoundKey for LaneKey {
    ghost words = { λ k. key_words k.lanes };

    // By the circuit, on the four bits of the word.
    fn substitute(word: Word) -> Word {
        let w = word.value as u32;
        let [p, q, r, s] = sboxes(w, w >> 1, w >> 2, w >> 3);
        Word {
            value: (p % 2 + q % 2 * 2 + r % 2 * 4 + s % 2 * 8) as u8,
        }
    }

    fn of_register(register: &Words<20>) -> Self {
        let wk = &register.values;
        LaneKey {
            lanes: packed(Words {
                values: [wk[1], wk[15], wk[16], wk[3], wk[6], wk[4], wk[13], wk[14]],
            }),
        }
    }

    fn encrypt(keys: &[Self; 36], block: &[u8; 8]) -> [u8; 8] {
        encrypted(keys, Halves::of_block(*block)).to_block()
    }
}

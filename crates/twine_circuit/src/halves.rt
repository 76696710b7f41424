// A state of TWINE by its two halves.
ghost use Rattle.std.specs.Prelude.{◌≡◌};
ghost use Rattle.bits.specs.Nibbles.{nibbles, bytes};
ghost use Rattle.twine_circuit.specs.Halves.{words, unshuffled};

use crate::lanes::{packed, unpacked};
use twine::words::Words;

// The words at the even places, and those at the odd places, each in eight lanes.
#[derive(Clone, Copy)]
pub(crate) struct Halves {
    pub(crate) left: u32,
    pub(crate) right: u32,
}

impl Halves {
    // Kept: the indices here and in `to_block` are the order of the lanes, which is all that either says.
    pub(crate) fn of_block(b: [u8; 8]) -> Self
        ensures { words result ≡ nibbles b }
    {
        Halves {
            left: packed(Words {
                values: [
                    b[0] / 16,
                    b[6] / 16,
                    b[7] / 16,
                    b[1] / 16,
                    b[3] / 16,
                    b[2] / 16,
                    b[4] / 16,
                    b[5] / 16,
                ],
            }),
            right: packed(Words {
                values: [
                    b[2] % 16,
                    b[7] % 16,
                    b[5] % 16,
                    b[0] % 16,
                    b[1] % 16,
                    b[3] % 16,
                    b[6] % 16,
                    b[4] % 16,
                ],
            }),
        }
    }

    // The block of the state before the last block shuffle, which the cipher leaves out.
    pub(crate) fn to_block(self) -> [u8; 8]
        ensures { result ≡ bytes 8 (unshuffled (words self)) }
    {
        let l = unpacked(self.left).values;
        let r = unpacked(self.right).values;
        [
            r[0] * 16 + l[0],
            r[3] * 16 + l[5],
            r[5] * 16 + l[1],
            r[4] * 16 + l[6],
            r[6] * 16 + l[4],
            r[7] * 16 + l[3],
            r[1] * 16 + l[7],
            r[2] * 16 + l[2],
        ]
    }
}

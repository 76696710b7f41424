// The key schedule of TWINE-80, on a register of twenty words of 4 bits. It is the same whichever way a crate computes S and keeps a
// round key.
ghost use Rattle.std.specs.Prelude.{◌≡◌, ℕ, ◌<◌, List, map};
ghost use Rattle.bits.specs.Nibbles.{nibbles};
ghost use Rattle.twine.specs.Twine.{S, round_key, update, twine80};
ghost use Rattle.twine.specs.Split.{round_keys};

use crate::words::{Word, Words};
use std::array;

// A round key as a cipher keeps it, the S-box by which its key schedule runs, and the rounds on a block.
pub trait RoundKey: Copy {
    // RK_0 to RK_7
    ghost words: { Self → List ℕ };

    fn substitute(word: Word) -> Word
        ensures { result.value ≡ S word.value };

    fn of_register(register: &Words<20>) -> Self
        ensures { words result ≡ round_key register.now.values };

    // A block under the keys of rounds 1 to 36.
    fn encrypt(keys: &[Self; 36], block: &[u8; 8]) -> [u8; 8]
        ensures { (key : List ℕ) → map words keys.now ≡ round_keys key → result ≡ twine80 key block.now };
}

// The key's words, with which the register starts.
fn register(key: &[u8; 10]) -> Words<20>
    ensures { result.values ≡ nibbles key.now }
{
    Words {
        values: array::from_fn(|i| {
            let byte = key[i / 2];
            if i % 2 == 0 { byte / 16 } else { byte % 16 }
        }),
    }
}

// The register after a round with this constant.
// Kept: with rotate_left in place of the twenty entries the goals rotate_left-requires and returns stay open.
fn updated<K: RoundKey>(register: &Words<20>, constant: u8) -> Words<20>
    requires { constant < 64 }
    ensures { result.values ≡ update constant register.now.values }
{
    let wk = &register.values;
    let s = K::substitute(Word { value: wk[16] });
    let t = K::substitute(Word { value: wk[0] });
    Words {
        values: [
            wk[4] ^ s.value,
            wk[5],
            wk[6],
            wk[7] ^ (constant / 8),
            wk[8],
            wk[9],
            wk[10],
            wk[11],
            wk[12],
            wk[13],
            wk[14],
            wk[15],
            wk[16],
            wk[17],
            wk[18],
            wk[19] ^ (constant % 8),
            wk[1] ^ t.value,
            wk[2],
            wk[3],
            wk[0],
        ],
    }
}

// The round keys of rounds 1 to 36.
pub fn schedule<K: RoundKey>(key: &[u8; 10]) -> [K; 36]
    ensures { map K.words result ≡ round_keys key.now }
{
    let mut wk = register(key);
    let mut keys = [K::of_register(&wk); 36];
    for (r, constant) in CONSTANTS.iter().enumerate() {
        wk = updated::<K>(&wk, *constant);
        keys[r + 1] = K::of_register(&wk);
    }
    keys
}

// The constants of rounds 1 to 35, after each of which the register is updated.
const CONSTANTS: [u8; 35] = [
    0x01, 0x02, 0x04, 0x08, 0x10, 0x20, 0x03, 0x06, 0x0c, 0x18, 0x30, 0x23, 0x05, 0x0a, 0x14, 0x28,
    0x13, 0x26, 0x0f, 0x1e, 0x3c, 0x3b, 0x35, 0x29, 0x11, 0x22, 0x07, 0x0e, 0x1c, 0x38, 0x33, 0x25,
    0x09, 0x12, 0x24,
];

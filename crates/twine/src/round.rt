// The rounds of TWINE on a state of 64 bits, the nibble X_0 leftmost.
ghost use Rattle.std.specs.Prelude.{◌≡◌, ℕ, ◌<◌, List, map};
ghost use Rattle.bits.specs.Nibbles.{nibbles};
ghost use Rattle.twine.specs.Twine.{RK, enc, permuted, substituted};
ghost use Rattle.twine.specs.Split.{split, evens, odds, key_words, mixed, round_keys};

use crate::round_key::SpacedKey;
use crate::words::{Word, Words};

// S of the left nibble, added to the right one.
fn mix(byte: u8) -> Word
    ensures { result.value ≡ mixed byte }
{
    Word {
        value: MIX[byte as usize],
    }
}

// The nibbles at the even places, which a round keeps.
fn kept(x: u64) -> Words<8>
    ensures { result.values ≡ evens (split x) }
{
    let a = x.to_be_bytes();
    // Kept: by `map` over the bytes, here and in `sums`, a block takes 1.12 of the time of the same algorithm in C, where 1.0 is the bar.
    Words {
        values: [
            a[0] / 16,
            a[1] / 16,
            a[2] / 16,
            a[3] / 16,
            a[4] / 16,
            a[5] / 16,
            a[6] / 16,
            a[7] / 16,
        ],
    }
}

// The new nibbles at the odd places: S(X_2j + RK_j) + X_2j+1.
fn sums(x: u64, key: &SpacedKey) -> Words<8>
    ensures { result.values ≡ odds (substituted (key_words key.now.bits) (split x)) }
{
    let b = (x ^ key.bits).to_be_bytes();
    Words {
        values: [
            mix(b[0]).value,
            mix(b[1]).value,
            mix(b[2]).value,
            mix(b[3]).value,
            mix(b[4]).value,
            mix(b[5]).value,
            mix(b[6]).value,
            mix(b[7]).value,
        ],
    }
}

// The sixteen nibbles as one word.
fn joined(words: Words<16>) -> u64
    ensures { split result ≡ words.values }
{
    let mut x = 0;
    for (i, word) in words.values.iter().enumerate() {
        x += u64::from(*word) << (60 - 4 * i);
    }
    x
}

// A round: the sums, then the permutation π, by which X_1 goes to place 0, X_2 to place 1, and so on.
fn round(x: u64, key: &SpacedKey) -> u64
    ensures { split result ≡ permuted (substituted (key_words key.now.bits) (split x)) }
{
    let h = kept(x).values;
    let m = sums(x, key).values;
    joined(Words {
        values: [
            m[0], h[1], m[5], h[3], m[1], h[0], m[4], h[2], m[3], h[5], m[6], h[7], m[2], h[4],
            m[7], h[6],
        ],
    })
}

// The last round, which permutes nothing.
// Kept: it differs from `round` in the order of the nibbles, which is all that either says.
fn last_round(x: u64, key: &SpacedKey) -> u64
    ensures { split result ≡ substituted (key_words key.now.bits) (split x) }
{
    let h = kept(x).values;
    let m = sums(x, key).values;
    joined(Words {
        values: [
            h[0], m[0], h[1], m[1], h[2], m[2], h[3], m[3], h[4], m[4], h[5], m[5], h[6], m[6],
            h[7], m[7],
        ],
    })
}

// 36 rounds on a state.
pub(crate) fn encrypted(keys: &[SpacedKey; 36], state: u64) -> u64
    ensures { (key : List ℕ) → map (λ k. key_words k.bits) keys.now ≡ round_keys key → split result ≡ enc (RK (nibbles key)) (split state) }
{
    let mut x = state;
    for key in &keys[..35] {
        x = round(x, key);
    }
    last_round(x, &keys[35])
}

// Entry 16 p + q is S(p) + q. It is looked up by secret bytes, so the time of a round may depend on them through the cache.
const MIX: [u8; 256] = [
    12, 13, 14, 15, 8, 9, 10, 11, 4, 5, 6, 7, 0, 1, 2, 3, 0, 1, 2, 3, 4, 5, 6, 7, 8, 9, 10, 11, 12,
    13, 14, 15, 15, 14, 13, 12, 11, 10, 9, 8, 7, 6, 5, 4, 3, 2, 1, 0, 10, 11, 8, 9, 14, 15, 12, 13,
    2, 3, 0, 1, 6, 7, 4, 5, 2, 3, 0, 1, 6, 7, 4, 5, 10, 11, 8, 9, 14, 15, 12, 13, 11, 10, 9, 8, 15,
    14, 13, 12, 3, 2, 1, 0, 7, 6, 5, 4, 9, 8, 11, 10, 13, 12, 15, 14, 1, 0, 3, 2, 5, 4, 7, 6, 5, 4,
    7, 6, 1, 0, 3, 2, 13, 12, 15, 14, 9, 8, 11, 10, 8, 9, 10, 11, 12, 13, 14, 15, 0, 1, 2, 3, 4, 5,
    6, 7, 3, 2, 1, 0, 7, 6, 5, 4, 11, 10, 9, 8, 15, 14, 13, 12, 13, 12, 15, 14, 9, 8, 11, 10, 5, 4,
    7, 6, 1, 0, 3, 2, 7, 6, 5, 4, 3, 2, 1, 0, 15, 14, 13, 12, 11, 10, 9, 8, 1, 0, 3, 2, 5, 4, 7, 6,
    9, 8, 11, 10, 13, 12, 15, 14, 14, 15, 12, 13, 10, 11, 8, 9, 6, 7, 4, 5, 2, 3, 0, 1, 6, 7, 4, 5,
    2, 3, 0, 1, 14, 15, 12, 13, 10, 11, 8, 9, 4, 5, 6, 7, 0, 1, 2, 3, 12, 13, 14, 15, 8, 9, 10, 11,
];

// The state as four columns, each a word; and its rounds.
ghost use Rattle.std.specs.Prelude.{◌≡◌, length};
ghost use Rattle.aes.specs.Field.{◌⊕◌};
ghost use Rattle.aes.specs.Sbox.{S};
ghost use Rattle.aes.specs.Fips197.{pack, byte, state_of};
ghost use Rattle.aes.specs.Rounds.{columns_of};
ghost use Rattle.aes.specs.Tables.{te0, te1, te2, te3};

use crate::state::State;
use crate::tables::{sub_byte, te0, te1, te2, te3};

// In each column row 0 is the highest byte of the word.
#[derive(Clone, Copy)]
pub struct Columns([u32; 4]);

// The columns of sixteen bytes.
pub(crate) fn columns_of(bytes: &[u8]) -> [u32; 4]
    requires { length bytes.now ≡ 16 }
    ensures { result ≡ columns_of bytes.now }
{
    let (chunks, _) = bytes.as_chunks::<4>();
    let mut columns = [0; 4];
    for (c, chunk) in chunks.iter().enumerate() {
        columns[c] = u32::from_be_bytes(*chunk);
    }
    columns
}

// The bytes of four columns, written word by word: a processor is slow to read a word whose bytes were just written one by one.
pub fn state_of(columns: [u32; 4]) -> [u8; 16]
    ensures { result ≡ state_of columns }
{
    let [a, b, c, d] = columns;
    let mut s = [0; 16];
    s.copy_from_slice([
        a.to_be_bytes(),
        b.to_be_bytes(),
        c.to_be_bytes(),
        d.to_be_bytes(),
    ]
    .as_flattened());
    s
}

impl State for Columns {
    ghost bytes = { λ s. state_of s.0 };

    fn of_bytes(block: &[u8; 16]) -> Self {
        Columns(columns_of(block))
    }

    fn of_words(columns: [u32; 4]) -> Self {
        Columns(columns)
    }

    fn to_bytes(self) -> [u8; 16] {
        state_of(self.0)
    }

    fn plus(self, key: Columns) -> Self {
        let [a, b, c, d] = self.0;
        let k = key.0;
        Columns([a ^ k[0], b ^ k[1], c ^ k[2], d ^ k[3]])
    }

    // ShiftRows takes byte r of a column from r columns further on.
    fn round(self, key: Columns) -> Self {
        let [a, b, c, d] = self.0;
        let k = key.0;
        Columns([
            mixed_column(a, b, c, d, k[0]),
            mixed_column(b, c, d, a, k[1]),
            mixed_column(c, d, a, b, k[2]),
            mixed_column(d, a, b, c, k[3]),
        ])
    }

    // Kept: `round` over another function of a column: a closure would carry that function's contract a second time.
    fn last_round(self, key: Columns) -> Self {
        let [a, b, c, d] = self.0;
        let k = key.0;
        Columns([
            last_column(a, b, c, d, k[0]),
            last_column(b, c, d, a, k[1]),
            last_column(c, d, a, b, k[2]),
            last_column(d, a, b, c, k[3]),
        ])
    }
}

// A column after SubBytes, ShiftRows, MixColumns and AddRoundKey.
// Kept: four words and not an array, here and below, since each call takes the columns from another one on.
fn mixed_column(a: u32, b: u32, c: u32, d: u32, key: u32) -> u32
    ensures { result ≡ te0 (byte a 0) ⊕ te1 (byte b 1) ⊕ te2 (byte c 2) ⊕ te3 (byte d 3) ⊕ key }
{
    te0(a.to_be_bytes()[0])
        ^ te1(b.to_be_bytes()[1])
        ^ te2(c.to_be_bytes()[2])
        ^ te3(d.to_be_bytes()[3])
        ^ key
}

// A column after SubBytes, ShiftRows and AddRoundKey, as in the last round.
fn last_column(a: u32, b: u32, c: u32, d: u32, key: u32) -> u32
    ensures { result ≡ pack (S (byte a 0)) (S (byte b 1)) (S (byte c 2)) (S (byte d 3)) ⊕ key }
{
    u32::from_be_bytes([
        sub_byte(a.to_be_bytes()[0]),
        sub_byte(b.to_be_bytes()[1]),
        sub_byte(c.to_be_bytes()[2]),
        sub_byte(d.to_be_bytes()[3]),
    ]) ^ key
}

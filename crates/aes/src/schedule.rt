// The key expansion.
ghost use Rattle.std.specs.Prelude.{◌≡◌};
ghost use Rattle.aes.specs.Fips197.{RotWord, SubWord, KeyExpansion};
ghost use Rattle.aes.specs.Rounds.{round_keys};

use crate::rounds::columns_of;

// The S-box at each byte of a word, by a table or by a circuit.
pub trait SubWords {
    fn sub_word(word: u32) -> u32
        ensures { result ≡ SubWord word };
}

const RCON: [u32; 10] = [
    0x0100_0000,
    0x0200_0000,
    0x0400_0000,
    0x0800_0000,
    0x1000_0000,
    0x2000_0000,
    0x4000_0000,
    0x8000_0000,
    0x1b00_0000,
    0x3600_0000,
];

// The eleven round keys, each from the one before it.
pub fn key_expansion<S: SubWords>(key: &[u8; 16]) -> [[u32; 4]; 11]
    ensures { result ≡ round_keys (KeyExpansion key.now) }
{
    let mut keys = [columns_of(key); 11];
    for (round, constant) in RCON.iter().enumerate() {
        let [a, b, c, d] = keys[round];
        let e = a ^ S::sub_word(rot_word(d)) ^ *constant;
        let f = b ^ e;
        let g = c ^ f;
        keys[round + 1] = [e, f, g, d ^ g];
    }
    keys
}

fn rot_word(word: u32) -> u32
    ensures { result ≡ RotWord word }
{
    word.rotate_left(8)
}

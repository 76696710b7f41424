// AES-128 (FIPS 197) under a key, over any form of the state.
ghost use Rattle.std.specs.Prelude.{◌≡◌, map, refl};
ghost use Rattle.aes.specs.Fips197.{KeyExpansion, aes128, state_of};
ghost use Rattle.aes.specs.Rounds.{key_states};
ghost use Rattle.std.proofs.Common.{rules};
ghost use Rattle.aes.specs.Fips197;

use crate::schedule::key_expansion;
use crate::state::State;
use cipher::keyed::Schedule;

// The key, and the round keys that it expands to.
#[derive(Drop)]
pub struct Expanded<S: State> {
    key: [u8; 16],
    keys: [S; 11],
    ghost whole: { map S.bytes keys ≡ key_states (KeyExpansion key) },
}

// The round keys in the form of the state.
fn round_keys<S: State>(key: &[u8; 16]) -> [S; 11]
    ensures { map S.bytes result ≡ key_states (KeyExpansion key.now) }
{
    key_expansion::<S>(key).map(
        |words: [u32; 4]| -> S
            ensures { S.bytes result ≡ state_of words }
        { S::of_words(words) },
    )
}

impl<S: State> Schedule<16, 16> for Expanded<S> {
    ghost key = { λ s. s.key };

    ghost E = { aes128 };

    ghost keys = { Prim.search rules };

    ghost widths = { Prim.search rules };

    ghost blocks = { unfold aes128 Fips197.Cipher in λ k X h. refl };

    fn expand(bytes: &[u8; 16]) -> Self {
        Expanded {
            key: *bytes,
            keys: round_keys(bytes),
        }
    }

    // Nine equal rounds, and a last one that mixes no columns.
    fn encrypt(&self, block: &[u8; 16]) -> [u8; 16] {
        // By way of the whole slice: the borrow check takes no part of an array of a parameter.
        let keys = &self.keys[..];
        let mut s = S::of_bytes(block).plus(self.keys[0]);
        for key in &keys[1..10] {
            s = s.round(*key);
        }
        s.last_round(self.keys[10]).to_bytes()
    }
}

// The two subkeys of LED-80, and a run on a block under them.
ghost use Rattle.std.specs.Prelude.{◌≡◌, ℕ, List};
ghost use Rattle.led.specs.Led.{K1, K2, in_turn, led};

use crate::rounds::encrypted;
use crate::state::State;
use std::marker::Model;

#[derive(Drop)]
pub struct Subkeys<S: State> {
    first: S,
    second: S,
}

// Clauses see both as states.
impl<S: State> Model for Subkeys<S> {
    ghost Value = { List ℕ × List ℕ };

    ghost view = { λ k. (S.cells k.first, S.cells k.second) };
}

impl<S: State> Subkeys<S> {
    pub fn of_key(key: &[u8; 10]) -> Self
        ensures { result ≡ (K1 key.now, K2 key.now) }
    {
        let [a, b, c, d, e, f, g, h, i, j] = *key;
        Subkeys {
            first: S::of_bytes([a, b, c, d, e, f, g, h]),
            second: S::of_bytes([i, j, 0, 0, 0, 0, 0, 0]),
        }
    }

    // Twelve steps, and the first subkey once more.
    #[tactic(auto, unfolding(crate::specs::Led::led))]
    pub fn encrypted(&self, block: [u8; 8]) -> [u8; 8]
        ensures { result ≡ led 12 80 (in_turn self.now.0 self.now.1) block }
    {
        encrypted(self.first, self.second, S::of_bytes(block)).to_bytes()
    }
}

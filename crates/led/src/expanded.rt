// LED under a key of 80 bits, over any form of the state.
ghost use Rattle.std.specs.Prelude.{◌≡◌, length, refl};
ghost use Rattle.led.specs.Led.{K1, K2, led80, led};
ghost use Rattle.std.proofs.Common.{rules};

use crate::state::State;
use crate::subkeys::Subkeys;
use cipher::keyed::Schedule;

// The key, and its two subkeys.
#[derive(Drop)]
pub struct Expanded<S: State> {
    key: [u8; 10],
    subkeys: Subkeys<S>,
    ghost of_key: { subkeys ≡ (K1 key, K2 key) },
}

impl<S: State> Schedule<10, 8> for Expanded<S> {
    ghost key = { λ s. s.key };

    ghost E = { led80 };

    ghost keys = { Prim.search rules };

    ghost widths = { Prim.search rules };

    ghost blocks = { unfold led led80 in λ k X e. refl };

    fn expand(bytes: &[u8; 10]) -> Self {
        Expanded {
            key: *bytes,
            subkeys: Subkeys::of_key(bytes),
        }
    }

    #[tactic(auto, unfolding(crate::specs::Led::led80))]
    fn encrypt(&self, block: &[u8; 8]) -> [u8; 8] {
        self.subkeys.encrypted(*block)
    }
}

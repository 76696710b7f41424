// PRESENT-80 as a cipher.
ghost use Rattle.std.specs.Prelude.{◌≡◌};
ghost use Rattle.present.specs.Block.{present80};
ghost use Rattle.present.specs.RoundKeys.{RoundKeys};
ghost use Rattle.std.proofs.Common.{rules};
ghost use Rattle.present.specs.Bytes.{block_length};

use crate::schedule::KeySchedule;
use cipher::keyed::{Keyed, Schedule};

// The key, and its round keys.
#[derive(Drop)]
pub struct Expanded {
    key: [u8; 10],
    schedule: KeySchedule,
    ghost whole: { RoundKeys key schedule.keys },
}

// PRESENT with a key of 80 bits.
pub type Present80 = Keyed<Expanded, 10, 8>;

impl Schedule<10, 8> for Expanded {
    ghost key = { λ s. s.key };

    ghost E = { present80 };

    ghost keys = { Prim.search rules };

    ghost widths = { Prim.search rules };

    ghost blocks = { λ k X h. block_length k X };

    fn expand(bytes: &[u8; 10]) -> Self {
        Expanded {
            key: *bytes,
            schedule: KeySchedule::of_key(bytes),
        }
    }

    fn encrypt(&self, block: &[u8; 8]) -> [u8; 8] {
        self.schedule.encrypted(*block)
    }
}

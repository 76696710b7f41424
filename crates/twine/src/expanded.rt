// TWINE under a key of 80 bits, over any form of a round key.
ghost use Rattle.std.specs.Prelude.{◌≡◌, map, refl};
ghost use Rattle.twine.specs.Twine.{twine80};
ghost use Rattle.twine.specs.Split.{round_keys};
ghost use Rattle.std.proofs.Common.{rules};

use crate::schedule::{RoundKey, schedule};
use cipher::keyed::Schedule;

// A key and its 36 round keys.
#[derive(Drop)]
pub struct Expanded<K: RoundKey> {
    key: [u8; 10],
    keys: [K; 36],
    ghost scheduled: { map K.words keys ≡ round_keys key },
}

impl<K: RoundKey> Schedule<10, 8> for Expanded<K> {
    ghost key = { λ s. s.key };

    ghost E = { twine80 };

    ghost keys = { Prim.search rules };

    ghost widths = { Prim.search rules };

    ghost blocks = { unfold twine80 in λ k X h. refl };

    fn expand(bytes: &[u8; 10]) -> Self {
        Expanded {
            key: *bytes,
            keys: schedule(bytes),
        }
    }

    fn encrypt(&self, block: &[u8; 8]) -> [u8; 8] {
        K::encrypt(&self.keys, block)
    }
}

// What a form of the state offers to the key expansion and the rounds: blocks to and from it, and the steps.
ghost use Rattle.std.specs.Prelude.{◌≡◌, ℕ, List};
ghost use Rattle.aes.specs.Fips197.{state_of};
ghost use Rattle.aes.specs.Rounds.{plus, round, last_round};

use crate::schedule::SubWords;

pub trait State: SubWords + Copy {
    // The sixteen bytes, column after column.
    ghost bytes: { Self → List ℕ };

    fn of_bytes(block: &[u8; 16]) -> Self
        ensures { bytes result ≡ block.now };

    // Of four columns.
    fn of_words(columns: [u32; 4]) -> Self
        ensures { bytes result ≡ state_of columns };

    fn to_bytes(self) -> [u8; 16]
        ensures { result ≡ bytes self };

    // The sum of two states, as when a round key is added.
    fn plus(self, key: Self) -> Self
        ensures { bytes result ≡ plus (bytes self) (bytes key) };

    fn round(self, key: Self) -> Self
        ensures { bytes result ≡ round (bytes key) (bytes self) };

    // The last round mixes no columns.
    fn last_round(self, key: Self) -> Self
        ensures { bytes result ≡ last_round (bytes key) (bytes self) };
}

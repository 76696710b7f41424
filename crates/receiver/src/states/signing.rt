// Signing the number that is held, and giving it back.
ghost use Rattle.std.specs.Prelude.{ℕ};
ghost use Rattle.mode.specs.Meaning.{Meaning, Lawful};
ghost use Rattle.receiver.specs.Trace.{signs, returns};
ghost use Rattle.receiver.specs.Run.{Signs, Returns, GoesOn, Keeps, listening, holding};
ghost use Rattle.ledger.specs.Calls.{Entered};
ghost use Rattle.receiver.specs.Step.{Due};

use crate::states::{Holding, Listening};
use ledger::ledger::Ledger;

impl Holding {
    // Enters the number in the ledger: no tube with it is opened again. Whatever calls led to this end, the promises hold of them and of
    // this signature.
    pub fn sign(self) -> Listening
        ensures did { Signs self result }
        ensures runs { (m : Meaning) (left : ℕ) → GoesOn m (holding self) left (signs self.number) (listening result) left }
        ensures promise { (m : Meaning) (left : ℕ) → Lawful m → Keeps m (holding self) left (signs self.number) left }
    {
        let Holding { end, number } = self;
        let Listening { set, ledger } = end;
        Listening {
            set,
            ledger: enter(ledger, number),
        }
    }

    // Leaves the ledger as it was: a tube with the number can be opened again.
    pub fn give_back(self) -> Listening
        ensures did { Returns self result }
        ensures runs { (m : Meaning) (left : ℕ) → GoesOn m (holding self) left returns (listening result) left }
        ensures promise { (m : Meaning) (left : ℕ) → Lawful m → Keeps m (holding self) left returns left }
    {
        let Holding { end, number: _ } = self;
        end
    }
}

// The ledger with a number that may be signed.
fn enter(ledger: Ledger, number: u64) -> Ledger
    requires { Due ledger number }
    ensures { Entered ledger number result }
{
    ledger.sign(number).unwrap_or_else(|before| before)
}

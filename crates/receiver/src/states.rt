// The receiving end of a link: its two states. A state is moved by its calls and can't be copied, so that a call in the wrong state
// can't be written.
ghost use Rattle.std.specs.Prelude.{◌≡◌, true};
ghost use Rattle.ledger.specs.Marks.{may_sign};
ghost use Rattle.link.specs.Numbers.{last_of};

use ledger::ledger::Ledger;
use mode::set::ParameterSet;

pub mod asking;
mod checks;
pub mod opening;
pub mod signing;

// An end that waits for a tube. Its ledger signs numbers up to the last one of its set.
#[derive(Drop)]
pub struct Listening {
    set: ParameterSet,
    ledger: Ledger,
    ghost limit: { ledger.limit ≡ last_of «set» },
}

// An end that has handed the contents of a tube over and not yet signed its number, which may be signed: the end as it listened, and the
// number.
#[derive(Drop)]
pub struct Holding {
    end: Listening,
    number: u64,
    ghost due: { may_sign end.ledger.limit end.ledger.high end.ledger.marks number ≡ true },
}

// The sending end of a link.
ghost use Rattle.std.specs.Prelude.{◌≡◌, ◌+◌, ◌≤◌};
ghost use Rattle.link.specs.Numbers.{last_of};

use mode::set::ParameterSet;

mod calls;
mod write;

// A set and the number (sequence number) that the next tube takes: one past the last number once that was sent. A copy of an end would
// send under the same numbers again, so there is none.
#[derive(Drop)]
pub struct Sending {
    set: ParameterSet,
    next: u64,
    ghost order: { (1 ≤ next) × (next ≤ last_of «set» + 1) },
}

impl Sending {
    // Kept: the receiving end has this accessor too, in a crate that knows nothing of this one.
    pub fn set(&self) -> ParameterSet
        ensures { result ≡ self.now.«set» }
    {
        self.set
    }

    // The number that the next tube takes.
    pub fn next(&self) -> u64
        ensures { result ≡ self.now.next }
    {
        self.next
    }
}

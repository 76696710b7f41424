// What either state tells of itself.
ghost use Rattle.std.specs.Prelude.{◌≡◌};

use crate::states::{Holding, Listening};
use mode::set::ParameterSet;

impl Listening {
    pub fn set(&self) -> ParameterSet
        ensures { result ≡ self.now.«set» }
    {
        self.set
    }

    // The number up to which all were signed when the end was made.
    pub fn floor(&self) -> u64
        ensures { result ≡ self.now.ledger.floor }
    {
        self.ledger.floor()
    }

    // The larger of the floor and all numbers signed.
    pub fn high(&self) -> u64
        ensures { result ≡ self.now.ledger.high }
    {
        self.ledger.high()
    }

    // Which of the last 64 numbers up to the highest one are signed: bit i says it of the highest less i.
    pub fn marks(&self) -> u64
        ensures { result ≡ self.now.ledger.marks }
    {
        self.ledger.marks()
    }
}

// Kept: one line each, since a caller asks either state by the same names.
impl Holding {
    pub fn set(&self) -> ParameterSet
        ensures { result ≡ self.now.end.«set» }
    {
        self.end.set()
    }

    pub fn floor(&self) -> u64
        ensures { result ≡ self.now.end.ledger.floor }
    {
        self.end.floor()
    }

    pub fn high(&self) -> u64
        ensures { result ≡ self.now.end.ledger.high }
    {
        self.end.high()
    }

    pub fn marks(&self) -> u64
        ensures { result ≡ self.now.end.ledger.marks }
    {
        self.end.marks()
    }

    // The number of the tube whose contents were handed over.
    pub fn number(&self) -> u64
        ensures { result ≡ self.now.number }
    {
        self.number
    }
}

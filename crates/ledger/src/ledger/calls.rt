// Making a ledger, asking it, and signing a number.
ghost use Rattle.std.specs.Prelude.{◌≡◌, ℕ, ◌+◌, ◌<◌, ◌≤◌, List};
ghost use Rattle.ledger.specs.Marks.{marked, by_marks, may_sign};
ghost use Rattle.ledger.specs.History.{Represents, standing_of};
ghost use Rattle.ledger.specs.Calls.{Made, MaySign, Entered, Signing};

use crate::ledger::Ledger;
use crate::standing::Standing;

// How many numbers, the highest among them, have a mark. A number further back is old.
const WINDOW: u64 = 64;

impl Ledger {
    // A ledger in which the numbers up to the floor are signed; none where the floor is above the limit.
    pub fn new(floor: u64, limit: u64) -> Option<Ledger>
        ensures { Made floor limit result }
    {
        if floor > limit {
            return None;
        }
        Some(Ledger {
            floor,
            high: floor,
            marks: u64::MAX,
            limit,
        })
    }

    pub fn floor(&self) -> u64
        ensures { result ≡ self.now.floor }
    {
        self.floor
    }

    // The larger of the floor and all numbers signed.
    pub fn high(&self) -> u64
        ensures { result ≡ self.now.high }
    {
        self.high
    }

    pub fn marks(&self) -> u64
        ensures { result ≡ self.now.marks }
    {
        self.marks
    }

    // The last number that can be signed.
    pub fn limit(&self) -> u64
        ensures { result ≡ self.now.limit }
    {
        self.limit
    }

    // How a number stands, by the marks: it is what the floor and the numbers signed so far say.
    pub fn standing(&self, number: u64) -> Standing
        ensures marks { result ≡ by_marks self.now.high self.now.marks number }
        ensures history { (floor : ℕ) (ks : List ℕ) → Represents self.now.high self.now.marks floor ks → result ≡ standing_of floor ks number }
    {
        self.told(number)
    }

    // Kept: a method of its own, since as one with `standing` the law on histories stays open at its ends.
    fn told(&self, number: u64) -> Standing
        ensures { result ≡ by_marks self.now.high self.now.marks number }
    {
        if number > self.high {
            return Standing::Open;
        }
        let back = self.high - number;
        if back >= WINDOW {
            return Standing::Old;
        }
        if (self.marks >> back) % 2 == 1 {
            Standing::Signed
        } else {
            Standing::Open
        }
    }

    // Enters a number that stands open and is not above the limit. Any other is refused, and the ledger given back as it was.
    pub fn sign(self, number: u64) -> Result<Ledger, Ledger>
        ensures { Signing self number result }
    {
        if self.may_sign(number) {
            Ok(self.enter(number))
        } else {
            Err(self)
        }
    }

    fn may_sign(&self, number: u64) -> bool
        ensures { result ≡ may_sign self.now.limit self.now.high self.now.marks number }
    {
        number <= self.limit && matches!(self.told(number), Standing::Open)
    }

    fn enter(self, number: u64) -> Ledger
        requires { MaySign self number }
        ensures { Entered self number result }
    {
        Ledger {
            floor: self.floor,
            high: number.max(self.high),
            marks: self.marked(number),
            limit: self.limit,
        }
    }

    // The marks with the number among them, counted back from the larger of it and the highest.
    fn marked(&self, number: u64) -> u64
        requires { self.now.high < number + 64 }
        ensures { result ≡ marked self.now.high self.now.marks number }
    {
        if number <= self.high {
            return self.marks | (1 << (self.high - number));
        }
        let ahead = number - self.high;
        if ahead < WINDOW {
            (self.marks << ahead) | 1
        } else {
            1
        }
    }
}

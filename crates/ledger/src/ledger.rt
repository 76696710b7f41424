// A ledger (anti-replay window): which numbers were signed (recorded as accepted).
ghost use Rattle.std.specs.Prelude.{◌≡◌, ℕ, ◌+◌, ◌<◌, ◌≤◌};
ghost use Rattle.ledger.specs.Marks.{bit};

pub mod calls;

// Every number up to the floor is signed. Of the last 64 numbers up to the highest one, mark i (bit i) says whether high - i is signed;
// the marks of numbers at or below 0 are set. No number above the limit is signed.
#[derive(Drop)]
pub struct Ledger {
    floor: u64,
    high: u64,
    marks: u64,
    limit: u64,
    ghost order: { (floor ≤ high) × (high ≤ limit) },
    ghost top: { bit marks 0 ≡ 1 },
    ghost below: { (i : ℕ) → i < 64 → high ≤ floor + i → bit marks i ≡ 1 },
}

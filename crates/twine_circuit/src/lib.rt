// TWINE-80, a lightweight block cipher of 64-bit blocks and 80-bit keys: no table indexed by a secret and no branch on one, neither in a
// run nor in the key schedule.

#![tactic(auto)]

mod halves;
mod lanes;
mod round;
mod round_key;
pub mod twine80;

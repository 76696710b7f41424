// PRESENT-80: no table indexed by a secret and no branch on one, neither in a run nor in the key schedule.

#![tactic(auto)]

pub mod bitwise;
mod layers;
pub mod present80;
mod schedule;

// TWINE-80, a lightweight block cipher of 64-bit blocks and 80-bit keys.

#![tactic(auto)]

pub mod expanded;
mod round;
mod round_key;
pub mod schedule;
pub mod twine80;
pub mod words;

#![tactic(auto)]

pub mod aes128;
pub mod expanded;
pub mod rounds;
pub mod schedule;
pub mod state;
pub mod tables;

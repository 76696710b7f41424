#![tactic(auto)]

mod columns;
pub mod expanded;
pub mod led80;
mod rounds;
pub mod state;
pub mod subkeys;
mod tables;

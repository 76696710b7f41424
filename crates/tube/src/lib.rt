#![tactic(auto)]

pub mod fault;
pub mod limits;
pub mod reading;
pub mod span;
pub mod tube;
pub mod writing;

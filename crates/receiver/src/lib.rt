#![tactic(auto)]

pub mod answer;
pub mod end;
pub mod promise;
pub mod states;

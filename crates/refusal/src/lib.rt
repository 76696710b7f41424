#![tactic(auto)]

pub mod interface;
pub mod layer;
pub mod values;

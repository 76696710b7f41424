#![tactic(auto)]

pub mod call;
mod places;
mod receives;
pub mod records;
mod sends;

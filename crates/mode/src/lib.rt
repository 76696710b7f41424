#![tactic(auto)]

pub mod checks;
pub mod count;
pub mod fault;
pub mod interface;
pub mod lookup;
pub mod set;
pub mod work;

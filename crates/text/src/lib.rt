// Text for people and for cases: hexadecimal, and lines of fields.

#![tactic(auto)]

pub mod ascii;
pub mod digits;
pub mod fault;
pub mod fields;

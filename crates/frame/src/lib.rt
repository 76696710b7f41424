// What CLOC and SILC have in common, over any cipher. A caller of the library makes a mode by the crates of the two.

#![tactic(auto)]

pub mod framed;
mod message;
pub mod scheme;

// The steps on blocks that CLOC and SILC are made of, over any cipher. They are not for a caller of the library: a mode checks the
// lengths and the allowance once at its start, and the steps require of it what those checks have shown.

#![tactic(auto)]

pub mod padding;
pub mod steps;
pub mod tag;
pub mod tweaks;
mod words;

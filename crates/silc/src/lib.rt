// SILC, version 3, over any cipher.

#![tactic(auto)]

pub mod silc;
mod subroutines;

// CLOC, version 3: authenticated encryption over any block cipher.

#![tactic(auto)]

pub mod cloc;
mod subroutines;

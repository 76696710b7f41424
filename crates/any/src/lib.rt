// A cipher or a mode that is chosen when the program runs.

#![tactic(auto)]

pub mod ciphers;
pub mod either;
pub mod modes;

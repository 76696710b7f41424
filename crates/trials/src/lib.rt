// Tests over several crates. It has no code of its own.

#![tactic(auto)]

#[cfg(test)]
mod clocs;
#[cfg(test)]
mod piles;
#[cfg(test)]
mod texts;

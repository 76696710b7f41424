// LED-80: no table indexed by a secret and no branch on one, neither in a run nor in the making of the subkeys.

#![tactic(auto)]

mod constants;
mod layers;
pub mod led80;
mod planes;
mod state;

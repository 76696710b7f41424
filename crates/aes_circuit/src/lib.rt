// AES-128: no table indexed by a secret and no branch on one, neither in a run nor in the key expansion.

#![tactic(auto)]

pub mod aes128;
mod circuit;
mod planes;
pub mod sbox;

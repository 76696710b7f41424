// One of four ciphers: it means what the one that it holds means.
ghost use Rattle.std.specs.Prelude.{◌≡◌, ◌⊎◌, ◌<◌, ◌^◌};
ghost use Rattle.any.specs.declared.ciphers.OneOf.TheVariants.{First, Second, Third, Fourth};
ghost use Rattle.std.proofs.Common.{rules};

use cipher::fault::CipherFault;
use cipher::interface::{Allowance, Cipher};

// Kept: an enum of its own, since a name of an `Either` of two has not these four variants.
#[derive(Drop)]
pub enum OneOf<C, D, F, G> {
    First(C),
    Second(D),
    Third(F),
    Fourth(G),
}

impl<C: Allowance, D: Allowance, F: Allowance, G: Allowance> Allowance for OneOf<C, D, F, G> {
    ghost remaining = { λ e. elim e [ First c ↦ C.Allowance.remaining c | Second c ↦ D.Allowance.remaining c | Third c ↦ F.Allowance.remaining c | Fourth c ↦ G.Allowance.remaining c ] };

    ghost bounded = { Prim.search rules };

    fn left(&self) -> u64 {
        match self {
            OneOf::First(c) => c.left(),
            OneOf::Second(c) => c.left(),
            OneOf::Third(c) => c.left(),
            OneOf::Fourth(c) => c.left(),
        }
    }
}

impl<C: Cipher, D: Cipher, F: Cipher, G: Cipher> Cipher for OneOf<C, D, F, G> {
    ghost width = { λ e. elim e [ First c ↦ C.Cipher.width c | Second c ↦ D.Cipher.width c | Third c ↦ F.Cipher.width c | Fourth c ↦ G.Cipher.width c ] };

    ghost E = { λ e. elim e [ First c ↦ C.Cipher.E c | Second c ↦ D.Cipher.E c | Third c ↦ F.Cipher.E c | Fourth c ↦ G.Cipher.E c ] };

    ghost widths = { elim [
      | First c ↦ C.Cipher.widths c
      | Second c ↦ D.Cipher.widths c
      | Third c ↦ F.Cipher.widths c
      | Fourth c ↦ G.Cipher.widths c
    ] };

    ghost blocks = { elim [
      | First c ↦ λ X h. C.Cipher.blocks c X h
      | Second c ↦ λ X h. D.Cipher.blocks c X h
      | Third c ↦ λ X h. F.Cipher.blocks c X h
      | Fourth c ↦ λ X h. G.Cipher.blocks c X h
    ] };

    fn width(&self) -> usize {
        match self {
            OneOf::First(c) => c.width(),
            OneOf::Second(c) => c.width(),
            OneOf::Third(c) => c.width(),
            OneOf::Fourth(c) => c.width(),
        }
    }

    fn run(&mut self, block: &mut [u8]) -> Result<(), CipherFault> {
        match self {
            OneOf::First(c) => c.run(block),
            OneOf::Second(c) => c.run(block),
            OneOf::Third(c) => c.run(block),
            OneOf::Fourth(c) => c.run(block),
        }
    }
}

// One of two: it means what the one that it holds means.
ghost use Rattle.std.specs.Prelude.{◌≡◌, ◌⊎◌, ◌<◌, ◌^◌};
ghost use Rattle.any.specs.declared.either.Either.TheVariants.{First, Second};
ghost use Rattle.std.proofs.Common.{rules};

use cipher::fault::CipherFault;
use cipher::interface::{Allowance, Cipher};

// Kept: each method is a match that hands the call on, as an enum of two needs it once for each method.
// Kept: the kit's crate `either` has this enum too, but then `cipher` and `mode`, which choose nothing, would have to hold these impls.
#[derive(Drop)]
pub enum Either<A, B> {
    First(A),
    Second(B),
}

impl<A: Allowance, B: Allowance> Allowance for Either<A, B> {
    ghost remaining = { λ e. elim e [ First held ↦ A.Allowance.remaining held | Second held ↦ B.Allowance.remaining held ] };

    ghost bounded = { Prim.search rules };

    fn left(&self) -> u64 {
        match self {
            Either::First(held) => held.left(),
            Either::Second(held) => held.left(),
        }
    }
}

impl<C: Cipher, D: Cipher> Cipher for Either<C, D> {
    ghost width = { λ e. elim e [ First c ↦ C.Cipher.width c | Second c ↦ D.Cipher.width c ] };

    ghost E = { λ e. elim e [ First c ↦ C.Cipher.E c | Second c ↦ D.Cipher.E c ] };

    ghost widths = { elim [ First c ↦ C.Cipher.widths c | Second c ↦ D.Cipher.widths c ] };

    ghost blocks = { elim [ First c ↦ λ X h. C.Cipher.blocks c X h | Second c ↦ λ X h. D.Cipher.blocks c X h ] };

    fn width(&self) -> usize {
        match self {
            Either::First(c) => c.width(),
            Either::Second(c) => c.width(),
        }
    }

    fn run(&mut self, block: &mut [u8]) -> Result<(), CipherFault> {
        match self {
            Either::First(c) => c.run(block),
            Either::Second(c) => c.run(block),
        }
    }
}

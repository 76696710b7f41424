// One of two modes is a mode.
ghost use Rattle.std.specs.Prelude.{◌≡◌};
ghost use Rattle.any.specs.declared.either.Either.TheVariants.{First, Second};
ghost use Rattle.std.proofs.Common.{rules};

pub use crate::either::Either;
use mode::count::RunCount;
use mode::fault::ModeFault;
use mode::interface::Mode;
use mode::set::ParameterSet;

impl<M: Mode, N: Mode> Mode for Either<M, N> {
    ghost meaning = { λ e. elim e [ First m ↦ M.Mode.meaning m | Second m ↦ N.Mode.meaning m ] };

    ghost lawful = { Prim.search rules };

    fn code(&self) -> u8 {
        match self {
            Either::First(m) => m.code(),
            Either::Second(m) => m.code(),
        }
    }

    fn width(&self) -> u8 {
        match self {
            Either::First(m) => m.width(),
            Either::Second(m) => m.width(),
        }
    }

    fn count(&self, which: RunCount, label: usize, contents: usize) -> Result<u64, ModeFault> {
        match self {
            Either::First(m) => m.count(which, label, contents),
            Either::Second(m) => m.count(which, label, contents),
        }
    }

    fn seal(
        &mut self,
        set: &ParameterSet,
        nonce: &[u8],
        label: &[u8],
        contents: &[u8],
        out: &mut [u8],
        tag: &mut [u8],
        work: &mut [u8],
    ) -> Result<u64, ModeFault> {
        match self {
            Either::First(m) => m.seal(set, nonce, label, contents, out, tag, work),
            Either::Second(m) => m.seal(set, nonce, label, contents, out, tag, work),
        }
    }

    fn open(
        &mut self,
        set: &ParameterSet,
        nonce: &[u8],
        label: &[u8],
        ciphertext: &[u8],
        tag: &[u8],
        out: &mut [u8],
        work: &mut [u8],
    ) -> Result<u64, ModeFault> {
        match self {
            Either::First(m) => m.open(set, nonce, label, ciphertext, tag, out, work),
            Either::Second(m) => m.open(set, nonce, label, ciphertext, tag, out, work),
        }
    }
}

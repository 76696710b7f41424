// A meter: a quota of runs over any cipher, itself a cipher, so that meters can be piled.
ghost use Rattle.std.specs.Prelude.{◌≡◌, ℕ, ◌^◌, ◌<◌, min, ◌⊎◌};
ghost use Rattle.cipher.specs.Run.{answer, block_after, left_after, quota_after};
ghost use Rattle.std.proofs.Common.{rules};

use crate::fault::CipherFault;
use crate::interface::{Allowance, Cipher};

// The cipher below, and how many runs the meter still grants. 2^64 - 1 means no end.
#[derive(Drop)]
pub struct Meter<C> {
    below: C,
    quota: u64,
    ghost bounded: { quota < 2 ^ 64 },
}

impl<C: Cipher> Meter<C> {
    pub fn new(below: C, quota: u64) -> Self
        ensures { (result.below ≡ below) × (result.quota ≡ quota) }
    {
        Meter { below, quota }
    }

    // The meter's own quota, which may be more than what is left below.
    pub fn quota(&self) -> u64
        ensures { result ≡ self.now.quota }
    {
        let Meter { below: _, quota } = self;
        *quota
    }

    // Takes the meter off the cipher.
    pub fn into_below(self) -> C
        ensures { result ≡ self.below }
    {
        let Meter { below, quota: _ } = self;
        below
    }

    // One run of the cipher below, at the price of one of the quota.
    pub fn run_metered(&mut self, block: &mut [u8]) -> Result<(), CipherFault>
        ensures answers { result ≡ answer (C.Cipher.width self.old.below) (min self.old.quota (C.Allowance.remaining self.old.below)) block.old }
        ensures block { block.new ≡ block_after (C.Cipher.width self.old.below) (C.Cipher.E self.old.below) (min self.old.quota (C.Allowance.remaining self.old.below)) block.old }
        ensures quota { self.new.quota ≡ quota_after (C.Cipher.width self.old.below) (min self.old.quota (C.Allowance.remaining self.old.below)) self.old.quota block.old }
        ensures below { C.Allowance.remaining self.new.below ≡ quota_after (C.Cipher.width self.old.below) (min self.old.quota (C.Allowance.remaining self.old.below)) (C.Allowance.remaining self.old.below) block.old }
        ensures same { (C.Cipher.width self.new.below ≡ C.Cipher.width self.old.below) × (C.Cipher.E self.new.below ≡ C.Cipher.E self.old.below) }
    {
        if block.len() != self.below.width() {
            return Err(CipherFault::BlockLength(block.len()));
        }
        if self.quota == 0 {
            return Err(CipherFault::Spent);
        }
        self.below.run(block)?;
        if self.quota != u64::MAX {
            self.quota -= 1;
        }
        Ok(())
    }
}

impl<C: Cipher> Allowance for Meter<C> {
    ghost remaining = { λ m. min m.quota (C.Allowance.remaining m.below) };

    ghost bounded = { Prim.search rules };

    fn left(&self) -> u64 {
        self.quota.min(self.below.left())
    }
}

impl<C: Cipher> Cipher for Meter<C> {
    ghost width = { λ m. C.Cipher.width m.below };

    ghost E = { λ m. C.Cipher.E m.below };

    ghost widths = { Prim.search rules };

    ghost blocks = { Prim.search rules };

    fn width(&self) -> usize {
        self.below.width()
    }

    fn run(&mut self, block: &mut [u8]) -> Result<(), CipherFault> {
        self.run_metered(block)
    }
}

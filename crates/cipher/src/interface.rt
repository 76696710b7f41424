// What every cipher is, and what is left of its allowance.
ghost use Rattle.std.specs.Prelude.{◌≡◌, ℕ, ◌^◌, ◌<◌, ◌⊎◌, List, length};
ghost use Rattle.cipher.specs.Run.{answer, block_after, left_after};

use crate::fault::CipherFault;

// An allowance (usage limit): how many cipher runs are left. 2^64 - 1 means no end. Asking changes nothing.
pub trait Allowance {
    ghost remaining: { Self → ℕ };

    fn left(&self) -> u64
        ensures { result ≡ remaining self.now };

    ghost bounded: { (x : Self) → remaining x < 2 ^ 64 };
}

// A block cipher under a key: its width in bytes, and the function E on blocks of that width. E is a function of the key alone:
// of which, the `new` and `set_key` of `Keyed` say.
pub trait Cipher: Allowance {
    ghost width: { Self → ℕ };

    ghost E: { Self → List ℕ → List ℕ };

    fn width(&self) -> usize
        ensures { result ≡ width self.now };

    // One run: the block becomes E of itself, and left falls by one unless it has no end.
    fn run(&mut self, block: &mut [u8]) -> Result<(), CipherFault>
        ensures answers { result ≡ answer (width self.old) (Self.Allowance.remaining self.old) block.old }
        ensures block { block.new ≡ block_after (width self.old) (E self.old) (Self.Allowance.remaining self.old) block.old }
        ensures left { Self.Allowance.remaining self.new ≡ left_after (width self.old) (Self.Allowance.remaining self.old) block.old }
        ensures same { (width self.new ≡ width self.old) × (E self.new ≡ E self.old) };

    ghost widths: { (c : Self) → (width c ≡ 8) ⊎ (width c ≡ 16) };

    ghost blocks: { (c : Self) (X : List ℕ) → length X ≡ width c → length (E c X) ≡ width c };
}

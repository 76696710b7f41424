// A block cipher under a key, over what the key expands to. It is one frame for every cipher: a cipher gives its schedule.
ghost use Rattle.std.specs.Prelude.{◌≡◌, ℕ, List, length, ◌⊎◌, replicate};
ghost use Rattle.std.proofs.Common.{rules};
ghost use Rattle.cipher.specs.Key.{key_answer, key_after};
ghost use Rattle.cipher.specs.Left.{no_end};

use crate::fault::CipherFault;
use crate::interface::{Allowance, Cipher};

// What a key of K bytes expands to (key schedule), with a run of the cipher under it on a block of B bytes.
pub trait Schedule<const K: usize, const B: usize> {
    // the key that it was expanded of
    ghost key: { Self → List ℕ };

    // E: of a key, the function on blocks
    ghost E: { List ℕ → List ℕ → List ℕ };

    fn expand(bytes: &[u8; K]) -> Self
        ensures { key result ≡ bytes.now };

    fn encrypt(&self, block: &[u8; B]) -> [u8; B]
        ensures { result ≡ E (key self.now) block.now };

    ghost keys: { (K ≡ 10) ⊎ (K ≡ 16) };

    ghost widths: { (B ≡ 8) ⊎ (B ≡ 16) };

    ghost blocks: { (k : List ℕ) (X : List ℕ) → length X ≡ B → length (E k X) ≡ B };
}

// The cipher of a schedule. A cipher by itself has no end to its allowance: a meter over it sets one.
#[derive(Drop)]
pub struct Keyed<S, const K: usize, const B: usize> {
    schedule: S,
}

impl<S: Schedule<K, B> + Drop, const K: usize, const B: usize> Keyed<S, K, B> {
    // The cipher under the key of zero bytes, until another is set.
    pub fn new() -> Self
        ensures key { S.key result.schedule ≡ replicate K 0 }
        ensures encrypts { ⟦<Keyed<S, K, B> as Cipher>⟧.E result ≡ S.E (replicate K 0) }
    {
        Keyed {
            schedule: S::expand(&[0; K]),
        }
    }

    // Sets a key of K bytes. One of another length is refused, and the key set before stays.
    pub fn set_key(&mut self, key: &[u8]) -> Result<(), CipherFault>
        ensures answers { result ≡ key_answer K key.now }
        ensures key { S.key self.new.schedule ≡ key_after K (S.key self.old.schedule) key.now }
        ensures encrypts { ⟦<Keyed<S, K, B> as Cipher>⟧.E self.new ≡ S.E (key_after K (S.key self.old.schedule) key.now) }
    {
        if key.len() != K {
            return Err(CipherFault::KeyLength(key.len()));
        }
        let mut own = [0; K];
        own.copy_from_slice(key);
        self.schedule = S::expand(&own);
        Ok(())
    }
}

impl<S: Schedule<K, B>, const K: usize, const B: usize> Allowance for Keyed<S, K, B> {
    ghost remaining = { λ _. no_end };

    ghost bounded = { Prim.search rules };

    fn left(&self) -> u64 {
        u64::MAX
    }
}

impl<S: Schedule<K, B>, const K: usize, const B: usize> Cipher for Keyed<S, K, B> {
    ghost width = { λ _. B };

    ghost E = { λ c. S.E (S.key c.schedule) };

    ghost widths = { λ c. S.widths };

    ghost blocks = { λ c X h. S.blocks (S.key c.schedule) X h };

    fn width(&self) -> usize {
        B
    }

    fn run(&mut self, block: &mut [u8]) -> Result<(), CipherFault> {
        if block.len() != B {
            return Err(CipherFault::BlockLength(block.len()));
        }
        let mut own = [0; B];
        own.copy_from_slice(block);
        block.copy_from_slice(&self.schedule.encrypt(&own));
        Ok(())
    }
}

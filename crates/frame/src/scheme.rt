// What CLOC and SILC differ in. It is not for a caller of the library: a mode checks the lengths and the allowance once at its start, and
// what is required here those checks have shown.
ghost use Rattle.std.specs.Prelude.{◌≡◌, ℕ, ◌<◌, ◌≤◌, ◌⊎◌, List, length, Ok};
ghost use Rattle.blocks.specs.Blocks.{msb};
ghost use Rattle.blocks.specs.Ran.{Runs};
ghost use Rattle.frame.specs.Framed.{framed};
ghost use Rattle.frame.specs.Sound.{RunCounts};
ghost use Rattle.mode.specs.Meaning.{Meaning};

use cipher::fault::CipherFault;
use cipher::interface::{Allowance, Cipher};

// A scheme is a HASH, by param, nonce and label, and a PRF, by the tag's length, V and the ciphertext, over a cipher of this width and
// function E. The four ghost members after these two say how many runs they make, and how many a full call and one with a wrong tag.
pub trait Scheme {
    ghost code: { ℕ };

    ghost HASH: { ℕ → (List ℕ → List ℕ) → ℕ → List ℕ → List ℕ → List ℕ };

    ghost PRF: { ℕ → (List ℕ → List ℕ) → ℕ → List ℕ → List ℕ → List ℕ };

    ghost hash_runs: { ℕ → ℕ → ℕ };

    ghost tag_runs: { ℕ → ℕ → ℕ };

    ghost full_runs: { ℕ → ℕ → ℕ → ℕ };

    ghost wrong_tag_runs: { ℕ → ℕ → ℕ → ℕ };

    // the mode as its document defines it
    ghost mode: { ℕ → (List ℕ → List ℕ) → Meaning };

    fn code() -> u8
        ensures { result ≡ code };

    // The runs of sealing, and of an opening that is accepted.
    fn full_count(width: usize, label: usize, contents: usize) -> u64
        requires width { (0 < width) × (width ≤ 16) }
        requires label { label ≤ 4096 }
        requires contents { contents ≤ 1048576 }
        ensures { result ≡ full_runs width label contents };

    // The runs of an opening whose tag is wrong: nothing is decrypted.
    fn wrong_tag_count(width: usize, label: usize, contents: usize) -> u64
        requires width { (0 < width) × (width ≤ 16) }
        requires label { label ≤ 4096 }
        requires contents { contents ≤ 1048576 }
        ensures { result ≡ wrong_tag_runs width label contents };

    // Writes V = HASH(N, A) into the state.
    fn hash<C: Cipher>(
        cipher: &mut C,
        state: &mut [u8],
        param: u8,
        nonce: &[u8],
        label: &[u8],
    ) -> Result<(), CipherFault>
        requires width { length state.old ≡ C.Cipher.width cipher.old }
        requires nonce { length nonce.now < C.Cipher.width cipher.old }
        requires left { hash_runs (C.Cipher.width cipher.old) (length label.now) ≤ C.Allowance.remaining cipher.old }
        ensures answers { result ≡ Ok tt }
        ensures state { state.new ≡ HASH (C.Cipher.width cipher.old) (C.Cipher.E cipher.old) param nonce.now label.now }
        ensures ran { Runs C.Cipher cipher.old cipher.new (hash_runs (C.Cipher.width cipher.old) (length label.now)) };

    // Turns V into the block of which PRF(V, C) is the front, for every length of the tag.
    fn tag<C: Cipher>(cipher: &mut C, state: &mut [u8], text: &[u8]) -> Result<(), CipherFault>
        requires width { length state.old ≡ C.Cipher.width cipher.old }
        requires left { tag_runs (C.Cipher.width cipher.old) (length text.now) ≤ C.Allowance.remaining cipher.old }
        ensures answers { result ≡ Ok tt }
        ensures state { (t : ℕ) → msb t state.new ≡ PRF (C.Cipher.width cipher.old) (C.Cipher.E cipher.old) t state.old text.now }
        ensures ran { Runs C.Cipher cipher.old cipher.new (tag_runs (C.Cipher.width cipher.old) (length text.now)) };

    // What the frame makes of HASH and PRF is that mode.
    ghost means: { (b : ℕ) (E : List ℕ → List ℕ) → framed b E (PRF b E) code (HASH b E) (full_runs b) (wrong_tag_runs b) ≡ mode b E };

    ghost runs: { (b : ℕ) → RunCounts b (hash_runs b) (tag_runs b) (full_runs b) (wrong_tag_runs b) };

    ghost tags: { (b : ℕ) (E : List ℕ → List ℕ) → (b ≡ 8) ⊎ (b ≡ 16) → ((X : List ℕ) → length X ≡ b → length (E X) ≡ b) → (t param : ℕ) (N A C : List ℕ) → t ≤ b → length N < b → length (PRF b E t (HASH b E param N A) C) ≡ t };
}

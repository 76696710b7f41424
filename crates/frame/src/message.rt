// Sealing and opening of one message from V = HASH(N, A) on, which stands in the state, with a second block of work memory.
ghost use Rattle.std.specs.Prelude.{◌≡◌, ◌+◌, ◌≤◌, length, cond, Ok};
ghost use Rattle.std.specs.Str.{bytes_eq};
ghost use Rattle.blocks.specs.Blocks.{parts};
ghost use Rattle.blocks.specs.Chain.{enc, dec};
ghost use Rattle.blocks.specs.Ran.{Runs};

use crate::scheme::Scheme;
use blocks::steps::{decrypt, encrypt};
use blocks::tag::{copy_msb, same_bytes};
use cipher::fault::CipherFault;
use cipher::interface::{Allowance, Cipher};

// C ← ENC(V, M), T ← PRF(V, C).
// Kept: the parts that are lent stand one by one, here and below, for one call each.
pub(crate) fn seal_message<S: Scheme, C: Cipher>(
    cipher: &mut C,
    contents: &[u8],
    out: &mut [u8],
    tag: &mut [u8],
    state: &mut [u8],
    base: &mut [u8],
) -> Result<(), CipherFault>
    requires state { length state.old ≡ C.Cipher.width cipher.old }
    requires base { length base.old ≡ C.Cipher.width cipher.old }
    requires out { length out.old ≡ length contents.now }
    requires tag { length tag.old ≤ C.Cipher.width cipher.old }
    requires left { parts (C.Cipher.width cipher.old) (length contents.now) + S.tag_runs (C.Cipher.width cipher.old) (length contents.now) ≤ C.Allowance.remaining cipher.old }
    ensures answers { result ≡ Ok tt }
    ensures out { out.new ≡ enc (C.Cipher.width cipher.old) (C.Cipher.E cipher.old) state.old contents.now }
    ensures tag { tag.new ≡ S.PRF (C.Cipher.width cipher.old) (C.Cipher.E cipher.old) (length tag.old) state.old (enc (C.Cipher.width cipher.old) (C.Cipher.E cipher.old) state.old contents.now) }
    ensures ran { Runs C.Cipher cipher.old cipher.new (parts (C.Cipher.width cipher.old) (length contents.now) + S.tag_runs (C.Cipher.width cipher.old) (length contents.now)) }
{
    base.copy_from_slice(state);
    encrypt(cipher, base, contents, out)?;
    S::tag(cipher, state, out)?;
    copy_msb(tag, state);
    Ok(())
}

// T* ← PRF(V, C), and only where T* is T, M ← DEC(V, C). Answers whether it is.
pub(crate) fn open_message<S: Scheme, C: Cipher>(
    cipher: &mut C,
    ciphertext: &[u8],
    tag: &[u8],
    out: &mut [u8],
    state: &mut [u8],
    base: &mut [u8],
) -> Result<bool, CipherFault>
    requires state { length state.old ≡ C.Cipher.width cipher.old }
    requires base { length base.old ≡ C.Cipher.width cipher.old }
    requires out { length out.old ≡ length ciphertext.now }
    requires tag { length tag.now ≤ C.Cipher.width cipher.old }
    requires left { S.tag_runs (C.Cipher.width cipher.old) (length ciphertext.now) + parts (C.Cipher.width cipher.old) (length ciphertext.now) ≤ C.Allowance.remaining cipher.old }
    ensures answers { result ≡ Ok (bytes_eq tag.now (S.PRF (C.Cipher.width cipher.old) (C.Cipher.E cipher.old) (length tag.now) state.old ciphertext.now)) }
    ensures out { out.new ≡ cond (bytes_eq tag.now (S.PRF (C.Cipher.width cipher.old) (C.Cipher.E cipher.old) (length tag.now) state.old ciphertext.now)) (dec (C.Cipher.width cipher.old) (C.Cipher.E cipher.old) state.old ciphertext.now) out.old }
    ensures ran { Runs C.Cipher cipher.old cipher.new (S.tag_runs (C.Cipher.width cipher.old) (length ciphertext.now) + cond (bytes_eq tag.now (S.PRF (C.Cipher.width cipher.old) (C.Cipher.E cipher.old) (length tag.now) state.old ciphertext.now)) (parts (C.Cipher.width cipher.old) (length ciphertext.now)) 0) }
{
    base.copy_from_slice(state);
    S::tag(cipher, state, ciphertext)?;
    let (expected, _) = state.split_at(tag.len());
    let same = same_bytes(tag, expected);
    if same {
        decrypt(cipher, base, ciphertext, out)?;
    }
    Ok(same)
}

// Chains of cipher runs over the blocks of a text. What runs the cipher hands its fault on; under what the steps require there is none.
ghost use Rattle.std.specs.Prelude.{◌≡◌, ◌+◌, ◌-◌, ◌^◌, ◌<◌, ◌≤◌, length, Ok};
ghost use Rattle.blocks.specs.Blocks.{◌⊕◌, parts, blocks, front, last};
ghost use Rattle.blocks.specs.Pads.{zap};
ghost use Rattle.blocks.specs.Chain.{chain, enc, dec, crypted};
ghost use Rattle.blocks.specs.Ran.{Runs};
ghost use Rattle.blocks.specs.Laws.{Invertible};

use crate::padding::xor_into;
use crate::words::crypt_block;
use cipher::fault::CipherFault;
use cipher::interface::{Allowance, Cipher};

// How many blocks of b bytes n bytes have.
pub fn count_blocks(b: usize, n: usize) -> usize
    requires width { 0 < b }
    requires fits { n + b < 2 ^ 64 }
    ensures { result ≡ parts b n }
{
    n.div_ceil(b)
}

// E of the block.
// Kept: cipher and state side by side, here and in each step: a struct of the two `&mut` is proved too, but then the contract of each method
// wants a clause on the names of both loans.
pub fn run_one<C: Cipher>(cipher: &mut C, block: &mut [u8]) -> Result<(), CipherFault>
    requires width { length block.old ≡ C.Cipher.width cipher.old }
    requires left { 0 < C.Allowance.remaining cipher.old }
    ensures answers { result ≡ Ok tt }
    ensures block { block.new ≡ C.Cipher.E cipher.old block.old }
    ensures ran { Runs C.Cipher cipher.old cipher.new 1 }
{
    cipher.run(block)
}

// Chains all blocks of the text but the last into the state, and answers how many bytes the last has.
pub fn absorb_front<C: Cipher>(
    cipher: &mut C,
    state: &mut [u8],
    text: &[u8],
) -> Result<usize, CipherFault>
    requires width { length state.old ≡ C.Cipher.width cipher.old }
    requires left { parts (C.Cipher.width cipher.old) (length text.now) - 1 ≤ C.Allowance.remaining cipher.old }
    ensures answers { result ≡ Ok (length (last (blocks (C.Cipher.width cipher.old) text.now))) }
    ensures state { state.new ≡ chain (C.Cipher.E cipher.old) state.old (front (blocks (C.Cipher.width cipher.old) text.now)) }
    ensures ran { Runs C.Cipher cipher.old cipher.new (parts (C.Cipher.width cipher.old) (length text.now) - 1) }
{
    let b = state.len();
    let mut rest = text;
    // Kept: a `for` over `text.chunks(b)` would take in the last block too, unless its place were worked out beforehand.
    while rest.len() > b {
        let (block, others) = rest.split_at(b);
        xor_into(state, block);
        run_one(cipher, state)?;
        rest = others;
    }
    Ok(rest.len())
}

// Chains all blocks of the text into the state, the last with zeros behind it.
pub fn absorb<C: Cipher>(cipher: &mut C, state: &mut [u8], text: &[u8]) -> Result<(), CipherFault>
    requires width { length state.old ≡ C.Cipher.width cipher.old }
    requires left { parts (C.Cipher.width cipher.old) (length text.now) ≤ C.Allowance.remaining cipher.old }
    ensures answers { result ≡ Ok tt }
    ensures state { state.new ≡ chain (C.Cipher.E cipher.old) state.old (blocks (C.Cipher.width cipher.old) text.now) }
    ensures zap { 0 < length text.now → state.new ≡ C.Cipher.E cipher.old (chain (C.Cipher.E cipher.old) state.old (front (blocks (C.Cipher.width cipher.old) text.now)) ⊕ zap (C.Cipher.width cipher.old) (last (blocks (C.Cipher.width cipher.old) text.now))) }
    ensures ran { Runs C.Cipher cipher.old cipher.new (parts (C.Cipher.width cipher.old) (length text.now)) }
{
    if text.len() == 0 {
        return Ok(());
    }
    let n = absorb_front(cipher, state, text)?;
    let (_, last) = text.split_at(text.len() - n);
    xor_into(state, last);
    run_one(cipher, state)
}

// Encrypts or decrypts at most one block, the last: X ⊕ E(V).
fn crypt_last<C: Cipher>(
    cipher: &mut C,
    state: &mut [u8],
    text: &[u8],
    out: &mut [u8],
) -> Result<(), CipherFault>
    requires width { length state.old ≡ C.Cipher.width cipher.old }
    requires text { length text.now ≤ C.Cipher.width cipher.old }
    requires left { parts (C.Cipher.width cipher.old) (length text.now) ≤ C.Allowance.remaining cipher.old }
    requires out { length out.old ≡ length text.now }
    ensures answers { result ≡ Ok tt }
    ensures out { out.new ≡ text.now ⊕ C.Cipher.E cipher.old state.old }
    ensures ran { Runs C.Cipher cipher.old cipher.new (parts (C.Cipher.width cipher.old) (length text.now)) }
{
    if text.len() == 0 {
        return Ok(());
    }
    run_one(cipher, state)?;
    xor_into(state, text);
    let (first, _) = state.split_at(text.len());
    out.copy_from_slice(first);
    Ok(())
}

// ENC(V, M) where it encrypts and DEC(V, C) where it decrypts, written into `out`.
fn crypt<C: Cipher, const DECRYPTS: bool>(
    cipher: &mut C,
    state: &mut [u8],
    text: &[u8],
    out: &mut [u8],
) -> Result<(), CipherFault>
    requires width { length state.old ≡ C.Cipher.width cipher.old }
    requires left { parts (C.Cipher.width cipher.old) (length text.now) ≤ C.Allowance.remaining cipher.old }
    requires out { length out.old ≡ length text.now }
    ensures answers { result ≡ Ok tt }
    ensures out { out.new ≡ crypted (C.Cipher.width cipher.old) (C.Cipher.E cipher.old) DECRYPTS state.old text.now }
    ensures ran { Runs C.Cipher cipher.old cipher.new (parts (C.Cipher.width cipher.old) (length text.now)) }
{
    let b = state.len();
    let mut rest = text;
    // Kept: after a loop over `out.chunks_exact_mut(b)` the proof knows of `out` its length alone, so its place is counted.
    let mut done = 0;
    while rest.len() >= b {
        let (block, others) = rest.split_at(b);
        run_one(cipher, state)?;
        crypt_block::<DECRYPTS>(state, block, &mut out[done..done + b]);
        done += b;
        rest = others;
    }
    crypt_last(cipher, state, rest, &mut out[done..])
}

// Writes ENC(V, M) into `out`. The state is V at first and of no use afterwards.
pub fn encrypt<C: Cipher>(
    cipher: &mut C,
    state: &mut [u8],
    text: &[u8],
    out: &mut [u8],
) -> Result<(), CipherFault>
    requires width { length state.old ≡ C.Cipher.width cipher.old }
    requires left { parts (C.Cipher.width cipher.old) (length text.now) ≤ C.Allowance.remaining cipher.old }
    requires out { length out.old ≡ length text.now }
    ensures answers { result ≡ Ok tt }
    ensures out { out.new ≡ enc (C.Cipher.width cipher.old) (C.Cipher.E cipher.old) state.old text.now }
    ensures undone { dec (C.Cipher.width cipher.old) (C.Cipher.E cipher.old) state.old out.new ≡ text.now }
    ensures ran { Runs C.Cipher cipher.old cipher.new (parts (C.Cipher.width cipher.old) (length text.now)) }
    ensures law { Invertible (C.Cipher.width cipher.old) (C.Cipher.E cipher.old) }
{
    crypt::<C, false>(cipher, state, text, out)
}

// Writes DEC(V, C) into `out`. The state is V at first and of no use afterwards.
pub fn decrypt<C: Cipher>(
    cipher: &mut C,
    state: &mut [u8],
    text: &[u8],
    out: &mut [u8],
) -> Result<(), CipherFault>
    requires width { length state.old ≡ C.Cipher.width cipher.old }
    requires left { parts (C.Cipher.width cipher.old) (length text.now) ≤ C.Allowance.remaining cipher.old }
    requires out { length out.old ≡ length text.now }
    ensures answers { result ≡ Ok tt }
    ensures out { out.new ≡ dec (C.Cipher.width cipher.old) (C.Cipher.E cipher.old) state.old text.now }
    ensures undone { enc (C.Cipher.width cipher.old) (C.Cipher.E cipher.old) state.old out.new ≡ text.now }
    ensures ran { Runs C.Cipher cipher.old cipher.new (parts (C.Cipher.width cipher.old) (length text.now)) }
    ensures law { Invertible (C.Cipher.width cipher.old) (C.Cipher.E cipher.old) }
{
    crypt::<C, true>(cipher, state, text, out)
}

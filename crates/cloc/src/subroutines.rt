// The steps of HASH and PRF. What runs the cipher hands its fault on; under what is required here there is none.
ghost use Rattle.std.specs.Prelude.{◌≡◌, ◌-◌, ◌<◌, ◌≤◌, ◌∷◌, length, if◌then◌else◌, Ok};
ghost use Rattle.blocks.specs.Blocks.{◌⊕◌, parts, blocks, front, last};
ghost use Rattle.blocks.specs.Chain.{chain};
ghost use Rattle.blocks.specs.Pads.{ozp};
ghost use Rattle.blocks.specs.Ran.{Runs};
ghost use Rattle.blocks.specs.Words.{IsBlock, f1, f2, h};
ghost use Rattle.cloc.specs.Cloc.{is_full, SH1};

use blocks::padding::{fix_zero, write_ozp, xor_nonce, xor_ozp};
use blocks::steps::{absorb_front, run_one};
use blocks::tweaks::{apply_f1, apply_f2, apply_h};
use cipher::fault::CipherFault;
use cipher::interface::{Allowance, Cipher};

// f1 after a full last block, f2 after a shorter one.
pub(crate) fn finish(block: &mut [u8], full: bool)
    requires { IsBlock block.old }
    ensures { block.new ≡ (if full then f1 block.old else f2 block.old) }
{
    if full {
        apply_f1(block);
    } else {
        apply_f2(block);
    }
}

// Takes the nonce into S_H[a], and finishes V.
pub(crate) fn bind_nonce(block: &mut [u8], param: u8, nonce: &[u8], full: bool)
    requires nonce { length nonce.now < length block.old }
    requires width { IsBlock block.old }
    ensures { block.new ≡ (if full then f1 (block.old ⊕ ozp (length block.old) (param ∷ nonce.now)) else f2 (block.old ⊕ ozp (length block.old) (param ∷ nonce.now))) }
{
    xor_nonce(block, param, nonce);
    finish(block, full);
}

// h where the first bit of the label was 1.
fn apply_h_if(block: &mut [u8], one: bool)
    requires { IsBlock block.old }
    ensures { block.new ≡ (if one then h block.old else block.old) }
{
    if one {
        apply_h(block);
    }
}

// S_H[1] of the label's first block.
pub(crate) fn start<C: Cipher>(
    cipher: &mut C,
    state: &mut [u8],
    first: &[u8],
) -> Result<(), CipherFault>
    requires width { length state.old ≡ C.Cipher.width cipher.old }
    requires first { length first.now ≤ length state.old }
    requires left { 0 < C.Allowance.remaining cipher.old }
    ensures answers { result ≡ Ok tt }
    ensures state { state.new ≡ SH1 (C.Cipher.width cipher.old) (C.Cipher.E cipher.old) first.now }
    ensures ran { Runs C.Cipher cipher.old cipher.new 1 }
{
    write_ozp(state, first);
    let one = fix_zero(state);
    run_one(cipher, state)?;
    apply_h_if(state, one);
    Ok(())
}

// Chains all blocks of the text but the last, takes in ozp of the last, and answers whether that is full.
pub(crate) fn absorb_ozp<C: Cipher>(
    cipher: &mut C,
    state: &mut [u8],
    text: &[u8],
) -> Result<bool, CipherFault>
    requires width { length state.old ≡ C.Cipher.width cipher.old }
    requires left { parts (C.Cipher.width cipher.old) (length text.now) - 1 ≤ C.Allowance.remaining cipher.old }
    ensures answers { result ≡ Ok (is_full (C.Cipher.width cipher.old) (last (blocks (C.Cipher.width cipher.old) text.now))) }
    ensures state { state.new ≡ chain (C.Cipher.E cipher.old) state.old (front (blocks (C.Cipher.width cipher.old) text.now)) ⊕ ozp (C.Cipher.width cipher.old) (last (blocks (C.Cipher.width cipher.old) text.now)) }
    ensures ran { Runs C.Cipher cipher.old cipher.new (parts (C.Cipher.width cipher.old) (length text.now) - 1) }
{
    let n = absorb_front(cipher, state, text)?;
    let (_, last) = text.split_at(text.len() - n);
    xor_ozp(state, last);
    Ok(n == state.len())
}

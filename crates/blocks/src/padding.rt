// Exclusive or, padding and fixed bits: steps on one block without the cipher.
ghost use Rattle.std.specs.Prelude.{◌≡◌, ◌<◌, ◌≤◌, ◌∷◌, length};
ghost use Rattle.blocks.specs.Blocks.{◌⊕◌, msb1};
ghost use Rattle.blocks.specs.Pads.{ozp, zpp, Len, fix0};

use crate::words::xor_words;

// block ⊕ X. Zeros behind X change nothing, so this is block ⊕ zap(X) too.
pub fn xor_into(block: &mut [u8], x: &[u8])
    ensures { block.new ≡ block.old ⊕ x.now }
{
    if block.len() == 16 && x.len() == 16 {
        xor_words(block, x);
        return;
    }
    // Kept: after a loop over `block.iter_mut().zip(x)` the proof knows of the block its length alone.
    let n = block.len().min(x.len());
    for i in 0..n {
        block[i] ^= x[i];
    }
}

// block ⊕ ozp(X).
pub fn xor_ozp(block: &mut [u8], x: &[u8])
    ensures { block.new ≡ block.old ⊕ ozp (length block.old) x.now }
{
    xor_into(block, x);
    if x.len() < block.len() {
        block[x.len()] ^= 0x80;
    }
}

// ozp(X).
pub fn write_ozp(block: &mut [u8], x: &[u8])
    requires { length x.now ≤ length block.old }
    ensures { block.new ≡ ozp (length block.old) x.now }
{
    block.fill(0);
    xor_ozp(block, x);
}

// block ⊕ ozp(param ‖ N), as CLOC takes the nonce in.
pub fn xor_nonce(block: &mut [u8], param: u8, nonce: &[u8])
    requires { length nonce.now < length block.old }
    ensures { block.new ≡ block.old ⊕ ozp (length block.old) (param ∷ nonce.now) }
{
    block[0] ^= param;
    xor_ozp(&mut block[1..], nonce);
}

// zpp(param ‖ N), as SILC takes the nonce in.
pub fn write_nonce(block: &mut [u8], param: u8, nonce: &[u8])
    requires { length nonce.now < length block.old }
    ensures { block.new ≡ zpp (length block.old) (param ∷ nonce.now) }
{
    block.fill(0);
    let at = block.len() - nonce.len();
    block[at - 1] = param;
    block[at..].copy_from_slice(nonce);
}

// block ⊕ Len(X).
pub fn xor_length(block: &mut [u8], x: &[u8])
    ensures { block.new ≡ block.old ⊕ Len (length block.old) x.now }
{
    let number = x.len().to_be_bytes();
    let n = block.len().min(8);
    let at = block.len() - n;
    xor_into(&mut block[at..], &number[8 - n..]);
}

// fix0 of the block, and whether the first bit was 1.
pub fn fix_zero(block: &mut [u8]) -> bool
    ensures first { result ≡ msb1 block.old }
    ensures block { block.new ≡ fix0 block.old }
{
    if block.len() == 0 {
        return false;
    }
    let first = block[0] >= 0x80;
    block[0] &= 0x7f;
    first
}

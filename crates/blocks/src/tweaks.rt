// The tweak functions of CLOC and SILC.
ghost use Rattle.std.specs.Prelude.{◌≡◌};
ghost use Rattle.blocks.specs.Words.{IsBlock, f1, f2, g1, h, g, power};

use crate::words::{load_words, store_words};

// f1 of the block: eight times f2, written on the words at once.
pub fn apply_f1(block: &mut [u8])
    requires { IsBlock block.old }
    ensures block { block.new ≡ f1 block.old }
    ensures power { block.new ≡ power 8 f2 block.old }
{
    let [w1, w2, w3, w4] = load_words(block);
    store_words(block, [w1 ^ w3, w2 ^ w4, w1 ^ w2 ^ w3, w2 ^ w3 ^ w4]);
}

// f2 of the block, which is g2 too.
pub fn apply_f2(block: &mut [u8])
    requires { IsBlock block.old }
    ensures { block.new ≡ f2 block.old }
{
    let [w1, w2, w3, w4] = load_words(block);
    store_words(block, [w2, w3, w4, w1 ^ w2]);
}

// g1 of the block: twice f2.
pub fn apply_g1(block: &mut [u8])
    requires { IsBlock block.old }
    ensures block { block.new ≡ g1 block.old }
    ensures power { block.new ≡ power 2 f2 block.old }
{
    let [w1, w2, w3, w4] = load_words(block);
    store_words(block, [w3, w4, w1 ^ w2, w2 ^ w3]);
}

// h of the block: four times f2.
pub fn apply_h(block: &mut [u8])
    requires { IsBlock block.old }
    ensures block { block.new ≡ h block.old }
    ensures power { block.new ≡ power 4 f2 block.old }
{
    let [w1, w2, w3, w4] = load_words(block);
    store_words(block, [w1 ^ w2, w2 ^ w3, w3 ^ w4, w1 ^ w2 ^ w4]);
}

// g of the block.
pub fn apply_g(block: &mut [u8])
    ensures { block.new ≡ g block.old }
{
    let n = block.len();
    if n >= 2 {
        block.rotate_left(1);
        block[n - 1] ^= block[0];
    }
}

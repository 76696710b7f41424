// What HASH and PRF have in common. What runs the cipher hands its fault on; under what is required here there is none.
ghost use Rattle.std.specs.Prelude.{◌≡◌, ◌+◌, ◌≤◌, length, Ok};
ghost use Rattle.blocks.specs.Blocks.{◌⊕◌, parts};
ghost use Rattle.blocks.specs.Pads.{Len};
ghost use Rattle.blocks.specs.Words.{g as tweaked};
ghost use Rattle.blocks.specs.Ran.{Runs};
ghost use Rattle.silc.specs.Silc.{chained};

use blocks::padding::xor_length;
use blocks::steps::{absorb, run_one};
use blocks::tweaks::apply_g;
use cipher::fault::CipherFault;
use cipher::interface::{Allowance, Cipher};

// A run on the state, all blocks of X and its length, and g.
pub(crate) fn chain_text<C: Cipher>(
    cipher: &mut C,
    state: &mut [u8],
    text: &[u8],
) -> Result<(), CipherFault>
    requires width { length state.old ≡ C.Cipher.width cipher.old }
    requires left { 1 + parts (C.Cipher.width cipher.old) (length text.now) ≤ C.Allowance.remaining cipher.old }
    ensures answers { result ≡ Ok tt }
    ensures state { state.new ≡ tweaked (chained (C.Cipher.width cipher.old) (C.Cipher.E cipher.old) (C.Cipher.E cipher.old state.old) text.now ⊕ Len (C.Cipher.width cipher.old) text.now) }
    ensures ran { Runs C.Cipher cipher.old cipher.new (1 + parts (C.Cipher.width cipher.old) (length text.now)) }
{
    run_one(cipher, state)?;
    absorb(cipher, state, text)?;
    xor_length(state, text);
    apply_g(state);
    Ok(())
}

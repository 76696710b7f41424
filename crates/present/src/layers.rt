// The layers of a round without tables: S-boxes as a boolean circuit, the permutation as swaps of bits.
ghost use Rattle.std.specs.Prelude.{◌≡◌};
ghost use Rattle.present.specs.Present.{sBoxLayer, pLayer, round};

use crate::bitwise::{delta_swap, sboxes_apart};

pub(crate) fn s_box_layer(x: u64) -> u64
    ensures { result ≡ sBoxLayer x }
{
    sboxes_apart(x, 1, 0x1111_1111_1111_1111)
}

// pLayer, by four exchanges of bits.
pub(crate) fn p_layer(x: u64) -> u64
    ensures { result ≡ pLayer x }
{
    let a = delta_swap(x, 24, 0x0000_0000_ff00_ff00);
    let b = delta_swap(a, 12, 0x0000_f0f0_0000_f0f0);
    let c = delta_swap(b, 30, 0x0000_0000_cccc_cccc);
    delta_swap(c, 15, 0x0000_aaaa_0000_aaaa)
}

// Three rounds without a pLayer: three pLayers are the identity. The second key is moved back by one of them, the third by two.
// pLayer brings bits that are 16 apart to 4 apart, and those that are 4 apart to 1, so the S-boxes work on bits further apart instead.
pub(crate) fn three_rounds(x: u64, a: u64, b: u64, c: u64) -> u64
    ensures { result ≡ round (round (round x a) (pLayer b)) (pLayer (pLayer c)) }
{
    let s = s_box_layer(x ^ a);
    let t = sboxes_apart(s ^ b, 4, 0x000f_000f_000f_000f);
    sboxes_apart(t ^ c, 16, 0x0000_0000_0000_ffff)
}

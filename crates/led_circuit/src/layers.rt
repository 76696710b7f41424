// The layers of a round on bit planes: S-boxes as PRESENT's boolean circuit, rows and columns by shifts and masks.
ghost use Rattle.std.specs.Prelude.{◌≡◌};
ghost use Rattle.bits.specs.Linear.{value};
ghost use Rattle.led.specs.Led.{SubCells};
ghost use Rattle.led_circuit.specs.Planes.{cells, shifting, doubling, fourfold, eightfold, mixing};

use present::bitwise::sboxes_apart;

#[tactic(auto, using(crate::proofs::RoundLayers::sub_cells))]
pub(crate) fn sub_cells(x: u64) -> u64
    ensures { cells result ≡ SubCells (cells x) }
{
    sboxes_apart(x, 4, 0x000f_000f_000f_000f)
}

// The rows 1 and 3 go round by one column, then the rows 2 and 3 by two.
pub(crate) fn shifted_rows(x: u64) -> u64
    ensures { result ≡ value 64 shifting x }
{
    let y = (x & 0x0000_ffff_0000_ffff)
        ^ ((x >> 1) & 0x7777_0000_7777_0000)
        ^ ((x << 3) & 0x8888_0000_8888_0000);
    (y & 0x0000_0000_ffff_ffff)
        ^ ((y >> 2) & 0x3333_3333_0000_0000)
        ^ ((y << 2) & 0xcccc_cccc_0000_0000)
}

// Kept: three functions, since one for all three powers of x would take its two shifts and two masks from each caller.
// Every nibble times 2, 4 and 8: bit k moves to bit k + 1, k + 2 or k + 3, where x^4 is x + 1.
fn doubled(x: u64) -> u64
    ensures { result ≡ value 64 doubling x }
{
    let t = (x >> 12) & 0x000f_000f_000f_000f;
    ((x << 4) & 0xfff0_fff0_fff0_fff0) ^ t ^ (t << 4)
}

fn times_four(x: u64) -> u64
    ensures { result ≡ value 64 fourfold x }
{
    let t = (x >> 8) & 0x00ff_00ff_00ff_00ff;
    ((x << 8) & 0xff00_ff00_ff00_ff00) ^ t ^ (t << 4)
}

fn times_eight(x: u64) -> u64
    ensures { result ≡ value 64 eightfold x }
{
    let t = (x >> 4) & 0x0fff_0fff_0fff_0fff;
    ((x << 12) & 0xf000_f000_f000_f000) ^ t ^ (t << 4)
}

// The sum of the rows times their coefficients: first those whose coefficient has the bit 1, then 2, 4 and 8. The words b, c and d have
// in each row the row 1, 2 and 3 below it.
pub(crate) fn mixed_columns(x: u64) -> u64
    ensures { result ≡ value 64 mixing x }
{
    let b = (x >> 16) ^ (x << 48);
    let c = (x >> 32) ^ (x << 32);
    let d = (x >> 48) ^ (x << 16);
    let ones = (x & 0xffff_0000_0000_0000)
        ^ (b & 0x0000_ffff_ffff_ffff)
        ^ (c & 0x0000_ffff_0000_0000)
        ^ (d & 0xffff_0000_0000_0000);
    let twos = (x & 0xffff_ffff_ffff_0000)
        ^ (b & 0xffff_0000_0000_0000)
        ^ (c & 0xffff_ffff_ffff_ffff)
        ^ (d & 0xffff_ffff_0000_ffff);
    let fours = (x & 0x0000_0000_ffff_ffff)
        ^ (b & 0x0000_0000_ffff_0000)
        ^ (c & 0x0000_0000_ffff_0000)
        ^ (d & 0xffff_ffff_0000_0000);
    let eights = (x & 0xffff_ffff_0000_0000)
        ^ (b & 0x0000_ffff_0000_0000)
        ^ (c & 0x0000_ffff_0000_0000)
        ^ (d & 0xffff_ffff_ffff_0000);
    ones ^ doubled(twos) ^ times_four(fours) ^ times_eight(eights)
}

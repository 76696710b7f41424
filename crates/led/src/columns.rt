// A state of LED by its four columns.
ghost use Rattle.std.specs.Prelude.{◌≡◌, ◌<◌};
ghost use Rattle.led.specs.Columns.{Nibs, nib, whole, columns};

use crate::state::State;
use crate::tables::{lower, second_column, upper};

// Each column stands in the 16 lowest bits of its word, row 0 the highest.
#[derive(Clone, Copy)]
pub struct Columns {
    pub(crate) a: u32,
    pub(crate) b: u32,
    pub(crate) c: u32,
    pub(crate) d: u32,
}

// The column of four nibbles.
// Kept: a sum, since no method of the library joins nibbles.
fn packed(p: u8, q: u8, u: u8, v: u8) -> u32
    requires first { p < 16 }
    requires second { q < 16 }
    requires third { u < 16 }
    requires fourth { v < 16 }
    ensures { Nibs result p q u v }
{
    p as u32 * 4096 + q as u32 * 256 + u as u32 * 16 + v as u32
}

// The rows 0 and 2 of one column and the rows 1 and 3 of the next.
fn crossed(x: u32, y: u32) -> u32
    ensures { Nibs result (nib x 0) (nib y 1) (nib x 2) (nib y 3) }
{
    (x & 0xf0f0) | (y & 0x0f0f)
}

// A column after SubCells, ShiftRows and MixColumnsSerial: the rows 0 and 1 come from x, the rows 2 and 3 from y.
fn column(x: u32, y: u32) -> u32
    ensures { result ≡ whole (nib x 0) (nib x 1) (nib y 2) (nib y 3) }
{
    upper(((x >> 8) % 256) as u8) ^ lower((y % 256) as u8)
}

impl State for Columns {
    ghost cells = { λ x. columns x.a x.b x.c x.d };

    fn of_bytes(block: [u8; 8]) -> Self {
        let [i, j, k, l, m, n, o, p] = block;
        Columns {
            a: packed(i / 16, k / 16, m / 16, o / 16),
            b: packed(i % 16, k % 16, m % 16, o % 16),
            c: packed(j / 16, l / 16, n / 16, p / 16),
            d: packed(j % 16, l % 16, n % 16, p % 16),
        }
    }

    fn to_bytes(self) -> [u8; 8] {
        [
            ((self.a >> 12) % 16 * 16 + (self.b >> 12) % 16) as u8,
            ((self.c >> 12) % 16 * 16 + (self.d >> 12) % 16) as u8,
            ((self.a >> 8) % 16 * 16 + (self.b >> 8) % 16) as u8,
            ((self.c >> 8) % 16 * 16 + (self.d >> 8) % 16) as u8,
            ((self.a >> 4) % 16 * 16 + (self.b >> 4) % 16) as u8,
            ((self.c >> 4) % 16 * 16 + (self.d >> 4) % 16) as u8,
            (self.a % 16 * 16 + self.b % 16) as u8,
            (self.c % 16 * 16 + self.d % 16) as u8,
        ]
    }

    #[tactic(auto, using(crate::proofs::Xors::plus_is))]
    fn plus(self, key: Columns) -> Self {
        Columns {
            a: self.a ^ key.a,
            b: self.b ^ key.b,
            c: self.c ^ key.c,
            d: self.d ^ key.d,
        }
    }

    fn mixed(self) -> Self {
        let s = crossed(self.a, self.b);
        let t = crossed(self.b, self.c);
        let u = crossed(self.c, self.d);
        let v = crossed(self.d, self.a);
        Columns {
            a: column(s, u),
            b: column(t, v),
            c: column(u, s),
            d: column(v, t),
        }
    }

    // The first column has the key size and the numbers of the rows.
    fn constants(round: usize) -> Self {
        Columns {
            a: 0x5423,
            b: second_column(round),
            c: 0,
            d: 0,
        }
    }
}

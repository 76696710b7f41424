// The state on bit planes: no step reads memory at a secret place or branches on a secret.
ghost use Rattle.std.specs.Prelude.{◌≡◌, ◌<◌};
ghost use Rattle.bits.specs.Moves.{swap};
ghost use Rattle.bits.specs.Shifts.{union};
ghost use Rattle.bits.specs.Swaps.{swaps};
ghost use Rattle.aes.specs.Fips197.{SubBytes, ShiftRows, MixColumns};
ghost use Rattle.aes_circuit.specs.Planes.{inward, outward, shifted, next, second, packed, bytes, bytes_of, rows_on, doubled};

use crate::circuit::sboxes;
use aes::rounds::state_of;
use aes::state::State;

// Plane j holds bit j of the sixteen bytes, that of byte i at its bit i. Four planes of 16 bits stand in a word, the lowest first: planes
// 0, 2, 4 and 6 in `even`, the others in `odd`.
#[derive(Clone, Copy)]
pub struct Planes {
    even: u64,
    odd: u64,
}

// Exchanges the bits under the mask with those so many places above them.
// Kept: `present` has this on 64 bits; to be one, both would stand under a bound of five operators with their laws.
fn delta_swap(x: u128, places: u32, mask: u128) -> u128
    requires { places < 128 }
    ensures { result ≡ swap 128 places mask x }
{
    let t = (x ^ (x >> places)) & mask;
    x ^ t ^ (t << places)
}

// Takes bit j of byte i to its plane, by four exchanges of bits.
// Kept: the four calls, here and on the way back, say no more than a loop over a table of places and masks would.
fn into_planes(x: u128) -> u128
    ensures { result ≡ swaps 128 inward x }
{
    let a = delta_swap(x, 56, 0xff00_ff00_ff00_ff00);
    let b = delta_swap(a, 63, 0xaaaa_aaaa_aaaa_aaaa);
    let c = delta_swap(b, 28, 0x0000_0000_f0f0_f0f0_0000_0000_f0f0_f0f0);
    delta_swap(c, 14, 0x0000_cccc_0000_cccc_0000_cccc_0000_cccc)
}

// And back, by the same exchanges in the opposite order.
fn out_of_planes(x: u128) -> u128
    ensures { result ≡ swaps 128 outward x }
{
    let a = delta_swap(x, 14, 0x0000_cccc_0000_cccc_0000_cccc_0000_cccc);
    let b = delta_swap(a, 28, 0x0000_0000_f0f0_f0f0_0000_0000_f0f0_f0f0);
    let c = delta_swap(b, 63, 0xaaaa_aaaa_aaaa_aaaa);
    delta_swap(c, 56, 0xff00_ff00_ff00_ff00)
}

// Four planes in one word.
fn packed(a: u64, b: u64, c: u64, d: u64) -> u64
    ensures { result ≡ packed a b c d }
{
    a % 0x1_0000 + (b % 0x1_0000 << 16) + (c % 0x1_0000 << 32) + (d << 48)
}

// ShiftRows on four planes: rows 2 and 3 are turned by two places, then rows 1 and 3 by one.
fn shifted(x: u64) -> u64
    ensures { result ≡ shifted x }
{
    let t = (x ^ (x >> 8)) & 0x00cc_00cc_00cc_00cc;
    let y = x ^ t ^ (t << 8);
    (y & 0x5555_5555_5555_5555)
        | ((y >> 4) & 0x0aaa_0aaa_0aaa_0aaa)
        | ((y << 12) & 0xa000_a000_a000_a000)
}

// In each lane of four planes, the next row of the column.
fn next(x: u64) -> u64
    ensures { result ≡ union 64 next x }
{
    ((x >> 1) & 0x7777_7777_7777_7777) | ((x << 3) & 0x8888_8888_8888_8888)
}

// The row after the next.
fn second(x: u64) -> u64
    ensures { result ≡ union 64 second x }
{
    ((x >> 2) & 0x3333_3333_3333_3333) | ((x << 2) & 0xcccc_cccc_cccc_cccc)
}

impl State for Planes {
    ghost bytes = { λ s. bytes_of s.even s.odd };

    fn of_bytes(block: &[u8; 16]) -> Self {
        let x = into_planes(u128::from_le_bytes(*block));
        Planes {
            even: (x % (1 << 64)) as u64,
            odd: (x >> 64) as u64,
        }
    }

    fn of_words(columns: [u32; 4]) -> Self {
        Planes::of_bytes(&state_of(columns))
    }

    fn to_bytes(self) -> [u8; 16] {
        let x = out_of_planes(((self.odd as u128) << 64) + self.even as u128);
        x.to_le_bytes()
    }

    fn plus(self, key: Planes) -> Self {
        Planes {
            even: self.even ^ key.even,
            odd: self.odd ^ key.odd,
        }
    }

    fn round(self, key: Planes) -> Self {
        self.sub_bytes().shift_rows().mix_columns().plus(key)
    }

    fn last_round(self, key: Planes) -> Self {
        self.sub_bytes().shift_rows().plus(key)
    }
}

impl Planes {
    pub(crate) fn sub_bytes(self) -> Self
        ensures { bytes result ≡ SubBytes (bytes self) }
    {
        let e = self.even;
        let o = self.odd;
        let [s0, s1, s2, s3, s4, s5, s6, s7] = sboxes([
            e,
            o,
            e >> 16,
            o >> 16,
            e >> 32,
            o >> 32,
            e >> 48,
            o >> 48,
        ]);
        Planes {
            even: packed(s0, s2, s4, s6),
            odd: packed(s1, s3, s5, s7),
        }
    }

    // Kept: this and the next two call one function on each word, which a helper that takes the function would say no plainer.
    pub(crate) fn shift_rows(self) -> Self
        ensures { bytes result ≡ ShiftRows (bytes self) }
    {
        Planes {
            even: shifted(self.even),
            odd: shifted(self.odd),
        }
    }

    // In each place the byte of the next row of its column, and that of the row after it.
    fn next_rows(self) -> Self
        ensures { bytes result ≡ rows_on 1 (bytes self) }
    {
        Planes {
            even: next(self.even),
            odd: next(self.odd),
        }
    }

    fn second_rows(self) -> Self
        ensures { bytes result ≡ rows_on 2 (bytes self) }
    {
        Planes {
            even: second(self.even),
            odd: second(self.odd),
        }
    }

    // x times each byte: bit 7 goes to bit 0 and is added to bits 1, 3 and 4.
    fn doubled(self) -> Self
        ensures { bytes result ≡ doubled (bytes self) }
    {
        let high = self.odd >> 48;
        Planes {
            even: ((self.odd << 16) | high) ^ (high << 32),
            odd: self.even ^ high ^ (high << 16),
        }
    }

    // Row r becomes x (s[r] + s[r + 1]) + s[r + 1] + s[r + 2] + s[r + 3].
    pub(crate) fn mix_columns(self) -> Self
        ensures { bytes result ≡ MixColumns (bytes self) }
    {
        let a = self.next_rows();
        let y = self.plus(a);
        let z = y.second_rows();
        let d = y.doubled();
        a.plus(z).plus(d)
    }
}

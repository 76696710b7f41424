// Steps on all bits of a word at once: S-boxes as a boolean circuit, and exchanges of bits. No table, and no branch.
ghost use Rattle.std.specs.Prelude.{◌≡◌, ◌%◌, [], ◌∷◌};
ghost use Rattle.bits.specs.Lanes.{planes, gathered};
ghost use Rattle.bits.specs.Moves.{swap};
ghost use Rattle.present.specs.SBoxCircuit.{circuit};

// An S-box on each bit position of four words, that of the lowest bits first.
#[tactic(auto, unfolding(crate::specs::SBoxCircuit::circuit))]
fn sboxes(a: u64, b: u64, c: u64, d: u64) -> [u64; 4]
    ensures { result ≡ circuit 0xffff_ffff_ffff_ffff (a ∷ b ∷ c ∷ d ∷ []) }
{
    let t1 = b ^ c;
    let t2 = c & t1;
    let t3 = d ^ t2;
    let p = a ^ t3;
    let t4 = t1 & t3;
    let t5 = t1 ^ p;
    let t6 = t4 ^ c;
    let t7 = a | t6;
    let q = t5 ^ t7;
    let n = a ^ 0xffff_ffff_ffff_ffff;
    let t8 = t6 ^ n;
    let s = q ^ t8;
    let t9 = t8 | t5;
    let r = t3 ^ t9;
    [p, q, r, s]
}

// S-boxes on words whose four bits are so many places apart, modulo 22, so that the last is in the word too. The mask has the lowest
// bit of each.
pub fn sboxes_apart(x: u64, places: u32, mask: u64) -> u64
    ensures { result ≡ gathered 64 (places % 22) mask (circuit 0xffff_ffff_ffff_ffff (planes (places % 22) x)) }
{
    let one = places % 22;
    let two = 2 * one;
    let three = 3 * one;
    let [p, q, r, s] = sboxes(x, x >> one, x >> two, x >> three);
    (p & mask) | ((q & mask) << one) | ((r & mask) << two) | ((s & mask) << three)
}

// Exchanges the bits under the mask with those so many places above them, modulo 64.
#[tactic(auto, unfolding(bits::specs::Moves::swap))]
pub fn delta_swap(x: u64, places: u32, mask: u64) -> u64
    ensures { result ≡ swap 64 (places % 64) mask x }
{
    let up = places % 64;
    let t = (x ^ (x >> up)) & mask;
    x ^ t ^ (t << up)
}

// The rounds of TWINE on all lanes at once: the S-boxes as a boolean circuit, the block shuffle as moves of lanes.
ghost use Rattle.std.specs.Prelude.{◌≡◌, ℕ, ◌<◌, List, [], ◌∷◌, map};
ghost use Rattle.bits.specs.Lanes.{lane};
ghost use Rattle.bits.specs.Linear.{value};
ghost use Rattle.bits.specs.Nibbles.{nibbles};
ghost use Rattle.twine.specs.Twine.{S, RK, enc, permuted, substituted};
ghost use Rattle.twine.specs.Split.{round_keys};
ghost use Rattle.twine_circuit.specs.SBoxCircuit.{circuit};
ghost use Rattle.twine_circuit.specs.Halves.{place, words, key_words, turning, crossing, unshuffled};

use crate::halves::Halves;
use crate::round_key::LaneKey;

// An S-box on each bit position of four words, that of the lowest bits first.
#[tactic(auto, unfolding(crate::specs::SBoxCircuit::circuit))]
pub(crate) fn sboxes(a: u32, b: u32, c: u32, d: u32) -> [u32; 4]
    ensures { result ≡ circuit 0xffff_ffff (a ∷ b ∷ c ∷ d ∷ []) }
{
    let t1 = 0xffff_ffff ^ a;
    let t2 = d | c;
    let t3 = t2 ^ b;
    let t4 = d ^ c;
    let t5 = t3 & t1;
    let p = t5 ^ t4;
    let t6 = t4 & b;
    let t7 = t6 ^ t1;
    let t8 = t7 & d;
    let q = t8 ^ t3;
    let t9 = b & a;
    let t10 = t7 ^ c;
    let t11 = t10 | t6;
    let s = t11 ^ t9;
    let t12 = t6 | c;
    let t13 = t12 & p;
    let t14 = t13 ^ t10;
    let r = t14 ^ t8;
    [p, q, r, s]
}

// S of each lane.
#[tactic(auto, using(crate::proofs::Rounds::sub_lane))]
fn sub_lanes(x: u32) -> u32
    ensures { (i : ℕ) → i < 8 → lane place result i ≡ S (lane place x i) }
{
    let [p, q, r, s] = sboxes(x, x >> 8, x >> 16, x >> 24);
    (p & 0xff) | ((q & 0xff) << 8) | ((r & 0xff) << 16) | ((s & 0xff) << 24)
}

// The words at the odd places, moved to where the block shuffle puts them: four lanes and four lanes go round by one.
fn turned(x: u32) -> u32
    ensures { result ≡ value 32 turning x }
{
    ((x << 1) & 0xeeee_eeee) ^ ((x >> 3) & 0x1111_1111)
}

// What the S-boxes give, moved to the words that it is added to, after the block shuffle.
fn crossed(x: u32) -> u32
    ensures { result ≡ value 32 crossing x }
{
    (x & 0x0505_0505)
        ^ ((x >> 4) & 0x0a0a_0a0a)
        ^ ((x << 2) & 0x6060_6060)
        ^ ((x << 6) & 0x8080_8080)
        ^ ((x >> 2) & 0x1010_1010)
}

// A round with its block shuffle, by which the words at the even places become those at the odd places.
fn round(x: Halves, key: LaneKey) -> Halves
    ensures { words result ≡ permuted (substituted (key_words key.lanes) (words x)) }
{
    Halves {
        left: turned(x.right) ^ crossed(sub_lanes(x.left ^ key.lanes)),
        right: x.left,
    }
}

// 36 rounds on a state, with the block shuffle of the last one too.
pub(crate) fn encrypted(keys: &[LaneKey; 36], state: Halves) -> Halves
    ensures { (key : List ℕ) → map (λ k. key_words k.lanes) keys.now ≡ round_keys key → unshuffled (words result) ≡ enc (RK (nibbles key)) (words state) }
{
    let mut x = state;
    for key in keys {
        x = round(x, *key);
    }
    x
}

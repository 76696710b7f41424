// The key schedule, without tables, and a run on a block under its round keys.
ghost use Rattle.std.specs.Prelude.{◌≡◌, ℕ, ◌^◌, ◌<◌, List};
ghost use Rattle.present.specs.Present.{S, updated, encrypt};
ghost use Rattle.present.specs.Block.{number, present80};
ghost use Rattle.present.specs.RoundKeys.{pLayers, RoundKeys};

use crate::layers::{p_layer, s_box_layer, three_rounds};

fn sbox(word: u64) -> u64
    requires { word < 16 }
    ensures is { result ≡ S word }
    ensures small { result < 16 }
{
    s_box_layer(word) % 16
}

// The key register after an update with this round counter.
fn update(register: u128, counter: u8) -> u128
    requires register { register < 2 ^ 80 }
    requires counter { counter < 64 }
    ensures is { result ≡ updated counter register }
    ensures small { result < 2 ^ 80 }
{
    let rotated = (register % (1 << 19) << 61) + (register >> 19);
    let high = sbox((rotated >> 76) as u64) as u128;
    ((high << 76) + rotated % (1 << 76)) ^ ((counter as u128) << 15)
}

// A round key moved back by so many pLayers. Three pLayers are the identity, so back by one is forward by two.
fn moved_back(layers: usize, key: u64) -> u64
    requires { layers < 3 }
    ensures { pLayers layers result ≡ key }
{
    if layers == 0 {
        key
    } else if layers == 1 {
        let once = p_layer(key);
        p_layer(once)
    } else {
        p_layer(key)
    }
}

// The 32 round keys, each moved back by as many pLayers as the state is when the key is added.
#[derive(Drop)]
pub(crate) struct KeySchedule {
    pub(crate) keys: [u64; 32],
}

impl KeySchedule {
    pub(crate) fn of_key(key: &[u8; 10]) -> Self
        ensures { RoundKeys key.now result.keys }
    {
        let mut bytes = [0; 16];
        bytes[6..].copy_from_slice(key);
        let mut register = u128::from_be_bytes(bytes);
        let mut keys = [0; 32];
        for (i, round_key) in keys.iter_mut().enumerate() {
            *round_key = moved_back(i % 3, (register >> 16) as u64);
            register = update(register, i as u8 + 1);
        }
        KeySchedule { keys }
    }

    // Rounds 1 to 30 by threes. The pLayer of round 31 comes after the last key, which is moved back by one pLayer.
    fn encrypted_state(&self, state: u64) -> u64
        ensures { (key : List ℕ) → RoundKeys key self.now.keys → result ≡ encrypt (number key) state }
    {
        let mut x = state;
        let (threes, last) = self.keys.as_chunks::<3>();
        for [a, b, c] in &threes[..10] {
            x = three_rounds(x, *a, *b, *c);
        }
        p_layer(s_box_layer(x ^ last[0]) ^ last[1])
    }

    pub(crate) fn encrypted(&self, block: [u8; 8]) -> [u8; 8]
        ensures { (key : List ℕ) → RoundKeys key self.now.keys → result ≡ present80 key block }
    {
        self.encrypted_state(u64::from_be_bytes(block))
            .to_be_bytes()
    }
}

// The rounds of LED.
ghost use Rattle.std.specs.Prelude.{◌≡◌, ◌<◌};
ghost use Rattle.led.specs.Led.{round, step, steps, addRoundKey, in_turn};

use crate::state::State;

#[tactic(auto, unfolding(crate::specs::Led::round))]
fn round<S: State>(x: S, n: usize) -> S
    requires { n < 48 }
    ensures { S.cells result ≡ round 80 n (S.cells x) }
{
    x.plus(S::constants(n)).mixed()
}

#[tactic(auto, unfolding(crate::specs::Led::step))]
fn step<S: State>(x: S, i: usize) -> S
    requires { i < 12 }
    ensures { S.cells result ≡ step 80 i (S.cells x) }
{
    let n = 4 * i;
    round(round(round(round(x, n), n + 1), n + 2), n + 3)
}

fn subkey<S: State>(first: S, second: S, i: usize) -> S
    ensures { S.cells result ≡ in_turn (S.cells first) (S.cells second) i }
{
    if i % 2 == 0 { first } else { second }
}

// Twelve steps with two subkeys in turn, and the first subkey once more.
#[tactic(auto, using(crate::proofs::Turns::steps_none))]
pub(crate) fn encrypted<S: State>(first: S, second: S, block: S) -> S
    ensures { S.cells result ≡ addRoundKey (S.cells first) (steps 80 (in_turn (S.cells first) (S.cells second)) (S.cells block) 12) }
{
    let mut x = block;
    for i in 0..12 {
        x = step(x.plus(subkey(first, second, i)), i);
    }
    x.plus(first)
}

// A state of LED by bit planes, for the rounds.
ghost use Rattle.led_circuit.specs.Planes.{cells as cells_of};

use crate::constants::round_constants;
use crate::layers::{mixed_columns, shifted_rows, sub_cells};
use crate::planes::{loaded, stored};
use led::state::State;

#[derive(Clone, Copy)]
pub struct Planes(u64);

impl State for Planes {
    ghost cells = { λ p. cells_of p.0 };

    fn of_bytes(block: [u8; 8]) -> Self {
        Planes(loaded(block))
    }

    fn to_bytes(self) -> [u8; 8] {
        stored(self.0)
    }

    #[tactic(auto, using(crate::proofs::RoundLayers::plus_is))]
    fn plus(self, key: Planes) -> Self {
        Planes(self.0 ^ key.0)
    }

    fn mixed(self) -> Self {
        Planes(mixed_columns(shifted_rows(sub_cells(self.0))))
    }

    fn constants(round: usize) -> Self {
        Planes(round_constants(round))
    }
}

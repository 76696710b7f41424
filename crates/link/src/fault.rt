// Why an end of a link refuses a call.
ghost use Rattle.std.specs.Prelude.{◌≡◌};
ghost use Rattle.link.specs.Fault.{number_of, layer_of, values_of};
ghost use Rattle.link.specs.declared.fault.EndFault.TheVariants.{Mode as InMode, Tube as InTube};

use mode::fault::ModeFault;
use refusal::interface::Refusal;
use refusal::layer::Layer;
use refusal::values::Values;
use thiserror::Error;
use tube::fault::{Section, TubeFault};

#[derive(Clone, Copy, PartialEq, Eq, Debug, Error)]
pub enum EndFault {
    // what a mode's call would refuse, carried whole
    #[error(transparent)]
    Mode(ModeFault),
    // the tube has the wrong form, carried whole
    #[error(transparent)]
    Tube(TubeFault),
    // an end can't be made with this start or floor
    #[error("no end can be made with the number {0}: start from 1 to the last number, floor from 0 to it")]
    Start(u64),
    // the last number, which is this, was sent
    #[error("the last number, {0}, was sent: change the key and start anew")]
    Last(u64),
    // the first section that is not the end's: the set for code or param, the number or the tag for its length
    #[error("section {0} of the tube is not of this link's set: it came from another link")]
    Differs(Section),
    // the number is 0 or above the last
    #[error("the tube's number is 0 or above the last of this link")]
    Range,
    // the number is too old to tell: it, and the highest number
    #[error("the number {0} is too old: {1} was signed, and only 64 numbers are kept")]
    Old(u64, u64),
    // the number was signed, or is not above the floor
    #[error("the number {0} was signed before, or is not above the floor: this tube came twice")]
    Signed(u64),
}

impl Refusal for EndFault {
    ghost number_of = { number_of };

    ghost layer_of = { layer_of };

    ghost values_of = { values_of };

    fn number(&self) -> u8 {
        match self {
            EndFault::Mode(fault) => fault.number(),
            EndFault::Tube(fault) => fault.number(),
            EndFault::Start(_) => 5,
            EndFault::Last(_) => 13,
            EndFault::Differs(_) => 15,
            EndFault::Range => 16,
            EndFault::Old(_, _) => 17,
            EndFault::Signed(_) => 18,
        }
    }

    fn layer(&self) -> Layer {
        match self {
            EndFault::Mode(fault) => fault.layer(),
            EndFault::Tube(fault) => fault.layer(),
            _ => Layer::End,
        }
    }

    fn values(&self) -> Values {
        match self {
            EndFault::Mode(fault) => fault.values(),
            EndFault::Tube(fault) => fault.values(),
            EndFault::Start(number) => Values::One(*number),
            EndFault::Last(last) => Values::One(*last),
            EndFault::Differs(section) => Values::One(*section as u64),
            EndFault::Range => Values::None,
            EndFault::Old(number, high) => Values::Two(*number, *high),
            EndFault::Signed(number) => Values::One(*number),
        }
    }
}

// Kept: by hand, here and below, since contracts cite what they give.
impl From<ModeFault> for EndFault {
    ghost from_gives = { λ x y. y ≡ InMode x };

    fn from(fault: ModeFault) -> EndFault {
        EndFault::Mode(fault)
    }
}

impl From<TubeFault> for EndFault {
    ghost from_gives = { λ x y. y ≡ InTube x };

    fn from(fault: TubeFault) -> EndFault {
        EndFault::Tube(fault)
    }
}

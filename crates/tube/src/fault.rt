// Why a tube is not read.
ghost use Rattle.std.specs.Prelude.{◌≡◌, ◌&&◌, nat_le};
ghost use Rattle.tube.specs.Fault.{least, most, number_of, layer_of, values_of};

use crate::limits::{MAX_CONTENTS, MAX_LABEL, MAX_NONCE, MAX_TAG};
use refusal::interface::Refusal;
use refusal::layer::Layer;
use refusal::values::Values;
use std::fmt;
use thiserror::Error;

// The sections of a tube in their order, counted from 1, and the bytes that follow the last.
#[derive(Clone, Copy, PartialEq, Eq, Debug)]
pub enum Section {
    Set = 1,
    Number,
    Label,
    Contents,
    Tag,
    Beyond,
}

impl Section {
    // Whether a section may have so many bytes.
    pub(crate) fn allows(self, len: usize) -> bool
        ensures { result ≡ (nat_le (least self) len && nat_le len (most self)) }
    {
        match self {
            Section::Set => len == 2,
            Section::Number => (1..=MAX_NONCE).contains(&len),
            Section::Label => len <= MAX_LABEL,
            Section::Contents => len <= MAX_CONTENTS,
            Section::Tag => (1..=MAX_TAG).contains(&len),
            Section::Beyond => len == 0,
        }
    }
}

impl fmt::Display for Section {
    fn fmt<W: fmt::Write>(&self, f: &mut fmt::Formatter<W>) -> fmt::Result {
        write!(f, "{}", *self as u8)
    }
}

#[derive(Clone, Copy, PartialEq, Eq, Debug, Error)]
pub enum TubeFault {
    // the section with the wrong form, and the place of the bytes that show it, counted from 0
    #[error("the tube is cut short, too long or damaged (section {0}, at byte {1}): have it sent again")]
    Form(Section, usize),
}

impl Refusal for TubeFault {
    ghost number_of = { number_of };

    ghost layer_of = { layer_of };

    ghost values_of = { values_of };

    fn number(&self) -> u8 {
        match self {
            TubeFault::Form(_, _) => 14,
        }
    }

    fn layer(&self) -> Layer {
        Layer::Tube
    }

    fn values(&self) -> Values {
        match self {
            TubeFault::Form(section, place) => Values::Two(*section as u64, *place as u64),
        }
    }
}

// Why a mode refuses a call.
ghost use Rattle.std.specs.Prelude.{◌≡◌};
ghost use Rattle.mode.specs.Fault.{number_of, layer_of, values_of};
ghost use Rattle.mode.specs.declared.fault.ModeFault.TheVariants.{Cipher};

use crate::set::field::SetField;
use cipher::fault::CipherFault;
use refusal::interface::Refusal;
use refusal::layer::Layer;
use refusal::values::Values;
use thiserror::Error;

#[derive(Clone, Copy, PartialEq, Eq, Debug, Error)]
pub enum ModeFault {
    // the cipher refused a call of the mode's
    #[error(transparent)]
    Cipher(CipherFault),
    // a field breaks the rule of sets, the first that does
    #[error(transparent)]
    Set(SetField),
    // work memory of this many bytes, where 64 are wanted
    #[error("the work memory has {0} bytes: lend 64")]
    Work(usize),
    // the set's code or width is not the mode's, which has these
    #[error("the set is not this mode's: give one of code {0} and width {1}")]
    Foreign(u8, u8),
    // a nonce of this many bytes, where the set says another length
    #[error("the nonce has {0} bytes: give as many as the set says")]
    Nonce(usize),
    // a label or contents above the limit: the lengths of both
    #[error("the label has {0} bytes and the contents have {1}: keep to 4096 and 1048576")]
    Long(usize, usize),
    // an output part, or else a tag part, that has not the length wanted
    #[error("the output part or the tag has the wrong length: give {0} bytes")]
    Part(usize),
    // the call takes more cipher runs than are left: its count, and what is left
    #[error("the call takes {0} cipher runs and {1} are left: change the key")]
    Short(u64, u64),
    // the tag differs, which it took so many cipher runs to find out
    #[error("the tag differs: discard the message, which was changed or sealed under another key ({0} cipher runs were made)")]
    Tag(u64),
}

impl Refusal for ModeFault {
    ghost number_of = { number_of };

    ghost layer_of = { layer_of };

    ghost values_of = { values_of };

    fn number(&self) -> u8 {
        match self {
            ModeFault::Cipher(fault) => fault.number(),
            ModeFault::Set(_) => 4,
            ModeFault::Work(_) => 6,
            ModeFault::Foreign(_, _) => 7,
            ModeFault::Nonce(_) => 8,
            ModeFault::Long(_, _) => 9,
            ModeFault::Part(_) => 10,
            ModeFault::Short(_, _) => 11,
            ModeFault::Tag(_) => 12,
        }
    }

    fn layer(&self) -> Layer {
        match self {
            ModeFault::Cipher(fault) => fault.layer(),
            _ => Layer::Mode,
        }
    }

    fn values(&self) -> Values {
        match self {
            ModeFault::Cipher(fault) => fault.values(),
            ModeFault::Set(field) => Values::One(*field as u64),
            ModeFault::Work(length) => Values::One(*length as u64),
            ModeFault::Foreign(code, width) => { Values::Two(*code as u64, *width as u64) }
            ModeFault::Nonce(length) => Values::One(*length as u64),
            ModeFault::Long(label, contents) => { Values::Two(*label as u64, *contents as u64) }
            ModeFault::Part(wanted) => Values::One(*wanted as u64),
            ModeFault::Short(count, left) => Values::Two(*count, *left),
            ModeFault::Tag(count) => Values::One(*count),
        }
    }
}

// Kept: by hand, since contracts cite what it gives.
impl From<CipherFault> for ModeFault {
    ghost from_gives = { λ x y. y ≡ Cipher x };

    fn from(fault: CipherFault) -> ModeFault {
        ModeFault::Cipher(fault)
    }
}

// Why a text can't be read.
ghost use Rattle.std.specs.Prelude.{◌≡◌};
ghost use Rattle.text.specs.Hex.{fault_of};

use hex::FromHexError;
use std::alloc::AllocError;
use thiserror::Error;

#[derive(Clone, Copy, PartialEq, Eq, Debug, Error)]
pub enum TextFault {
    #[error("there is no memory left")]
    Memory(#[from(alloc)] AllocError),
    #[error("an odd number of hexadecimal digits: each byte takes two")]
    OddLength,
    // the character of this byte is no hexadecimal digit
    #[error("the byte {byte} is no hexadecimal digit", byte = u32::from(*.0))]
    NoDigit(char),
    // a number that does not fit 64 bits, or has no digit
    #[error("not a number of at most sixteen hexadecimal digits")]
    NoNumber,
}

impl From<FromHexError> for TextFault {
    ghost from_gives = { λ error fault. fault ≡ fault_of error };

    fn from(error: FromHexError) -> TextFault {
        match error {
            FromHexError::InvalidHexCharacter { c, index: _ } => TextFault::NoDigit(c),
            FromHexError::OddLength | FromHexError::InvalidStringLength => TextFault::OddLength,
            FromHexError::OutOfMemory => TextFault::Memory(AllocError),
        }
    }
}

// Why a cipher refuses a call.
ghost use Rattle.std.specs.Prelude.{◌≡◌};
ghost use Rattle.cipher.specs.Fault.{number_of, layer_of, values_of};

use refusal::interface::Refusal;
use refusal::layer::Layer;
use refusal::values::Values;
use thiserror::Error;

#[derive(Clone, Copy, PartialEq, Eq, Debug, Error)]
pub enum CipherFault {
    // a key of this many bytes, where the cipher takes another length
    #[error("the key has {0} bytes: give one of the length that the cipher takes")]
    KeyLength(usize),
    // a block of this many bytes, where the cipher's width is another
    #[error("the block has {0} bytes: give one of the cipher's width")]
    BlockLength(usize),
    // no run is left of the allowance
    #[error("the allowance of cipher runs is used up: change the key")]
    Spent,
}

impl Refusal for CipherFault {
    ghost number_of = { number_of };

    ghost layer_of = { layer_of };

    ghost values_of = { values_of };

    fn number(&self) -> u8 {
        match self {
            CipherFault::KeyLength(_) => 1,
            CipherFault::BlockLength(_) => 2,
            CipherFault::Spent => 3,
        }
    }

    fn layer(&self) -> Layer {
        Layer::Cipher
    }

    fn values(&self) -> Values {
        match self {
            CipherFault::KeyLength(length) => Values::One(*length as u64),
            CipherFault::BlockLength(length) => Values::One(*length as u64),
            CipherFault::Spent => Values::None,
        }
    }
}

// One block through one of the four ciphers.
use crate::input::Input;
use crate::line::{Case, CaseFault};
use crate::pick::read_cipher;
use cipher::interface::Cipher;

pub fn run_cipher(case: &mut Case) -> Result<(), CaseFault> {
    let mut cipher = read_cipher(case, Input::Name)?;
    let mut block = case.bytes(Input::Plaintext)?;
    cipher
        .run(block.as_mut_slice())
        .map_err(|_| CaseFault::Bad(Input::Plaintext))?;
    case.put_bytes("ct", block.as_slice())
}

// Bytes and numbers as hexadecimal text.
ghost use Rattle.std.specs.Prelude.{◌≡◌, ◌+◌, ◌*◌, ◌≤◌, ◌++◌, ◌⊎◌, length, vec_capacity, vec_len, Some, Ok, Err, IsOk, IfOk, IfErr, OnOk, OnErr};
ghost use Rattle.hex.specs.Hex.{decode_of, encode_lower};
ghost use Rattle.hex.specs.declared.error.FromHexError.TheVariants.{OutOfMemory};
ghost use Rattle.text.specs.Hex.{decoded, digit_of, fault_of, letter_of};

use crate::fault::TextFault;
use std::alloc::{AllocError, Global};
use std::{fmt, str};

// How many bytes are printed or read at a time.
const CHUNK: usize = 128;

// Prints as two lower-case digits for each byte, the first byte first.
// Kept: it prints without memory, which `encode` takes.
#[derive(Clone, Copy)]
pub struct Hex<'a>(pub &'a [u8]);

impl fmt::Display for Hex<'_> {
    ghost output = { λ h. Some (encode_lower h.0.now) };

    // A chunk at a time: the formatter takes several times as long for a byte by itself.
    fn fmt<W: fmt::Write>(&self, f: &mut fmt::Formatter<W>) -> fmt::Result {
        let mut room = [0u8; 2 * CHUNK];
        for chunk in self.0.chunks(CHUNK) {
            let digits = &mut room[..2 * chunk.len()];
            if hex::encode_to_slice(chunk, digits).is_err() {
                unreachable!();
            }
            let Ok(text) = str::from_utf8(digits) else {
                unreachable!();
            };
            f.write_str(text)?;
        }
        Ok(())
    }
}

// The value of a digit, in either case of its letter.
pub fn digit(byte: u8) -> Option<u8>
    ensures { result ≡ digit_of byte }
{
    match byte {
        b'0'..=b'9' => Some(byte - b'0'),
        b'a'..=b'f' => Some(byte - b'a' + 10),
        b'A'..=b'F' => Some(byte - b'A' + 10),
        _ => None,
    }
}

// The lower-case digit of a number, of which the lowest four bits count.
pub fn letter(number: u8) -> u8
    ensures { result ≡ letter_of number }
{
    let d = number % 16;
    if d < 10 { b'0' + d } else { b'a' + (d - 10) }
}

// The bytes of a text of digits, two to a byte. An odd number of digits is told first, and then, where there is memory, the first wrong one.
pub fn decode(heap: Global, text: &str) -> Result<Vec<u8>, TextFault>
    ensures ok { IfOk result (λ bytes. decode_of text.now ≡ Ok bytes.items) }
    ensures err { IfErr result (λ f. (f ≡ fault_of OutOfMemory) ⊎ (decoded (decode_of text.now) ≡ Err f)) }
{
    let digits = text.as_bytes();
    if digits.len() % 2 != 0 {
        return Err(TextFault::OddLength);
    }
    let mut bytes = Vec::with_capacity(heap, digits.len() / 2).map_err(TextFault::Memory)?;
    // A chunk at a time, so that nothing is done for what stands behind a wrong digit.
    let mut room = [0u8; CHUNK];
    for chunk in digits.chunks(2 * CHUNK) {
        let part = &mut room[..chunk.len() / 2];
        hex::decode_to_slice(chunk, part)?;
        bytes.extend_from_slice(part).map_err(TextFault::Memory)?;
    }
    Ok(bytes)
}

// Appends the digits of bytes to a text.
pub fn encode(out: &mut Vec<u8>, bytes: &[u8]) -> Result<(), AllocError>
    ensures ok { OnOk result (out.new.items ≡ out.old.items ++ encode_lower bytes.now) }
    ensures err { OnErr result (out.new.items ≡ out.old.items) }
    ensures room { vec_len out.old + 2 * length bytes.now ≤ vec_capacity out.old → IsOk result }
{
    let at = out.len();
    out.reserve(2 * bytes.len())?;
    out.resize(at + 2 * bytes.len(), 0)?;
    let digits = &mut out.as_mut_slice()[at..];
    if hex::encode_to_slice(bytes, digits).is_err() {
        unreachable!();
    }
    Ok(())
}

// A number of at most sixteen digits.
// Kept: u64::from_str_radix takes a sign too, and names no byte that is wrong.
pub fn parse_number(text: &str) -> Result<u64, TextFault> {
    let digits = text.as_bytes();
    if digits.is_empty() || digits.len() > 16 {
        return Err(TextFault::NoNumber);
    }
    digits.iter().try_fold(0u64, |number, byte| {
        let value = digit(*byte).ok_or(TextFault::NoDigit(char::from(*byte)))?;
        Ok((number << 4) | u64::from(value))
    })
}

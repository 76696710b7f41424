// What is written for a line: the case run again, or the line with the name of the field that can't be read.
use crate::cipher_case::run_cipher;
use crate::input::Input;
use crate::line::{Case, CaseFault};
use crate::mode_case::run_call;
use crate::round_case::run_round;
use crate::send_case::run_sends;
use crate::session_case::run_session;
use crate::set_case::{run_lookup, run_setrule};
use crate::tube_case::run_tube;
use std::alloc::{AllocError, Global};

fn run_case(case: &mut Case) -> Result<(), CaseFault> {
    let kind = case.text(Input::Kind)?;
    if case.next_is(Input::Case) {
        case.text(Input::Case)?;
    }
    match kind {
        "cipher" => run_cipher(case),
        "lookup" => run_lookup(case),
        "mode" => run_round(case),
        "modecall" => run_call(case),
        "send" => run_sends(case),
        "session" => run_session(case),
        "setrule" => run_setrule(case),
        "tube" => run_tube(case),
        _ => Err(CaseFault::Bad(Input::Kind)),
    }
}

// The line as it came, with the name of the field that can't be read.
fn bad_line(heap: Global, line: &[u8], input: Input, suffix: &str) -> Result<Vec<u8>, AllocError> {
    let name = input.name();
    let bad = format!(in heap; " bad={name}{suffix}")?;
    let mut bytes = Vec::from_slice(heap, line)?;
    bytes.extend_from_slice(bad.as_bytes())?;
    Ok(bytes)
}

fn answer_text(heap: Global, line: &str) -> Result<Vec<u8>, AllocError> {
    let mut case = Case::new(heap, line);
    match run_case(&mut case) {
        Ok(()) => case.finish(),
        Err(CaseFault::Bad(input)) => bad_line(heap, line.as_bytes(), input, case.suffix()),
        Err(CaseFault::Memory(error)) => Err(error),
    }
}

// A line that is no text has no kind that can be read.
pub fn answer_line(heap: Global, line: &[u8]) -> Result<Vec<u8>, AllocError> {
    match std::str::from_utf8(line) {
        Ok(text) => answer_text(heap, text),
        Err(_) => bad_line(heap, line, Input::Kind, ""),
    }
}

// Sealing, opening what came out, and opening it under another tag.
use crate::input::Input;
use crate::line::{Case, CaseFault, OUT_FILL, WORK_FILL};
use crate::pick::{AnyMode, read_endless};
use crate::refused::put_fault;
use crate::set_case::read_set;
use mode::checks::WORK_LENGTH;
use mode::count::RunCount;
use mode::fault::ModeFault;
use mode::interface::Mode;
use mode::set::ParameterSet;

// What is sealed and opened.
#[derive(Drop)]
struct Message {
    nonce: Vec<u8>,
    label: Vec<u8>,
    contents: Vec<u8>,
}

// What came out of sealing.
#[derive(Drop)]
struct Sealed {
    ciphertext: Vec<u8>,
    tag: Vec<u8>,
}

pub fn run_round(case: &mut Case) -> Result<(), CaseFault> {
    let mut mode = read_endless(case)?;
    let set = read_set(case)?;
    let message = Message {
        nonce: case.bytes(Input::Nonce)?,
        label: case.bytes(Input::Label)?,
        contents: case.bytes(Input::Contents)?,
    };
    match set {
        Ok(set) => seal(case, &mut mode, &set, &message),
        Err(fault) => put_fault(case, &fault),
    }
}

fn seal(
    case: &mut Case,
    mode: &mut AnyMode,
    set: &ParameterSet,
    message: &Message,
) -> Result<(), CaseFault> {
    let mut sealed = Sealed {
        ciphertext: vec![in case.heap(); OUT_FILL; message.contents.len()]?,
        tag: vec![in case.heap(); OUT_FILL; set.tag()]?,
    };
    let mut work = [WORK_FILL; WORK_LENGTH];
    let answer = mode.seal(
        set,
        message.nonce.as_slice(),
        message.label.as_slice(),
        message.contents.as_slice(),
        sealed.ciphertext.as_mut_slice(),
        sealed.tag.as_mut_slice(),
        &mut work,
    );
    match answer {
        Ok(count) => {
            case.see_accepted(&[], &work);
            case.put_bytes("ciphertext", sealed.ciphertext.as_slice())?;
            case.put_bytes("tag", sealed.tag.as_slice())?;
            put_count(case, mode, RunCount::Sealing, message, Some(count))?;
            open(case, mode, set, message, &sealed)?;
            open_wrong(case, mode, set, message, sealed)
        }
        Err(fault) => {
            case.see_refused(fault, sealed.ciphertext.as_slice(), &work);
            put_fault(case, &fault)
        }
    }
}

// The field of a count.
fn name_of(which: RunCount) -> &'static str {
    match which {
        RunCount::Sealing => "seal",
        RunCount::Opening => "open",
        RunCount::WrongTag => "refused",
    }
}

// The count of a call that came out as it has to, if asking for it gives the same.
fn put_count(
    case: &mut Case,
    mode: &AnyMode,
    which: RunCount,
    message: &Message,
    count: Option<u64>,
) -> Result<(), CaseFault> {
    let asked = mode.count(which, message.label.len(), message.contents.len());
    match count {
        Some(count) if asked == Ok(count) => case.put_number(name_of(which), count),
        _ => case.put(name_of(which), "differs"),
    }
}

// What opening answers, and the output part.
fn try_open(
    case: &mut Case,
    mode: &mut AnyMode,
    set: &ParameterSet,
    message: &Message,
    sealed: &Sealed,
) -> Result<(Result<u64, ModeFault>, Vec<u8>), CaseFault> {
    let mut out = vec![in case.heap(); OUT_FILL; sealed.ciphertext.len()]?;
    let mut work = [WORK_FILL; WORK_LENGTH];
    let answer = mode.open(
        set,
        message.nonce.as_slice(),
        message.label.as_slice(),
        sealed.ciphertext.as_slice(),
        sealed.tag.as_slice(),
        out.as_mut_slice(),
        &mut work,
    );
    case.see_accepted(&[], &work);
    Ok((answer, out))
}

// Opens what sealing gave: the contents come back.
fn open(
    case: &mut Case,
    mode: &mut AnyMode,
    set: &ParameterSet,
    message: &Message,
    sealed: &Sealed,
) -> Result<(), CaseFault> {
    let (answer, out) = try_open(case, mode, set, message, sealed)?;
    let came_back = out.as_slice() == message.contents.as_slice();
    let count = answer.ok().filter(|_| came_back);
    put_count(case, mode, RunCount::Opening, message, count)
}

// Opens it with every byte of the tag changed: refused by 12.
fn open_wrong(
    case: &mut Case,
    mode: &mut AnyMode,
    set: &ParameterSet,
    message: &Message,
    mut sealed: Sealed,
) -> Result<(), CaseFault> {
    for byte in sealed.tag.as_mut_slice() {
        *byte ^= 0x80;
    }
    let (answer, out) = try_open(case, mode, set, message, &sealed)?;
    case.see_out(out.as_slice());
    let count = match answer {
        Err(ModeFault::Tag(count)) => Some(count),
        _ => None,
    };
    put_count(case, mode, RunCount::WrongTag, message, count)
}

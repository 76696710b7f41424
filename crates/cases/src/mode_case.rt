// One call of a mode, to seal or to open.
use crate::input::Input;
use crate::line::{Case, CaseFault, OUT_FILL, WORK_FILL};
use crate::pick::{AnyMode, read_metered};
use crate::refused::put_fault;
use crate::set_case::read_set;
use cipher::interface::Allowance;
use mode::fault::ModeFault;
use mode::interface::Mode;
use mode::set::ParameterSet;

// What both calls are given, and the parts that they are lent.
#[derive(Drop)]
struct Lent {
    nonce: Vec<u8>,
    label: Vec<u8>,
    // the contents or the ciphertext
    text: Vec<u8>,
    out: Vec<u8>,
    work: Vec<u8>,
    // the tag, or the part for it
    tag: Vec<u8>,
}

pub fn run_call(case: &mut Case) -> Result<(), CaseFault> {
    match case.text(Input::Op)? {
        "seal" => run_with(case, |case| case.part(Input::TagPart, OUT_FILL), seal),
        "open" => run_with(case, |case| case.bytes(Input::Tag), open),
        _ => Err(CaseFault::Bad(Input::Op)),
    }
}

// The call with the next inputs, of which the tag comes last.
fn run_with<
    T: FnOnce(&mut Case) -> Result<Vec<u8>, CaseFault>,
    C: FnOnce(&mut Case, &mut AnyMode, &ParameterSet, Lent) -> Result<(), CaseFault>,
>(case: &mut Case, tag: T, call: C) -> Result<(), CaseFault>
    requires tag { T.IsAlwaysCallable tag }
    requires call { C.IsAlwaysCallable call }
{
    let mut mode = read_metered(case)?;
    let set = read_set(case)?;
    let lent = Lent {
        nonce: case.bytes(Input::Nonce)?,
        label: case.bytes(Input::Label)?,
        text: read_text(case)?,
        out: case.part(Input::Out, OUT_FILL)?,
        work: case.part(Input::Work, WORK_FILL)?,
        tag: tag(case)?,
    };
    match set {
        Ok(set) => call(case, &mut mode, &set, lent)?,
        Err(fault) => put_fault(case, &fault)?,
    }
    case.put_number("left", mode.left())
}

// Bytes, or the number of zeros that they are.
fn read_text(case: &mut Case) -> Result<Vec<u8>, CaseFault> {
    if case.next_is(Input::Zeros) {
        case.part(Input::Zeros, 0)
    } else {
        case.bytes(Input::Text)
    }
}

fn seal(
    case: &mut Case,
    mode: &mut AnyMode,
    set: &ParameterSet,
    mut lent: Lent,
) -> Result<(), CaseFault> {
    let answer = mode.seal(
        set,
        lent.nonce.as_slice(),
        lent.label.as_slice(),
        lent.text.as_slice(),
        lent.out.as_mut_slice(),
        lent.tag.as_mut_slice(),
        lent.work.as_mut_slice(),
    );
    put_answer(case, answer, "ciphertext", &lent)?;
    if answer.is_ok() {
        return case.put_bytes("tag", lent.tag.as_slice());
    }
    case.see_out(lent.tag.as_slice());
    Ok(())
}

fn open(
    case: &mut Case,
    mode: &mut AnyMode,
    set: &ParameterSet,
    mut lent: Lent,
) -> Result<(), CaseFault> {
    let answer = mode.open(
        set,
        lent.nonce.as_slice(),
        lent.label.as_slice(),
        lent.text.as_slice(),
        lent.tag.as_slice(),
        lent.out.as_mut_slice(),
        lent.work.as_mut_slice(),
    );
    put_answer(case, answer, "contents", &lent)
}

// What a call answered: its count and the output part, which has this name, or why it was refused.
fn put_answer(
    case: &mut Case,
    answer: Result<u64, ModeFault>,
    name: &str,
    lent: &Lent,
) -> Result<(), CaseFault> {
    let out = lent.out.as_slice();
    let work = lent.work.as_slice();
    match answer {
        Ok(count) => {
            case.see_accepted(&[], work);
            case.put("res", "ok")?;
            case.put_number("count", count)?;
            case.put_bytes(name, out)
        }
        Err(fault) => {
            case.see_refused(fault, out, work);
            put_fault(case, &fault)
        }
    }
}

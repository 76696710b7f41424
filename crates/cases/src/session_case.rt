// Calls of one receiving end.
use crate::input::Input;
use crate::line::{Case, CaseFault, OUT_FILL, WORK_FILL, number_in};
use crate::pick::{AnyMode, read_metered};
use crate::refused::put_fault;
use crate::set_case::read_set;
use cipher::interface::Allowance;
use mode::set::ParameterSet;
use receiver::answer::Opened;
use receiver::end::End;
use receiver::states::Listening;

// How many numbers a ledger has marks of.
const WINDOW: u64 = 64;

pub fn run_session(case: &mut Case) -> Result<(), CaseFault> {
    let mut mode = read_metered(case)?;
    let set = read_set(case)?;
    if case.number(Input::Window)? != WINDOW {
        return Err(CaseFault::Bad(Input::Window));
    }
    let floor = case.number(Input::Floor)?;
    let steps = number_in(case.ask(Input::Steps)?, Input::Steps)?;
    match set {
        Ok(set) => listen(case, &mut mode, set, floor, steps),
        Err(fault) => {
            case.put_number("steps", steps)?;
            put_fault(case, &fault)
        }
    }
}

fn listen(
    case: &mut Case,
    mode: &mut AnyMode,
    set: ParameterSet,
    floor: u64,
    steps: u64,
) -> Result<(), CaseFault> {
    match Listening::new(set, floor) {
        Ok(end) => {
            case.put("res", "ok")?;
            case.put_number("steps", steps)?;
            run_steps(case, mode, end, steps)
        }
        Err(fault) => {
            case.put_number("steps", steps)?;
            put_fault(case, &fault)
        }
    }
}

fn run_steps(
    case: &mut Case,
    mode: &mut AnyMode,
    end: Listening,
    steps: u64,
) -> Result<(), CaseFault> {
    let mut end = End::Listens(end);
    for i in 0..steps {
        case.step(i)?;
        end = run_step(case, mode, end)?;
        case.put_number("left", mode.left())?;
    }
    Ok(())
}

// A call that the state does not admit can't be made, so its step can't be read.
fn run_step(case: &mut Case, mode: &mut AnyMode, end: End) -> Result<End, CaseFault> {
    match (end, case.text(Input::Op)?) {
        (End::Listens(end), "open") => open(case, mode, end),
        (End::Holds(end), "sign") => put_ledger(case, end.sign()),
        (End::Holds(end), "return") => put_ledger(case, end.give_back()),
        _ => Err(CaseFault::Bad(Input::Op)),
    }
}

fn put_ledger(case: &mut Case, end: Listening) -> Result<End, CaseFault> {
    case.put_number("h", end.high())?;
    case.put_number("marks", end.marks())?;
    Ok(End::Listens(end))
}

fn open(case: &mut Case, mode: &mut AnyMode, end: Listening) -> Result<End, CaseFault> {
    let tube = case.bytes(Input::Tube)?;
    let mut out = case.part(Input::Out, OUT_FILL)?;
    let mut work = case.part(Input::Work, WORK_FILL)?;
    let answer = end.open(
        mode,
        tube.as_slice(),
        out.as_mut_slice(),
        work.as_mut_slice(),
    );
    match answer {
        Ok((held, opened)) => {
            put_opened(case, opened, out.as_slice(), work.as_slice())?;
            Ok(End::Holds(held))
        }
        Err((end, fault)) => {
            case.see_refused(fault, out.as_slice(), work.as_slice());
            put_fault(case, &fault)?;
            Ok(End::Listens(end))
        }
    }
}

fn put_opened(case: &mut Case, opened: Opened, out: &[u8], work: &[u8]) -> Result<(), CaseFault> {
    let (contents, beyond) = out.split_at(opened.contents_len.min(out.len()));
    case.see_accepted(beyond, work);
    case.put("res", "ok")?;
    case.put_number("number", opened.number)?;
    case.put_number("place", opened.label.at as u64)?;
    case.put_number("label", opened.label.len as u64)?;
    case.put_number("length", opened.contents_len as u64)?;
    case.put_number("count", opened.count)?;
    case.put_bytes("contents", contents)
}

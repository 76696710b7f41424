// Sends of one sending end.
use crate::input::Input;
use crate::line::{Case, CaseFault, OUT_FILL, WORK_FILL};
use crate::pick::{AnyMode, read_metered};
use crate::refused::put_fault;
use crate::set_case::read_set;
use cipher::interface::Allowance;
use sender::sending::Sending;
use sender::sent::Sent;

pub fn run_sends(case: &mut Case) -> Result<(), CaseFault> {
    let mut mode = read_metered(case)?;
    let set = read_set(case)?;
    let start = case.number(Input::Start)?;
    let steps = case.number(Input::Steps)?;
    match set {
        Ok(set) => match Sending::new(set, start) {
            Ok(end) => {
                case.put("res", "ok")?;
                send_all(case, &mut mode, end, steps)
            }
            Err(fault) => put_fault(case, &fault),
        },
        Err(fault) => put_fault(case, &fault),
    }
}

fn send_all(
    case: &mut Case,
    mode: &mut AnyMode,
    mut end: Sending,
    steps: u64,
) -> Result<(), CaseFault> {
    for i in 0..steps {
        case.step(i)?;
        match case.text(Input::Op)? {
            "send" => send_one(case, mode, &mut end)?,
            _ => return Err(CaseFault::Bad(Input::Op)),
        }
        case.put_number("left", mode.left())?;
    }
    Ok(())
}

fn send_one(case: &mut Case, mode: &mut AnyMode, end: &mut Sending) -> Result<(), CaseFault> {
    let label = case.bytes(Input::Label)?;
    let contents = case.bytes(Input::Contents)?;
    let mut out = case.part(Input::Out, OUT_FILL)?;
    let mut work = case.part(Input::Work, WORK_FILL)?;
    let answer = end.send(
        mode,
        label.as_slice(),
        contents.as_slice(),
        out.as_mut_slice(),
        work.as_mut_slice(),
    );
    match answer {
        Ok(sent) => put_sent(case, sent, out.as_slice(), work.as_slice()),
        Err(fault) => {
            case.see_refused(fault, out.as_slice(), work.as_slice());
            put_fault(case, &fault)
        }
    }
}

fn put_sent(case: &mut Case, sent: Sent, out: &[u8], work: &[u8]) -> Result<(), CaseFault> {
    let (wire, beyond) = out.split_at(sent.len.min(out.len()));
    case.see_accepted(beyond, work);
    case.put("res", "ok")?;
    case.put_number("length", sent.len as u64)?;
    case.put_number("count", sent.count)?;
    case.put_bytes("wire", wire)
}

// The five sections of a tube.
use crate::input::Input;
use crate::line::{Case, CaseFault};
use crate::refused::put_fault;
use tube::reading::read;
use tube::tube::Tube;

// The first section's bytes stand behind its count, which is the first four bytes.
const SET_AT: u64 = 4;

pub fn run_tube(case: &mut Case) -> Result<(), CaseFault> {
    let wire = case.bytes(Input::Wire)?;
    match read(wire.as_slice()) {
        Ok(tube) => {
            case.put("res", "ok")?;
            put_sections(case, &tube, wire.as_slice())?;
            put_places(case, &tube)
        }
        Err(fault) => put_fault(case, &fault),
    }
}

fn put_sections(case: &mut Case, tube: &Tube, wire: &[u8]) -> Result<(), CaseFault> {
    case.put_number("code", u64::from(tube.code))?;
    case.put_number("param", u64::from(tube.param))?;
    case.put_bytes("number", tube.nonce.part(wire))?;
    case.put_bytes("label", tube.label.part(wire))?;
    case.put_bytes("contents", tube.contents.part(wire))?;
    case.put_bytes("tag", tube.tag.part(wire))
}

fn put_places(case: &mut Case, tube: &Tube) -> Result<(), CaseFault> {
    case.put_number("p1", SET_AT)?;
    case.put_number("p2", tube.nonce.at as u64)?;
    case.put_number("p3", tube.label.at as u64)?;
    case.put_number("p4", tube.contents.at as u64)?;
    case.put_number("p5", tube.tag.at as u64)
}

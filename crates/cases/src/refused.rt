// Refusals as a line tells them, by what the faults themselves answer.
use crate::line::{Case, CaseFault};
use link::fault::EndFault;
use mode::fault::ModeFault;
use refusal::interface::Refusal;
use refusal::values::Values;
use tube::fault::TubeFault;

// A refusal of a mode, of a tube's form or of an end.
pub trait Told: Refusal {
    // The layers that carry it where it is told.
    fn carriers(&self) -> &'static str;
}

impl Told for ModeFault {
    fn carriers(&self) -> &'static str {
        match self {
            ModeFault::Cipher(_) => ">mode",
            _ => "",
        }
    }
}

impl Told for TubeFault {
    fn carriers(&self) -> &'static str {
        ""
    }
}

impl Told for EndFault {
    fn carriers(&self) -> &'static str {
        match self {
            EndFault::Mode(ModeFault::Cipher(_)) => ">mode>end",
            EndFault::Mode(_) | EndFault::Tube(_) => ">end",
            _ => "",
        }
    }
}

// The number, which is decimal, the values, and the layers: the one that the fault names, and those that carry it.
pub fn put_fault<F: Told>(case: &mut Case, told: &F) -> Result<(), CaseFault> {
    let carriers = told.carriers();
    let layer = told.layer();
    case.put("res", told.number())?;
    match told.values() {
        Values::None => case.put("vals", "")?,
        Values::One(a) => case.put_number("vals", a)?,
        Values::Two(a, b) => case.put("vals", format_args!("{a:x},{b:x}"))?,
    }
    case.put("layers", format_args!("{layer}{carriers}"))
}

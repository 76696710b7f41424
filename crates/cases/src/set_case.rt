// The rule of sets, and the sets that can be looked up.
use crate::input::Input;
use crate::line::{Case, CaseFault};
use crate::refused::put_fault;
use mode::fault::ModeFault;
use mode::lookup::lookup;
use mode::set::ParameterSet;

// The set of the next five inputs, or why there is none.
pub fn read_set(case: &mut Case) -> Result<Result<ParameterSet, ModeFault>, CaseFault> {
    let code = case.byte(Input::Code)?;
    let width = case.byte(Input::Width)?;
    let nonce = case.byte(Input::NonceLength)?;
    let tag = case.byte(Input::TagLength)?;
    let param = case.byte(Input::Param)?;
    Ok(ParameterSet::new(code, width, nonce, tag, param))
}

pub fn run_setrule(case: &mut Case) -> Result<(), CaseFault> {
    match read_set(case)? {
        Ok(_) => case.put("res", "ok"),
        Err(fault) => put_fault(case, &fault),
    }
}

pub fn run_lookup(case: &mut Case) -> Result<(), CaseFault> {
    let code = case.byte(Input::Code)?;
    let cipher = case.text(Input::Cipher)?;
    let nonce = case.byte(Input::NonceLength)?;
    let tag = case.byte(Input::TagLength)?;
    match lookup(code, cipher, nonce, tag) {
        Some(set) => {
            case.put("res", "ok")?;
            case.put_number("width", u64::from(set.width()))?;
            case.put_number("param", u64::from(set.param()))
        }
        None => case.put("res", "none"),
    }
}

// The checks of a call, which every mode and both ends make, each in the order of its table.
ghost use Rattle.std.specs.Prelude.{◌≡◌, ◌≤◌, OnOk};
ghost use Rattle.mode.specs.Causes.{checked, work_causes, foreign_causes, limit_causes, fit_causes, left_causes, Fits};

use crate::fault::ModeFault;
use crate::set::ParameterSet;

// How many bytes of work memory every call is lent.
pub const WORK_LENGTH: usize = 64;

// The longest label and the longest contents.
pub const LABEL_LIMIT: usize = 4096;

pub const CONTENTS_LIMIT: usize = 1_048_576;

// Check 6: work memory of this many bytes.
pub fn check_work(work: usize) -> Result<(), ModeFault>
    ensures answers { result ≡ checked (work_causes work) }
    ensures admits { OnOk result (work ≡ 64) }
{
    if work != WORK_LENGTH {
        return Err(ModeFault::Work(work));
    }
    Ok(())
}

// Check 7: whether the set is that of a mode of this code and width.
pub fn check_set(code: u8, width: u8, set: &ParameterSet) -> Result<(), ModeFault>
    ensures answers { result ≡ checked (foreign_causes code width «set».now) }
    ensures admits { OnOk result ((«set».now.code ≡ code) × («set».now.width ≡ width)) }
{
    if set.code() != code {
        return Err(ModeFault::Foreign(code, width));
    }
    if set.width() != width {
        return Err(ModeFault::Foreign(code, width));
    }
    Ok(())
}

// Check 9: the lengths of label and contents.
pub fn check_limits(label: usize, contents: usize) -> Result<(), ModeFault>
    ensures answers { result ≡ checked (limit_causes label contents) }
    ensures admits { OnOk result ((label ≤ 4096) × (contents ≤ 1048576)) }
{
    if label > LABEL_LIMIT {
        return Err(ModeFault::Long(label, contents));
    }
    if contents > CONTENTS_LIMIT {
        return Err(ModeFault::Long(label, contents));
    }
    Ok(())
}

// Checks 7 to 10 of a mode's call: the set, and the lengths of nonce, label, contents, output part and tag.
// Kept: eight arguments, since a struct of the five lengths would be made for one call.
pub fn check_fit(
    code: u8,
    width: u8,
    set: &ParameterSet,
    nonce: usize,
    label: usize,
    contents: usize,
    out: usize,
    tag: usize,
) -> Result<(), ModeFault>
    ensures answers { result ≡ checked (fit_causes code width «set».now nonce label contents out tag) }
    ensures admits { OnOk result (Fits code width «set».now nonce label contents out tag) }
{
    check_set(code, width, set)?;
    if nonce != set.nonce() {
        return Err(ModeFault::Nonce(nonce));
    }
    check_limits(label, contents)?;
    if out != contents {
        return Err(ModeFault::Part(contents));
    }
    if tag != set.tag() {
        return Err(ModeFault::Part(set.tag()));
    }
    Ok(())
}

// Check 11: the count of the call, if it is accepted, against what is left.
pub fn check_left(count: u64, left: u64) -> Result<(), ModeFault>
    ensures answers { result ≡ checked (left_causes count left) }
    ensures admits { OnOk result (count ≤ left) }
{
    if count > left {
        return Err(ModeFault::Short(count, left));
    }
    Ok(())
}

// The checks of an open, in the order of its table, and the mode's call.
ghost use Rattle.std.specs.Prelude.{◌≡◌, ◌^◌, ◌<◌, ◌≤◌, length, IfOk, Ok, Err, OnOk};
ghost use Rattle.refusal.specs.Cause.{first, unless};
ghost use Rattle.ledger.specs.Calls.{MaySign};
ghost use Rattle.ledger.specs.Marks.{by_marks};
ghost use Rattle.mode.specs.Causes.{left_causes};
ghost use Rattle.tube.specs.Read.{parsed, Within};
ghost use Rattle.receiver.specs.Open.{carried, ours_causes, number_causes, due_causes, sections, checked, answer_of, out_of, left_of, last_verdict};
ghost use Rattle.receiver.specs.Step.{Fitting, Fits};

use crate::answer::Opened;
use ledger::ledger::Ledger;
use ledger::standing::Standing;
use link::fault::EndFault;
use mode::checks::check_left;
use mode::count::RunCount;
use mode::fault::ModeFault;
use mode::interface::Mode;
use mode::set::ParameterSet;
use tube::fault::Section;
use tube::reading::read;
use tube::tube::Tube;

// Check 15: whether a tube is of the end's set, section by section.
fn check_ours(set: &ParameterSet, tube: &Tube) -> Result<(), EndFault>
    ensures answers { result ≡ checked (ours_causes «set».now tube.now) }
    ensures admits { OnOk result ((tube.now.nonce.len ≡ «set».now.nonce) × (tube.now.tag.len ≡ «set».now.tag)) }
{
    if tube.code != set.code() || tube.param != set.param() {
        return Err(EndFault::Differs(Section::Set));
    }
    if tube.nonce.len != set.nonce() {
        return Err(EndFault::Differs(Section::Number));
    }
    if tube.tag.len != set.tag() {
        return Err(EndFault::Differs(Section::Tag));
    }
    Ok(())
}

// Checks 16, 17 and 18: whether the number is one of the link's, and may be signed.
fn check_number(ledger: &Ledger, number: u128) -> Result<(), EndFault>
    ensures answers { result ≡ checked (number_causes ledger.now.limit ledger.now.high (by_marks ledger.now.high ledger.now.marks number) number) }
    ensures admits { OnOk result ((number < 2 ^ 64) × MaySign ledger.now number) }
{
    if number < 1 || number > ledger.limit() as u128 {
        return Err(EndFault::Range);
    }
    let number = number as u64;
    match ledger.standing(number) {
        Standing::Old => Err(EndFault::Old(number, ledger.high())),
        Standing::Signed => Err(EndFault::Signed(number)),
        Standing::Open => Ok(()),
    }
}

// Checks 14 to 18: reads the tube, if it has the form and is due.
pub(crate) fn admit(set: &ParameterSet, ledger: &Ledger, bytes: &[u8]) -> Result<Tube, EndFault>
    ensures answers { result ≡ unless (first (due_causes «set».now ledger.now.limit ledger.now.high (by_marks ledger.now.high ledger.now.marks) (parsed bytes.now))) Err (Ok (sections (parsed bytes.now))) }
    ensures admits { IfOk result (Fitting «set».now ledger.now (length bytes.now)) }
{
    let tube = read(bytes)?;
    check_ours(set, &tube)?;
    check_number(ledger, tube.number)?;
    Ok(tube)
}

// Check 11: the runs of an accepted open against what is left.
fn check_runs<M: Mode>(mode: &M, label: usize, contents: usize) -> Result<(), EndFault>
    requires { (label ≤ 4096) × (contents ≤ 1048576) }
    ensures answers { result ≡ checked (carried (left_causes ((M.Mode.meaning mode.now).open_runs label contents) (M.Allowance.remaining mode.now))) }
    ensures admits { OnOk result ((M.Mode.meaning mode.now).open_runs label contents ≤ M.Allowance.remaining mode.now) }
{
    let count = mode.count(RunCount::Opening, label, contents)?;
    check_left(count, mode.left())?;
    Ok(())
}

// Checks 10 to 12 of a tube that is due, and its contents.
pub(crate) fn finish<M: Mode>(
    mode: &mut M,
    set: &ParameterSet,
    tube: Tube,
    bytes: &[u8],
    out: &mut [u8],
    work: &mut [u8],
) -> Result<Opened, EndFault>
    requires within { Within tube (length bytes.now) }
    requires small { tube.number < 2 ^ 64 }
    requires work { length work.old ≡ 64 }
    requires mode { («set».now.code ≡ (M.Mode.meaning mode.old).code) × («set».now.width ≡ (M.Mode.meaning mode.old).width) }
    requires tube { (tube.nonce.len ≡ «set».now.nonce) × (tube.tag.len ≡ «set».now.tag) }
    ensures answers { result ≡ answer_of (last_verdict (M.Mode.meaning mode.old) (M.Allowance.remaining mode.old) «set».now bytes.now (length out.old) tube) }
    ensures out { out.new ≡ out_of (last_verdict (M.Mode.meaning mode.old) (M.Allowance.remaining mode.old) «set».now bytes.now (length out.old) tube) out.old }
    ensures left { M.Allowance.remaining mode.new ≡ left_of (last_verdict (M.Mode.meaning mode.old) (M.Allowance.remaining mode.old) «set».now bytes.now (length out.old) tube) (M.Allowance.remaining mode.old) }
    ensures same { M.Mode.meaning mode.new ≡ M.Mode.meaning mode.old }
    ensures fits { Fits (length bytes.now) (length out.old) result }
{
    let size = tube.contents.len;
    if out.len() < size {
        return Err(EndFault::Mode(ModeFault::Part(size)));
    }
    check_runs(mode, tube.label.len, size)?;
    let nonce = tube.nonce.part(bytes);
    let label = tube.label.part(bytes);
    let contents = tube.contents.part(bytes);
    let tag = tube.tag.part(bytes);
    let count = mode.open(set, nonce, label, contents, tag, &mut out[0..size], work)?;
    Ok(Opened {
        number: tube.number as u64,
        label: tube.label,
        contents_len: size,
        count,
    })
}

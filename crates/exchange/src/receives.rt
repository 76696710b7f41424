// The calls of a receiving end in an exchange.
ghost use Rattle.std.specs.Prelude.{◌≡◌, ◌+◌, ◌-◌, ◌≤◌, false, map, length, take, drop};
ghost use Rattle.mode.specs.Work.{work_after};
ghost use Rattle.receiver.specs.Run.{listening};
ghost use Rattle.exchange.specs.Receives.{Fits, Lined, held_after, size_of, call_in, work_of_line, work_after_receives};
ghost use Rattle.exchange.specs.Leads.{Tried, Placed, Leads, LeadsAll, state_in, holds, reach};
ghost use Rattle.exchange.specs.declared.records.ReceiveCall.TheVariants.{Open as Opens};

use crate::places::open_lies;
use crate::records::{OpenOrder, ReceiveCall, ReceiveLine, ReceiveOutcome};
use mode::interface::Mode;
use receiver::end::End;
use receiver::states::Listening;

// An open, its contents at a place of the output part.
// Kept: mode, wire, output part and work memory one by one, here and in the next three, since a struct would hold three `&mut`.
fn tried<M: Mode>(
    end: Listening,
    mode: &mut M,
    tube: &[u8],
    out: &mut [u8],
    used: usize,
    room: usize,
    work: &mut [u8],
) -> (End, ReceiveOutcome)
    requires { used + room ≤ length out.old }
    ensures same { M.Mode.meaning mode.new ≡ M.Mode.meaning mode.old }
    ensures runs { Tried (M.Mode.meaning mode.old) tube.now room (length work.old) out.new (listening end) (M.Allowance.remaining mode.old) result.1 (state_in result.0) (M.Allowance.remaining mode.new) }
    ensures placed { Placed used result.1 }
    ensures held { holds result.0 ≡ held_after false result.1 }
    ensures fits { size_of result.1 ≤ room }
    ensures front { take used out.new ≡ take used out.old }
    ensures rest { drop (used + size_of result.1) out.new ≡ drop (used + size_of result.1) out.old }
    ensures work { work.new ≡ work_after work.old }
{
    let to = used + room;
    // Kept: each pair is taken apart in a step of its own, since by a pattern in the arm the clause `runs` of a refusal stays open.
    match end.open(mode, tube, &mut out[used..to], work) {
        Ok(pair) => {
            let (held, answer) = pair;
            (End::Holds(held), ReceiveOutcome::Handed(answer, used))
        }
        Err(pair) => {
            let (end, fault) = pair;
            (End::Listens(end), ReceiveOutcome::Refused(fault))
        }
    }
}

// An open of a part of the wire, if it lies in the parts lent.
fn attempt<M: Mode>(
    end: Listening,
    order: OpenOrder,
    mode: &mut M,
    wire: &[u8],
    out: &mut [u8],
    used: usize,
    work: &mut [u8],
) -> (End, ReceiveOutcome)
    requires { used ≤ length out.old }
    ensures same { M.Mode.meaning mode.new ≡ M.Mode.meaning mode.old }
    ensures runs { Leads (M.Mode.meaning mode.old) wire.now out.new (Opens order) (listening end) (M.Allowance.remaining mode.old) result.1 (state_in result.0) (M.Allowance.remaining mode.new) }
    ensures lined { Fits (length wire.now) (length out.old - used) (length work.old) false used (Opens order) result.1 }
    ensures held { holds result.0 ≡ held_after false result.1 }
    ensures fits { used + size_of result.1 ≤ length out.old }
    ensures front { take used out.new ≡ take used out.old }
    ensures rest { drop (used + size_of result.1) out.new ≡ drop (used + size_of result.1) out.old }
    ensures work { work.new ≡ work_of_line (Opens order) result.1 work.old }
{
    if !open_lies(order, wire.len(), out.len() - used, work.len()) {
        return (End::Listens(end), ReceiveOutcome::Passed);
    }
    let size = order.work;
    tried(
        end,
        mode,
        order.tube.part(wire),
        out,
        used,
        order.room,
        &mut work[0..size],
    )
}

// One call, if the state admits it.
fn step<M: Mode>(
    end: End,
    call: ReceiveCall,
    mode: &mut M,
    wire: &[u8],
    out: &mut [u8],
    used: usize,
    work: &mut [u8],
) -> (End, ReceiveOutcome)
    requires { used ≤ length out.old }
    ensures same { M.Mode.meaning mode.new ≡ M.Mode.meaning mode.old }
    ensures runs { Leads (M.Mode.meaning mode.old) wire.now out.new call (state_in end) (M.Allowance.remaining mode.old) result.1 (state_in result.0) (M.Allowance.remaining mode.new) }
    ensures lined { Fits (length wire.now) (length out.old - used) (length work.old) (holds end) used call result.1 }
    ensures held { holds result.0 ≡ held_after (holds end) result.1 }
    ensures fits { used + size_of result.1 ≤ length out.old }
    ensures front { take used out.new ≡ take used out.old }
    ensures rest { drop (used + size_of result.1) out.new ≡ drop (used + size_of result.1) out.old }
    ensures work { work.new ≡ work_of_line call result.1 work.old }
{
    match (end, call) {
        (End::Listens(end), ReceiveCall::Open(order)) => {
            attempt(end, order, mode, wire, out, used, work)
        }
        (End::Holds(held), ReceiveCall::Sign) => {
            let number = held.number();
            (End::Listens(held.sign()), ReceiveOutcome::Signed(number))
        }
        (End::Holds(held), ReceiveCall::GiveBack) => {
            (End::Listens(held.give_back()), ReceiveOutcome::GivenBack)
        }
        (end, _) => (end, ReceiveOutcome::Passed),
    }
}

// Every call in turn, as many as there are lines for.
pub(crate) fn receive_all<M: Mode>(
    mut end: End,
    mode: &mut M,
    wire: &[u8],
    calls: &[ReceiveCall],
    out: &mut [u8],
    work: &mut [u8],
    lines: &mut [ReceiveLine],
) -> End
    ensures same { M.Mode.meaning mode.new ≡ M.Mode.meaning mode.old }
    ensures asked { map call_in (take (length calls.now) lines.new) ≡ take (length lines.old) calls.now }
    ensures runs { LeadsAll (M.Mode.meaning mode.old) wire.now out.new (state_in end) (M.Allowance.remaining mode.old) (take (length calls.now) lines.new) (state_in result) (M.Allowance.remaining mode.new) }
    ensures lined { Lined (length wire.now) (length out.old) (length work.old) (holds end) 0 (take (length calls.now) lines.new) }
    ensures kept { drop (length calls.now) lines.new ≡ drop (length calls.now) lines.old }
    ensures fits { reach 0 (take (length calls.now) lines.new) ≤ length out.old }
    ensures rest { drop (reach 0 (take (length calls.now) lines.new)) out.new ≡ drop (reach 0 (take (length calls.now) lines.new)) out.old }
    ensures work { work.new ≡ work_after_receives (take (length calls.now) lines.new) work.old }
{
    // Kept: the line by its place, since after a zip with `lines.iter_mut()` nothing is known of the lines (open: the clause `asked`).
    let n = calls.len().min(lines.len());
    let mut used = 0;
    for (i, &call) in calls[..n].iter().enumerate() {
        let (next, outcome) = step(end, call, mode, wire, out, used, work);
        end = next;
        lines[i] = ReceiveLine { call, outcome };
        used += outcome.length();
    }
    end
}

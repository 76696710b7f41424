// The sends of an exchange.
ghost use Rattle.std.specs.Prelude.{◌≡◌, ◌+◌, ◌-◌, ◌≤◌, min, [], ◌++◌, length, take, drop, if◌then◌else◌};
ghost use Rattle.tube.specs.Put.{Laid};
ghost use Rattle.sender.specs.Send.{send_left, send_next};
ghost use Rattle.exchange.specs.Sends.{lies, verdict_to, outcome_of, tube_in, len_of, work_by, send_all, bytes_of, work_after_sends};
ghost use Rattle.exchange.specs.declared.records.SendOutcome.TheVariants.{Passed};

use crate::places::order_lies;
use crate::records::{SendLine, SendOrder, SendOutcome};
use mode::interface::Mode;
use sender::sending::Sending;

// One order, its tube after the first bytes of the wire, which are used.
fn send_one<S: Mode>(
    end: &mut Sending,
    mode: &mut S,
    bytes: &[u8],
    order: SendOrder,
    wire: &mut [u8],
    used: usize,
    work: &mut [u8],
) -> SendOutcome
    requires { used ≤ length wire.old }
    ensures came { result ≡ (if lies (length bytes.now) (length wire.old - used) (length work.old) order then outcome_of (verdict_to (S.Mode.meaning mode.old) (S.Allowance.remaining mode.old) end.old.«set» end.old.next bytes.now order) else Passed) }
    ensures wire { Laid used (if lies (length bytes.now) (length wire.old - used) (length work.old) order then tube_in (verdict_to (S.Mode.meaning mode.old) (S.Allowance.remaining mode.old) end.old.«set» end.old.next bytes.now order) else []) wire.old wire.new }
    ensures left { S.Allowance.remaining mode.new ≡ (if lies (length bytes.now) (length wire.old - used) (length work.old) order then send_left (verdict_to (S.Mode.meaning mode.old) (S.Allowance.remaining mode.old) end.old.«set» end.old.next bytes.now order) (S.Allowance.remaining mode.old) else S.Allowance.remaining mode.old) }
    ensures next { end.new.next ≡ (if lies (length bytes.now) (length wire.old - used) (length work.old) order then send_next (verdict_to (S.Mode.meaning mode.old) (S.Allowance.remaining mode.old) end.old.«set» end.old.next bytes.now order) end.old.next else end.old.next) }
    ensures long { len_of result ≡ length (if lies (length bytes.now) (length wire.old - used) (length work.old) order then tube_in (verdict_to (S.Mode.meaning mode.old) (S.Allowance.remaining mode.old) end.old.«set» end.old.next bytes.now order) else []) }
    ensures fits { used + len_of result ≤ length wire.old }
    ensures work { work.new ≡ work_by result order.work work.old }
    ensures kept { end.new.«set» ≡ end.old.«set» }
    ensures same { S.Mode.meaning mode.new ≡ S.Mode.meaning mode.old }
{
    if !order_lies(order, bytes.len(), wire.len() - used, work.len()) {
        return SendOutcome::Passed;
    }
    let label = order.label.part(bytes);
    let contents = order.contents.part(bytes);
    let to = used + order.room;
    let size = order.work;
    let answer = end.send(
        mode,
        label,
        contents,
        &mut wire[used..to],
        &mut work[0..size],
    );
    SendOutcome::from(answer)
}

// Every order in turn, as many as there are lines for.
pub(crate) fn send_all<S: Mode>(
    end: &mut Sending,
    mode: &mut S,
    bytes: &[u8],
    orders: &[SendOrder],
    wire: &mut [u8],
    work: &mut [u8],
    lines: &mut [SendLine],
)
    ensures wire { wire.new ≡ bytes_of (send_all (S.Mode.meaning mode.old) end.old.«set» bytes.now (length wire.old) (length work.old) end.old.next (S.Allowance.remaining mode.old) (take (length lines.old) orders.now)).tubes ++ drop (length (bytes_of (send_all (S.Mode.meaning mode.old) end.old.«set» bytes.now (length wire.old) (length work.old) end.old.next (S.Allowance.remaining mode.old) (take (length lines.old) orders.now)).tubes)) wire.old }
    ensures lines { lines.new ≡ (send_all (S.Mode.meaning mode.old) end.old.«set» bytes.now (length wire.old) (length work.old) end.old.next (S.Allowance.remaining mode.old) (take (length lines.old) orders.now)).lines ++ drop (length orders.now) lines.old }
    ensures left { S.Allowance.remaining mode.new ≡ (send_all (S.Mode.meaning mode.old) end.old.«set» bytes.now (length wire.old) (length work.old) end.old.next (S.Allowance.remaining mode.old) (take (length lines.old) orders.now)).left }
    ensures work { work.new ≡ work_after_sends (send_all (S.Mode.meaning mode.old) end.old.«set» bytes.now (length wire.old) (length work.old) end.old.next (S.Allowance.remaining mode.old) (take (length lines.old) orders.now)).lines work.old }
    ensures same { S.Mode.meaning mode.new ≡ S.Mode.meaning mode.old }
{
    // Kept: the line by its place, since after a zip with `lines.iter_mut()` nothing is known of the lines (open: the clause `lines`).
    let n = orders.len().min(lines.len());
    let mut used = 0;
    for (i, &order) in orders[..n].iter().enumerate() {
        let outcome = send_one(end, mode, bytes, order, wire, used, work);
        lines[i] = SendLine { order, outcome };
        used += outcome.length();
    }
}

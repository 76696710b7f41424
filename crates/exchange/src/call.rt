// A call with both ends of a link.
ghost use Rattle.std.specs.Prelude.{◌≡◌, Ok, Err, MatchResult};
ghost use Rattle.refusal.specs.Cause.{first, unless};
ghost use Rattle.receiver.specs.Step.{Fresh};
ghost use Rattle.exchange.specs.Exchanged.{Exchanged, asking, lent, start_causes};

use crate::receives::receive_all;
use crate::records::{ReceiveCall, ReceiveLine, SendLine, SendOrder};
use crate::sends::send_all;
use link::fault::EndFault;
use mode::interface::Mode;
use mode::set::ParameterSet;
use receiver::end::End;
use receiver::states::Listening;
use sender::sending::Sending;

// Both ends, once they are made.
// Kept: every part that is lent stands by itself, here and in `exchange`, since a struct would hold five `&mut` for one call.
fn run_both<S: Mode, R: Mode>(
    set: &ParameterSet,
    start: u64,
    floor: u64,
    mut end: Sending,
    listening: Listening,
    sender: &mut S,
    receiver: &mut R,
    bytes: &[u8],
    orders: &[SendOrder],
    wire: &mut [u8],
    calls: &[ReceiveCall],
    out: &mut [u8],
    work: &mut [u8],
    sent: &mut [SendLine],
    lines: &mut [ReceiveLine],
)
    requires fresh { Fresh «set».now floor listening }
    requires first { (end.«set» ≡ «set».now) × (end.next ≡ start) }
    ensures whole { Exchanged (S.Mode.meaning sender.old) (R.Mode.meaning receiver.old) (asking «set».now start floor bytes.now orders.now calls.now) (lent wire.old out.old work.old sent.old lines.old (S.Allowance.remaining sender.old) (R.Allowance.remaining receiver.old)) (lent wire.new out.new work.new sent.new lines.new (S.Allowance.remaining sender.new) (R.Allowance.remaining receiver.new)) }
    ensures same { (S.Mode.meaning sender.new ≡ S.Mode.meaning sender.old) × (R.Mode.meaning receiver.new ≡ R.Mode.meaning receiver.old) }
{
    send_all(&mut end, sender, bytes, orders, wire, work, sent);
    let _end = receive_all(
        End::Listens(listening),
        receiver,
        wire,
        calls,
        out,
        work,
        lines,
    );
}

// Makes both ends of a link, makes every send asked for, and then every call of the receiving end, and records what came of each. Tubes go
// into the wire one after another, from its first byte on; contents handed over go into the output part in the same way. Foreign or damaged
// tubes may stand in the wire behind the room for the sends. The ends share nothing but the wire. Refused by 5 where an end can't be made,
// and then nothing is changed.
pub fn exchange<S: Mode, R: Mode>(
    set: ParameterSet,
    start: u64,
    floor: u64,
    sender: &mut S,
    receiver: &mut R,
    bytes: &[u8],
    orders: &[SendOrder],
    wire: &mut [u8],
    calls: &[ReceiveCall],
    out: &mut [u8],
    work: &mut [u8],
    sent: &mut [SendLine],
    lines: &mut [ReceiveLine],
) -> Result<(), EndFault>
    ensures answers { result ≡ unless (first (start_causes «set» start floor)) Err (Ok tt) }
    ensures whole { MatchResult result (λ _. Exchanged (S.Mode.meaning sender.old) (R.Mode.meaning receiver.old) (asking «set» start floor bytes.now orders.now calls.now) (lent wire.old out.old work.old sent.old lines.old (S.Allowance.remaining sender.old) (R.Allowance.remaining receiver.old)) (lent wire.new out.new work.new sent.new lines.new (S.Allowance.remaining sender.new) (R.Allowance.remaining receiver.new))) (λ _. lent wire.new out.new work.new sent.new lines.new (S.Allowance.remaining sender.new) (R.Allowance.remaining receiver.new) ≡ lent wire.old out.old work.old sent.old lines.old (S.Allowance.remaining sender.old) (R.Allowance.remaining receiver.old)) }
    ensures same { (S.Mode.meaning sender.new ≡ S.Mode.meaning sender.old) × (R.Mode.meaning receiver.new ≡ R.Mode.meaning receiver.old) }
{
    let end = Sending::new(set, start)?;
    let listening = Listening::new(set, floor)?;
    run_both(
        &set, start, floor, end, listening, sender, receiver, bytes, orders, wire, calls, out,
        work, sent, lines,
    );
    Ok(())
}

// Places in the parts lent.
ghost use Rattle.std.specs.Prelude.{◌≡◌, ◌+◌, ◌≤◌, true, false, nat_le};
ghost use Rattle.exchange.specs.Sends.{lies};
ghost use Rattle.exchange.specs.Receives.{admits};
ghost use Rattle.exchange.specs.declared.records.ReceiveCall.TheVariants.{Open as Opens};

use crate::records::{OpenOrder, SendOrder};
use tube::span::Span;

// A span lies in a part of so many bytes.
fn lies_in(span: Span, total: usize) -> bool
    ensures is { result ≡ nat_le (span.at + span.len) total }
    ensures fits { result ≡ true → span.at + span.len ≤ total }
{
    span.at <= total && span.len <= total - span.at
}

// A send's label and contents lie in the bytes lent, and its output part and work memory in what is left of theirs.
pub(crate) fn order_lies(order: SendOrder, bytes: usize, room: usize, work: usize) -> bool
    ensures is { result ≡ lies bytes room work order }
    ensures parts { result ≡ true → (order.label.at + order.label.len ≤ bytes) × (order.contents.at + order.contents.len ≤ bytes) × (order.room ≤ room) × (order.work ≤ work) }
{
    lies_in(order.label, bytes)
        && (lies_in(order.contents, bytes) && (order.room <= room && order.work <= work))
}

// An open's tube lies in the wire, and its output part and work memory in what is left of theirs.
pub(crate) fn open_lies(order: OpenOrder, wire: usize, room: usize, work: usize) -> bool
    ensures is { result ≡ admits wire room work false (Opens order) }
    ensures parts { result ≡ true → (order.tube.at + order.tube.len ≤ wire) × (order.room ≤ room) × (order.work ≤ work) }
{
    lies_in(order.tube, wire) && (order.room <= room && order.work <= work)
}

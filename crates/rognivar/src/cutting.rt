// Cutting a drawing into pieces with labels, one send for each.
use exchange::records::{OpenOrder, SendOrder};
use mode::checks::WORK_LENGTH;
use std::alloc::Global;
use tube::span::Span;

// How many bytes of the drawing a tube carries.
const PIECE: usize = 16384;

// The bytes of a tube beside label and contents, under the task's set: five counts, code and param, nonce of 12, tag of 8.
const FRAME: usize = 42;

// The bytes where the pieces and their labels stand, and the sends.
#[derive(Drop)]
pub struct Cut {
    pub bytes: Vec<u8>,
    pub orders: Vec<SendOrder>,
}

// The drawing, with the labels behind it.
pub fn cut_sheet(heap: Global, sheet: &[u8]) -> anyhow::Result<Cut> {
    let mut bytes = Vec::from_slice(heap, sheet)?;
    let mut orders = Vec::new(heap);
    let total = sheet.chunks(PIECE).len();
    for ((place, piece), number) in sheet.chunks(PIECE).enumerate().zip(1..=total) {
        let text = format!(in heap; "A-12 rev C {number}/{total}")?;
        let label = Span {
            at: bytes.len(),
            len: text.len(),
        };
        bytes.extend_from_slice(text.as_bytes())?;
        let contents = Span {
            at: place.saturating_mul(PIECE),
            len: piece.len(),
        };
        let room = FRAME.saturating_add(label.len).saturating_add(contents.len);
        orders.push(SendOrder {
            label,
            contents,
            room,
            work: WORK_LENGTH,
        })?;
    }
    Ok(Cut { bytes, orders })
}

// Where the tubes of these sends will stand in the wire, one after another.
pub fn places(heap: Global, orders: &[SendOrder]) -> anyhow::Result<Vec<OpenOrder>> {
    let tubes = orders.iter().scan(0usize, |end, order| {
        let tube = Span {
            at: *end,
            len: order.room,
        };
        *end = tube.at.saturating_add(tube.len);
        Some(OpenOrder {
            tube,
            room: order.contents.len,
            work: WORK_LENGTH,
        })
    });
    Ok(tubes.collect(heap)?)
}

// The place after all of them.
pub fn end_of(tubes: &[OpenOrder]) -> usize {
    tubes
        .iter()
        .map(|order| order.tube.at.saturating_add(order.tube.len))
        .max()
        .unwrap_or(0)
}

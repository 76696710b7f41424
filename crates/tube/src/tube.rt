// A tube (record on the wire) as it was read.
use crate::span::Span;

// The set's code and param, the number, and where the bytes of the other sections stand: the nonce, which is the number in bytes, the
// label (associated data), the contents (the ciphertext) and the tag.
// Kept: places, since the answer of an open says where the label stands in memory that its caller lent.
#[derive(Clone, Copy, PartialEq, Eq, Debug)]
pub struct Tube {
    pub code: u8,
    pub param: u8,
    pub number: u128,
    pub nonce: Span,
    pub label: Span,
    pub contents: Span,
    pub tag: Span,
}

// What an accepted open answers.
use tube::span::Span;

// The tube's number, where its label (associated data) stands in the tube, the length of the contents, and how many cipher runs it made.
// Kept: a length, since the contents stand in memory that the caller lent.
#[derive(Clone, Copy, PartialEq, Eq, Debug)]
pub struct Opened {
    pub number: u64,
    pub label: Span,
    pub contents_len: usize,
    pub count: u64,
}

// What an accepted send answers: the length of the tube, and how many cipher runs it took.
// Kept: a length, since the tube stands in memory that the caller lent.
#[derive(Clone, Copy, PartialEq, Eq, Debug)]
pub struct Sent {
    pub len: usize,
    pub count: u64,
}

// Where bytes stand among others.
ghost use Rattle.std.specs.Prelude.{◌≡◌};
ghost use Rattle.tube.specs.Part.{part};

// The place of the first of them, counted from 0, and how many there are.
#[derive(Clone, Copy, PartialEq, Eq, Debug)]
pub struct Span {
    pub at: usize,
    pub len: usize,
}

impl Span {
    // The bytes that stand there. A place beyond the end has none.
    pub fn part(self, bytes: &[u8]) -> &[u8]
        ensures { result.now ≡ part bytes.now self }
    {
        let at = self.at.min(bytes.len());
        let (_, rest) = bytes.split_at(at);
        let len = self.len.min(rest.len());
        let (part, _) = rest.split_at(len);
        part
    }
}

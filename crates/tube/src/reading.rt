// Reading a tube.
ghost use Rattle.std.specs.Prelude.{◌≡◌, ℕ, ◌+◌, ◌≤◌, length, IfOk, Ok};
ghost use Rattle.tube.specs.declared.tube.Tube.{Tube as Told};
ghost use Rattle.tube.specs.Read.{section, value, parsed, Within};
ghost use Rattle.tube.specs.Fault.{least, most};
ghost use Rattle.tube.specs.Form.{Iff, Reads, Rewritten};

use crate::fault::{Section, TubeFault};
use crate::span::Span;
use crate::tube::Tube;

// Reads a tube: exactly where the bytes are the writing of its five sections, each within its range. Else the first wrong form is told.
pub fn read(bytes: &[u8]) -> Result<Tube, TubeFault>
    ensures value { result ≡ parsed bytes.now }
    ensures form { (t : Told) → Iff (result ≡ Ok t) (Reads bytes.now t) }
    ensures within { IfOk result (λ t. Within t (length bytes.now)) }
    ensures again { IfOk result (λ t. Rewritten t bytes.now) }
{
    parse(bytes)
}

// Kept: a function of its own, since as one with `read` each of the three laws is a goal at each of its seven ends.
fn parse(bytes: &[u8]) -> Result<Tube, TubeFault>
    ensures { result ≡ parsed bytes.now }
{
    let mut reader = Reader { bytes, place: 0 };
    let set = reader.section(Section::Set)?;
    let nonce = reader.section(Section::Number)?;
    let label = reader.section(Section::Label)?;
    let contents = reader.section(Section::Contents)?;
    let tag = reader.section(Section::Tag)?;
    if reader.place != bytes.len() {
        return Err(TubeFault::Form(Section::Beyond, reader.place));
    }
    let number = number(nonce.part(bytes));
    Ok(Tube {
        code: bytes[set.at],
        param: bytes[set.at + 1],
        number,
        nonce,
        label,
        contents,
        tag,
    })
}

// A tube that is being read, and the place up to which it was read.
#[derive(Drop)]
struct Reader<'a> {
    bytes: &'a [u8],
    place: usize,
    ghost within: { place ≤ length bytes.now },
}

impl Reader<'_> {
    // The next section: its count whole and within its range, and then its bytes.
    fn section(&mut self, which: Section) -> Result<Span, TubeFault>
        ensures answer { result ≡ section self.old.bytes.now self.old.place which (least which) (most which) }
        ensures next { IfOk result (λ s. self.new.place ≡ s.at + s.len) }
        ensures same { self.new.bytes.now ≡ self.old.bytes.now }
        ensures low { IfOk result (λ s. least which ≤ s.len) }
        ensures high { IfOk result (λ s. s.len ≤ most which) }
    {
        let (_, rest) = self.bytes.split_at(self.place);
        let Some((count, rest)) = rest.split_first_chunk::<4>() else {
            return Err(TubeFault::Form(which, self.place));
        };
        let len = u32::from_be_bytes(*count) as usize;
        if !which.allows(len) {
            return Err(TubeFault::Form(which, self.place));
        }
        let at = self.place + 4;
        if rest.len() < len {
            return Err(TubeFault::Form(which, at));
        }
        self.place = at + len;
        Ok(Span { at, len })
    }
}

// The number in at most 16 bytes, the highest first.
// Kept: u128::from_be_bytes would want the bytes copied behind zeros into 16 of its own first.
fn number(bytes: &[u8]) -> u128
    requires { length bytes.now ≤ 16 }
    ensures { result ≡ value bytes.now }
{
    let mut sum: u128 = 0;
    for b in bytes {
        sum = sum * 256 + *b as u128;
    }
    sum
}

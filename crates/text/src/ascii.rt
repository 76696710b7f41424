// Bytes as text that can be printed.
use std::fmt;

// Prints the printable ASCII characters as they are, and a full stop for every other byte.
#[derive(Clone, Copy)]
pub struct Ascii<'a>(pub &'a [u8]);

impl fmt::Display for Ascii<'_> {
    fn fmt<W: fmt::Write>(&self, f: &mut fmt::Formatter<W>) -> fmt::Result {
        for byte in self.0 {
            let shown = if *byte >= 0x20 && *byte < 0x7f {
                *byte
            } else {
                b'.'
            };
            f.write_char(char::from(shown))?;
        }
        Ok(())
    }
}

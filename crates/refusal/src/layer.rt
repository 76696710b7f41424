// The layer of the library that a refusal names.
ghost use Rattle.std.specs.Prelude.{◌≡◌};

use std::fmt;

#[derive(Clone, Copy, PartialEq, Eq, Debug)]
pub enum Layer {
    Cipher,
    Mode,
    Tube,
    End,
}

impl fmt::Display for Layer {
    fn fmt<W: fmt::Write>(&self, f: &mut fmt::Formatter<W>) -> fmt::Result {
        match self {
            Layer::Cipher => f.write_str("cipher"),
            Layer::Mode => f.write_str("mode"),
            Layer::Tube => f.write_str("tube"),
            Layer::End => f.write_str("end"),
        }
    }
}

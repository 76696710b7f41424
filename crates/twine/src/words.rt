// Words of 4 bits, in bytes.
ghost use Rattle.std.specs.Prelude.{◌<◌};
ghost use Rattle.twine.specs.Split.{Nibbles};

// One word.
#[derive(Clone, Copy)]
pub struct Word {
    pub value: u8,
    pub ghost small: { value < 16 },
}

// N words.
#[derive(Clone, Copy)]
pub struct Words<const N: usize> {
    pub values: [u8; N],
    pub ghost small: { Nibbles values },
}

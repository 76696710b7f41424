// Parameter sets.
ghost use Rattle.std.specs.Prelude.{◌≡◌, ◌+◌, ◌%◌, ◌≤◌};

pub mod field;
mod rule;

// A set (parameter set) fixes a mode by its code (1 is CLOC, 2 is SILC), the block width b of its cipher, the nonce length n, the tag
// length t, all in bytes, and the param byte, which stands before the nonce. Its rule is kept by every value of the type: the code is 1
// or 2, b is 8 or 16, n goes from 1 to b - 2 and t from 1 to b.
// Kept: no `impl Model`, since a view by the five fields drops the rule, on which the law of a mode rests.
#[derive(Clone, Copy)]
pub struct ParameterSet {
    // Kept: the code is a byte, here and in every call, as it stands on the wire, and a call takes any byte.
    pub(crate) code: u8,
    pub(crate) width: u8,
    pub(crate) nonce: u8,
    pub(crate) tag: u8,
    pub(crate) param: u8,
    ghost codes: { (1 ≤ code) × (code ≤ 2) },
    ghost widths: { (8 ≤ width) × (width ≤ 16) × (width % 8 ≡ 0) },
    ghost nonces: { (1 ≤ nonce) × (nonce + 2 ≤ width) },
    ghost tags: { (1 ≤ tag) × (tag ≤ width) },
}

impl ParameterSet {
    pub fn code(&self) -> u8
        ensures { (result ≡ self.now.code) × (1 ≤ result) × (result ≤ 2) }
    {
        self.code
    }

    pub fn width(&self) -> u8
        ensures { (result ≡ self.now.width) × (8 ≤ result) × (result ≤ 16) }
    {
        self.width
    }

    pub fn nonce(&self) -> usize
        ensures { (result ≡ self.now.nonce) × (1 ≤ result) × (result ≤ 14) }
    {
        self.nonce as usize
    }

    pub fn tag(&self) -> usize
        ensures { (result ≡ self.now.tag) × (1 ≤ result) × (result ≤ 16) }
    {
        self.tag as usize
    }

    pub fn param(&self) -> u8
        ensures { result ≡ self.now.param }
    {
        self.param
    }
}

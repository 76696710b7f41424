// How a number stands in a ledger: too old to tell, signed before, or open.
#[derive(Clone, Copy, PartialEq, Eq, Debug)]
pub enum Standing {
    Old,
    Signed,
    Open,
}

// The values that a refusal returns beside its number: none, one or two whole numbers, in the order of the table of causes.
// Kept: an enum of its own, since an option of a pair with an option in it would say the same in no plainer words.
#[derive(Clone, Copy, PartialEq, Eq, Debug)]
pub enum Values {
    None,
    One(u64),
    Two(u64, u64),
}

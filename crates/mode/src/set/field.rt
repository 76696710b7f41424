// The fields of a set that its rule speaks of, with what each has to keep.
use thiserror::Error;

#[derive(Clone, Copy, PartialEq, Eq, Debug, Error)]
pub enum SetField {
    #[error("the set's code is wrong: it is 1 for CLOC or 2 for SILC")]
    Code = 1,
    #[error("the set's width is wrong: it is 8 or 16")]
    Width,
    #[error("the set's nonce length is wrong: it goes from 1 to the width less 2")]
    Nonce,
    #[error("the set's tag length is wrong: it goes from 1 to the width")]
    Tag,
}

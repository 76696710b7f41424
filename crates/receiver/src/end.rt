// A receiving end in either of its states, for callers that take calls as they come.
use crate::states::{Holding, Listening};

#[derive(Drop)]
pub enum End {
    Listens(Listening),
    Holds(Holding),
}

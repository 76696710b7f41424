// Which of a mode's three counts of cipher runs is asked: those of sealing, of an opening that is accepted, and of an opening whose tag
// is wrong.
#[derive(Clone, Copy, PartialEq, Eq, Debug)]
pub enum RunCount {
    Sealing,
    Opening,
    WrongTag,
}

// Refusals as the program prints them.
use refusal::interface::Refusal;
use std::fmt;

// The number, the layer that names it, and the sentence.
#[derive(Clone, Copy)]
pub struct Refused<F>(pub F);

impl<F: Refusal + fmt::Display> fmt::Display for Refused<F> {
    fn fmt<W: fmt::Write>(&self, f: &mut fmt::Formatter<W>) -> fmt::Result {
        let fault = &self.0;
        let number = fault.number();
        let layer = fault.layer();
        write!(f, "refused ({number}, {layer}): {fault}")
    }
}

// A case while it runs: the inputs still to be read from its line, and the line that is written anew.
use crate::input::Input;
use link::fault::EndFault;
use mode::fault::ModeFault;
use std::alloc::{AllocError, Global};
use std::fmt;
use std::fmt::Write;
use std::iter::Peekable;
use std::str::Split;
use text::digits::{Hex, decode, parse_number};
use text::fault::TextFault;
use thiserror::Error;

// The longest part of memory that a case may ask for.
const LENGTH_LIMIT: u64 = 0x1000_0000;

// What output parts and work memory hold before a call.
pub const OUT_FILL: u8 = 0xa5;

pub const WORK_FILL: u8 = 0x5a;

// Why a case is not run.
#[derive(Clone, Copy, Debug, Error)]
pub enum CaseFault {
    #[error("the field {name} can't be read", name = .0.name())]
    Bad(Input),
    #[error(transparent)]
    Memory(#[from(alloc)] AllocError),
}

// The parts that a call changed and must not have.
#[derive(Clone, Copy, Default)]
struct Touched {
    out: bool,
    work: bool,
}

impl fmt::Display for Touched {
    fn fmt<W: fmt::Write>(&self, f: &mut fmt::Formatter<W>) -> fmt::Result {
        if self.out {
            f.write_str(" touched=out")?;
        }
        if self.work {
            f.write_str(" touched=work")?;
        }
        Ok(())
    }
}

#[derive(Drop)]
pub struct Case<'a> {
    heap: Global,
    // the fields that are still to be read
    words: Peekable<Split<'a, char>>,
    // what follows the names of the fields of a step: a dot and the step's number
    suffix: String,
    line: String,
    touched: Touched,
}

impl<'a> Case<'a> {
    pub fn new(heap: Global, line: &'a str) -> Case<'a> {
        Case {
            heap,
            words: line.split(' ').peekable(),
            suffix: String::new(heap),
            line: String::new(heap),
            touched: Touched::default(),
        }
    }

    pub fn heap(&self) -> Global {
        self.heap
    }

    pub fn suffix(&self) -> &str {
        self.suffix.as_str()
    }

    // The line, with what was touched at its end.
    pub fn finish(self) -> Result<Vec<u8>, AllocError> {
        let Case {
            heap: _,
            words: _,
            suffix: _,
            mut line,
            touched,
        } = self;
        write!(line, "{touched}")?;
        Ok(line.into_bytes())
    }

    // From now on the fields are those of this step.
    pub fn step(&mut self, number: u64) -> Result<(), AllocError> {
        self.suffix = format!(in self.heap; ".{number}")?;
        Ok(())
    }

    // Whether the next field is this input.
    pub fn next_is(&mut self, input: Input) -> bool {
        self.words
            .peek()
            .and_then(|word| word.split_once('='))
            .is_some_and(|(name, _)| name == input.name())
    }

    // An input, which is not written. What stands before it is passed over.
    pub fn ask(&mut self, input: Input) -> Result<&'a str, CaseFault> {
        let suffix = self.suffix.as_str();
        self.words
            .by_ref()
            .filter_map(|word| word.split_once('='))
            .find(|(name, _)| name.strip_suffix(suffix) == Some(input.name()))
            .map(|(_, value)| value)
            .ok_or(CaseFault::Bad(input))
    }

    // An input, written as it came.
    pub fn text(&mut self, input: Input) -> Result<&'a str, CaseFault> {
        let value = self.ask(input)?;
        self.put(input.name(), value)?;
        Ok(value)
    }

    // An input that is a byte string.
    pub fn bytes(&mut self, input: Input) -> Result<Vec<u8>, CaseFault> {
        let value = self.text(input)?;
        decode(self.heap, value).map_err(|fault| match fault {
            TextFault::Memory(error) => CaseFault::Memory(error),
            _ => CaseFault::Bad(input),
        })
    }

    // An input that is a number.
    pub fn number(&mut self, input: Input) -> Result<u64, CaseFault> {
        let value = self.text(input)?;
        number_in(value, input)
    }

    // An input that is a number of one byte.
    pub fn byte(&mut self, input: Input) -> Result<u8, CaseFault> {
        u8::try_from(self.number(input)?).map_err(|_| CaseFault::Bad(input))
    }

    // An input that is the length of a part: the part, filled with this byte.
    pub fn part(&mut self, input: Input, fill: u8) -> Result<Vec<u8>, CaseFault> {
        let length = self.number(input)?;
        if length > LENGTH_LIMIT {
            return Err(CaseFault::Bad(input));
        }
        Ok(vec![in self.heap; fill; length as usize]?)
    }

    // After an accepted call: the output bytes beyond those written have to be as they were lent, and the work memory zeros.
    pub fn see_accepted(&mut self, beyond: &[u8], work: &[u8]) {
        self.see_out(beyond);
        self.see_work(work, 0);
    }

    // After a refusal: so has the whole output part. Work memory of the wrong length has to be as it was lent.
    pub fn see_refused<F: Into<EndFault>>(&mut self, fault: F, out: &[u8], work: &[u8]) {
        let fill = match fault.into() {
            EndFault::Mode(ModeFault::Work(_)) => WORK_FILL,
            _ => 0,
        };
        self.see_out(out);
        self.see_work(work, fill);
    }

    // The bytes of an output part that have to be as they were lent.
    pub fn see_out(&mut self, part: &[u8]) {
        self.touched.out |= part.iter().any(|byte| *byte != OUT_FILL);
    }

    fn see_work(&mut self, work: &[u8], fill: u8) {
        self.touched.work |= work.iter().any(|byte| *byte != fill);
    }

    // Writes a field.
    pub fn put<T: fmt::Display + Drop>(&mut self, name: &str, value: T) -> Result<(), CaseFault> {
        let space = if self.line.is_empty() { "" } else { " " };
        let suffix = self.suffix.as_str();
        write!(self.line, "{space}{name}{suffix}={value}")?;
        Ok(())
    }

    pub fn put_bytes(&mut self, name: &str, value: &[u8]) -> Result<(), CaseFault> {
        self.put(name, Hex(value))
    }

    pub fn put_number(&mut self, name: &str, value: u64) -> Result<(), CaseFault> {
        self.put(name, format_args!("{value:x}"))
    }
}

// The number that a field's value is.
pub fn number_in(value: &str, input: Input) -> Result<u64, CaseFault> {
    parse_number(value).map_err(|_| CaseFault::Bad(input))
}

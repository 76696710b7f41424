// What is asked of an exchange, and the records of what came of it.
ghost use Rattle.std.specs.Prelude.{◌≡◌};
ghost use Rattle.exchange.specs.Sends.{said_of, len_of};
ghost use Rattle.exchange.specs.Receives.{size_of};

use link::fault::EndFault;
use receiver::answer::Opened;
use sender::sent::Sent;
use tube::span::Span;

// A send that is asked for: where its label and its contents stand in the bytes lent, how many bytes of the wire it has for its output
// part, and how many of the work memory.
#[derive(Clone, Copy)]
pub struct SendOrder {
    pub label: Span,
    pub contents: Span,
    pub room: usize,
    pub work: usize,
}

// What came of it. An order that does not lie in the parts lent is passed over: no call is made.
// Kept: an enum of its own, since `Option<Result<Sent, EndFault>>` names the third outcome no plainer.
#[derive(Clone, Copy)]
pub enum SendOutcome {
    Sent(Sent),
    Refused(EndFault),
    Passed,
}

impl From<Result<Sent, EndFault>> for SendOutcome {
    ghost from_gives = { λ x y. y ≡ said_of x };

    fn from(answer: Result<Sent, EndFault>) -> SendOutcome {
        match answer {
            Ok(sent) => SendOutcome::Sent(sent),
            Err(fault) => SendOutcome::Refused(fault),
        }
    }
}

impl SendOutcome {
    // How many bytes of the wire it took.
    pub(crate) fn length(self) -> usize
        ensures { result ≡ len_of self }
    {
        match self {
            SendOutcome::Sent(sent) => sent.len,
            _ => 0,
        }
    }
}

#[derive(Clone, Copy)]
pub struct SendLine {
    pub order: SendOrder,
    pub outcome: SendOutcome,
}

// An open that is asked for: where the tube stands in the wire, how many bytes of the output part it has for the contents, and how many of
// the work memory.
#[derive(Clone, Copy)]
pub struct OpenOrder {
    pub tube: Span,
    pub room: usize,
    pub work: usize,
}

// What is asked of the receiving end.
#[derive(Clone, Copy)]
pub enum ReceiveCall {
    Open(OpenOrder),
    Sign,
    GiveBack,
}

// What came of it: contents handed over, with the place in the output part where they stand; a refusal; the number signed. A call that the
// end's state does not admit, or that does not lie in the parts lent, is passed over: no call is made.
// Kept: an enum of its own, since its five outcomes are no option of a result.
#[derive(Clone, Copy)]
pub enum ReceiveOutcome {
    Handed(Opened, usize),
    Refused(EndFault),
    Signed(u64),
    GivenBack,
    Passed,
}

impl ReceiveOutcome {
    // How many bytes of the output part it took.
    pub(crate) fn length(self) -> usize
        ensures { result ≡ size_of self }
    {
        match self {
            ReceiveOutcome::Handed(answer, _) => answer.contents_len,
            _ => 0,
        }
    }
}

#[derive(Clone, Copy)]
pub struct ReceiveLine {
    pub call: ReceiveCall,
    pub outcome: ReceiveOutcome,
}

// A bad route: in which order the tubes come, which comes twice, cut short or with other contents, and one of another link.
use aes::aes128::Aes128;
use anyhow::Context;
use cloc::cloc::Cloc;
use exchange::records::{OpenOrder, ReceiveCall};
use mode::checks::WORK_LENGTH;
use mode::lookup::lookup;
use sender::sending::Sending;
use std::alloc::{AllocError, Global};
use tube::span::Span;
use tube::writing::{fill, write};

// A call of the receiving end, and what it is about.
#[derive(Clone, Copy)]
pub struct Step {
    pub call: ReceiveCall,
    pub note: &'static str,
}

const SIGN: Option<Step> = Some(Step {
    call: ReceiveCall::Sign,
    note: "sign",
});

const GIVE_BACK: Option<Step> = Some(Step {
    call: ReceiveCall::GiveBack,
    note: "give back",
});

// An open of a tube, if there is one.
fn open(tube: Option<&OpenOrder>, note: &'static str) -> Option<Step> {
    tube.map(|order| Step {
        call: ReceiveCall::Open(*order),
        note,
    })
}

// The same tube without its last bytes.
fn cut_short(order: OpenOrder) -> OpenOrder {
    let tube = Span {
        at: order.tube.at,
        len: order.tube.len.saturating_sub(9),
    };
    OpenOrder { tube, ..order }
}

// Seven tubes, out of order.
pub fn bad_route(
    heap: Global,
    tubes: &[OpenOrder],
    foreign: OpenOrder,
    altered: OpenOrder,
) -> Result<Vec<Step>, AllocError> {
    let third = tubes.get(2).copied().map(cut_short);
    let steps = [
        open(tubes.get(1), "tube 2, which came first"),
        SIGN,
        open(tubes.get(0), "tube 1"),
        SIGN,
        open(tubes.get(0), "tube 1 once more"),
        open(Some(&altered), "tube 4 with other contents"),
        open(third.as_ref(), "tube 3 cut short"),
        open(Some(&foreign), "a tube of another link"),
        open(tubes.get(2), "tube 3"),
        GIVE_BACK,
        open(tubes.get(2), "tube 3 again"),
        SIGN,
        open(tubes.get(6), "tube 7"),
        SIGN,
        open(tubes.get(4), "tube 5"),
        SIGN,
        open(tubes.get(5), "tube 6"),
        SIGN,
        open(tubes.get(3), "tube 4"),
        SIGN,
    ];
    steps.into_iter().flatten().collect(heap)
}

// Writes a tube of another link into the first bytes of a part, and answers its length: another set, another key.
pub fn put_foreign(part: &mut [u8]) -> anyhow::Result<usize> {
    let set = lookup(1, "AES-128", 8, 8).context("there is no such set")?;
    let mut cipher = Aes128::new();
    cipher.set_key(&[0x77; 16]).context("the key was refused")?;
    let mut mode = Cloc::new(cipher);
    let mut end = Sending::new(set, 40).context("the end was refused")?;
    let sent = end
        .send(
            &mut mode,
            b"B-03 rev A 1/1",
            b"another sheet",
            part,
            &mut [0; WORK_LENGTH],
        )
        .context("the send was refused")?;
    Ok(sent.len)
}

// Writes a tube with the number 4, the task's set and label, and contents and tag that nobody sealed.
pub fn put_altered(part: &mut [u8]) -> anyhow::Result<usize> {
    let mut nonce = [0u8; 12];
    fill(4, &mut nonce);
    write(
        1,
        0xc0,
        &nonce,
        b"A-12 rev C 4/7",
        b"set out from grid line 8",
        b"--------",
        part,
    )
    .context("the part is too short")
}

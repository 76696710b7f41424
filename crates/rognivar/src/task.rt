// The sample task: a drawing is cut into pieces, sent as numbered tubes, carried over a bad route, opened, signed for or given back, put
// together in number order, and compared.
use crate::cutting::{Cut, cut_sheet, end_of, places};
use crate::joining::{join, ledger_of, signed_pieces};
use crate::refused::Refused;
use crate::route::{Step, bad_route, put_altered, put_foreign};
use aes::aes128::Aes128;
use anyhow::{Context, ensure};
use cipher::interface::Allowance;
use cipher::meter::Meter;
use cloc::cloc::Cloc;
use exchange::call::exchange;
use exchange::records::{
    OpenOrder, ReceiveCall, ReceiveLine, ReceiveOutcome, SendLine, SendOrder, SendOutcome,
};
use link::fault::EndFault;
use link::numbers::last_number;
use mode::checks::WORK_LENGTH;
use mode::lookup::lookup;
use mode::set::ParameterSet;
use std::{fs, io};
use text::ascii::Ascii;
use tube::span::Span;

const SHEET: &str = "A-12-rev-C.svg";

const GRANTED: u64 = 20000;

// Room behind the tubes for what else comes over the wire.
const EXTRA: usize = 256;

// What stands in a line before its call is made.
const NOWHERE: Span = Span { at: 0, len: 0 };

const NOT_SENT: SendLine = SendLine {
    order: SendOrder {
        label: NOWHERE,
        contents: NOWHERE,
        room: 0,
        work: 0,
    },
    outcome: SendOutcome::Passed,
};

const NOT_CALLED: ReceiveLine = ReceiveLine {
    call: ReceiveCall::Sign,
    outcome: ReceiveOutcome::Passed,
};

type Link = Cloc<Meter<Aes128>>;

// The link's mode, as both ends have it.
fn link_mode() -> anyhow::Result<Link> {
    let mut cipher = Aes128::new();
    let key = 0x5c1e_90a7_3b42_d8f6_17e5_6a0d_c493_2b88u128.to_be_bytes();
    cipher.set_key(&key).context("the key was refused")?;
    Ok(Cloc::new(Meter::new(cipher, GRANTED)))
}

fn show_sends(rt: &HostRuntime, bytes: &[u8], sent: &[SendLine]) -> io::Result<()> {
    // Kept: only a tube that was sent takes a number, so the place of a line is not its number.
    let mut number = 0u64;
    for line in sent {
        match line.outcome {
            SendOutcome::Sent(answer) => {
                number = number.saturating_add(1);
                let order = line.order;
                let label = Ascii(order.label.part(bytes));
                let contents = order.contents.len;
                let len = answer.len;
                let count = answer.count;
                println!(rt;
                    "  tube {number}, {label}: {contents} bytes, {len} in the tube, {count} cipher runs"
                )?;
            }
            SendOutcome::Refused(fault) => println!(rt; "{}", Refused(fault))?,
            SendOutcome::Passed => println!(rt; "  passed over")?,
        }
    }
    Ok(())
}

// Where the label of an opened tube stands in the wire.
fn label_place(call: ReceiveCall, label: Span) -> Span {
    match call {
        ReceiveCall::Open(order) => Span {
            at: order.tube.at.saturating_add(label.at),
            ..label
        },
        ReceiveCall::Sign | ReceiveCall::GiveBack => label,
    }
}

fn show_line(rt: &HostRuntime, wire: &[u8], note: &str, line: &ReceiveLine) -> io::Result<()> {
    print!(rt; "  {note}: ")?;
    match line.outcome {
        ReceiveOutcome::Handed(opened, _) => {
            let label = Ascii(label_place(line.call, opened.label).part(wire));
            let number = opened.number;
            let contents = opened.contents_len;
            let count = opened.count;
            println!(rt;
                "opened as number {number}, {label}, {contents} bytes, {count} cipher runs"
            )
        }
        ReceiveOutcome::Refused(fault) => println!(rt; "{}", Refused(fault)),
        ReceiveOutcome::Signed(number) => println!(rt; "signed for {number}"),
        ReceiveOutcome::GivenBack => println!(rt; "given back, nothing signed"),
        ReceiveOutcome::Passed => println!(rt; "passed over"),
    }
}

// Puts the pieces together, and says whether they are the drawing.
fn compare(
    rt: &HostRuntime,
    set: &ParameterSet,
    sheet: &[u8],
    lines: &[ReceiveLine],
    out: &[u8],
) -> anyhow::Result<()> {
    let heap = rt.alloc();
    let pieces = signed_pieces(heap, lines)?;
    let ledger = ledger_of(pieces.as_slice(), last_number(set))?;
    let floor = ledger.floor();
    let high = ledger.high();
    let marks = ledger.marks();
    println!(rt; "the ledger: floor {floor}, highest number {high}, marks {marks:016x}")?;
    let whole = join(heap, pieces.as_slice(), out)?;
    let length = whole.len();
    ensure!(
        whole.as_slice() == sheet,
        "the drawing that came is not the drawing that was sent"
    );
    println!(rt; "the drawing came over whole: {length} bytes, the same byte for byte")?;
    Ok(())
}

// What came of an exchange: the lines of both ends, the contents handed over, and what is left to both.
#[derive(Drop)]
struct Carried {
    sent: Vec<SendLine>,
    lines: Vec<ReceiveLine>,
    out: Vec<u8>,
    office_left: u64,
    site_left: u64,
}

// Both ends, and the route between them.
fn carry(
    rt: &HostRuntime,
    set: ParameterSet,
    parts: &Cut,
    wire: &mut Vec<u8>,
    route: &[Step],
    room: usize,
) -> anyhow::Result<Result<Carried, EndFault>> {
    let heap = rt.alloc();
    let mut office = link_mode()?;
    let mut site = link_mode()?;
    let calls: Vec<ReceiveCall> = route.iter().map(|step| step.call).collect(heap)?;
    let mut out = vec![in heap; 0u8; room]?;
    let mut sent = vec![in heap; NOT_SENT; parts.orders.len()]?;
    let mut lines = vec![in heap; NOT_CALLED; calls.len()]?;
    let came = exchange(
        set,
        1,
        0,
        &mut office,
        &mut site,
        parts.bytes.as_slice(),
        parts.orders.as_slice(),
        wire.as_mut_slice(),
        calls.as_slice(),
        out.as_mut_slice(),
        &mut [0; WORK_LENGTH],
        sent.as_mut_slice(),
        lines.as_mut_slice(),
    );
    Ok(came.map(|()| Carried {
        sent,
        lines,
        out,
        office_left: office.left(),
        site_left: site.left(),
    }))
}

// Puts what else comes over the wire behind the room for the tubes.
fn put_others(wire: &mut Vec<u8>, end: usize) -> anyhow::Result<(OpenOrder, OpenOrder)> {
    let start = end.min(wire.len());
    let (_, rest) = wire.as_mut_slice().split_at_mut(start);
    let foreign = put_foreign(rest)?;
    let next = foreign.min(rest.len());
    let (_, others) = rest.split_at_mut(next);
    let altered = put_altered(others)?;
    let first = Span {
        at: start,
        len: foreign,
    };
    let second = Span {
        at: start.saturating_add(next),
        len: altered,
    };
    Ok((other(first), other(second)))
}

// What came of each call, and what is left.
fn show(
    rt: &HostRuntime,
    parts: &Cut,
    wire: &[u8],
    route: &[Step],
    carried: &Carried,
) -> io::Result<()> {
    println!(rt; "the office sends:")?;
    show_sends(rt, parts.bytes.as_slice(), carried.sent.as_slice())?;
    println!(rt; "the site receives:")?;
    for (step, line) in route.iter().zip(carried.lines.iter()) {
        show_line(rt, wire, step.note, line)?;
    }
    let office_left = carried.office_left;
    let site_left = carried.site_left;
    println!(rt;
        "left: {office_left} of {GRANTED} cipher runs at the office, {site_left} at the site"
    )
}

// An open of a tube that the office did not send.
fn other(tube: Span) -> OpenOrder {
    OpenOrder {
        tube,
        room: EXTRA,
        work: WORK_LENGTH,
    }
}

pub fn run_task(rt: &HostRuntime) -> anyhow::Result<()> {
    let heap = rt.alloc();
    let sheet = fs::read(rt, SHEET)?;
    let length = sheet.len();
    println!(rt; "the task: {SHEET}, {length} bytes, from the office to the site")?;
    let parts = cut_sheet(heap, sheet.as_slice())?;
    let tubes = places(heap, parts.orders.as_slice())?;
    let end = end_of(tubes.as_slice());
    let mut wire = vec![in heap; 0u8; end.saturating_add(EXTRA)]?;
    let (foreign, altered) = put_others(&mut wire, end)?;
    let route = bad_route(heap, tubes.as_slice(), foreign, altered)?;
    let set = lookup(1, "AES-128", 12, 8).context("there is no such set")?;
    let room = length.saturating_mul(2);
    match carry(rt, set, &parts, &mut wire, route.as_slice(), room)? {
        Ok(carried) => {
            show(rt, &parts, wire.as_slice(), route.as_slice(), &carried)?;
            compare(
                rt,
                &set,
                sheet.as_slice(),
                carried.lines.as_slice(),
                carried.out.as_slice(),
            )
        }
        Err(fault) => Ok(println!(rt; "{}", Refused(fault))?),
    }
}

// Putting the contents together in number order, and the ledger that the signatures lead to.
use anyhow::Context;
use exchange::records::{ReceiveLine, ReceiveOutcome};
use ledger::ledger::Ledger;
use std::alloc::Global;
use std::collections::BTreeMap;
use tube::span::Span;

// Contents that were handed over: their number, and where they stand in the output part.
#[derive(Clone, Copy)]
pub struct Piece {
    pub number: u64,
    pub contents: Span,
}

// The pieces signed for, in the order of their signatures.
pub fn signed_pieces(heap: Global, lines: &[ReceiveLine]) -> anyhow::Result<Vec<Piece>> {
    let mut pieces = Vec::new(heap);
    let mut held: Option<Piece> = None;
    for line in lines {
        match line.outcome {
            ReceiveOutcome::Handed(opened, at) => {
                held = Some(Piece {
                    number: opened.number,
                    contents: Span {
                        at,
                        len: opened.contents_len,
                    },
                });
            }
            ReceiveOutcome::Signed(_) => {
                if let Some(piece) = held.take() {
                    pieces.push(piece)?;
                }
            }
            ReceiveOutcome::GivenBack => held = None,
            ReceiveOutcome::Refused(_) | ReceiveOutcome::Passed => {}
        }
    }
    Ok(pieces)
}

// The contents of the numbers from 1 on, as many as there are pieces.
pub fn join(heap: Global, pieces: &[Piece], out: &[u8]) -> anyhow::Result<Vec<u8>> {
    let mut by_number = BTreeMap::new(heap);
    for piece in pieces {
        by_number.insert(piece.number, piece.contents)?;
    }
    let mut whole = Vec::new(heap);
    for number in 1..=pieces.len() as u64 {
        let contents = by_number.get(&number).context("a number is missing")?;
        whole.extend_from_slice(contents.part(out))?;
    }
    Ok(whole)
}

// The ledger of a receiving end with floor 0 after these signatures.
pub fn ledger_of(pieces: &[Piece], last: u64) -> anyhow::Result<Ledger> {
    let ledger = Ledger::new(0, last).context("there is no such ledger")?;
    Ok(
        pieces.iter().fold(ledger, |ledger, piece| {
            ledger.sign(piece.number).unwrap_or_else(|before| before)
        }),
    )
}

// Runs cases: each line of standard input is one, and is written again with everything computed anew from its inputs.

#![tactic(auto)]

mod answer;
mod cipher_case;
mod input;
mod line;
mod mode_case;
mod pick;
mod refused;
mod round_case;
mod send_case;
mod session_case;
mod set_case;
mod tube_case;

use answer::answer_line;
use std::io::{BufRead, BufReader, BufWriter, Write};

fn run_all(rt: &HostRuntime) -> anyhow::Result<()> {
    let heap = rt.alloc();
    let mut out = BufWriter::new(heap, rt.stdout())?;
    for line in BufReader::new(heap, rt.stdin())?.split(heap, b'\n') {
        let line = line?;
        let answer = answer_line(heap, line.as_slice())?;
        out.write_all(answer.as_slice())?;
        out.write_all(b"\n")?;
    }
    out.flush()?;
    Ok(())
}

fn main(rt: HostRuntime) -> anyhow::Result<()> {
    run_all(&rt)
}

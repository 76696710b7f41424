// Runs the library many times, for tests and for timing.
//
//     chain COUNT [NAME...]
//
// NAME is a cipher: blocks are chained through it, from a block of zeros under a key of zeros, each result being the next block; the last
// block is printed. Or it is a mode over AES-128: CLOC-long and SILC-long seal 64 KiB with no label for as many cipher blocks of contents
// as COUNT says, CLOC-short and SILC-short seal 16 bytes under a label of 16; the last tag is printed. How long each took goes to standard
// error, by block, or by cipher run.

#![tactic(auto)]

mod seals;

use aes::aes128::Aes128;
use anyhow::{Context, anyhow};
use cipher::interface::{Allowance, Cipher};
use cloc::cloc::Cloc;
use led::led80::Led80;
use present::present80::Present80;
use seals::{seal_long, seal_short};
use silc::silc::Silc;
use std::env;
use std::time::Instant;
use text::digits::Hex;
use twine::twine80::Twine80;

// The number of runs that were refused: none, for a cipher without end and a block of its width.
fn chained<C: Cipher>(cipher: &mut C, block: &mut [u8], count: u64) -> usize {
    (0..count).filter(|_| cipher.run(block).is_err()).count()
}

fn timed<C: Cipher + Drop>(
    rt: &HostRuntime,
    name: &str,
    mut cipher: C,
    block: &mut [u8],
    count: u64,
) -> anyhow::Result<()> {
    let start = Instant::now(rt)?;
    let refused = chained(&mut cipher, block, count);
    let nanos = start.elapsed(rt)?.as_nanos();
    println!(rt; "{name} {count} {} {refused} refused", Hex(block))?;
    let each = nanos / u128::from(count.max(1));
    eprintln!(rt; "{name} {nanos} ns, {each} ns a block")?;
    Ok(())
}

fn one(rt: &HostRuntime, name: &str, count: u64) -> anyhow::Result<()> {
    match name {
        "AES-128" => timed(rt, name, Aes128::new(), &mut [0; 16], count),
        "PRESENT-80" => timed(rt, name, Present80::new(), &mut [0; 8], count),
        "LED-80" => timed(rt, name, Led80::new(), &mut [0; 8], count),
        "TWINE-80" => timed(rt, name, Twine80::new(), &mut [0; 8], count),
        "CLOC-long" => seal_long(rt, name, Cloc::new(Aes128::new()), count),
        "SILC-long" => seal_long(rt, name, Silc::new(Aes128::new()), count),
        "CLOC-short" => seal_short(rt, name, Cloc::new(Aes128::new()), count),
        "SILC-short" => seal_short(rt, name, Silc::new(Aes128::new()), count),
        _ => Err(anyhow!(
            "no such name: AES-128, PRESENT-80, LED-80, TWINE-80, CLOC-long, SILC-long, CLOC-short, SILC-short"
        )),
    }
}

fn run(rt: &HostRuntime) -> anyhow::Result<()> {
    let mut words = env::args(rt)?.skip(1);
    let count = words.next().context("usage: chain COUNT [NAME...]")?;
    let count = count.as_str().parse::<u64>()?;
    for word in words {
        one(rt, word.as_str(), count)?;
    }
    Ok(())
}

fn main(rt: HostRuntime) -> anyhow::Result<()> {
    run(&rt)
}

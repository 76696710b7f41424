// Sealing the same message again and again.
use anyhow::Context;
use mode::checks::WORK_LENGTH;
use mode::count::RunCount;
use mode::interface::Mode;
use mode::set::ParameterSet;
use std::time::Instant;
use text::digits::Hex;

const LONG: usize = 65536;

// How many seals were refused.
// Kept: seven arguments, as a mode's `seal` takes them.
fn seal_again<M: Mode>(
    mode: &mut M,
    set: &ParameterSet,
    label: &[u8],
    contents: &[u8],
    out: &mut [u8],
    tag: &mut [u8],
    count: u64,
) -> usize {
    let nonce = [0u8; 12];
    (0..count)
        .filter(|_| {
            mode.seal(
                set,
                &nonce,
                label,
                contents,
                out,
                tag,
                &mut [0; WORK_LENGTH],
            )
            .is_err()
        })
        .count()
}

fn timed<M: Mode>(
    rt: &HostRuntime,
    name: &str,
    mode: &mut M,
    label: &[u8],
    contents: &[u8],
    out: &mut [u8],
    count: u64,
) -> anyhow::Result<()> {
    let set = ParameterSet::new(mode.code(), 16, 12, 16, 0xc2).context("no such set")?;
    let runs = mode
        .count(RunCount::Sealing, label.len(), contents.len())
        .context("too long")?;
    let mut tag = [0u8; 16];
    let start = Instant::now(rt)?;
    let refused = seal_again(mode, &set, label, contents, out, &mut tag, count);
    let nanos = start.elapsed(rt)?.as_nanos();
    println!(rt; "{name} {count} {} {refused} refused", Hex(&tag))?;
    let each = nanos.saturating_mul(10) / u128::from(runs.max(1)) / u128::from(count.max(1));
    eprintln!(rt; "{name} {nanos} ns, {runs} runs a seal, {each} tenths of a ns a run")?;
    Ok(())
}

pub fn seal_long<M: Mode + Drop>(
    rt: &HostRuntime,
    name: &str,
    mut mode: M,
    count: u64,
) -> anyhow::Result<()> {
    let heap = rt.alloc();
    let contents = vec![in heap; 0u8; LONG]?;
    let mut out = vec![in heap; 0u8; LONG]?;
    let seals = (count / 4096).max(1);
    timed(
        rt,
        name,
        &mut mode,
        &[],
        contents.as_slice(),
        out.as_mut_slice(),
        seals,
    )
}

pub fn seal_short<M: Mode + Drop>(
    rt: &HostRuntime,
    name: &str,
    mut mode: M,
    count: u64,
) -> anyhow::Result<()> {
    timed(rt, name, &mut mode, &[0; 16], &[0; 16], &mut [0; 16], count)
}

// Shows what the library does: the published vectors of the four ciphers, one message under each of the five recommended parameter sets,
// and then the sample task: a revision of a drawing, cut into tubes, carried over a bad route, and put together again.

#![tactic(auto)]

mod cutting;
mod joining;
mod messages;
mod refused;
mod route;
mod task;
mod vectors;

use messages::run_messages;
use task::run_task;
use vectors::run_vectors;

fn run_all(rt: &HostRuntime) -> anyhow::Result<()> {
    let tally = run_vectors(rt)?;
    let agreed = tally.agreed;
    let tried = tally.tried;
    println!(rt; "{agreed} of {tried} vectors agree")?;
    run_messages(rt)?;
    run_task(rt)
}

fn main(rt: HostRuntime) -> anyhow::Result<()> {
    run_all(&rt)
}

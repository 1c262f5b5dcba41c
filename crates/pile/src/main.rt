// Shows what piles of channels do, step by step: what waits, what is held, and what is refused by which layer.
#![tactic(auto)]

mod answers;
mod demo;
mod items;
mod over_hall;
mod over_ring;
mod pile;

use std::io::{BufWriter, Write};

fn main(rt: HostRuntime) -> anyhow::Result<()> {
    let mut out = BufWriter::new(rt.alloc(), rt.stdout())?;
    writeln!(
        out,
        "Piles of channels, step by step. What waits is what stands at the bottom, then what a spool holds."
    )?;
    answers::show(&mut out)?;
    over_ring::show_repeater(&mut out)?;
    over_ring::show_repeater_spool(&mut out)?;
    over_ring::show_spool_repeater(&mut out)?;
    over_hall::show(&mut out)?;
    out.flush()?;
    Ok(())
}

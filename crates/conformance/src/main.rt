// Whether the JSON scanner judges the texts of a table as RFC 8259 does.
#![tactic(auto)]

mod count;
mod encoded;
mod piece;
mod report;
mod table;
mod usage;
mod verdict;

use anyhow::{anyhow, ensure};
use std::env;
use std::io::{BufWriter, Read, Write};
use std::process::ExitCode;
use usage::HELP;

fn judge_table(rt: &HostRuntime) -> anyhow::Result<()> {
    let mut table = Vec::new(rt.alloc());
    rt.stdin().read_to_end(&mut table)?;
    let mut out = BufWriter::new(rt.alloc(), rt.stdout())?;
    let count = report::report(&mut out, rt.alloc(), table.as_slice())?;
    out.flush()?;
    ensure!(count.others() == 0, "not all is as the table expects");
    Ok(())
}

fn run(rt: &HostRuntime) -> anyhow::Result<()> {
    let words: Vec<String> = env::args(rt)?.skip(1).collect(rt.alloc())?;
    match words.as_slice() {
        [] => judge_table(rt),
        [word] if word.as_str() == "--help" => Ok(print!(rt; "{HELP}")?),
        _ => Err(anyhow!("what to do? `conformance --help` says what to type")),
    }
}

// The message of an error stands once on standard error, and the status is 1. Kept: the same lines as in `desk`; a
// crate of one function for two programs would be more.
fn main(rt: HostRuntime) -> ExitCode {
    match run(&rt) {
        Ok(()) => ExitCode::SUCCESS,
        Err(error) => {
            let _ = eprintln!(rt; "conformance: {error}");
            ExitCode::FAILURE
        }
    }
}

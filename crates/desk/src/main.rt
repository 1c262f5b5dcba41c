// The settlement desk's program.
#![tactic(auto)]

mod bill;
mod frames;
mod invoice;
mod refused;
mod usage;

use anyhow::anyhow;
use std::env;
use std::io::{BufWriter, Read, Stdout, Write};
use std::process::ExitCode;
use usage::{HELP, bad_price};

// The price that was typed.
fn price(rt: &HostRuntime, text: &str) -> anyhow::Result<u64> {
    match sheet::read_price(text.as_bytes()) {
        Ok(price) => Ok(price),
        Err(why) => Err(bad_price(rt.alloc(), text, why)?),
    }
}

// Writes a report on all of standard input to standard output. Kept: a struct of writer, text and price would be made in
// `run` and taken apart at once in each report.
fn report<F: FnOnce(&mut BufWriter<Stdout>, &[u8]) -> anyhow::Result<()>>(
    rt: &HostRuntime,
    write: F,
) -> anyhow::Result<()>
    requires { F.IsAlwaysCallable write }
{
    let mut text = Vec::new(rt.alloc());
    rt.stdin().read_to_end(&mut text)?;
    let mut out = BufWriter::new(rt.alloc(), rt.stdout())?;
    write(&mut out, text.as_slice())?;
    out.flush()?;
    Ok(())
}

fn run(rt: &HostRuntime) -> anyhow::Result<()> {
    let words: Vec<String> = env::args(rt)?.skip(1).collect(rt.alloc())?;
    match words.as_slice() {
        [command, typed] if command.as_str() == "bill" => {
            let price = price(rt, typed.as_str())?;
            report(rt, |out, text| bill::report(out, rt.alloc(), text, price))
        }
        [command, typed] if command.as_str() == "sheet" => {
            let price = price(rt, typed.as_str())?;
            report(rt, |out, text| invoice::report(out, text, price))
        }
        [command] if command.as_str() == "frames" => report(
            rt,
            |out, text| frames::report(out, text),
        ),
        [command] if command.as_str() == "--help" => Ok(print!(rt; "{HELP}")?),
        _ => Err(anyhow!("what to do? `desk --help` says what to type")),
    }
}

// The message of an error stands once on standard error, and the status is 1. Kept: the same lines as in `conformance`; a
// crate of one function for two programs would be more.
fn main(rt: HostRuntime) -> ExitCode {
    match run(&rt) {
        Ok(()) => ExitCode::SUCCESS,
        Err(error) => {
            let _ = eprintln!(rt; "desk: {error}");
            ExitCode::FAILURE
        }
    }
}

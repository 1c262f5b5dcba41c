// The report on a sheet of meter readings.
use anyhow::Context;
use sheet::{Charge, Misread, Totals};
use split::Pieces;
use std::fmt;
use std::io::Write;

// A line that a carriage return ends, too.
fn without_return(line: &[u8]) -> &[u8] {
    match line {
        [front @ .., b'\r'] => front,
        _ => line,
    }
}

// `00017-00000003      12500 Wh        438 cents`
#[derive(Clone, Copy)]
struct Billed(Charge);

impl fmt::Display for Billed {
    fn fmt<W: fmt::Write>(&self, f: &mut fmt::Formatter<W>) -> fmt::Result {
        let Charge { id, energy, cents } = self.0;
        write!(f, "{id} {energy:>10} Wh {cents:>10} cents")
    }
}

// `place 16 (started Wh): refused 12: the register is below the session's last register`
#[derive(Clone, Copy)]
struct Wrong(Misread);

impl fmt::Display for Wrong {
    fn fmt<W: fmt::Write>(&self, f: &mut fmt::Formatter<W>) -> fmt::Result {
        let Misread { field, place, why } = self.0;
        write!(
            f,
            "place {place} ({field}): refused {}: {why}",
            why.number()
        )
    }
}

// The last lines.
#[derive(Clone, Copy)]
struct Sums(Totals);

impl fmt::Display for Sums {
    fn fmt<W: fmt::Write>(&self, f: &mut fmt::Formatter<W>) -> fmt::Result {
        writeln!(f, "lines billed:     {:>10}", self.0.billed)?;
        writeln!(f, "lines not billed: {:>10}", self.0.refused)?;
        write!(
            f,
            "total:         {:>10} Wh {:>10} cents",
            self.0.energy, self.0.cents
        )
    }
}

// A sheet as it is invoiced.
#[derive(Drop)]
struct Invoice<'o, W> {
    out: &'o mut W,
    price: u64,
    totals: Totals,
}

impl<'o, W: Write> Invoice<'o, W> {
    // Prints one line's charge or what is wrong with it, and counts it.
    fn line(&mut self, number: usize, line: &[u8]) -> anyhow::Result<()> {
        let counted = match sheet::charge(line, self.price) {
            Ok(charge) => {
                writeln!(self.out, "{}", Billed(charge))?;
                self.totals.with_charge(charge)
            }
            Err(wrong) => {
                writeln!(self.out, "line {number}, {}", Wrong(wrong))?;
                self.totals.with_refusal()
            }
        };
        self.totals = counted.context("the totals are too large to be counted")?;
        Ok(())
    }
}

pub fn report<W: Write>(out: &mut W, text: &[u8], price: u64) -> anyhow::Result<()> {
    let totals = Totals::new();
    let mut invoice = Invoice { out, price, totals };
    for (number, line) in (1..).zip(Pieces::of(text, b'\n')) {
        invoice.line(number, without_return(line))?;
    }
    let sums = Sums(invoice.totals);
    writeln!(invoice.out)?;
    writeln!(invoice.out, "{sums}")?;
    Ok(())
}

// The report on a table.
use crate::count::Count;
use crate::encoded::decode;
use crate::table::{Line, read_line};
use crate::verdict::{Verdict, Word, judge};
use anyhow::Context;
use split::Pieces;
use std::alloc::Global;
use std::io;
use std::io::Write;

// A table as it is judged: the group that it is in, and the counts of that and of the whole table so far.
#[derive(Drop)]
struct Judging<'o, 't, W> {
    out: &'o mut W,
    heap: Global,
    name: &'t [u8],
    group: Count,
    all: Count,
}

// One text more; an error where there are too many.
fn counted(count: Count, as_expected: bool) -> anyhow::Result<Count> {
    count
        .with(as_expected)
        .context("the table has too many texts to be counted")
}

impl<'o, 't, W: Write> Judging<'o, 't, W> {
    // Nothing where the group has no texts. Kept: printed here and by no `Display`, since a group's name is whatever bytes
    // the table has.
    fn end_group(&mut self) -> io::Result<()> {
        if self.group.texts == 0 {
            return Ok(());
        }
        let Count { texts, expected } = self.group;
        write!(self.out, "{expected:>5} of {texts:>4}  ")?;
        self.out.write_all(self.name)?;
        writeln!(self.out)
    }

    // Kept: printed by this one call from two places; a struct with a `Display` would be longer.
    fn misfit(&mut self, number: usize) -> io::Result<()> {
        writeln!(self.out, "line {number}: not a line of a table")
    }

    // Whether the text is judged as expected.
    fn judged(&mut self, number: usize, expected: Verdict, written: &[u8]) -> anyhow::Result<bool> {
        let Some(text) = decode(self.heap, written)? else {
            self.misfit(number)?;
            return Ok(false);
        };
        let got = judge(text.as_slice());
        if got == expected {
            return Ok(true);
        }
        writeln!(
            self.out,
            "line {number}: expected {}, got {}",
            Word(expected),
            Word(got)
        )?;
        Ok(false)
    }

    fn count(&mut self, as_expected: bool) -> anyhow::Result<()> {
        self.group = counted(self.group, as_expected)?;
        self.all = counted(self.all, as_expected)?;
        Ok(())
    }

    // Prints what is wrong with the line, and counts it where it has a text or should have one.
    fn line(&mut self, number: usize, line: Option<Line<'t>>) -> anyhow::Result<()> {
        match line {
            Some(Line::Blank) => Ok(()),
            Some(Line::Group(name)) => {
                self.end_group()?;
                self.name = name;
                self.group = Count::new();
                Ok(())
            }
            Some(Line::Text(expected, written)) => {
                let as_expected = self.judged(number, expected, written)?;
                self.count(as_expected)
            }
            None => {
                self.misfit(number)?;
                self.count(false)
            }
        }
    }
}

// Prints the report, and tells the counts of the whole table.
pub fn report<W: Write>(out: &mut W, heap: Global, table: &[u8]) -> anyhow::Result<Count> {
    let mut judging = Judging {
        out,
        heap,
        name: b"before the first group",
        group: Count::new(),
        all: Count::new(),
    };
    for (number, text) in (1..).zip(Pieces::of(table, b'\n')) {
        judging.line(number, read_line(text))?;
    }
    judging.end_group()?;
    let all = judging.all;
    writeln!(judging.out)?;
    writeln!(judging.out, "{all}")?;
    Ok(all)
}

// The lines of the rows: how long they are, and writing them.
ghost use Rattle.std.specs.Prelude.{◌≡◌, ◌*◌, ◌≤◌, length, filter};
ghost use Rattle.draft.specs.Growing.{Stands, text_in};
ghost use Rattle.event.specs.Lawful.{largest_register};
ghost use Rattle.ledger.specs.Contents.{events_in};
ghost use Rattle.ledger.specs.Held.{billed, sessions};
ghost use Rattle.ledger.specs.Rows.{runs_in};
ghost use Rattle.statement.specs.Lines.{billed_line, end_text, open_line, total_line};
ghost use Rattle.statement.specs.Parts.{Payable, billed_at, found_text, part_lines, text_at};

use crate::line::{begin, push_field, push_stretches};
use crate::part::Part;
use cents::Price;
use draft::Draft;
use ledger::{Bill, EndMark, Found, Lack, Ledger};

// `B`, the id, the energy and the cents.
fn bill_line(bill: Bill, price: Price) -> Draft
    requires { bill.energy ≤ largest_register }
    ensures { text_in result ≡ billed_line price.thousandths bill.id bill.energy }
{
    let cents = price.cents(bill.energy).unwrap();
    let mut line = begin(b'B', bill.id);
    push_field(&mut line, bill.energy);
    push_field(&mut line, cents);
    line.push(b'\n');
    line
}

// Kept: drafts take bytes, so a `Display` would not serve.
fn end_word(end: EndMark) -> &'static [u8]
    ensures text { result.now ≡ end_text end }
    ensures long { length result.now ≤ 6 }
{
    match end {
        EndMark::Held => b"held",
        EndMark::Absent => b"absent",
    }
}

// `O`, the id, how many numbers are missing, whether the end is held, and the missing stretches.
fn lack_line(lack: Lack) -> Draft
    ensures { text_in result ≡ open_line lack.id lack.count lack.end (runs_in lack.missing) }
{
    let mut line = begin(b'O', lack.id);
    push_field(&mut line, u64::from(lack.count));
    line.push(b' ');
    line.push_text(end_word(lack.end));
    line.push(b' ');
    push_stretches(&mut line, lack.missing.as_slice());
    line.push(b'\n');
    line
}

// What a row gives to the part: its line, or nothing where it belongs to the other.
fn found_line(found: Found, price: Price, part: Part) -> Draft
    requires { Payable found }
    ensures { text_in result ≡ found_text price.thousandths part found }
{
    match (found, part) {
        (Found::Billed(bill), Part::Billed) => bill_line(bill, price),
        (Found::Open(lack), Part::Open) => lack_line(lack),
        _ => Draft::new(),
    }
}

// The lines of one part of a statement.
#[derive(Clone, Copy)]
pub(crate) struct Lines<'l, 'm> {
    pub(crate) ledger: &'l Ledger<'m>,
    pub(crate) price: Price,
    pub(crate) part: Part,
}

impl<'l, 'm> Lines<'l, 'm> {
    // What the row at the place gives to the part; nothing where there is no row.
    fn line(&self, place: usize) -> Draft
        ensures { text_in result ≡ text_at (events_in self.now.ledger.now) self.now.price.thousandths self.now.part place }
    {
        match self.ledger.row(place) {
            Some(found) => found_line(found, self.price, self.part),
            None => Draft::new(),
        }
    }

    // How many bytes they have.
    pub(crate) fn size(&self) -> usize
        ensures size { result ≡ length (part_lines (events_in self.now.ledger.now) self.now.price.thousandths self.now.part) }
        ensures bound { result ≤ 1024 * 1024 }
    {
        (0..self.ledger.len())
            .map(|place| self.line(place).len())
            .sum()
    }

    // Writes them to the beginning of the buffer, which has room for them; says where they end.
    pub(crate) fn write(&self, out: &mut [u8]) -> usize
        requires { length (part_lines (events_in self.now.ledger.now) self.now.price.thousandths self.now.part) ≤ length out.old }
        ensures end { result ≡ length (part_lines (events_in self.now.ledger.now) self.now.price.thousandths self.now.part) }
        ensures text { Stands (part_lines (events_in self.now.ledger.now) self.now.price.thousandths self.now.part) out.old out.new }
    {
        let mut end = 0;
        // Kept: a `for` over places, since a ledger gives its rows by their place.
        for place in 0..self.ledger.len() {
            let line = self.line(place);
            let next = end + line.len();
            out[end..next].copy_from_slice(line.text());
            end = next;
        }
        end
    }
}

// Whether there is a row at the place, and it is billed.
fn is_billed(ledger: &Ledger<'_>, place: usize) -> bool
    ensures { result ≡ billed_at (events_in ledger.now) place }
{
    ledger
        .row(place)
        .is_some_and(|found| matches!(found, Found::Billed(_)))
}

// How many rows are billed.
pub(crate) fn billed_count(ledger: &Ledger<'_>) -> usize
    ensures { result ≡ length (filter (billed (events_in ledger.now)) (sessions (events_in ledger.now))) }
{
    (0..ledger.len())
        .filter(|place| is_billed(ledger, *place))
        .count()
}

// `T`, how many rows are billed and how many are open.
pub(crate) fn total_line(billed: usize, open: usize) -> Draft
    ensures { text_in result ≡ total_line billed «open» }
{
    let mut line = Draft::new();
    line.push(b'T');
    push_field(&mut line, billed as u64);
    push_field(&mut line, open as u64);
    line.push(b'\n');
    line
}

// What a line says, what it costs, and what is wrong with it.
use event::Register;
use ids::TransactionId;
use refusal::Refusal;
use std::fmt;

#[derive(Clone, Copy)]
pub struct Entry {
    pub id: TransactionId,
    pub started: Register,
    pub ended: Register,
}

#[derive(Clone, Copy)]
pub struct Charge {
    pub id: TransactionId,
    // in Wh
    pub energy: u64,
    pub cents: u64,
}

#[derive(Clone, Copy)]
pub enum Field {
    Id,
    Started,
    Ended,
    Price,
}

#[derive(Clone, Copy)]
pub struct Misread {
    pub field: Field,
    // where the field begins in its line, counted from 1; 0 for the price, which stands in no line
    pub place: usize,
    pub why: Refusal,
}

impl fmt::Display for Field {
    fn fmt<W: fmt::Write>(&self, f: &mut fmt::Formatter<W>) -> fmt::Result {
        f.write_str(match self {
            Field::Id => "transaction id",
            Field::Started => "started Wh",
            Field::Ended => "ended Wh",
            Field::Price => "price",
        })
    }
}

// The lines of a table.
use crate::verdict::Verdict;
use refusal::Refusal;

#[derive(Clone, Copy)]
pub enum Line<'a> {
    Blank,
    Group(&'a [u8]),
    // the expected verdict, and the text as the table writes it
    Text(Verdict, &'a [u8]),
}

// Nothing for what is no line of a table.
pub fn read_line(line: &[u8]) -> Option<Line<'_>> {
    match line {
        [] => Some(Line::Blank),
        [b'#', b' ', name @ ..] => Some(Line::Group(name)),
        [b'j', b's', b'o', b'n', b' ', text @ ..] => Some(Line::Text(Ok(()), text)),
        [b'5', b'1', b' ', text @ ..] => Some(Line::Text(Err(Refusal::TextTooLong), text)),
        [b'5', b'2', b' ', text @ ..] => Some(Line::Text(Err(Refusal::TooDeep), text)),
        [b'5', b'3', b' ', text @ ..] => Some(Line::Text(Err(Refusal::NotJson), text)),
        _ => None,
    }
}

// Making a text grow: what does not fit is not taken, and the text stays as it was.
ghost use Rattle.std.specs.Prelude.{◌≡◌, ◌≤◌, [], ◌∷◌, length, decimal};
ghost use Rattle.decimal.specs.Decimal.{fixed};
ghost use Rattle.draft.specs.Growing.{Grows, most, text_in};

use crate::draft::Draft;
use decimal::{plain_width, write_fixed};

impl Draft {
    pub fn new() -> Draft
        ensures { text_in result ≡ [] }
    {
        Draft {
            bytes: [0; 1024],
            len: 0,
        }
    }

    pub fn text(&self) -> &[u8]
        ensures { result.now ≡ text_in self.now }
    {
        &self.bytes[0..self.len]
    }

    pub fn len(&self) -> usize
        ensures value { result ≡ length (text_in self.now) }
        ensures bound { result ≤ most }
    {
        self.len
    }

    // One byte more.
    pub fn push(&mut self, byte: u8)
        ensures { Grows (text_in self.old) (byte ∷ []) (text_in self.new) }
    {
        self.push_text(&[byte]);
    }

    // The bytes of a word.
    pub fn push_text(&mut self, text: &[u8])
        ensures { Grows (text_in self.old) text.now (text_in self.new) }
    {
        let start = self.len;
        if text.len() > 1024 - start {
            return;
        }
        let end = start + text.len();
        self.bytes[start..end].copy_from_slice(text);
        self.len = end;
    }

    // The last digits of a number.
    pub fn push_fixed(&mut self, width: usize, number: u64)
        ensures { Grows (text_in self.old) (fixed width number) (text_in self.new) }
    {
        let start = self.len;
        if width > 1024 - start {
            return;
        }
        let end = start + width;
        write_fixed(number, &mut self.bytes[start..end]);
        self.len = end;
    }

    // A number with no needless leading 0.
    pub fn push_plain(&mut self, number: u64)
        ensures { Grows (text_in self.old) (decimal number) (text_in self.new) }
    {
        self.push_fixed(plain_width(number), number);
    }
}

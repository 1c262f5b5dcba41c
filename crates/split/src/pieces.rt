// The pieces of a text between separators.
ghost use Rattle.std.specs.Prelude.{◌≡◌};
ghost use Rattle.std.specs.Iterator.{YieldsFirstBy, item_count};
ghost use Rattle.split.specs.Pieces.{left, pieces};

use crate::cut;

// What is left of a text that is taken piece by piece.
#[derive(Drop)]
pub struct Pieces<'a> {
    rest: &'a [u8],
    separator: u8,
}

impl<'a> Pieces<'a> {
    // The pieces of the text, each up to the next separator; what follows the last one is a piece too, where it is not empty.
    pub fn of(text: &'a [u8], separator: u8) -> Pieces<'a>
        ensures { left result ≡ pieces separator text.now }
    {
        Pieces {
            rest: text,
            separator,
        }
    }
}

impl<'a> Iterator for Pieces<'a> {
    type Item = &'a [u8];

    ghost next_gives = { YieldsFirstBy (λ piece. piece.now) left };

    ghost remaining = { item_count left };

    fn next(&mut self) -> Option<&'a [u8]> {
        if self.rest.is_empty() {
            return None;
        }
        let (piece, rest) = cut(self.rest, self.separator);
        self.rest = rest;
        Some(piece)
    }
}

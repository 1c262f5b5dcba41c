// The bytes of `true`, `false` and `null`.
ghost use Rattle.std.specs.Prelude.{if◌then◌else◌, nat_eq};
ghost use Rattle.json_text.specs.Machine.{move};
ghost use Rattle.json_text.specs.Machine.State.{dead, live};
ghost use Rattle.json_text.specs.Scanning.{Right, mode_of, word_mode};

use crate::mode::{Mode, Move, WordRest};

// On to this mode where the byte is the one that must come.
pub fn expect(byte: u8, wanted: u8, mode: Mode) -> Option<Move>
    ensures { Right result (λ k. (if nat_eq byte wanted then live (mode_of mode) k else dead)) }
{
    (byte == wanted).then_some(Move::To(mode))
}

pub fn in_word(rest: WordRest, byte: u8) -> Option<Move>
    ensures { Right result (λ k. move (word_mode rest) k byte) }
{
    match rest {
        WordRest::Rue => expect(byte, b'r', Mode::Word(WordRest::Ue)),
        WordRest::Ue => expect(byte, b'u', Mode::Word(WordRest::E)),
        WordRest::E => expect(byte, b'e', Mode::After),
        WordRest::Alse => expect(byte, b'a', Mode::Word(WordRest::Lse)),
        WordRest::Lse => expect(byte, b'l', Mode::Word(WordRest::Se)),
        WordRest::Se => expect(byte, b's', Mode::Word(WordRest::E)),
        WordRest::Ull => expect(byte, b'u', Mode::Word(WordRest::Ll)),
        WordRest::Ll => expect(byte, b'l', Mode::Word(WordRest::L)),
        WordRest::L => expect(byte, b'l', Mode::After),
    }
}

// What kind of value bytes are that are known to be one, and which.
ghost use Rattle.std.specs.Prelude.{◌≡◌, ℕ, List, codes, Decides, MatchBool, MatchOption, ◌≢◌};
ghost use Rattle.frame.specs.Walks.{quoted};
ghost use Rattle.json_text.specs.Grammar.{Json, Membs, Value};
ghost use Rattle.json_text.specs.Grammar.Json.{jnumber, jobject, jstring};

// The value is this string, given with its quotes.
pub fn is_string(value: &[u8], word: &[u8]) -> bool
    ensures { (tree : Json) (s : List ℕ) → Value tree value.now → word.now ≡ quoted s → Decides result (tree ≡ jstring s) }
{
    value == word
}

// The value is the number 2.
pub fn is_two(value: &[u8]) -> bool
    ensures { (tree : Json) → Value tree value.now → Decides result (tree ≡ jnumber (codes "2")) }
{
    value == b"2".as_slice()
}

// The value is an object.
pub fn is_object(value: &[u8]) -> bool
    ensures { (tree : Json) → Value tree value.now → MatchBool result ((ms : Membs) × (tree ≡ jobject ms)) ((ms : Membs) → tree ≢ jobject ms) }
{
    matches!(value, [b'{', ..])
}

// The bytes of a string between its quotes.
pub fn string_bytes(value: &[u8]) -> Option<&[u8]>
    ensures { (tree : Json) → Value tree value.now → MatchOption result ((s : List ℕ) → tree ≢ jstring s) (λ x. tree ≡ jstring x.now) }
{
    match value {
        [b'"', bytes @ .., _] => Some(bytes),
        _ => None,
    }
}

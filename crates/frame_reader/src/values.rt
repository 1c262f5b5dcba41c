// The forms of the values that are read.
ghost use Rattle.std.specs.Prelude.{◌≡◌, ℕ, ◌≤◌, Bool, decimal, Decides, MatchOption, ◌≢◌};
ghost use Rattle.event.specs.Lawful.{largest_register};
ghost use Rattle.frame_reader.specs.Frame.{flag};
ghost use Rattle.frame_reader.specs.Values.{NoNumber, NoTime, TimeIn};
ghost use Rattle.ids.specs.Ids.{id_text, message_id_text};
ghost use Rattle.json_text.specs.Grammar.{Json, Value};
ghost use Rattle.json_text.specs.Grammar.Json.{jnumber, jstring};

use decimal::plain_value;
use event::{LARGEST_REGISTER, Named, find_named};
use frame::string_bytes;

// The kind that the value names.
pub fn named<K: Named + 'static>(value: &[u8]) -> Option<K>
    ensures { (tree : Json) → Value tree value.now → MatchOption result ((kind : K) → tree ≢ jstring (K.named kind)) (λ kind. tree ≡ jstring (K.named kind)) }
{
    find_named(string_bytes(value)?)
}

pub fn truth(value: &[u8]) -> Option<bool>
    ensures { (tree : Json) → Value tree value.now → MatchOption result ((b : Bool) → tree ≢ flag b) (λ b. tree ≡ flag b) }
{
    if value == b"true".as_slice() {
        Some(true)
    } else if value == b"false".as_slice() {
        Some(false)
    } else {
        None
    }
}

// A number up to the largest register, with no needless leading 0, sign, fraction or exponent.
pub fn number(value: &[u8]) -> Option<u64>
    ensures { (tree : Json) → Value tree value.now → MatchOption result (NoNumber tree) (λ n. (n ≤ largest_register) × (tree ≡ jnumber (decimal n))) }
{
    let number = plain_value(value)?;
    if number > LARGEST_REGISTER {
        return None;
    }
    Some(number)
}

// The second of a timestamp.
pub fn time(value: &[u8]) -> Option<u32>
    ensures { (tree : Json) → Value tree value.now → MatchOption result (NoTime tree) (TimeIn tree) }
{
    calendar::read(string_bytes(value)?).ok()
}

const TRANSACTION_ID_LENGTH: usize = 14;

// The value is the transaction id that the message id begins with.
pub fn is_front(value: &[u8], id: &[u8]) -> bool
    ensures { (tree : Json) (station session number attempt : ℕ) → Value tree value.now → id.now ≡ message_id_text station session number attempt → Decides result (tree ≡ jstring (id_text station session)) }
{
    if id.len() < TRANSACTION_ID_LENGTH {
        return false;
    }
    match string_bytes(value) {
        Some(text) => text == &id[..TRANSACTION_ID_LENGTH],
        None => false,
    }
}

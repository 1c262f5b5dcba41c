// Decimal numbers as bytes: of a fixed width, and plain.
#![tactic(auto)]

ghost use Rattle.std.specs.Prelude.{◌≡◌, ℕ, ◌+◌, ◌-◌, ◌%◌, ◌^◌, ◌<◌, min, length, decimal, MatchOption};
ghost use Rattle.decimal.specs.Decimal.{AllDigits, value, fixed, FixedText, PlainText};

// The most digits that `fixed_value` reads: as many nines fit a u64.
const MOST_DIGITS: usize = 18;

// The number that the bytes write, or `u64::MAX` where it is larger; `None` where a byte is no digit. Kept: it saturates, as
// the library's own sums do; a case of its own would be an error type that every caller turns into its own refusal.
fn capped_value(digits: &[u8]) -> Option<u64>
    ensures { MatchOption result (AllDigits digits.now → ⊥) (λ n. AllDigits digits.now × (n ≡ min (value digits.now) (2 ^ 64 - 1))) }
{
    let mut number: u64 = 0;
    for byte in digits {
        if !byte.is_ascii_digit() {
            return None;
        }
        number = number
            .saturating_mul(10)
            .saturating_add(u64::from(*byte - b'0'));
    }
    Some(number)
}

// The number that 1 to 18 digits write; `None` for any other bytes.
pub fn fixed_value(digits: &[u8]) -> Option<u64>
    ensures { MatchOption result ((n : ℕ) → FixedText digits.now n → ⊥) (λ n. FixedText digits.now n) }
{
    if digits.is_empty() || digits.len() > MOST_DIGITS {
        return None;
    }
    capped_value(digits)
}

// The number that is written with no needless leading 0, or `u64::MAX` where it is larger; `None` for any other bytes.
pub fn plain_value(digits: &[u8]) -> Option<u64>
    ensures { MatchOption result (PlainText digits.now → ⊥) (λ n. PlainText digits.now × (n ≡ min (value digits.now) (2 ^ 64 - 1))) }
{
    match digits {
        [] | [b'0', _, ..] => None,
        _ => capped_value(digits),
    }
}

// The byte of the last digit.
fn last_digit(number: u64) -> u8
    ensures { result ≡ 48 + number % 10 }
{
    b'0' + (number % 10) as u8
}

// Writes the last digits of `number`, as many as `out` has room for.
pub fn write_fixed(number: u64, out: &mut [u8])
    ensures { out.new ≡ fixed (length out.old) number }
{
    let mut rest = number;
    // Kept: places are counted, since nothing is known of what an adapter of `iter_mut`, as its `rev`, has written, and a
    // `while let` over `split_last_mut` wants a measure and more of an invariant.
    for i in (0..out.len()).rev() {
        out[i] = last_digit(rest);
        rest /= 10;
    }
}

// How many digits the number has where it is written with no needless leading 0.
pub fn plain_width(number: u64) -> usize
    ensures { result ≡ length (decimal number) }
{
    match number.checked_ilog10() {
        Some(log) => log as usize + 1,
        None => 1,
    }
}

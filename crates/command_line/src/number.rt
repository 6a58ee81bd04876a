//! Numbers as words of decimal digits.

ghost use Rattle.std.specs.Prelude.{◌≤◌, ℕ, MatchOption};
ghost use Rattle.command_line.specs.Numbers.{IsNumber};

/// The most entries of a run.
const MOST_STEPS: u64 = 1_000_000_000;

/// The value of a word of decimal digits, if that is what it is and the value is at most [`MOST_STEPS`].
pub(crate) fn number(word: &str) -> Option<u64>
    ensures { MatchOption result ((value : ℕ) → IsNumber word.now value → value ≤ MOST_STEPS → ⊥)
        (λ value. IsNumber word.now value × (value ≤ MOST_STEPS)) }
{
    if word.is_empty() {
        return None;
    }
    let digits = word.as_bytes();
    let mut value = 0;
    for digit in digits {
        if !digit.is_ascii_digit() {
            return None;
        }
        value = 10 * value + (*digit - b'0') as u64;
        if value > MOST_STEPS {
            return None;
        }
    }
    Some(value)
}

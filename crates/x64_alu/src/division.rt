//! IDIV: signed division of 128 bits by 64, rounded toward 0.

ghost use Rattle.std.specs.Prelude.{◌≡◌, int_rem};
ghost use Rattle.std.specs.Int.{w64, w128, CanDivide};
ghost use Rattle.cv_word.specs.Arithmetic.{dividend, divided, quotient_fits, signs_of};

use crate::arithmetic::signs;

/// IDIV of the signed 128 bits `high`:`low` by the signed word `by`: quotient and remainder. None exactly where `by`
/// is 0 or the quotient doesn't fit a signed word.
pub fn divide(high: u64, low: u64, by: u64) -> Option<(u64, u64)>
    ensures { result ≡ divided high low by }
{
    if high == signs(low) {
        divide_word(low, by)
    } else {
        divide_wide(high, low, by)
    }
}

/// IDIV of a dividend that fits a signed word.
#[tactic(auto, using(crate::proofs::Quotients::divided_none))]
fn divide_word(low: u64, by: u64) -> Option<(u64, u64)>
    ensures { result ≡ divided (signs_of low) low by }
{
    let over = low.cast_signed();
    let under = by.cast_signed();
    match over.checked_div(under) {
        None => None,
        Some(quotient) => {
            let rest = remainder_word(over, under);
            Some((quotient.cast_unsigned(), rest.cast_unsigned()))
        }
    }
}

/// IDIV in 128 bits.
#[tactic(auto, using(crate::proofs::Quotients::divided_none))]
fn divide_wide(high: u64, low: u64, by: u64) -> Option<(u64, u64)>
    ensures { result ≡ divided high low by }
{
    let over = join(high, low);
    let under = by.cast_signed();
    match over.checked_div(under as i128) {
        None => None,
        Some(quotient) => {
            if fits_word(quotient) {
                let rest = remainder(over, under);
                Some(((quotient as i64).cast_unsigned(), rest.cast_unsigned()))
            } else {
                None
            }
        }
    }
}

fn remainder_word(over: i64, under: i64) -> i64
    requires { CanDivide w64 over under }
    ensures { result ≡ int_rem over under }
{
    over % under
}

/// The remainder of a division by a signed word fits a signed word.
fn remainder(over: i128, under: i64) -> i64
    requires { CanDivide w128 over under }
    ensures { result ≡ int_rem over under }
{
    (over % under as i128) as i64
}

/// The signed number of 128 bits.
fn join(high: u64, low: u64) -> i128
    ensures { result ≡ dividend high low }
{
    (high as u128 * 0x1_0000_0000_0000_0000 + low as u128).cast_signed()
}

fn fits_word(quotient: i128) -> bool
    ensures { result ≡ quotient_fits quotient }
{
    -0x8000_0000_0000_0000 <= quotient && quotient < 0x8000_0000_0000_0000
}

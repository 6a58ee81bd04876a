//! Numbers.

ghost use Rattle.c_lexer.specs.Reading.{digits_value, number_at, number_text, value_from, without_suffix};
ghost use Rattle.std.specs.Prelude.{◌≡◌, [], ◌∷◌};

use crate::bytes::{byte_at, digit_value};
use crate::lexer::Piece;
use crate::tokens::TokenKind;
use crate::words::name_length;

/// The greatest number of a source.
const MAXIMUM: u64 = 0x7fff_ffff_ffff_ffff;

/// The digit behind a number, if it is one of the base and the new number is no greater than the
/// greatest.
fn with_digit(base: u64, value: u64, b: u8) -> Option<u64>
    ensures { result ≡ value_from base value (b ∷ []) }
{
    let digit = u64::from(digit_value(b));
    if digit >= base {
        return None;
    }
    let next = value.checked_mul(base)?.checked_add(digit)?;
    if next <= MAXIMUM { Some(next) } else { None }
}

/// The number that the digits spell in this base.
#[tactic(auto, using(crate::proofs::Steps::value_more))]
fn value_in(base: u64, digits: &[u8]) -> Option<u64>
    ensures { result ≡ value_from base 0 digits.now }
{
    let mut value = 0;
    for b in digits {
        match with_digit(base, value, *b) {
            Some(next) => value = next,
            None => return None,
        }
    }
    Some(value)
}

/// The text without `L` or `l` at its end.
#[tactic(auto, unfolding(crate::specs::Reading::without_suffix))]
fn without_suffix(text: &[u8]) -> &[u8]
    ensures { result.now ≡ without_suffix text.now }
{
    if let Some((last, digits)) = text.split_last() {
        if *last == b'L' || *last == b'l' {
            return digits;
        }
    }
    text
}

#[tactic(auto, unfolding(crate::specs::Reading::digits_value))]
fn digits_value(digits: &[u8]) -> Option<u64>
    ensures { result ≡ digits_value digits.now }
{
    if byte_at(digits, 0) != b'0' {
        value_in(10, digits)
    } else if digits.len() == 1 {
        Some(0)
    } else if byte_at(digits, 1) == b'x' && digits.len() > 2 {
        value_in(16, &digits[2..])
    } else {
        None
    }
}

/// The number at the front, which a letter, a digit or `_` may not follow.
#[tactic(auto, unfolding(crate::specs::Reading::number_at, crate::specs::Reading::number_text))]
pub fn number_at(bytes: &[u8]) -> Piece
    ensures { result ≡ number_at bytes.now }
{
    let length = name_length(bytes);
    match digits_value(without_suffix(&bytes[..length])) {
        Some(value) => Piece::Lexeme {
            kind: TokenKind::Num { value },
            length,
        },
        None => Piece::Unknown,
    }
}

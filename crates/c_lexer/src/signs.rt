//! Operators, brackets and separators.

ghost use Rattle.c_lexer.specs.Reading.{is_pair, is_single, is_triple, sign_at};
ghost use Rattle.std.specs.List.{list_any};
ghost use Rattle.std.specs.Prelude.{◌≡◌, ◌==◌, codes};

use crate::bytes::byte_at;
use crate::lexer::Piece;
use crate::tokens::TokenKind;

/// Whether the byte is a sign by itself.
fn is_single(a: u8) -> bool
    ensures { result ≡ is_single a }
{
    match a {
        b'+' | b'-' | b'*' | b'/' | b'%' | b'&' | b'|' | b'^' => true,
        b'~' | b'!' | b'<' | b'>' | b'=' | b'?' | b':' | b';' => true,
        b',' | b'.' | b'(' | b')' | b'[' | b']' | b'{' | b'}' => true,
        _ => false,
    }
}

/// Whether the byte and `=` behind it are a sign.
fn takes_equals(a: u8) -> bool
    ensures { result ≡ list_any (λ s. a == s) (codes "<>=!+-*/%&|^") }
{
    match a {
        b'<' | b'>' | b'=' | b'!' | b'+' | b'-' | b'*' | b'/' | b'%' | b'&' | b'|' | b'^' => true,
        _ => false,
    }
}

/// Whether the byte twice is a sign.
fn doubles(a: u8) -> bool
    ensures { result ≡ list_any (λ s. a == s) (codes "<>&|+-") }
{
    match a {
        b'<' | b'>' | b'&' | b'|' | b'+' | b'-' => true,
        _ => false,
    }
}

fn is_pair(a: u8, b: u8) -> bool
    ensures { result ≡ is_pair a b }
{
    (b == b'=' && takes_equals(a)) || (b == a && doubles(a)) || (a == b'-' && b == b'>')
}

fn is_triple(a: u8, b: u8, c: u8) -> bool
    ensures { result ≡ is_triple a b c }
{
    (a == b'<' || a == b'>') && b == a && c == b'='
}

/// The longest sign at the front.
#[tactic(auto, unfolding(crate::specs::Reading::sign_at))]
pub fn sign_at(bytes: &[u8]) -> Piece
    ensures { result ≡ sign_at bytes.now }
{
    let a = byte_at(bytes, 0);
    let b = byte_at(bytes, 1);
    let kind = TokenKind::Sign;
    if is_triple(a, b, byte_at(bytes, 2)) {
        Piece::Lexeme { kind, length: 3 }
    } else if is_pair(a, b) {
        Piece::Lexeme { kind, length: 2 }
    } else if is_single(a) {
        Piece::Lexeme { kind, length: 1 }
    } else {
        Piece::Unknown
    }
}

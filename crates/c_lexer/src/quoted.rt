//! Characters and strings.

ghost use Rattle.c_lexer.specs.Reading.{character_at, string_end};
ghost use Rattle.c_lexer.specs.Spelling.{escaped, is_plain, IsStringText};
ghost use Rattle.std.specs.Prelude.{◌≡◌, ◌<◌, ℕ, drop, length, IfOk, List};

use crate::bytes::byte_at;
use cv_word::NoMemory;
use std::alloc::Global;

/// The byte that `\` and this byte stand for.
fn escaped(b: u8) -> Option<u8>
    ensures { result ≡ escaped b }
{
    match b {
        b'n' => Some(b'\n'),
        b't' => Some(b'\t'),
        b'r' => Some(b'\r'),
        b'0' => Some(0),
        b'\\' => Some(b'\\'),
        b'\'' => Some(b'\''),
        b'"' => Some(b'"'),
        _ => None,
    }
}

/// Whether the byte stands for itself between two such quotes.
fn is_plain(quote: u8, b: u8) -> bool
    ensures { result ≡ is_plain quote b }
{
    b' ' <= b && b <= b'~' && b != quote && b != b'\\'
}

/// The character at the front, behind its quote, and its length.
#[tactic(auto, unfolding(crate::specs::Reading::character_at))]
pub fn character_at(bytes: &[u8]) -> Option<(u8, usize)>
    ensures { result ≡ character_at bytes.now }
{
    let first = byte_at(bytes, 1);
    if first == b'\\' {
        if byte_at(bytes, 3) == b'\'' {
            escaped(byte_at(bytes, 2)).map(|b| (b, 4))
        } else {
            None
        }
    } else if is_plain(b'\'', first) && byte_at(bytes, 2) == b'\'' {
        Some((first, 3))
    } else {
        None
    }
}

/// The length of the string at the front, whose first quote isn't looked at.
#[tactic(auto, using(crate::proofs::Steps::string_more))]
pub fn string_length(bytes: &[u8]) -> Option<usize>
    ensures { result ≡ string_end 1 (drop 1 bytes.now) }
{
    let mut place = 1;
    while place < bytes.len() {
        let b = bytes[place];
        if b == b'"' {
            return Some(place + 1);
        }
        if b == b'\\' {
            if escaped(byte_at(bytes, place + 1)).is_none() {
                return None;
            }
            place += 2;
        } else if is_plain(b'"', b) {
            place += 1;
        } else {
            return None;
        }
    }
    None
}

/// The bytes that a string stands for, of its text with both quotes.
pub fn string_bytes(alloc: Global, text: &[u8]) -> Result<Vec<u8>, NoMemory>
    requires { (bytes : List ℕ) × IsStringText text.now bytes }
    ensures { IfOk result (λ v. IsStringText text.now v.items) }
{
    let mut bytes = Vec::new(alloc);
    let mut place = 1;
    while place + 1 < text.len() {
        let b = text[place];
        if b == b'\\' {
            match escaped(byte_at(text, place + 1)) {
                Some(meant) => bytes.push(meant)?,
                None => unreachable!(),
            }
            place += 2;
        } else {
            bytes.push(b)?;
            place += 1;
        }
    }
    Ok(bytes)
}

/// The text of a string stands for one list of bytes.
pub fn one_string()
    ensures { (text bytes others : List ℕ)
        → IsStringText text bytes → IsStringText text others → bytes ≡ others }
{}

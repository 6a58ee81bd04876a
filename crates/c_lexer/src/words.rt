//! Names and keywords.

ghost use Rattle.c_lexer.specs.Reading.{is_keyword, name_at};
ghost use Rattle.c_lexer.specs.Spelling.{is_name_byte};
ghost use Rattle.std.specs.List.{prefix_len};
ghost use Rattle.std.specs.Prelude.{◌≡◌};

use crate::bytes;
use crate::lexer::Piece;
use crate::tokens::TokenKind;

/// How many letters, digits and `_` the bytes begin with.
pub fn name_length(bytes: &[u8]) -> usize
    ensures { result ≡ prefix_len is_name_byte bytes.now }
{
    let mut len = 0;
    while len < bytes.len() && bytes::is_name_byte(bytes[len]) {
        len += 1;
    }
    len
}

/// Whether the whole text is a keyword.
fn is_keyword(text: &[u8]) -> bool
    ensures { result ≡ is_keyword text.now }
{
    match text.len() {
        2 => text == b"if".as_slice() || text == b"do".as_slice(),
        3 => text == b"int".as_slice() || text == b"for".as_slice(),
        4 => {
            text == b"char".as_slice()
                || text == b"long".as_slice()
                || text == b"void".as_slice()
                || text == b"else".as_slice()
        }
        5 => text == b"while".as_slice() || text == b"break".as_slice(),
        6 => text == b"struct".as_slice()
            || text == b"return".as_slice()
            || text == b"sizeof".as_slice(),
        7 => text == b"private".as_slice(),
        8 => text == b"continue".as_slice(),
        _ => false,
    }
}

/// The name or keyword at the front.
#[tactic(auto, unfolding(crate::specs::Reading::name_at))]
pub fn name_at(bytes: &[u8]) -> Piece
    ensures { result ≡ name_at bytes.now }
{
    let length = name_length(bytes);
    let kind = if is_keyword(&bytes[..length]) {
        TokenKind::Keyword
    } else {
        TokenKind::Name
    };
    Piece::Lexeme { kind, length }
}

//! Comments.

ghost use Rattle.c_lexer.specs.Reading.{comment_at, comment_end};
ghost use Rattle.c_lexer.specs.Tokens.{is_not_line_feed, opens_comment};
ghost use Rattle.std.specs.List.{prefix_len};
ghost use Rattle.std.specs.Prelude.{◌≡◌, ◌≤◌, drop, length, IsTrue};

use crate::bytes::byte_at;
use crate::lexer::Piece;

/// Whether the bytes begin with `/*` or `//`.
pub fn opens_comment(bytes: &[u8]) -> bool
    ensures { result ≡ opens_comment bytes.now }
{
    let second = byte_at(bytes, 1);
    byte_at(bytes, 0) == b'/' && (second == b'*' || second == b'/')
}

/// The length of the bytes before the first line feed.
fn line_length(bytes: &[u8]) -> usize
    ensures value { result ≡ prefix_len is_not_line_feed bytes.now }
    ensures bound { result ≤ length bytes.now }
{
    let mut len = 0;
    while len < bytes.len() && bytes[len] != b'\n' {
        len += 1;
    }
    len
}

/// The length up to and with the first `*/` from place 2 on.
#[tactic(auto, using(crate::proofs::Steps::comment_more))]
fn block_length(bytes: &[u8]) -> Option<usize>
    ensures { result ≡ comment_end 2 (drop 2 bytes.now) }
{
    let mut place = 2;
    while place < bytes.len() {
        if bytes[place] == b'*' && byte_at(bytes, place + 1) == b'/' {
            return Some(place + 2);
        }
        place += 1;
    }
    None
}

/// The comment at the front, whose first byte isn't looked at.
#[tactic(auto, unfolding(crate::specs::Reading::comment_at))]
pub fn comment_at(bytes: &[u8]) -> Piece
    requires { 2 ≤ length bytes.now }
    ensures { result ≡ comment_at bytes.now }
{
    if byte_at(bytes, 1) == b'/' {
        Piece::Blank {
            length: 2 + line_length(&bytes[2..]),
        }
    } else {
        match block_length(bytes) {
            Some(length) => Piece::Blank { length },
            None => Piece::Unknown,
        }
    }
}

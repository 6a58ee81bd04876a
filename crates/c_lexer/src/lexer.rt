//! The whole source.

ghost use Rattle.c_lexer.specs.Reading.{piece_at};
ghost use Rattle.c_lexer.specs.Tokens.{IsRefusal, IsTokenList, StopsAt};
ghost use Rattle.c_lexer.specs.Texts.{LieIn};
ghost use Rattle.c_lexer.specs.declared.tokens.Token.{Token};
ghost use Rattle.std.specs.Prelude.{◌≡◌, ◌^◌, ◌<◌, ◌⊎◌, ℕ, drop, length, IfErr, IfOk, List};

use crate::bytes::{byte_at, is_name_start, is_space};
use crate::comments::{comment_at, opens_comment};
use crate::numbers::number_at;
use crate::quoted::{character_at, string_length};
use crate::signs::sign_at;
use crate::tokens::{LexError, Token, TokenKind};
use crate::words::name_at;
use std::alloc::Global;

/// What stands at the front of some bytes, and how long it is.
#[derive(Clone, Copy, Debug)]
pub enum Piece {
    /// A space or a comment.
    Blank { length: usize },
    /// A token.
    Lexeme { kind: TokenKind, length: usize },
    /// None of these.
    Unknown,
}

#[tactic(auto, unfolding(crate::specs::Reading::piece_at))]
fn piece_at(bytes: &[u8]) -> Piece
    ensures { result ≡ piece_at bytes.now }
{
    let first = byte_at(bytes, 0);
    if is_space(first) {
        Piece::Blank { length: 1 }
    } else if is_name_start(first) {
        name_at(bytes)
    } else if first.is_ascii_digit() {
        number_at(bytes)
    } else if first == b'\'' {
        match character_at(bytes) {
            Some((value, length)) => Piece::Lexeme {
                kind: TokenKind::Char { value },
                length,
            },
            None => Piece::Unknown,
        }
    } else if first == b'"' {
        match string_length(bytes) {
            Some(length) => Piece::Lexeme {
                kind: TokenKind::Str,
                length,
            },
            None => Piece::Unknown,
        }
    } else if opens_comment(bytes) {
        comment_at(bytes)
    } else {
        sign_at(bytes)
    }
}

/// What stands at a place.
fn piece_from(source: &[u8], place: usize) -> Piece
    requires { place < length source.now }
    ensures { result ≡ piece_at (drop place source.now) }
{
    piece_at(&source[place..])
}

/// The tokens of a source of fewer than 2^32 bytes, from left to right: at each place the longest
/// token that begins there. Spaces and comments stand between them. A name that is a keyword is a
/// keyword, and a number and a character come with their values.
///
/// `LexFault` names the first place, after spaces and comments, where no token begins.
pub fn lex(alloc: Global, source: &[u8]) -> Result<Vec<Token>, LexError>
    requires { length source.now < 2 ^ 32 }
    ensures found { IfOk result (λ v. IsTokenList source.now v.items) }
    ensures fault { IfErr result (IsRefusal source.now) }
{
    let mut tokens = Vec::new(alloc);
    let mut place = 0;
    while place < source.len() {
        match piece_from(source, place) {
            Piece::Blank { length } => place += length,
            Piece::Lexeme { kind, length } => {
                let end = place + length;
                tokens.push(Token {
                    kind,
                    start: place as u32,
                    end: end as u32,
                })?;
                place = end;
            }
            Piece::Unknown => {
                let place = place as u32;
                return Err(LexError::LexFault { place });
            }
        }
    }
    Ok(tokens)
}

/// A source has one list of tokens, or one place where no token begins, and never both.
pub fn one_reading()
    ensures some { (source : List ℕ) → ((tokens : List Token) × IsTokenList source tokens)
        ⊎ ((place : ℕ) × StopsAt source place) }
    ensures tokens { (source : List ℕ) (tokens others : List Token)
        → IsTokenList source tokens → IsTokenList source others → tokens ≡ others }
    ensures places { (source : List ℕ) (place other : ℕ)
        → StopsAt source place → StopsAt source other → place ≡ other }
    ensures either { (source : List ℕ) (tokens : List Token) (place : ℕ)
        → IsTokenList source tokens → StopsAt source place → ⊥ }
{}

/// Each token of a source has bytes that lie in it and spell its kind, the tokens' first places
/// rise, and there are no more tokens than bytes.
pub fn tokens_lie_in_source()
    ensures { (source : List ℕ) (tokens : List Token) → IsTokenList source tokens → LieIn source tokens }
{}

//! What a token is to the grammar.

ghost use Rattle.c_grammar.specs.Terminals.{keyword_spellings, sign_spellings, spelled_in, terminal_of};
ghost use Rattle.std.specs.Prelude.{◌≡◌, drop};

use c_grammar::Terminal;
use c_lexer::TokenKind;

/// The terminal that a keyword is.
fn keyword(text: &[u8]) -> Terminal
    ensures { result ≡ spelled_in keyword_spellings text.now }
{
    if text == b"char".as_slice() {
        Terminal::Char
    } else if text == b"int".as_slice() {
        Terminal::Int
    } else if text == b"long".as_slice() {
        Terminal::Long
    } else if text == b"void".as_slice() {
        Terminal::Void
    } else if text == b"struct".as_slice() {
        Terminal::Struct
    } else if text == b"private".as_slice() {
        Terminal::Private
    } else if text == b"if".as_slice() {
        Terminal::If
    } else if text == b"else".as_slice() {
        Terminal::Else
    } else {
        later_keyword(text)
    }
}

/// The same for the keywords behind `else` in the list.
fn later_keyword(text: &[u8]) -> Terminal
    ensures { result ≡ spelled_in (drop 8 keyword_spellings) text.now }
{
    if text == b"while".as_slice() {
        Terminal::While
    } else if text == b"for".as_slice() {
        Terminal::For
    } else if text == b"do".as_slice() {
        Terminal::Do
    } else if text == b"return".as_slice() {
        Terminal::Return
    } else if text == b"break".as_slice() {
        Terminal::Break
    } else if text == b"continue".as_slice() {
        Terminal::Continue
    } else if text == b"sizeof".as_slice() {
        Terminal::Sizeof
    } else {
        Terminal::Unused
    }
}

/// The terminal that a sign is.
fn sign(text: &[u8]) -> Terminal
    ensures { result ≡ spelled_in sign_spellings text.now }
{
    if text == b"+".as_slice() {
        Terminal::Plus
    } else if text == b"-".as_slice() {
        Terminal::Minus
    } else if text == b"*".as_slice() {
        Terminal::Star
    } else if text == b"/".as_slice() {
        Terminal::Slash
    } else if text == b"%".as_slice() {
        Terminal::Percent
    } else if text == b"&".as_slice() {
        Terminal::Ampersand
    } else if text == b"|".as_slice() {
        Terminal::Bar
    } else if text == b"^".as_slice() {
        Terminal::Caret
    } else {
        late_sign(text)
    }
}

/// The same for the signs behind `^` in the list.
fn late_sign(text: &[u8]) -> Terminal
    ensures { result ≡ spelled_in (drop 8 sign_spellings) text.now }
{
    if text == b"~".as_slice() {
        Terminal::Tilde
    } else if text == b"!".as_slice() {
        Terminal::Exclamation
    } else if text == b"<".as_slice() {
        Terminal::Less
    } else if text == b">".as_slice() {
        Terminal::Greater
    } else if text == b"=".as_slice() {
        Terminal::Equals
    } else if text == b"?".as_slice() {
        Terminal::Question
    } else if text == b":".as_slice() {
        Terminal::Colon
    } else if text == b";".as_slice() {
        Terminal::Semicolon
    } else {
        bracket(text)
    }
}

/// The same for the signs behind `;`.
fn bracket(text: &[u8]) -> Terminal
    ensures { result ≡ spelled_in (drop 16 sign_spellings) text.now }
{
    if text == b",".as_slice() {
        Terminal::Comma
    } else if text == b".".as_slice() {
        Terminal::Dot
    } else if text == b"(".as_slice() {
        Terminal::Open
    } else if text == b")".as_slice() {
        Terminal::Close
    } else if text == b"[".as_slice() {
        Terminal::OpenBracket
    } else if text == b"]".as_slice() {
        Terminal::CloseBracket
    } else if text == b"{".as_slice() {
        Terminal::OpenBrace
    } else if text == b"}".as_slice() {
        Terminal::CloseBrace
    } else {
        long_sign(text)
    }
}

/// The same for the signs of two bytes.
fn long_sign(text: &[u8]) -> Terminal
    ensures { result ≡ spelled_in (drop 24 sign_spellings) text.now }
{
    if text == b"<<".as_slice() {
        Terminal::ShiftLeft
    } else if text == b">>".as_slice() {
        Terminal::ShiftRight
    } else if text == b"<=".as_slice() {
        Terminal::LessEqual
    } else if text == b">=".as_slice() {
        Terminal::GreaterEqual
    } else if text == b"==".as_slice() {
        Terminal::EqualEqual
    } else if text == b"!=".as_slice() {
        Terminal::NotEqual
    } else if text == b"&&".as_slice() {
        Terminal::Both
    } else if text == b"||".as_slice() {
        Terminal::Either
    } else if text == b"->".as_slice() {
        Terminal::Arrow
    } else {
        Terminal::Unused
    }
}

/// The terminal of a token of this kind with this text.
pub fn terminal_of(kind: TokenKind, text: &[u8]) -> Terminal
    ensures { result ≡ terminal_of kind text.now }
{
    match kind {
        TokenKind::Name => Terminal::Name,
        TokenKind::Keyword => keyword(text),
        TokenKind::Num { .. } => Terminal::Number,
        TokenKind::Char { .. } => Terminal::Character,
        TokenKind::Str => Terminal::String,
        TokenKind::Sign => sign(text),
    }
}

//! The operators of an expression, and what can begin one.

ghost use Rattle.c_grammar.specs.Grammar as form;
ghost use Rattle.c_parser.specs.Operators.{begins_evaluation, begins_item, begins_suffix, follows_object, is_evaluation, IsNoOperator, IsOperator, IsPrefix, level_of, no_prefix, object_next, op_of, prefix_of};
ghost use Rattle.c_grammar.specs.Ways.{can_be, can_begin, firsts, opens_type};
ghost use Rattle.std.specs.Prelude.{◌≡◌, ◌^◌, ◌<◌, ◌≤◌, drop, length, IfNone, IfSome, IsTrue};

use crate::spot::next_is;
use crate::types::begins_type;
use c_ast::program::{InfixOp, PrefixOp};
use c_grammar::{Terminal, Word};

/// An operator between two operands, and the number of its level. The tightest level is 0.
#[derive(Clone, Copy, Debug)]
pub struct Operator {
    pub sign: Terminal,
    pub op: InfixOp,
    pub level: u8,
}

/// How many levels of operators there are.
pub const LEVELS: u8 = 10;

/// The level of an operator's sign, and 10 where it is none.
fn level_of(sign: Terminal) -> u8
    ensures { result ≡ level_of sign }
{
    match sign {
        Terminal::Star | Terminal::Slash | Terminal::Percent => 0,
        Terminal::Plus | Terminal::Minus => 1,
        Terminal::ShiftLeft | Terminal::ShiftRight => 2,
        Terminal::Less | Terminal::LessEqual | Terminal::Greater | Terminal::GreaterEqual => 3,
        Terminal::EqualEqual | Terminal::NotEqual => 4,
        Terminal::Ampersand => 5,
        Terminal::Caret => 6,
        Terminal::Bar => 7,
        Terminal::Both => 8,
        Terminal::Either => 9,
        _ => LEVELS,
    }
}

/// The operator of a sign.
fn op_of(sign: Terminal) -> InfixOp
    ensures { result ≡ op_of sign }
{
    match sign {
        Terminal::Star => InfixOp::Multiply,
        Terminal::Slash => InfixOp::Divide,
        Terminal::Percent => InfixOp::Remainder,
        Terminal::Minus => InfixOp::Subtract,
        Terminal::ShiftLeft => InfixOp::ShiftLeft,
        Terminal::ShiftRight => InfixOp::ShiftRight,
        Terminal::Less => InfixOp::Less,
        Terminal::LessEqual => InfixOp::LessEqual,
        Terminal::Greater => InfixOp::Greater,
        Terminal::GreaterEqual => InfixOp::GreaterEqual,
        Terminal::EqualEqual => InfixOp::Equal,
        Terminal::NotEqual => InfixOp::NotEqual,
        Terminal::Ampersand => InfixOp::BitAnd,
        Terminal::Caret => InfixOp::BitXor,
        Terminal::Bar => InfixOp::BitOr,
        Terminal::Both => InfixOp::Both,
        Terminal::Either => InfixOp::Either,
        _ => InfixOp::Add,
    }
}

/// The operator that is next, of a level from `passed` on and below `bound`.
pub fn next_operator(words: &[Word], at: usize, passed: u8, bound: u8) -> Option<Operator>
    requires { bound ≤ 10 }
    ensures found { IfSome result (IsOperator (drop at words.now) passed bound) }
    ensures none { IfNone result (IsNoOperator (drop at words.now) passed bound) }
{
    if at >= words.len() {
        return None;
    }
    let sign = words[at].terminal;
    let level = level_of(sign);
    if level < passed {
        return None;
    }
    if level >= bound {
        return None;
    }
    let op = op_of(sign);
    Some(Operator { sign, op, level })
}

/// The sign before an operand.
fn prefix_of(sign: Terminal) -> Option<PrefixOp>
    ensures { result ≡ prefix_of sign }
{
    match sign {
        Terminal::Minus => Some(PrefixOp::Negate),
        Terminal::Tilde => Some(PrefixOp::Complement),
        Terminal::Exclamation => Some(PrefixOp::IsZero),
        Terminal::Star => Some(PrefixOp::Follow),
        Terminal::Ampersand => Some(PrefixOp::Address),
        _ => None,
    }
}

/// The sign before an operand that is next.
pub fn next_prefix(words: &[Word], at: usize) -> Option<(Terminal, PrefixOp)>
    ensures found { IfSome result (λ p. IsPrefix (drop at words.now) p.0 p.1) }
    ensures none { IfNone result (IsTrue (no_prefix (drop at words.now))) }
{
    if at >= words.len() {
        return None;
    }
    let sign = words[at].terminal;
    match prefix_of(sign) {
        Some(op) => Some((sign, op)),
        None => None,
    }
}

/// Whether an expression can begin with this terminal.
fn begins_operand(sign: Terminal) -> bool
    ensures { result ≡ can_be (firsts form.Whole) sign }
{
    matches!(
        sign,
        Terminal::Name
            | Terminal::Number
            | Terminal::Character
            | Terminal::String
            | Terminal::Sizeof
            | Terminal::Minus
            | Terminal::Star
            | Terminal::Ampersand
            | Terminal::Tilde
            | Terminal::Exclamation
            | Terminal::Open
    )
}

/// Whether an expression can begin here.
pub fn begins_expression(words: &[Word], at: usize) -> bool
    ensures { result ≡ can_begin form.Whole (drop at words.now) }
{
    at < words.len() && begins_operand(words[at].terminal)
}

/// Whether a name, a literal or a bracket is next.
pub fn begins_primary(words: &[Word], at: usize) -> bool
    ensures { result ≡ can_begin form.Primary (drop at words.now) }
{
    if at >= words.len() {
        return false;
    }
    is_primary(words[at].terminal)
}

/// Whether a name, a literal or brackets can begin with this terminal.
fn is_primary(sign: Terminal) -> bool
    ensures { result ≡ can_be (firsts form.Primary) sign }
{
    matches!(
        sign,
        Terminal::Name | Terminal::Number | Terminal::Character | Terminal::String | Terminal::Open
    )
}

/// Whether an expression or `;` is next.
pub fn begins_evaluation(words: &[Word], at: usize) -> bool
    ensures { result ≡ begins_evaluation (drop at words.now) }
{
    if at >= words.len() {
        return false;
    }
    is_evaluation(words[at].terminal)
}

/// Whether an expression or `;` can begin with this terminal.
fn is_evaluation(sign: Terminal) -> bool
    ensures { result ≡ is_evaluation sign }
{
    matches!(
        sign,
        Terminal::Name
            | Terminal::Number
            | Terminal::Character
            | Terminal::String
            | Terminal::Sizeof
            | Terminal::Minus
            | Terminal::Star
            | Terminal::Ampersand
            | Terminal::Tilde
            | Terminal::Exclamation
            | Terminal::Open
            | Terminal::Semicolon
    )
}

/// Whether a statement can begin with this terminal.
fn is_statement(sign: Terminal) -> bool
    ensures { result ≡ can_be (firsts form.Statement) sign }
{
    matches!(
        sign,
        Terminal::If
            | Terminal::While
            | Terminal::For
            | Terminal::Do
            | Terminal::Return
            | Terminal::Break
            | Terminal::Continue
            | Terminal::OpenBrace
            | Terminal::Name
            | Terminal::Number
            | Terminal::Character
            | Terminal::String
            | Terminal::Sizeof
            | Terminal::Minus
            | Terminal::Star
            | Terminal::Ampersand
            | Terminal::Tilde
            | Terminal::Exclamation
            | Terminal::Open
            | Terminal::Semicolon
    )
}

/// Whether a statement is next.
fn begins_statement(words: &[Word], at: usize) -> bool
    ensures { result ≡ can_begin form.Statement (drop at words.now) }
{
    if at >= words.len() {
        return false;
    }
    is_statement(words[at].terminal)
}

/// Whether a declaration or a statement is next.
pub fn begins_item(words: &[Word], at: usize) -> bool
    ensures { result ≡ begins_item (drop at words.now) }
{
    begins_type(words, at) | begins_statement(words, at)
}

/// Whether this terminal goes on an object behind its name, or ends it.
fn follows_object(sign: Terminal) -> bool
    ensures { result ≡ follows_object sign }
{
    matches!(
        sign,
        Terminal::Equals | Terminal::Semicolon | Terminal::Comma | Terminal::OpenBracket
    )
}

/// Whether an object goes on behind its name, or ends.
pub fn object_next(words: &[Word], at: usize) -> bool
    ensures { result ≡ object_next (drop at words.now) }
{
    if at >= words.len() {
        return false;
    }
    follows_object(words[at].terminal)
}

/// Whether a suffix is next.
pub fn begins_suffix(words: &[Word], at: usize) -> bool
    ensures { result ≡ begins_suffix (drop at words.now) }
{
    if at >= words.len() {
        return false;
    }
    matches!(
        words[at].terminal,
        Terminal::OpenBracket | Terminal::Open | Terminal::Dot | Terminal::Arrow
    )
}

/// Whether a bracket and a type are next.
pub fn opens_type(words: &[Word], at: usize) -> bool
    requires { length words.now < 2 ^ 32 }
    ensures { result ≡ opens_type (drop at words.now) }
{
    if at >= words.len() {
        return false;
    }
    if !next_is(words, at, Terminal::Open) {
        return false;
    }
    begins_type(words, at + 1)
}

//! Sources and the parts of their trees, for the tables.

use c_ast::Program;
use c_ast::program::{
    Block, BlockItem, Expression, ExpressionKind, InfixOp, Item, PrefixOp, Statement, StatementKind,
};
use c_lexer::lex;
use c_parser::{ParseError, parse};
use std::alloc::Global;
use std::fmt::Write;
use std::process::Abort;
use std::test::Fail;

/// The three texts, one behind the other.
pub fn joined(alloc: Global, before: &str, text: &str, after: &str) -> Result<Vec<u8>, Fail> {
    let mut source = Vec::new(alloc);
    source.extend_from_slice(before.as_bytes())?;
    source.extend_from_slice(text.as_bytes())?;
    source.extend_from_slice(after.as_bytes())?;
    Ok(source)
}

/// A function whose body is the text, from byte 20 and token 5 on.
pub fn with_body(alloc: Global, text: &str) -> Result<Vec<u8>, Fail> {
    joined(alloc, "int main(){         ", text, " }")
}

/// A function that returns the text, from byte 20 and token 6 on.
pub fn with_value(alloc: Global, text: &str) -> Result<Vec<u8>, Fail> {
    joined(alloc, "int main(){  return ", text, "; }")
}

pub fn program_of(rt: &impl Abort, alloc: Global, source: &[u8]) -> Result<Program, Fail> {
    assert!(rt;
        source.len() < 0x1_0000_0000,
        "a source has fewer than 2^32 bytes"
    );
    let tokens = lex(alloc, source)?;
    let program = parse(alloc, tokens.as_slice(), source)?;
    Ok(program)
}

/// Why a source is refused.
pub fn refusal(rt: &impl Abort, alloc: Global, source: &[u8]) -> Result<Option<ParseError>, Fail> {
    assert!(rt;
        source.len() < 0x1_0000_0000,
        "a source has fewer than 2^32 bytes"
    );
    let tokens = lex(alloc, source)?;
    match parse(alloc, tokens.as_slice(), source) {
        Ok(_program) => Ok(None),
        Err(error) => Ok(Some(error)),
    }
}

/// The body of the function that stands first.
pub fn first_body(program: &Program) -> Option<&Block> {
    match program.items.get(0) {
        Some(Item::Function { body, .. }) => Some(body),
        _ => None,
    }
}

/// How many declarations and statements the first function has.
pub fn body_length(program: &Program) -> Option<usize> {
    match first_body(program) {
        Some(block) => Some(block.items.len()),
        None => None,
    }
}

pub fn first_of(block: &Block) -> Option<&Statement> {
    match block.items.get(0) {
        Some(BlockItem::Run { statement }) => Some(statement),
        _ => None,
    }
}

/// The statement that stands first in the first function.
pub fn first_statement(program: &Program) -> Option<&Statement> {
    match first_body(program) {
        Some(block) => first_of(block),
        None => None,
    }
}

/// The value of the first function's `return E;`.
pub fn returned(program: &Program) -> Option<&Expression> {
    match first_statement(program) {
        Some(statement) => match &statement.kind {
            StatementKind::Return { value: Some(value) } => Some(value.get()),
            _ => None,
        },
        None => None,
    }
}

fn sign_of(op: InfixOp) -> &'static str {
    match op {
        InfixOp::Either => "||",
        InfixOp::Both => "&&",
        InfixOp::BitOr => "|",
        InfixOp::BitXor => "^",
        InfixOp::BitAnd => "&",
        InfixOp::Equal => "==",
        InfixOp::NotEqual => "!=",
        InfixOp::Less => "<",
        InfixOp::LessEqual => "<=",
        InfixOp::Greater => ">",
        InfixOp::GreaterEqual => ">=",
        InfixOp::ShiftLeft => "<<",
        InfixOp::ShiftRight => ">>",
        InfixOp::Add => "+",
        InfixOp::Subtract => "-",
        InfixOp::Multiply => "*",
        InfixOp::Divide => "/",
        InfixOp::Remainder => "%",
    }
}

fn prefix_of(op: PrefixOp) -> &'static str {
    match op {
        PrefixOp::Negate => "-x",
        PrefixOp::Complement => "~x",
        PrefixOp::IsZero => "!x",
        PrefixOp::Follow => "*x",
        PrefixOp::Address => "&x",
    }
}

pub fn kind_of(expression: &Expression) -> &'static str {
    match &expression.kind {
        ExpressionKind::Name { .. } => "name",
        ExpressionKind::Number { .. } => "number",
        ExpressionKind::Character { .. } => "character",
        ExpressionKind::String { .. } => "string",
        ExpressionKind::Bracket { .. } => "(",
        ExpressionKind::Prefix { op, .. } => prefix_of(*op),
        ExpressionKind::Sizeof { .. } => "sizeof",
        ExpressionKind::Cast { .. } => "cast",
        ExpressionKind::Infix { op, .. } => sign_of(*op),
        ExpressionKind::Choice { .. } => "?:",
        ExpressionKind::Assign { .. } => "=",
        ExpressionKind::Call { .. } => "call",
        ExpressionKind::Index { .. } => "index",
        ExpressionKind::Member { .. } => "member",
        ExpressionKind::Arrow { .. } => "arrow",
    }
}

/// The first part, of what is in brackets where they are around it.
pub fn left(expression: &Expression) -> Option<&Expression> {
    match &expression.kind {
        ExpressionKind::Bracket { inner } => left(inner.get()),
        ExpressionKind::Prefix { operand, .. } => Some(operand.get()),
        ExpressionKind::Cast { operand, .. } => Some(operand.get()),
        ExpressionKind::Infix { left, .. } => Some(left.get()),
        ExpressionKind::Choice { condition, .. } => Some(condition.get()),
        ExpressionKind::Assign { to, .. } => Some(to.get()),
        ExpressionKind::Call { callee, .. } => Some(callee.get()),
        ExpressionKind::Index { of, .. } => Some(of.get()),
        ExpressionKind::Member { of, .. } => Some(of.get()),
        ExpressionKind::Arrow { of, .. } => Some(of.get()),
        _ => None,
    }
}

/// The last part of two or three, and a call's first argument, of what is in brackets where they
/// are around it.
pub fn right(expression: &Expression) -> Option<&Expression> {
    match &expression.kind {
        ExpressionKind::Bracket { inner } => right(inner.get()),
        ExpressionKind::Infix { right, .. } => Some(right.get()),
        ExpressionKind::Choice { otherwise, .. } => Some(otherwise.get()),
        ExpressionKind::Assign { from, .. } => Some(from.get()),
        ExpressionKind::Call { arguments, .. } => arguments.get(0),
        ExpressionKind::Index { at, .. } => Some(at.get()),
        _ => None,
    }
}

/// The kind and the place of a node, and behind brackets of what is in them.
fn write_whole(out: &mut String, node: &Expression) -> Result<(), Fail> {
    write!(out, "{}@{} ", kind_of(node), node.place)?;
    if let ExpressionKind::Bracket { inner } = &node.kind {
        write_whole(out, inner.get())?;
    }
    Ok(())
}

/// The kind and the place of a node, if there is one.
pub fn write_node(out: &mut String, node: Option<&Expression>) -> Result<(), Fail> {
    match node {
        Some(node) => write_whole(out, node),
        None => {
            write!(out, "- ")?;
            Ok(())
        }
    }
}

/// A node with its left and its right part.
pub fn write_expression(out: &mut String, node: &Expression) -> Result<(), Fail> {
    write_node(out, Some(node))?;
    write_node(out, left(node))?;
    write_node(out, right(node))
}

/// What the first function returns.
pub fn write_returned(out: &mut String, program: &Program) -> Result<(), Fail> {
    match returned(program) {
        Some(node) => write_expression(out, node),
        None => write_node(out, None),
    }
}

/// Checks the kind and the place of the returned node, of its left and of its right part.
pub fn check_returned(
    rt: &impl Abort,
    alloc: Global,
    source: &[u8],
    want: &str,
) -> Result<(), Fail> {
    let program = program_of(rt, alloc, source)?;
    let mut out = String::new(alloc);
    write_returned(&mut out, &program)?;
    assert_eq!(rt; out.as_str(), want, "{:?}", source);
    Ok(())
}

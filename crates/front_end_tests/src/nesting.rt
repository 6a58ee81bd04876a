//! Statements inside of so many blocks that some token of theirs is nested above 200, or just none.
//!
//! `tools/fronts.py` writes the samples: it counts in the ways in which the grammar reads the tokens, and
//! knows nothing of the parser.

mod samples;

use crate::trees::refusal;
use c_parser::ParseError;
use std::alloc::Global;
use std::process::Abort;
use std::test::Fail;

/// A statement or a declaration in a function's body, its tokens with spaces between, and how deep each
/// is nested there.
pub struct Statement {
    pub tokens: &'static str,
    pub nestings: &'static [u8],
}

/// The source up to the last of so many blocks, one inside the other, in a function's body. Its tokens
/// are five and one for each block.
fn opened(alloc: Global, blocks: u8) -> Result<Vec<u8>, Fail> {
    let mut source = Vec::new(alloc);
    source.extend_from_slice(b"int f ( ) { ".as_slice())?;
    for _ in 0..blocks {
        source.extend_from_slice(b"{ ".as_slice())?;
    }
    Ok(source)
}

fn source_of(alloc: Global, tokens: &str, blocks: u8) -> Result<Vec<u8>, Fail> {
    let mut source = opened(alloc, blocks)?;
    source.extend_from_slice(tokens.as_bytes())?;
    for _ in 0..blocks {
        source.extend_from_slice(b" }".as_slice())?;
    }
    source.extend_from_slice(b" }".as_slice())?;
    Ok(source)
}

/// The first token that is nested above 200 where each block nests the tokens one deeper.
fn first_too_deep(nestings: &[u8], blocks: u8) -> Option<ParseError> {
    let first = 5 + u32::from(blocks);
    for (token, nesting) in (first..u32::MAX).zip(nestings) {
        if u32::from(*nesting) + u32::from(blocks) > 200 {
            return Some(ParseError::DepthFault { token });
        }
    }
    None
}

fn check_statement(rt: &impl Abort, alloc: Global, statement: &Statement) -> Result<(), Fail> {
    for blocks in 190..200 {
        let source = source_of(alloc, statement.tokens, blocks)?;
        let found = refusal(rt, alloc, source.as_slice())?;
        let want = first_too_deep(statement.nestings, blocks);
        assert_eq!(rt; found, want, "{} in {blocks} blocks", statement.tokens);
    }
    Ok(())
}

#[test]
fn of_each_token(rt: HostRuntime) -> Result<(), Fail> {
    for statement in &samples::STATEMENTS {
        check_statement(&rt, rt.alloc(), statement)?;
    }
    Ok(())
}

/// The source ends where the tokens end.
fn check_fronts(
    rt: &impl Abort,
    alloc: Global,
    rows: &[(u8, &str, ParseError)],
) -> Result<(), Fail> {
    for row in rows {
        let mut source = opened(alloc, row.0)?;
        source.extend_from_slice(row.1.as_bytes())?;
        let found = refusal(rt, alloc, source.as_slice())?;
        assert_eq!(rt; found, Some(row.2), "{} in {} blocks", row.1, row.0);
    }
    Ok(())
}

fn syntax(token: u32) -> ParseError {
    ParseError::SyntaxFault { token }
}

fn depth(token: u32) -> ParseError {
    ParseError::DepthFault { token }
}

/// A token that is too deep comes before a fault at the token after it.
#[test]
fn before_syntax(rt: HostRuntime) -> Result<(), Fail> {
    check_fronts(
        &rt,
        rt.alloc(),
        &[
            (198, "; else", syntax(204)),
            (199, "; else", depth(204)),
            (199, "else", syntax(204)),
            (200, "", depth(204)),
            (200, ")", depth(204)),
            (198, "a a", depth(203)),
            (198, "( ;", depth(203)),
            (197, "( a", depth(203)),
            (197, "f ( )", syntax(205)),
            (197, "f ( ) .", depth(205)),
            (197, "sizeof ( int *", syntax(206)),
            (197, "sizeof ( int * *", depth(206)),
        ],
    )
}

/// A `(` before an operand opens a bracketed type, which nests it one deeper, or an expression. The token
/// after it decides, and where none fits, it is as deep as in an expression.
#[test]
fn of_a_bracket(rt: HostRuntime) -> Result<(), Fail> {
    check_fronts(
        &rt,
        rt.alloc(),
        &[
            (197, "(", syntax(203)),
            (197, "( ;", syntax(203)),
            (197, "( (", depth(203)),
            (197, "( int", depth(202)),
            (197, "( private", depth(202)),
            (198, "(", depth(203)),
            (196, "- (", syntax(203)),
            (196, "- ( )", syntax(203)),
            (196, "- ( a", depth(203)),
            (196, "- ( int", depth(202)),
            (196, "( int ) (", syntax(205)),
            (196, "( int ) ( ;", syntax(205)),
            (196, "( int ) ( a", depth(205)),
            (196, "( int ) ( int", depth(204)),
            (197, "f ( int", syntax(204)),
            (197, "f ( a", depth(204)),
            (197, "sizeof ( int", syntax(205)),
        ],
    )
}

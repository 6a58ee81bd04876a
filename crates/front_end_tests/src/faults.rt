//! The token at which a program faults where one of its tokens is another one, or missing.
//!
//! A sample is a program. A line for each of its places says what the sample is with a token of another
//! kind there, and a line for its end what it is with one token more.
//!
//! A line has groups `answer:kinds`, with spaces between. The answer is `ok` for a program, or the number
//! of the token at which the list faults. Kinds are written as in `KINDS`, and `$` is no token at all: the
//! list ends before this place. With a kind that isn't in the line the list faults at this very place.
//!
//! So `int a ;` has at place 1 the line `ok:n 2:P*(`. With a name there it is a program, and with `private`,
//! `*` or `(` it faults at token 2. With any other token, and with none, it faults at token 1.
//!
//! `tools/fronts.py` writes the tables: it reads the grammar with a chart, and knows nothing of the parser.

mod objects;
mod operands;
mod operators;
mod statements;
mod structures_and_functions;

use crate::trees::refusal;
use c_parser::ParseError;
use std::alloc::Global;
use std::process::Abort;
use std::test::Fail;

/// A program's tokens, with spaces between, and a line for each place and for the end.
pub struct Sample {
    pub tokens: &'static str,
    pub places: &'static [&'static str],
}

/// The kinds of tokens: how a line writes each, and a token of this kind.
static KINDS: [(char, &str); 53] = [
    ('n', "a"),
    ('1', "1"),
    ('\'', "'a'"),
    ('t', "\"a\""),
    ('C', "char"),
    ('I', "int"),
    ('L', "long"),
    ('V', "void"),
    ('S', "struct"),
    ('P', "private"),
    ('F', "if"),
    ('E', "else"),
    ('W', "while"),
    ('O', "for"),
    ('D', "do"),
    ('R', "return"),
    ('B', "break"),
    ('K', "continue"),
    ('Z', "sizeof"),
    ('+', "+"),
    ('-', "-"),
    ('*', "*"),
    ('/', "/"),
    ('%', "%"),
    ('&', "&"),
    ('|', "|"),
    ('^', "^"),
    ('~', "~"),
    ('!', "!"),
    ('<', "<"),
    ('>', ">"),
    ('=', "="),
    ('?', "?"),
    (':', ":"),
    (';', ";"),
    (',', ","),
    ('.', "."),
    ('(', "("),
    (')', ")"),
    ('[', "["),
    (']', "]"),
    ('{', "{"),
    ('}', "}"),
    ('l', "<<"),
    ('r', ">>"),
    ('b', "<="),
    ('g', ">="),
    ('e', "=="),
    ('x', "!="),
    ('c', "&&"),
    ('o', "||"),
    ('m', "->"),
    ('u', "+="),
];

/// What a line says of a kind, at a place.
fn expected(line: &str, kind: char, place: u32) -> Result<Option<ParseError>, Fail> {
    for group in line.split(' ') {
        if let Some((answer, kinds)) = group.split_once(':') {
            if kinds.contains(kind) {
                if answer == "ok" {
                    return Ok(None);
                }
                let token = answer.parse::<u32>()?;
                return Ok(Some(ParseError::SyntaxFault { token }));
            }
        }
    }
    Ok(Some(ParseError::SyntaxFault { token: place }))
}

fn push_token(source: &mut Vec<u8>, token: &str) -> Result<(), Fail> {
    source.extend_from_slice(token.as_bytes())?;
    source.push(b' ')?;
    Ok(())
}

/// A sample with another token at a place, or one more at its end.
fn with_token(alloc: Global, tokens: &str, place: u32, token: &str) -> Result<Vec<u8>, Fail> {
    let mut source = Vec::new(alloc);
    let mut at = 0;
    for own in tokens.split(' ') {
        push_token(&mut source, if at == place { token } else { own })?;
        at = u32::saturating_add(at, 1);
    }
    if at == place {
        push_token(&mut source, token)?;
    }
    Ok(source)
}

/// A sample's tokens before a place.
fn cut(alloc: Global, tokens: &str, place: u32) -> Result<Vec<u8>, Fail> {
    let mut source = Vec::new(alloc);
    for (_, own) in (0..place).zip(tokens.split(' ')) {
        push_token(&mut source, own)?;
    }
    Ok(source)
}

/// Checks each kind of token at a place of a sample, and the sample up to this place.
fn check_place(
    rt: &impl Abort,
    alloc: Global,
    tokens: &str,
    line: &str,
    place: u32,
) -> Result<(), Fail> {
    for (kind, token) in &KINDS {
        let source = with_token(alloc, tokens, place, token)?;
        let found = refusal(rt, alloc, source.as_slice())?;
        let want = expected(line, *kind, place)?;
        assert_eq!(rt; found, want, "{tokens} with {token} at {place}");
    }
    let source = cut(alloc, tokens, place)?;
    let found = refusal(rt, alloc, source.as_slice())?;
    let want = expected(line, '$', place)?;
    assert_eq!(rt; found, want, "{tokens} up to {place}");
    Ok(())
}

fn check_samples(rt: &impl Abort, alloc: Global, samples: &[Sample]) -> Result<(), Fail> {
    for sample in samples {
        let ends = sample.tokens.split(' ').count();
        assert_eq!(rt; sample.places.len(), usize::saturating_add(ends, 1));
        for (place, line) in (0..u32::MAX).zip(sample.places) {
            check_place(rt, alloc, sample.tokens, line, place)?;
        }
    }
    Ok(())
}

#[test]
fn in_objects(rt: HostRuntime) -> Result<(), Fail> {
    check_samples(&rt, rt.alloc(), &objects::OBJECTS)
}

#[test]
fn in_structures_and_functions(rt: HostRuntime) -> Result<(), Fail> {
    check_samples(
        &rt,
        rt.alloc(),
        &structures_and_functions::STRUCTURES_AND_FUNCTIONS,
    )
}

#[test]
fn in_statements(rt: HostRuntime) -> Result<(), Fail> {
    check_samples(&rt, rt.alloc(), &statements::STATEMENTS)
}

#[test]
fn in_operands(rt: HostRuntime) -> Result<(), Fail> {
    check_samples(&rt, rt.alloc(), &operands::OPERANDS)
}

#[test]
fn in_operators(rt: HostRuntime) -> Result<(), Fail> {
    check_samples(&rt, rt.alloc(), &operators::OPERATORS)
}

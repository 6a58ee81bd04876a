//! Rows of sources: the rule that each breaks, and the place where that is told.

use c_ast::{Program, Typed};
use c_lexer::lex;
use c_parser::parse;
use c_types::{TypeError, type_program};
use std::alloc::Global;
use std::process::Abort;
use std::test::Fail;

/// The source without the first `@`, and where that stood.
#[derive(Drop)]
pub struct Marked {
    pub source: Vec<u8>,
    pub place: Option<usize>,
}

pub fn take_mark(alloc: Global, text: &str) -> Result<Marked, Fail> {
    let mut source = Vec::new(alloc);
    let mut place = None;
    for byte in text.as_bytes() {
        if *byte == b'@' && place.is_none() {
            place = Some(source.len());
        } else {
            source.push(*byte)?;
        }
    }
    Ok(Marked { source, place })
}

pub fn program_of(rt: &impl Abort, alloc: Global, source: &[u8]) -> Result<Program, Fail> {
    assert!(rt;
        source.len() < 0x1_0000_0000,
        "a source has fewer than 2^32 bytes"
    );
    let tokens = lex(alloc, source)?;
    let program = parse(alloc, tokens.as_slice(), source)?;
    Ok(program)
}

/// The typed tree of a source that breaks no rule.
pub fn typed_of(rt: &impl Abort, alloc: Global, source: &[u8]) -> Result<Typed, Fail> {
    let program = program_of(rt, alloc, source)?;
    let typed = type_program(alloc, &program)?;
    Ok(typed)
}

/// The rule that a source breaks, and the place that is told.
pub fn broken(rt: &impl Abort, alloc: Global, source: &[u8]) -> Result<Option<(u8, u64)>, Fail> {
    let program = program_of(rt, alloc, source)?;
    match type_program(alloc, &program) {
        Ok(_tree) => Ok(None),
        Err(TypeError::TypeFault { rule, place }) => Ok(Some((rule, u64::from(place)))),
        Err(TypeError::NoMemory) => Err(Fail::from(TypeError::NoMemory)),
    }
}

/// Checks the rule of each row, told at the byte behind its `@`. Rule 0 is none.
pub fn check(rt: &impl Abort, alloc: Global, rows: &[(u8, &str)]) -> Result<(), Fail> {
    for row in rows {
        let (rule, text) = *row;
        let marked = take_mark(alloc, text)?;
        let told = broken(rt, alloc, marked.source.as_slice())?;
        let want = match marked.place {
            Some(place) => Some((rule, place as u64)),
            None => None,
        };
        assert_eq!(rt; told, want, "{}", text);
    }
    Ok(())
}

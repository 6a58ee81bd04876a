//! What whole sources are.

use c_ast::Text;
use c_ast::program::Item;
use c_grammar::{one_fault, one_program, program_has_no_fault};
use c_lexer::lex;
use c_parser::{one_answer, parse};
use std::alloc::Global;
use std::fmt::Write;
use std::test::Fail;

/// The names, each with a space behind it.
fn write_names(out: &mut String, names: &[Text]) -> Result<(), Fail> {
    for name in names {
        match std::str::from_utf8(name.as_slice()) {
            Ok(text) => write!(out, "{text} ")?,
            Err(_) => write!(out, "? ")?,
        }
    }
    Ok(())
}

/// The number of the first name that an item declares.
fn declared(item: &Item) -> Option<u32> {
    match item {
        Item::Struct { definition } => Some(definition.name),
        Item::Object { declaration } => match declaration.declarators.get(0) {
            Some(first) => Some(first.declarator.name),
            None => None,
        },
        Item::Prototype { header } => Some(header.name),
        Item::Function { header, .. } => Some(header.name),
    }
}

fn write_items(out: &mut String, items: &[Item]) -> Result<(), Fail> {
    for item in items {
        match declared(item) {
            Some(name) => write!(out, "{name} ")?,
            None => write!(out, "- ")?,
        }
    }
    Ok(())
}

/// A source's names, the number of its strings, and the numbers of the names that its items declare.
fn reading(rt: &impl std::process::Abort, alloc: Global, source: &[u8]) -> Result<String, Fail> {
    assert!(rt;
        source.len() < 0x1_0000_0000,
        "a source has fewer than 2^32 bytes"
    );
    let mut out = String::new(alloc);
    match lex(alloc, source) {
        Ok(tokens) => match parse(alloc, tokens.as_slice(), source) {
            Ok(program) => {
                write_names(&mut out, program.names.as_slice())?;
                write!(out, "{} ", program.strings.len())?;
                write_items(&mut out, program.items.as_slice())?;
            }
            Err(error) => write!(out, "{error}")?,
        },
        Err(error) => write!(out, "{error}")?,
    }
    Ok(out)
}

fn check(
    rt: &impl std::process::Abort,
    alloc: Global,
    source: &[u8],
    want: &str,
) -> Result<(), Fail> {
    let found = reading(rt, alloc, source)?;
    assert_eq!(rt; found.as_str(), want, "{:?}", source);
    Ok(())
}

/// `int main(){ return ((1)); }` with so many brackets.
fn brackets(alloc: Global, count: usize) -> Result<Vec<u8>, Fail> {
    let mut source = Vec::new(alloc);
    source.extend_from_slice(b"int main(){ return ".as_slice())?;
    for _ in 0..count {
        source.push(b'(')?;
    }
    source.push(b'1')?;
    for _ in 0..count {
        source.push(b')')?;
    }
    source.extend_from_slice(b"; }".as_slice())?;
    Ok(source)
}

#[test]
fn programs(rt: HostRuntime) -> Result<(), Fail> {
    one_program();
    one_fault();
    program_has_no_fault();
    one_answer();
    let alloc = rt.alloc();
    check(&rt, alloc, b"", "0 ")?;
    check(&rt, alloc, b"int main(){ return 1; }", "main 0 0 ")?;
    check(
        &rt,
        alloc,
        b"int main(){ return 1 }",
        "no program at token 7",
    )?;
    check(&rt, alloc, b"int main(){", "no program at token 5")?;
    check(&rt, alloc, b"int a; int b; int a;", "a b 0 0 1 0 ")?;
    check(&rt, alloc, b"long f(int a); int a = 1;", "f a 0 0 1 ")?;
    check(
        &rt,
        alloc,
        b"int main(){ return f(\"a\", \"b\"); }",
        "main f 2 0 ",
    )
}

#[test]
fn nesting(rt: HostRuntime) -> Result<(), Fail> {
    let alloc = rt.alloc();
    let most = brackets(alloc, 197)?;
    check(&rt, alloc, most.as_slice(), "main 0 0 ")?;
    let more = brackets(alloc, 198)?;
    check(&rt, alloc, more.as_slice(), "nested too deep at token 204")
}

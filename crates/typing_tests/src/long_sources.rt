//! Long and deep sources. Names are found by hashing, so each takes time in proportion.

use crate::rows::{broken, typed_of};
use std::alloc::Global;
use std::fmt::Write;
use std::process::Abort;
use std::rt::HostRuntime;
use std::test::Fail;

/// A source with so many objects, each of them read once.
fn objects(alloc: Global, count: usize) -> Result<String, Fail> {
    let mut source = String::new(alloc);
    for i in 0..count {
        write!(source, "int g{i};")?;
    }
    write!(source, "int main(){{ int s;")?;
    for i in 0..count {
        write!(source, "s = s + g{i};")?;
    }
    write!(source, "return s; }}")?;
    Ok(source)
}

#[test]
fn many_objects(rt: HostRuntime) -> Result<(), Fail> {
    let source = objects(rt.alloc(), 20000)?;
    let typed = typed_of(&rt, rt.alloc(), source.as_bytes())?;
    assert_eq!(rt; typed.globals.len(), 20000);
    Ok(())
}

/// A source with so many structs and functions, each with members and parameters of their own.
fn structs(alloc: Global, count: usize) -> Result<String, Fail> {
    let mut source = String::new(alloc);
    for i in 0..count {
        write!(source, "struct S{i}{{int m{i};long n{i};}};")?;
        write!(
            source,
            "int f{i}(int p{i}, struct S{i}*q{i}){{ return q{i}->m{i} + p{i}; }}"
        )?;
    }
    Ok(source)
}

#[test]
fn many_structs_and_functions(rt: HostRuntime) -> Result<(), Fail> {
    let source = structs(rt.alloc(), 5000)?;
    let typed = typed_of(&rt, rt.alloc(), source.as_bytes())?;
    assert_eq!(rt; typed.structs.len(), 5000);
    assert_eq!(rt; typed.functions.len(), 5000);
    Ok(())
}

/// So many blocks in one another, each with a local of the same name that hides the one around it.
fn blocks(alloc: Global, count: usize, inside: &str) -> Result<String, Fail> {
    let mut source = String::new(alloc);
    write!(source, "int main(){{")?;
    for _ in 0..count {
        write!(source, "{{int a;int b;")?;
    }
    write!(source, "{inside}")?;
    for _ in 0..count {
        write!(source, "a = b;}}")?;
    }
    write!(source, "return 0;}}")?;
    Ok(source)
}

#[test]
fn deep_blocks(rt: HostRuntime) -> Result<(), Fail> {
    let source = blocks(rt.alloc(), 190, "")?;
    let typed = typed_of(&rt, rt.alloc(), source.as_bytes())?;
    match typed.functions.get(0) {
        Some(function) => assert_eq!(rt; function.locals.len(), 380),
        None => assert!(rt; false, "there is a function"),
    }
    let wrong = blocks(rt.alloc(), 190, "c;")?;
    let told = broken(&rt, rt.alloc(), wrong.as_bytes())?;
    assert_eq!(rt; told, Some((2, 11 + 190 * 13)));
    Ok(())
}

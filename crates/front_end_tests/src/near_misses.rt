//! Sources that miss a rule by a token or two, each with the number of the token at which it stops.

use crate::trees::{refusal, with_body, with_value};
use c_parser::ParseError;
use std::alloc::Global;
use std::process::Abort;
use std::test::Fail;

fn check_refusal(rt: &impl Abort, alloc: Global, source: &[u8], token: u32) -> Result<(), Fail> {
    let found = refusal(rt, alloc, source)?;
    assert_eq!(rt;
        found,
        Some(ParseError::SyntaxFault { token }),
        "{:?}",
        source
    );
    Ok(())
}

fn check_items(rt: &impl Abort, alloc: Global, rows: &[(&str, u32)]) -> Result<(), Fail> {
    for row in rows {
        check_refusal(rt, alloc, row.0.as_bytes(), row.1)?;
    }
    Ok(())
}

/// The tokens are counted from the source's first, so the text's are numbered from 5.
fn check_statements(rt: &impl Abort, alloc: Global, rows: &[(&str, u32)]) -> Result<(), Fail> {
    for row in rows {
        let source = with_body(alloc, row.0)?;
        check_refusal(rt, alloc, source.as_slice(), row.1)?;
    }
    Ok(())
}

/// The text's tokens are numbered from 6.
fn check_values(rt: &impl Abort, alloc: Global, rows: &[(&str, u32)]) -> Result<(), Fail> {
    for row in rows {
        let source = with_value(alloc, row.0)?;
        check_refusal(rt, alloc, source.as_slice(), row.1)?;
    }
    Ok(())
}

#[test]
fn objects(rt: HostRuntime) -> Result<(), Fail> {
    check_items(
        &rt,
        rt.alloc(),
        &[
            ("int", 1),
            ("int ;", 1),
            ("int a", 2),
            ("int a b;", 2),
            ("a;", 0),
            (";", 0),
            ("}", 0),
            ("int a,;", 3),
            ("int a = ;", 3),
            ("int a = {1};", 3),
            ("int a = 1, 2;", 5),
            ("int a[];", 3),
            ("int a[b];", 3),
            ("int a[1;", 4),
            ("int a[1][2];", 5),
            ("private;", 1),
            ("private a;", 1),
            ("private private int a;", 1),
            ("int private private a;", 2),
            ("int *private private a;", 3),
            ("int long a;", 1),
            ("int a; int", 4),
        ],
    )
}

#[test]
fn structs_and_pointers(rt: HostRuntime) -> Result<(), Fail> {
    check_items(
        &rt,
        rt.alloc(),
        &[
            ("struct { int a; };", 1),
            ("struct s;", 2),
            ("struct s { };", 3),
            ("struct s { int; };", 4),
            ("struct s { int a };", 5),
            ("struct s { int a = 1; };", 5),
            ("struct s { int f(); };", 5),
            ("struct s { int a; ", 6),
            ("struct s { int a; }", 7),
            ("struct s { int a; } b;", 7),
            ("int (f)();", 2),
            ("int (*)();", 3),
            ("int (**f)();", 3),
            ("int (*f[3])();", 4),
            ("int (*f);", 5),
            ("int (*f)(int a);", 7),
            ("int (*f)(int [3]);", 7),
            ("int (*f)(void void);", 7),
            ("int (*f)(){}", 7),
            ("int (*f)(int,);", 8),
        ],
    )
}

#[test]
fn functions(rt: HostRuntime) -> Result<(), Fail> {
    check_items(
        &rt,
        rt.alloc(),
        &[
            ("int f(a);", 3),
            ("int f(int);", 4),
            ("int f(void, int a);", 4),
            ("int f()", 4),
            ("int f(), g();", 4),
            ("int f() = 1;", 4),
            ("int f(int a int b);", 5),
            ("int f(int a = 1);", 5),
            ("int f[3](){}", 5),
            ("int f(int a,);", 6),
            ("int f(){}; int a;", 6),
            ("int f(){ int g(); }", 7),
            ("int f(){ struct s { int a; }; }", 7),
        ],
    )
}

#[test]
fn statements(rt: HostRuntime) -> Result<(), Fail> {
    check_statements(
        &rt,
        rt.alloc(),
        &[
            ("a", 6),
            ("{", 7),
            ("}", 6),
            ("if a ;", 6),
            ("if () ;", 7),
            ("if (a) else ;", 9),
            ("if (a) int b;", 9),
            ("if (a) ; else", 11),
            ("if (a) ; ; else ;", 11),
            ("else ;", 5),
            ("while ();", 7),
            ("while (int a) ;", 7),
            ("while (a)", 9),
            ("do ; while (a)", 11),
            ("do ; (a);", 7),
            ("do while (a);", 11),
            ("for () ;", 7),
            ("for (a) ;", 8),
            ("for (;) ;", 8),
            ("for (;;;) ;", 9),
            ("for (;;)", 10),
            ("for (int a = 0;;) ;", 7),
            ("return", 6),
            ("return int;", 6),
            ("return a b;", 7),
            ("break a;", 6),
            ("break", 6),
            ("continue 1;", 6),
            ("int;", 6),
            ("int a b;", 7),
            ("int a; int", 9),
            ("a: b;", 6),
            ("a, b;", 6),
            ("goto a;", 6),
        ],
    )
}

#[test]
fn operands(rt: HostRuntime) -> Result<(), Fail> {
    check_values(
        &rt,
        rt.alloc(),
        &[
            ("+ a", 6),
            ("if", 6),
            ("int a", 6),
            ("{a}", 6),
            ("++a", 6),
            ("()", 7),
            ("a)", 7),
            ("(a", 8),
            ("(a b)", 8),
            ("-", 7),
            ("\"a\" \"b\"", 7),
            ("sizeof a", 7),
            ("sizeof()", 8),
            ("sizeof(a)", 8),
            ("sizeof(int", 9),
            ("sizeof(int)(a)", 10),
            ("(int)", 9),
            ("(int a)b", 8),
            ("(int[3])a", 8),
            ("(int)+a", 9),
            ("(int (*))a", 11),
            ("(int (*)(a))b", 12),
            ("a[", 8),
            ("a[]", 8),
            ("a[b", 9),
            ("a.1", 8),
            ("a.(b)", 8),
            ("a->", 8),
            ("a->int", 8),
            ("f(", 8),
            ("f(int)", 8),
            ("f(,a)", 8),
            ("f(a", 9),
            ("f(a b)", 9),
            ("f(a,)", 10),
        ],
    )
}

#[test]
fn operators(rt: HostRuntime) -> Result<(), Fail> {
    check_values(
        &rt,
        rt.alloc(),
        &[
            ("a b", 7),
            ("a, b", 7),
            ("a++", 7),
            ("a += b", 7),
            ("a <<= b", 7),
            ("a +", 8),
            ("a -", 8),
            ("a * / b", 8),
            ("a & && b", 8),
            ("a << = b", 8),
            ("a =", 8),
            ("a ==", 8),
            ("a ? : b", 8),
            ("a ? b", 9),
            ("a ? b :", 10),
            ("a ? b : c = d", 11),
            ("a + b = c", 9),
            ("(int)a = b", 10),
        ],
    )
}

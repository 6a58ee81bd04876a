//! Each rule of the grammar in its least form and in a long one.

use crate::trees::{body_length, program_of, with_body, with_value};
use std::alloc::Global;
use std::process::Abort;
use std::test::Fail;

fn check_items(rt: &impl Abort, alloc: Global, source: &str, want: usize) -> Result<(), Fail> {
    let program = program_of(rt, alloc, source.as_bytes())?;
    assert_eq!(rt; program.items.len(), want, "{source}");
    Ok(())
}

fn check_body(rt: &impl Abort, alloc: Global, source: &[u8], want: usize) -> Result<(), Fail> {
    let program = program_of(rt, alloc, source)?;
    assert_eq!(rt; body_length(&program), Some(want), "{:?}", source);
    Ok(())
}

fn check_all_items(rt: &impl Abort, alloc: Global, rows: &[(&str, usize)]) -> Result<(), Fail> {
    for row in rows {
        check_items(rt, alloc, row.0, row.1)?;
    }
    Ok(())
}

fn check_statements(rt: &impl Abort, alloc: Global, rows: &[(&str, usize)]) -> Result<(), Fail> {
    for row in rows {
        let source = with_body(alloc, row.0)?;
        check_body(rt, alloc, source.as_slice(), row.1)?;
    }
    Ok(())
}

fn check_values(rt: &impl Abort, alloc: Global, rows: &[&str]) -> Result<(), Fail> {
    for row in rows {
        let source = with_value(alloc, row)?;
        check_body(rt, alloc, source.as_slice(), 1)?;
    }
    Ok(())
}

#[test]
fn declarations(rt: HostRuntime) -> Result<(), Fail> {
    check_all_items(
        &rt,
        rt.alloc(),
        &[
            ("", 0),
            ("struct s { int a; };", 1),
            (
                "struct s { int a; long b, *c, d[3]; private char *private e; struct t f; int (*g)(int, char *), *h; };",
                1,
            ),
            ("int a;", 1),
            ("char a, b;", 1),
            ("void a;", 1),
            ("struct s a, *b;", 1),
            ("long *a, **b, *private *c, d[10], e[0x1F];", 1),
            ("private int a;", 1),
            ("int private a;", 1),
            ("private int private a;", 1),
            ("private struct s private *private a;", 1),
            ("int a = 1;", 1),
            ("int a = b = c, *d = &e, f = g ? h : i, j;", 1),
            ("char a[3] = 1, b = 'x', *c = \"text\";", 1),
            ("int (*f)();", 1),
            ("int (*f)(void);", 1),
            ("int (*f)(void *), g;", 1),
            ("int (*f)(void, int);", 1),
            ("int (*f)(void (*)(void));", 1),
            (
                "int **(*private f)(int, char *private *, private struct s *, long (*)(), void (*private)(int, int)) = g, (*h)();",
                1,
            ),
        ],
    )
}

#[test]
fn functions(rt: HostRuntime) -> Result<(), Fail> {
    check_all_items(
        &rt,
        rt.alloc(),
        &[
            ("int f();", 1),
            ("int f(void);", 1),
            ("int f(int a);", 1),
            ("int f(void *a);", 1),
            ("int f(void a, int b);", 1),
            (
                "private struct s *private *f(int a, char *b, long c[3], int (*d)(int), struct t *private e, private void g);",
                1,
            ),
            ("int f(){}", 1),
            ("int f(void){}", 1),
            ("void f(int a){}", 1),
            ("long *f(int a, int b){ return a; }", 1),
            ("struct s *f(struct s *a, int (*b)(void)){ ; }", 1),
            ("private int f(){} int private g(){}", 2),
            ("struct s { int a; }; int b; int f(); int f(){} int c;", 5),
        ],
    )
}

#[test]
fn statements(rt: HostRuntime) -> Result<(), Fail> {
    check_statements(
        &rt,
        rt.alloc(),
        &[
            ("", 0),
            (";", 1),
            ("{}", 1),
            ("{ {} {;} int a; }", 1),
            ("a;", 1),
            ("int a;", 1),
            ("int a; a; int b = 1, *c;", 3),
            ("private struct s *a = &b, c;", 1),
            ("int (*a)(int) = f;", 1),
            ("if (a) ;", 1),
            ("if (a) ; else ;", 1),
            ("if (a) { b; } else if (c) ; else { }", 1),
            ("if (a) if (b) ; else ;", 1),
            ("while (a) ;", 1),
            ("while (a = b) { break; continue; }", 1),
            ("do ; while (a);", 1),
            ("do { a; } while (a); b;", 2),
            ("do while (a) ; while (b);", 1),
            ("for (;;) ;", 1),
            ("for (a;;) ;", 1),
            ("for (;a;) ;", 1),
            ("for (;;a) ;", 1),
            ("for (a = 0; a < b; a = a + 1) { c; }", 1),
            ("return;", 1),
            ("return a;", 1),
            ("return a = b ? c : d;", 1),
            ("break;", 1),
            ("continue;", 1),
        ],
    )
}

#[test]
fn operands(rt: HostRuntime) -> Result<(), Fail> {
    check_values(
        &rt,
        rt.alloc(),
        &[
            "a",
            "1",
            "0x1fL",
            "'a'",
            "'\\n'",
            "\"\"",
            "\"a\\\"b\"",
            "(a)",
            "(((a)))",
            "-a",
            "~a",
            "!a",
            "*a",
            "&a",
            "- -a",
            "!~-*&a",
            "sizeof(int)",
            "sizeof(struct s *private *)",
            "sizeof(int (*)(void))",
            "sizeof(int) * a",
            "(int)a",
            "(char)(long)a",
            "(private int *)a",
            "(struct s *)&a",
            "(int (*)(int, char))a",
            "(void (*private)())a",
            "(int)(a)",
        ],
    )
}

#[test]
fn wider_expressions(rt: HostRuntime) -> Result<(), Fail> {
    check_values(
        &rt,
        rt.alloc(),
        &[
            "f()",
            "f(a)",
            "f(a, b = c, d ? e : g)",
            "f()()",
            "f(g(), h(i))",
            "(*f)(a)",
            "a[b]",
            "a[b][c]",
            "a[b = c]",
            "1[a]",
            "\"s\"[0]",
            "a.b",
            "a->b",
            "a.b.c->d[e](f).g",
            "a = b",
            "a = b = c",
            "a.b = c",
            "f() = a",
            "(a) = b",
            "-a = b",
            "sizeof(int) = a",
            "a ? b : c",
            "a ? b : c ? d : e",
            "a ? b ? c : d : e",
            "a ? b = c : d",
            "a || b && c | d ^ e & f == g < h << i + j * k",
            "a * b + c << d < e == f & g ^ h | i && j || k",
        ],
    )
}

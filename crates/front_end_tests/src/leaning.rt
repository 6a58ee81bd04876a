//! How operators lean.

use crate::trees::{check_returned, with_value};
use std::alloc::Global;
use std::fmt::Write;
use std::process::Abort;
use std::test::Fail;

/// The operators between two operands with their levels, the loosest first.
static OPERATORS: [(&str, u8); 18] = [
    ("||", 1),
    ("&&", 2),
    ("|", 3),
    ("^", 4),
    ("&", 5),
    ("==", 6),
    ("!=", 6),
    ("<", 7),
    ("<=", 7),
    (">", 7),
    (">=", 7),
    ("<<", 8),
    (">>", 8),
    ("+", 9),
    ("-", 9),
    ("*", 10),
    ("/", 10),
    ("%", 10),
];

/// `a ONE b TWO c`: the first operator is the left part of the second where it is as tight or tighter,
/// and the second the right part of the first where not.
fn check_pair(
    rt: &impl Abort,
    alloc: Global,
    one: (&str, u8),
    two: (&str, u8),
) -> Result<(), Fail> {
    let mut source = Vec::new(alloc);
    source.extend_from_slice(b"int main(){  return a ".as_slice())?;
    source.extend_from_slice(one.0.as_bytes())?;
    source.push(b' ')?;
    let second = source.len();
    source.extend_from_slice(b"b ".as_slice())?;
    source.extend_from_slice(two.0.as_bytes())?;
    source.push(b' ')?;
    let third = source.len();
    source.extend_from_slice(b"c; }".as_slice())?;
    let mut want = String::new(alloc);
    if one.1 >= two.1 {
        write!(want, "{}@20 {}@20 name@{third} ", two.0, one.0)?;
    } else {
        write!(want, "{}@20 name@20 {}@{second} ", one.0, two.0)?;
    }
    check_returned(rt, alloc, source.as_slice(), want.as_str())
}

#[test]
fn pairs_of_operators(rt: HostRuntime) -> Result<(), Fail> {
    for one in &OPERATORS {
        for two in &OPERATORS {
            check_pair(&rt, rt.alloc(), *one, *two)?;
        }
    }
    Ok(())
}

fn check(rt: &impl Abort, alloc: Global, rows: &[(&str, &str)]) -> Result<(), Fail> {
    for row in rows {
        let source = with_value(alloc, row.0)?;
        check_returned(rt, alloc, source.as_slice(), row.1)?;
    }
    Ok(())
}

#[test]
fn assignments_and_choices(rt: HostRuntime) -> Result<(), Fail> {
    check(
        &rt,
        rt.alloc(),
        &[
            ("a = b = c", "=@20 name@20 =@24 "),
            ("a = b = c = d", "=@20 name@20 =@24 "),
            ("a ? b : c ? d : e", "?:@20 name@20 ?:@28 "),
            ("a ? b ? c : d : e", "?:@20 name@20 name@36 "),
            ("a = b ? c : d", "=@20 name@20 ?:@24 "),
            ("a ? b = c : d", "?:@20 name@20 name@32 "),
            ("a || b ? c : d", "?:@20 ||@20 name@33 "),
            ("a ? b : c || d", "?:@20 name@20 ||@28 "),
            ("a = b || c", "=@20 name@20 ||@24 "),
            ("a = b + c", "=@20 name@20 +@24 "),
            ("*a = b", "=@20 *x@20 name@25 "),
            ("a[b] = c", "=@20 index@20 name@27 "),
            ("(a ? b : c) ? d : e", "?:@20 (@20 ?:@21 name@38 "),
        ],
    )
}

#[test]
fn signs_casts_and_suffixes(rt: HostRuntime) -> Result<(), Fail> {
    check(
        &rt,
        rt.alloc(),
        &[
            ("-a + b", "+@20 -x@20 name@25 "),
            ("a - -b", "-@20 name@20 -x@24 "),
            ("a * *b", "*@20 name@20 *x@24 "),
            ("a & &b", "&@20 name@20 &x@24 "),
            ("!a == b", "==@20 !x@20 name@26 "),
            ("(int)a + b", "+@20 cast@20 name@29 "),
            ("(int)-a", "cast@20 -x@25 - "),
            ("-(int)a", "-x@20 cast@21 - "),
            ("~!a", "~x@20 !x@21 - "),
            ("-a[b]", "-x@20 index@21 - "),
            ("*a.b", "*x@20 member@21 - "),
            ("&a->b", "&x@20 arrow@21 - "),
            ("!f(a)", "!x@20 call@21 - "),
            ("(int)a[b]", "cast@20 index@25 - "),
            ("a.b[c]", "index@20 member@20 name@24 "),
            ("a[b].c", "member@20 index@20 - "),
            ("f(a)(b)", "call@20 call@20 name@25 "),
            ("(a + b) * c", "*@20 (@20 +@21 name@30 "),
            ("a * (b + c)", "*@20 name@20 (@24 +@25 "),
            ("a - (b - c)", "-@20 name@20 (@24 -@25 "),
        ],
    )
}

//! Typed trees as text: each node with its place and its type.

use crate::rows::typed_of;
use c_ast::typed::{BinaryOp, Expr, ExprKind, Function, LogicOp, Stmt, StmtKind, Typed, UnaryOp};
use c_ast::{Boxed, Qual, Ty};
use cv_word::Taint;
use std::alloc::Global;
use std::fmt::Write;
use std::process::Abort;
use std::rt::HostRuntime;
use std::test::Fail;

fn write_qualifier(out: &mut String, q: &Qual) -> Result<(), Fail> {
    match q {
        Qual::Fixed(Taint::Pub) => {}
        Qual::Fixed(Taint::Priv) => write!(out, "!")?,
        Qual::Var(number) => write!(out, "?{number}")?,
    }
    Ok(())
}

/// A type from the outside in. `!` is private, and `?0` the first qualifier variable.
fn write_type(out: &mut String, ty: &Ty) -> Result<(), Fail> {
    match ty {
        Ty::Int { width, q } => {
            write!(out, "i{width}")?;
            write_qualifier(out, q)
        }
        Ty::Void => {
            write!(out, "void")?;
            Ok(())
        }
        Ty::Struct { id, q } => {
            write!(out, "struct{id}")?;
            write_qualifier(out, q)
        }
        Ty::Ptr { to, q } => {
            write!(out, "*")?;
            write_qualifier(out, q)?;
            write!(out, " ")?;
            write_type(out, to.get())
        }
        Ty::Array { elem, len } => {
            write!(out, "[{len}] ")?;
            write_type(out, elem.get())
        }
        Ty::Fun { ret, params } => {
            write!(out, "(")?;
            for param in params.as_slice() {
                write_type(out, param)?;
                write!(out, ",")?;
            }
            write!(out, ") ")?;
            write_type(out, ret.get())
        }
    }
}

fn sign_of_unary(op: UnaryOp) -> &'static str {
    match op {
        UnaryOp::Neg => "-",
        UnaryOp::Not => "~",
        UnaryOp::IsZero => "!",
    }
}

fn sign_of_binary(op: BinaryOp) -> &'static str {
    match op {
        BinaryOp::Add => "+",
        BinaryOp::Sub => "-",
        BinaryOp::Mul => "*",
        BinaryOp::Div => "/",
        BinaryOp::Rem => "%",
        BinaryOp::And => "&",
        BinaryOp::Or => "|",
        BinaryOp::Xor => "^",
        BinaryOp::Shl => "<<",
        BinaryOp::Shr => ">>",
        BinaryOp::Eq => "==",
        BinaryOp::Ne => "!=",
        BinaryOp::Less => "<",
        BinaryOp::LessEq => "<=",
        BinaryOp::Greater => ">",
        BinaryOp::GreaterEq => ">=",
    }
}

fn sign_of_logic(op: LogicOp) -> &'static str {
    match op {
        LogicOp::Both => "&&",
        LogicOp::Either => "||",
    }
}

/// The word of a node.
fn write_word(out: &mut String, kind: &ExprKind) -> Result<(), Fail> {
    match kind {
        ExprKind::Num { value } => write!(out, "{value}")?,
        ExprKind::Str { string } => write!(out, "string{string}")?,
        ExprKind::Local { number } => write!(out, "local{number}")?,
        ExprKind::Global { number } => write!(out, "global{number}")?,
        ExprKind::Func { number } => write!(out, "function{number}")?,
        ExprKind::Stub { number } => write!(out, "gate{number}")?,
        ExprKind::Unary { op, .. } => write!(out, "{}", sign_of_unary(*op))?,
        ExprKind::Binary { op, .. } => write!(out, "{}", sign_of_binary(*op))?,
        ExprKind::Logic { op, .. } => write!(out, "{}", sign_of_logic(*op))?,
        ExprKind::Cond { .. } => write!(out, "?")?,
        ExprKind::Assign { .. } => write!(out, "=")?,
        ExprKind::Call { .. } => write!(out, "call")?,
        ExprKind::Index { .. } => write!(out, "index")?,
        ExprKind::Member { member, .. } => write!(out, ".{member}")?,
        ExprKind::Arrow { member, .. } => write!(out, "->{member}")?,
        ExprKind::Deref { .. } => write!(out, "deref")?,
        ExprKind::Addr { .. } => write!(out, "address")?,
        ExprKind::Cast { .. } => write!(out, "cast")?,
    }
    Ok(())
}

/// Its type and place.
fn write_end(out: &mut String, e: &Expr) -> Result<(), Fail> {
    write!(out, " : ")?;
    write_type(out, &e.ty)?;
    write!(out, " @{})", e.place)?;
    Ok(())
}

/// ` (WORD PARTS : TYPE @PLACE)`
fn write_part(out: &mut String, e: &Expr) -> Result<(), Fail> {
    write!(out, " (")?;
    write_word(out, &e.kind)?;
    match &e.kind {
        ExprKind::Unary { e: part, .. }
        | ExprKind::Deref { e: part }
        | ExprKind::Addr { e: part }
        | ExprKind::Cast { e: part }
        | ExprKind::Member { of: part, .. }
        | ExprKind::Arrow { of: part, .. } => write_part(out, part.get())?,
        ExprKind::Binary { a, b, .. }
        | ExprKind::Logic { a, b, .. }
        | ExprKind::Assign { to: a, from: b }
        | ExprKind::Index { of: a, at: b } => {
            write_part(out, a.get())?;
            write_part(out, b.get())?;
        }
        ExprKind::Cond { on, yes, no } => {
            write_part(out, on.get())?;
            write_part(out, yes.get())?;
            write_part(out, no.get())?;
        }
        ExprKind::Call { callee, args } => {
            write_part(out, callee.get())?;
            for arg in args.as_slice() {
                write_part(out, arg)?;
            }
        }
        _ => {}
    }
    write_end(out, e)
}

fn write_perhaps(out: &mut String, e: &Option<Boxed<Expr>>) -> Result<(), Fail> {
    match e {
        Some(e) => write_part(out, e.get()),
        None => {
            write!(out, " -")?;
            Ok(())
        }
    }
}

/// The word of a statement and its place.
fn write_start(out: &mut String, s: &Stmt) -> Result<(), Fail> {
    let place = s.place;
    match &s.kind {
        StmtKind::Block { .. } => write!(out, "block@{place}")?,
        StmtKind::Declare { local, .. } => write!(out, "declare{local}@{place}")?,
        StmtKind::Eval { .. } => write!(out, "eval@{place}")?,
        StmtKind::If { .. } => write!(out, "if@{place}")?,
        StmtKind::While { .. } => write!(out, "while@{place}")?,
        StmtKind::DoWhile { .. } => write!(out, "do@{place}")?,
        StmtKind::For { .. } => write!(out, "for@{place}")?,
        StmtKind::Return { .. } => write!(out, "return@{place}")?,
        StmtKind::Break => write!(out, "break@{place}")?,
        StmtKind::Continue => write!(out, "continue@{place}")?,
    }
    Ok(())
}

/// The expressions of a `for`.
fn write_control(
    out: &mut String,
    first: &Option<Boxed<Expr>>,
    on: &Option<Boxed<Expr>>,
    after: &Option<Boxed<Expr>>,
) -> Result<(), Fail> {
    write_perhaps(out, first)?;
    write_perhaps(out, on)?;
    write_perhaps(out, after)
}

/// ` {WORD@PLACE PARTS}`
fn write_statement(out: &mut String, s: &Stmt) -> Result<(), Fail> {
    write!(out, " {{")?;
    write_start(out, s)?;
    match &s.kind {
        StmtKind::Block { items } => {
            for item in items.as_slice() {
                write_statement(out, item)?;
            }
        }
        StmtKind::Declare { start: e, .. } | StmtKind::Eval { e } | StmtKind::Return { e } => {
            write_perhaps(out, e)?
        }
        StmtKind::If { on, yes, no } => {
            write_part(out, on.get())?;
            write_statement(out, yes.get())?;
            if let Some(no) = no {
                write_statement(out, no.get())?;
            }
        }
        StmtKind::While { on, body } => {
            write_part(out, on.get())?;
            write_statement(out, body.get())?;
        }
        StmtKind::DoWhile { body, on } => {
            write_statement(out, body.get())?;
            write_part(out, on.get())?;
        }
        StmtKind::For {
            first,
            on,
            after,
            body,
        } => {
            write_control(out, first, on, after)?;
            write_statement(out, body.get())?;
        }
        StmtKind::Break | StmtKind::Continue => {}
    }
    write!(out, "}}")?;
    Ok(())
}

fn first_function(typed: &Typed) -> Option<&Function> {
    typed.functions.get(0)
}

/// The first function's body.
fn write_body(out: &mut String, typed: &Typed) -> Result<(), Fail> {
    match first_function(typed) {
        Some(function) => write_statement(out, &function.body),
        None => Ok(()),
    }
}

/// As a body is written.
fn in_braces(alloc: Global, text: &str) -> Result<String, Fail> {
    let mut out = String::new(alloc);
    write!(out, " {{{text}}}")?;
    Ok(out)
}

/// Checks what the first function's body is.
fn check_bodies(rt: &impl Abort, alloc: Global, rows: &[(&str, &str)]) -> Result<(), Fail> {
    for row in rows {
        let (source, want) = *row;
        let typed = typed_of(rt, alloc, source.as_bytes())?;
        let mut out = String::new(alloc);
        write_body(&mut out, &typed)?;
        let wanted = in_braces(alloc, want)?;
        assert_eq!(rt; out.as_str(), wanted.as_str(), "{}", source);
    }
    Ok(())
}

/// Checks the body with the statement of this expression, which begins at byte 124. Declared before it are two integers, a
/// pointer, an array, a struct, a pointer to it, a function and a pointer to one.
fn check_expressions(rt: &impl Abort, alloc: Global, rows: &[(&str, &str)]) -> Result<(), Fail> {
    for row in rows {
        let (text, want) = *row;
        let mut source = String::new(alloc);
        write!(
            source,
            "struct S{{char c;int m;}};int a;long b;int*p;char f[3];struct S s;struct S*q;int g(int x){{return x;}}int(*h)(int);void main(){{ {text}; }}"
        )?;
        let typed = typed_of(rt, alloc, source.as_bytes())?;
        let mut out = String::new(alloc);
        if let Some(function) = typed.functions.get(1) {
            write_statement(&mut out, &function.body)?;
        }
        let wanted = in_braces(alloc, want)?;
        assert_eq!(rt; out.as_str(), wanted.as_str(), "{}", text);
    }
    Ok(())
}

#[test]
fn expressions(rt: HostRuntime) -> Result<(), Fail> {
    check_expressions(
        &rt,
        rt.alloc(),
        &[
            ("5", "block@122 {eval@124 (5 : i8 @124)}"),
            ("'a'", "block@122 {eval@124 (97 : i8 @124)}"),
            ("sizeof(int)", "block@122 {eval@124 (4 : i8 @124)}"),
            ("sizeof(struct S)", "block@122 {eval@124 (8 : i8 @124)}"),
            ("\"ab\"", "block@122 {eval@124 (string0 : [3] i1 @124)}"),
            ("a", "block@122 {eval@124 (global0 : i4 @124)}"),
            ("g", "block@122 {eval@124 (function0 : (i4,) i4 @124)}"),
            (
                "-a",
                "block@122 {eval@124 (- (global0 : i4 @125) : i8 @124)}",
            ),
            (
                "~b",
                "block@122 {eval@124 (~ (global1 : i8 @125) : i8 @124)}",
            ),
            (
                "!p",
                "block@122 {eval@124 (! (global2 : * i4 @125) : i8 @124)}",
            ),
            (
                "a + b",
                "block@122 {eval@124 (+ (global0 : i4 @124) (global1 : i8 @128) : i8 @124)}",
            ),
            (
                "a - b",
                "block@122 {eval@124 (- (global0 : i4 @124) (global1 : i8 @128) : i8 @124)}",
            ),
            (
                "a * b",
                "block@122 {eval@124 (* (global0 : i4 @124) (global1 : i8 @128) : i8 @124)}",
            ),
            (
                "a / b",
                "block@122 {eval@124 (/ (global0 : i4 @124) (global1 : i8 @128) : i8 @124)}",
            ),
            (
                "a % b",
                "block@122 {eval@124 (% (global0 : i4 @124) (global1 : i8 @128) : i8 @124)}",
            ),
            (
                "a & b",
                "block@122 {eval@124 (& (global0 : i4 @124) (global1 : i8 @128) : i8 @124)}",
            ),
            (
                "a | b",
                "block@122 {eval@124 (| (global0 : i4 @124) (global1 : i8 @128) : i8 @124)}",
            ),
            (
                "a ^ b",
                "block@122 {eval@124 (^ (global0 : i4 @124) (global1 : i8 @128) : i8 @124)}",
            ),
            (
                "a << b",
                "block@122 {eval@124 (<< (global0 : i4 @124) (global1 : i8 @129) : i8 @124)}",
            ),
            (
                "a >> b",
                "block@122 {eval@124 (>> (global0 : i4 @124) (global1 : i8 @129) : i8 @124)}",
            ),
            (
                "a == b",
                "block@122 {eval@124 (== (global0 : i4 @124) (global1 : i8 @129) : i8 @124)}",
            ),
            (
                "a != b",
                "block@122 {eval@124 (!= (global0 : i4 @124) (global1 : i8 @129) : i8 @124)}",
            ),
            (
                "a < b",
                "block@122 {eval@124 (< (global0 : i4 @124) (global1 : i8 @128) : i8 @124)}",
            ),
            (
                "a <= b",
                "block@122 {eval@124 (<= (global0 : i4 @124) (global1 : i8 @129) : i8 @124)}",
            ),
            (
                "a > b",
                "block@122 {eval@124 (> (global0 : i4 @124) (global1 : i8 @128) : i8 @124)}",
            ),
            (
                "a >= b",
                "block@122 {eval@124 (>= (global0 : i4 @124) (global1 : i8 @129) : i8 @124)}",
            ),
            (
                "a && b",
                "block@122 {eval@124 (&& (global0 : i4 @124) (global1 : i8 @129) : i8 @124)}",
            ),
            (
                "a || b",
                "block@122 {eval@124 (|| (global0 : i4 @124) (global1 : i8 @129) : i8 @124)}",
            ),
            (
                "p + a",
                "block@122 {eval@124 (+ (global2 : * i4 @124) (global0 : i4 @128) : * i4 @124)}",
            ),
            (
                "a + p",
                "block@122 {eval@124 (+ (global0 : i4 @124) (global2 : * i4 @128) : * i4 @124)}",
            ),
            (
                "f + 1",
                "block@122 {eval@124 (+ (global3 : [3] i1 @124) (1 : i8 @128) : * i1 @124)}",
            ),
            (
                "p - a",
                "block@122 {eval@124 (- (global2 : * i4 @124) (global0 : i4 @128) : * i4 @124)}",
            ),
            (
                "p == 0",
                "block@122 {eval@124 (== (global2 : * i4 @124) (0 : i8 @129) : i8 @124)}",
            ),
            (
                "f < f",
                "block@122 {eval@124 (< (global3 : [3] i1 @124) (global3 : [3] i1 @128) : i8 @124)}",
            ),
            (
                "p && f",
                "block@122 {eval@124 (&& (global2 : * i4 @124) (global3 : [3] i1 @129) : i8 @124)}",
            ),
            (
                "a ? a : b",
                "block@122 {eval@124 (? (global0 : i4 @124) (global0 : i4 @128) (global1 : i8 @132) : i8 @124)}",
            ),
            (
                "a ? p : 0",
                "block@122 {eval@124 (? (global0 : i4 @124) (global2 : * i4 @128) (0 : i8 @132) : * i4 @124)}",
            ),
            (
                "a ? 0 : p",
                "block@122 {eval@124 (? (global0 : i4 @124) (0 : i8 @128) (global2 : * i4 @132) : * i4 @124)}",
            ),
            (
                "a ? f : 0",
                "block@122 {eval@124 (? (global0 : i4 @124) (global3 : [3] i1 @128) (0 : i8 @132) : * i1 @124)}",
            ),
            (
                "a ? g : h",
                "block@122 {eval@124 (? (global0 : i4 @124) (function0 : (i4,) i4 @128) (global6 : * (i4,) i4 @132) : * (i4,) i4 @124)}",
            ),
            (
                "a = b",
                "block@122 {eval@124 (= (global0 : i4 @124) (global1 : i8 @128) : i4 @124)}",
            ),
            (
                "h = g",
                "block@122 {eval@124 (= (global6 : * (i4,) i4 @124) (function0 : (i4,) i4 @128) : * (i4,) i4 @124)}",
            ),
            (
                "g(5)",
                "block@122 {eval@124 (call (function0 : (i4,) i4 @124) (5 : i8 @126) : i4 @124)}",
            ),
            (
                "h(a)",
                "block@122 {eval@124 (call (global6 : * (i4,) i4 @124) (global0 : i4 @126) : i4 @124)}",
            ),
            (
                "exit(0)",
                "block@122 {eval@124 (call (gate0 : (i4,) void @124) (0 : i8 @129) : void @124)}",
            ),
            (
                "(exit)(0)",
                "block@122 {eval@124 (call (gate0 : (i4,) void @125) (0 : i8 @131) : void @124)}",
            ),
            (
                "priv_put(priv_get())",
                "block@122 {eval@124 (call (gate7 : (i8!,) void @124) (call (gate6 : () i8! @133) : i8! @133) : void @124)}",
            ),
            (
                "p[1]",
                "block@122 {eval@124 (index (global2 : * i4 @124) (1 : i8 @126) : i4 @124)}",
            ),
            (
                "f[a]",
                "block@122 {eval@124 (index (global3 : [3] i1 @124) (global0 : i4 @126) : i1 @124)}",
            ),
            (
                "s.m",
                "block@122 {eval@124 (.1 (global4 : struct0 @124) : i4 @124)}",
            ),
            (
                "q->c",
                "block@122 {eval@124 (->0 (global5 : * struct0 @124) : i1 @124)}",
            ),
            (
                "*p",
                "block@122 {eval@124 (deref (global2 : * i4 @125) : i4 @124)}",
            ),
            (
                "&a",
                "block@122 {eval@124 (address (global0 : i4 @125) : * i4 @124)}",
            ),
            (
                "&f",
                "block@122 {eval@124 (address (global3 : [3] i1 @125) : * i1 @124)}",
            ),
            (
                "&s.m",
                "block@122 {eval@124 (address (.1 (global4 : struct0 @125) : i4 @125) : * i4 @124)}",
            ),
            (
                "(char)a",
                "block@122 {eval@124 (cast (global0 : i4 @130) : i1?0 @124)}",
            ),
            (
                "(private char*)p",
                "block@122 {eval@124 (cast (global2 : * i4 @139) : *?0 i1! @124)}",
            ),
            (
                "(char**)p",
                "block@122 {eval@124 (cast (global2 : * i4 @132) : *?0 *?1 i1?2 @124)}",
            ),
            (
                "(int(*)(int))p",
                "block@122 {eval@124 (cast (global2 : * i4 @137) : *?0 (i4,) i4 @124)}",
            ),
            (
                "(a + b) * a",
                "block@122 {eval@124 (* (+ (global0 : i4 @125) (global1 : i8 @129) : i8 @125) (global0 : i4 @134) : i8 @124)}",
            ),
            ("((a))", "block@122 {eval@124 (global0 : i4 @126)}"),
        ],
    )
}

#[test]
fn statements(rt: HostRuntime) -> Result<(), Fail> {
    check_bodies(
        &rt,
        rt.alloc(),
        &[
            (
                "void f(int x){ int y = x; }",
                "block@13 {declare0@19 (= (local1 : i4?0 @19) (local0 : i4 @23) : i4?0 @19)}",
            ),
            (
                "void f(int x){ int y, *z; int private w; }",
                "block@13 {declare0@19 -} {declare1@23 -} {declare2@38 -}",
            ),
            (
                "void f(int x){ { int y; } int y; }",
                "block@13 {block@15 {declare0@21 -}} {declare1@30 -}",
            ),
            ("void f(int x){ ; }", "block@13 {eval@15 -}"),
            ("void f(int x){ {} }", "block@13 {block@15}"),
            (
                "void f(int x){ x; }",
                "block@13 {eval@15 (local0 : i4 @15)}",
            ),
            (
                "void f(int x){ if (x) ; else x; }",
                "block@13 {if@15 (local0 : i4 @19) {eval@22 -} {eval@29 (local0 : i4 @29)}}",
            ),
            (
                "void f(int x){ if (x) ; }",
                "block@13 {if@15 (local0 : i4 @19) {eval@22 -}}",
            ),
            (
                "void f(int x){ while (x) break; }",
                "block@13 {while@15 (local0 : i4 @22) {break@25}}",
            ),
            (
                "void f(int x){ do continue; while (x); }",
                "block@13 {do@15 {continue@18} (local0 : i4 @35)}",
            ),
            (
                "void f(int x){ for (;;) break; }",
                "block@13 {for@15 - - - {break@24}}",
            ),
            (
                "void f(int x){ for (x = 0; x; x) ; }",
                "block@13 {for@15 (= (local0 : i4 @20) (0 : i8 @24) : i4 @20) (local0 : i4 @27) (local0 : i4 @30) {eval@33 -}}",
            ),
            ("void f(int x){ return; }", "block@13 {return@15 -}"),
            (
                "int f(void){ return 1; }",
                "block@11 {return@13 (1 : i8 @20)}",
            ),
            (
                "int f(int a, private int *b){ int c; return a; }",
                "block@28 {declare0@34 -} {return@37 (local0 : i4 @44)}",
            ),
            (
                "char *p; void f(void){ p = \"a\"; p = \"bc\"; }",
                "block@21 {eval@23 (= (global0 : * i1 @23) (string0 : [2] i1 @27) : * i1 @23)} {eval@32 (= (global0 : * i1 @32) (string1 : [3] i1 @36) : * i1 @32)}",
            ),
            (
                "char a[3] = \"xy\"; char *p; void f(void){ p = \"a\"; }",
                "block@39 {eval@41 (= (global1 : * i1 @41) (string0 : [2] i1 @45) : * i1 @41)}",
            ),
            (
                "void f(void){ char c; private int *private *p[2]; }",
                "block@12 {declare0@19 -} {declare1@44 -}",
            ),
        ],
    )
}

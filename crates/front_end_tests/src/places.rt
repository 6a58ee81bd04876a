//! Where nodes lie: an expression and a statement at their first byte, a declared thing at its name.

use crate::trees::{
    check_returned, first_of, first_statement, program_of, returned, with_body, with_value,
    write_node,
};
use c_ast::Program;
use c_ast::program::{
    Base, BlockItem, Declaration, Declarator, Expression, ExpressionKind, Header, Item, Parameter,
    Shape, Specifier, Star, Statement, StatementKind,
};
use std::alloc::Global;
use std::fmt::Write;
use std::process::Abort;
use std::test::Fail;

fn kind_of(statement: &Statement) -> &'static str {
    match &statement.kind {
        StatementKind::Block { .. } => "block",
        StatementKind::Eval { value: None } => "nothing",
        StatementKind::Eval { .. } => "eval",
        StatementKind::If {
            otherwise: None,
            ..
        } => "if",
        StatementKind::If { .. } => "if-else",
        StatementKind::While { .. } => "while",
        StatementKind::DoWhile { .. } => "do",
        StatementKind::For { .. } => "for",
        StatementKind::Return { .. } => "return",
        StatementKind::Break => "break",
        StatementKind::Continue => "continue",
    }
}

/// The first statement inside.
fn inner(statement: &Statement) -> Option<&Statement> {
    match &statement.kind {
        StatementKind::Block { block } => first_of(block),
        StatementKind::If { then, .. } => Some(then.get()),
        StatementKind::While { body, .. } => Some(body.get()),
        StatementKind::DoWhile { body, .. } => Some(body.get()),
        StatementKind::For { body, .. } => Some(body.get()),
        _ => None,
    }
}

fn otherwise(statement: &Statement) -> Option<&Statement> {
    match &statement.kind {
        StatementKind::If {
            otherwise: Some(otherwise),
            ..
        } => Some(otherwise.get()),
        _ => None,
    }
}

/// The condition or the value.
fn value(statement: &Statement) -> Option<&Expression> {
    match &statement.kind {
        StatementKind::Eval { value: Some(value) } => Some(value.get()),
        StatementKind::If { condition, .. } => Some(condition.get()),
        StatementKind::While { condition, .. } => Some(condition.get()),
        StatementKind::DoWhile { condition, .. } => Some(condition.get()),
        StatementKind::For {
            condition: Some(condition),
            ..
        } => Some(condition.get()),
        StatementKind::Return { value: Some(value) } => Some(value.get()),
        _ => None,
    }
}

fn write_kind(out: &mut String, statement: Option<&Statement>) -> Result<(), Fail> {
    match statement {
        Some(statement) => write!(out, "{}@{} ", kind_of(statement), statement.place)?,
        None => write!(out, "- ")?,
    }
    Ok(())
}

/// A statement, the first inside, that behind `else`, and the condition or the value.
fn write_statement(out: &mut String, program: &Program) -> Result<(), Fail> {
    match first_statement(program) {
        Some(statement) => {
            write_kind(out, Some(statement))?;
            write_kind(out, inner(statement))?;
            write_kind(out, otherwise(statement))?;
            write_node(out, value(statement))
        }
        None => write_kind(out, None),
    }
}

fn check_statement(rt: &impl Abort, alloc: Global, source: &[u8], want: &str) -> Result<(), Fail> {
    let program = program_of(rt, alloc, source)?;
    let mut out = String::new(alloc);
    write_statement(&mut out, &program)?;
    assert_eq!(rt; out.as_str(), want, "{:?}", source);
    Ok(())
}

fn write_specifier(out: &mut String, specifier: Specifier) -> Result<(), Fail> {
    if specifier.is_private {
        write!(out, "private@{} ", specifier.place)?;
    } else {
        write!(out, "public@{} ", specifier.place)?;
    }
    match specifier.base {
        Base::Char => write!(out, "char ")?,
        Base::Int => write!(out, "int ")?,
        Base::Long => write!(out, "long ")?,
        Base::Void => write!(out, "void ")?,
        Base::Struct { place, .. } => write!(out, "struct@{place} ")?,
    }
    Ok(())
}

fn write_stars(out: &mut String, stars: &[Star]) -> Result<(), Fail> {
    for star in stars {
        if star.is_private {
            write!(out, "*private ")?;
        } else {
            write!(out, "* ")?;
        }
    }
    Ok(())
}

fn write_shape(out: &mut String, shape: &Shape) -> Result<(), Fail> {
    match shape {
        Shape::Plain => {}
        Shape::Array { length } => write!(out, "[{length}] ")?,
        Shape::FunctionPointer {
            is_private: true,
            parameters,
        } => write!(out, "private-pointer({}) ", parameters.len())?,
        Shape::FunctionPointer { parameters, .. } => {
            write!(out, "pointer({}) ", parameters.len())?
        }
    }
    Ok(())
}

fn write_declarator(out: &mut String, declarator: &Declarator) -> Result<(), Fail> {
    write_stars(out, declarator.stars.as_slice())?;
    write!(out, "name@{} ", declarator.place)?;
    write_shape(out, &declarator.shape)
}

fn write_declaration(out: &mut String, declaration: &Declaration) -> Result<(), Fail> {
    write_specifier(out, declaration.specifier)?;
    match declaration.declarators.get(0) {
        Some(first) => {
            write_declarator(out, &first.declarator)?;
            match &first.start {
                Some(start) => write_node(out, Some(start.get())),
                None => Ok(()),
            }
        }
        None => Ok(()),
    }
}

fn write_parameter(out: &mut String, parameter: Option<&Parameter>) -> Result<(), Fail> {
    match parameter {
        Some(parameter) => {
            write!(out, "of ")?;
            write_specifier(out, parameter.specifier)?;
            write_declarator(out, &parameter.declarator)
        }
        None => Ok(()),
    }
}

fn write_header(out: &mut String, header: &Header) -> Result<(), Fail> {
    write_specifier(out, header.specifier)?;
    write_stars(out, header.stars.as_slice())?;
    write!(out, "function@{} ", header.place)?;
    write_parameter(out, header.parameters.get(0))
}

/// The first member, object or parameter, with what it is of.
fn write_item(out: &mut String, item: Option<&Item>) -> Result<(), Fail> {
    match item {
        Some(Item::Struct { definition }) => {
            write!(out, "definition@{} ", definition.place)?;
            match definition.members.get(0) {
                Some(member) => {
                    write_specifier(out, member.specifier)?;
                    match member.declarators.get(0) {
                        Some(first) => write_declarator(out, first),
                        None => Ok(()),
                    }
                }
                None => Ok(()),
            }
        }
        Some(Item::Object { declaration }) => write_declaration(out, declaration),
        Some(Item::Prototype { header }) => write_header(out, header),
        Some(Item::Function { header, body }) => {
            write_header(out, header)?;
            write!(out, "body@{} ", body.place)?;
            match body.items.get(0) {
                Some(BlockItem::Declare { declaration }) => write_declaration(out, declaration),
                _ => Ok(()),
            }
        }
        None => Ok(()),
    }
}

fn check_item(rt: &impl Abort, alloc: Global, source: &str, want: &str) -> Result<(), Fail> {
    let program = program_of(rt, alloc, source.as_bytes())?;
    let mut out = String::new(alloc);
    write_item(&mut out, program.items.get(0))?;
    assert_eq!(rt; out.as_str(), want, "{source}");
    Ok(())
}

/// The place of the name behind `.` or `->`.
fn name_place(expression: &Expression) -> Option<u32> {
    match &expression.kind {
        ExpressionKind::Member { name_place, .. } => Some(*name_place),
        ExpressionKind::Arrow { name_place, .. } => Some(*name_place),
        _ => None,
    }
}

fn returned_name_place(program: &Program) -> Option<u32> {
    match returned(program) {
        Some(expression) => name_place(expression),
        None => None,
    }
}

fn check_name(rt: &impl Abort, alloc: Global, text: &str, want: u32) -> Result<(), Fail> {
    let source = with_value(alloc, text)?;
    let program = program_of(rt, alloc, source.as_slice())?;
    assert_eq!(rt; returned_name_place(&program), Some(want), "{text}");
    Ok(())
}

fn check_names(rt: &impl Abort, alloc: Global, rows: &[(&str, u32)]) -> Result<(), Fail> {
    for row in rows {
        check_name(rt, alloc, row.0, row.1)?;
    }
    Ok(())
}

fn check_values(rt: &impl Abort, alloc: Global, rows: &[(&str, &str)]) -> Result<(), Fail> {
    for row in rows {
        let source = with_value(alloc, row.0)?;
        check_returned(rt, alloc, source.as_slice(), row.1)?;
    }
    Ok(())
}

fn check_statements(rt: &impl Abort, alloc: Global, rows: &[(&str, &str)]) -> Result<(), Fail> {
    for row in rows {
        let source = with_body(alloc, row.0)?;
        check_statement(rt, alloc, source.as_slice(), row.1)?;
    }
    Ok(())
}

fn check_items(rt: &impl Abort, alloc: Global, rows: &[(&str, &str)]) -> Result<(), Fail> {
    for row in rows {
        check_item(rt, alloc, row.0, row.1)?;
    }
    Ok(())
}

#[test]
fn expressions(rt: HostRuntime) -> Result<(), Fail> {
    check_values(
        &rt,
        rt.alloc(),
        &[
            ("a", "name@20 - - "),
            (" /* a */ a", "name@29 - - "),
            ("12", "number@20 - - "),
            ("'a'", "character@20 - - "),
            ("\"a\"", "string@20 - - "),
            ("-a", "-x@20 name@21 - "),
            ("~ a", "~x@20 name@22 - "),
            ("!a", "!x@20 name@21 - "),
            ("*a", "*x@20 name@21 - "),
            ("&a", "&x@20 name@21 - "),
            ("sizeof(int)", "sizeof@20 - - "),
            ("(int)a", "cast@20 name@25 - "),
            ("a+b", "+@20 name@20 name@22 "),
            ("a ? b : c", "?:@20 name@20 name@28 "),
            ("a = b", "=@20 name@20 name@24 "),
            ("f(a)", "call@20 name@20 name@22 "),
            ("a[b]", "index@20 name@20 name@22 "),
            ("a.b", "member@20 name@20 - "),
            ("a->b", "arrow@20 name@20 - "),
            ("(a)", "(@20 name@21 - - "),
            ("((a))", "(@20 (@21 name@22 - - "),
            ("(a + b)", "(@20 +@21 name@21 name@25 "),
            ("(a) + b", "+@20 (@20 name@21 name@26 "),
            ("-(a)", "-x@20 (@21 name@22 - "),
            ("(f)((a))", "call@20 (@20 name@21 (@24 name@25 "),
            ("(a)[(b)]", "index@20 (@20 name@21 (@24 name@25 "),
            ("(a).b", "member@20 (@20 name@21 - "),
            ("(a)->b", "arrow@20 (@20 name@21 - "),
            ("(a) = (b)", "=@20 (@20 name@21 (@26 name@27 "),
            ("(a) ? b : (c)", "?:@20 (@20 name@21 (@30 name@31 "),
            ("(int)(a)", "cast@20 (@25 name@26 - "),
        ],
    )
}

#[test]
fn names_of_members(rt: HostRuntime) -> Result<(), Fail> {
    check_names(
        &rt,
        rt.alloc(),
        &[
            ("a.b", 22),
            ("a->b", 23),
            ("a . b", 24),
            ("a.b->c", 25),
            ("(a -> b).c", 29),
        ],
    )
}

#[test]
fn statements(rt: HostRuntime) -> Result<(), Fail> {
    check_statements(
        &rt,
        rt.alloc(),
        &[
            ("{}", "block@20 - - - "),
            ("{ ; }", "block@20 nothing@22 - - "),
            (";", "nothing@20 - - - "),
            ("a;", "eval@20 - - name@20 "),
            ("(a);", "eval@20 - - (@20 name@21 "),
            (" \t\r\n/* */ // ;\na;", "eval@35 - - name@35 "),
            ("if (a) b;", "if@20 eval@27 - name@24 "),
            ("if (a) b; else c;", "if-else@20 eval@27 eval@35 name@24 "),
            ("if (a) if (b) ; else ;", "if@20 if-else@27 - name@24 "),
            (
                "if (a) { if (b) ; } else ;",
                "if-else@20 block@27 nothing@45 name@24 ",
            ),
            (
                "if (a) ; else if (b) ;",
                "if-else@20 nothing@27 if@34 name@24 ",
            ),
            ("while (a) b;", "while@20 eval@30 - name@27 "),
            ("do a; while (b);", "do@20 eval@23 - name@33 "),
            ("for (;;) a;", "for@20 eval@29 - - "),
            ("for (a;b;c) ;", "for@20 nothing@32 - name@27 "),
            ("return;", "return@20 - - - "),
            ("return a;", "return@20 - - name@27 "),
            ("break;", "break@20 - - - "),
            ("continue;", "continue@20 - - - "),
        ],
    )
}

#[test]
fn declared_things(rt: HostRuntime) -> Result<(), Fail> {
    check_items(
        &rt,
        rt.alloc(),
        &[
            ("int a;", "public@0 int name@4 "),
            ("private int a;", "private@0 int name@12 "),
            ("int private a;", "private@0 int name@12 "),
            ("private int private a;", "private@0 int name@20 "),
            ("  private long a = 1;", "private@2 long name@15 number@19 "),
            ("int *private *a;", "public@0 int *private * name@14 "),
            ("char private a[0x10];", "private@0 char name@13 [16] "),
            ("struct s *a;", "public@0 struct@7 * name@10 "),
            (
                "private struct s (*f)(int);",
                "private@0 struct@15 name@19 pointer(1) ",
            ),
            (
                "void *(*private f)(void);",
                "public@0 void * name@16 private-pointer(0) ",
            ),
            ("int (*f)(int, long);", "public@0 int name@6 pointer(2) "),
            (
                "struct s { int a; };",
                "definition@7 public@11 int name@15 ",
            ),
            ("int f();", "public@0 int function@4 "),
            ("int f(void);", "public@0 int function@4 "),
            (
                "int f(int a, long b);",
                "public@0 int function@4 of public@6 int name@10 ",
            ),
            ("private int f(){}", "private@0 int function@12 body@15 "),
            (
                "int *f(private int (*g)(void)){ }",
                "public@0 int * function@5 of private@7 int name@21 pointer(0) body@30 ",
            ),
            (
                "void f(){ private int a = b; }",
                "public@0 void function@5 body@8 private@10 int name@22 name@26 ",
            ),
        ],
    )
}

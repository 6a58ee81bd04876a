//! How many expression nodes and statements each kind of expression and statement has, and the greatest number of
//! arguments of a call in it. The parts are calls, so a part with n arguments has n + 2 nodes.

use super::{call, calls, expr, stmt};
use crate::counts::counts_of;
use c_ast::typed::{BinaryOp, LogicOp, UnaryOp};
use c_ast::{Boxed, Expr, ExprKind, Items, Stmt, StmtKind};
use cv_word::NoMemory;
use std::alloc::Global;
use std::test::Fail;

/// The kinds without parts.
enum Leaf {
    Num,
    Str,
    Local,
    Global,
    Func,
    Stub,
}

/// The kinds with one part.
enum One {
    Unary,
    Member,
    Arrow,
    Deref,
    Addr,
    Cast,
}

/// The kinds with two parts.
enum Two {
    Binary,
    Logic,
    Assign,
    Index,
}

/// A kind of expression, with how many arguments each part has.
enum Shape {
    Leaf(Leaf),
    One(One, usize),
    Two(Two, usize, usize),
    Cond(usize, usize, usize),
    /// A call of a call's result, with two calls as arguments.
    Call(usize, usize, usize),
}

/// A kind of statement, with how many arguments each expression in it has. The statements in it are calls.
pub enum Form {
    Block(usize, usize),
    /// Its initialiser is an assignment to a local.
    Declare(Option<usize>),
    Eval(Option<usize>),
    Return(Option<usize>),
    If(usize, usize),
    IfElse(usize, usize, usize),
    While(usize, usize),
    DoWhile(usize, usize),
    For(Option<usize>, Option<usize>, Option<usize>, usize),
    Break,
    Continue,
}

fn without_parts(kind: &Leaf) -> ExprKind {
    match kind {
        Leaf::Num => ExprKind::Num { value: 7 },
        Leaf::Str => ExprKind::Str { string: 0 },
        Leaf::Local => ExprKind::Local { number: 0 },
        Leaf::Global => ExprKind::Global { number: 0 },
        Leaf::Func => ExprKind::Func { number: 0 },
        Leaf::Stub => ExprKind::Stub { number: 0 },
    }
}

fn with_part(kind: &One, e: Boxed<Expr>) -> ExprKind {
    match kind {
        One::Unary => ExprKind::Unary {
            op: UnaryOp::Not,
            e,
        },
        One::Member => ExprKind::Member { of: e, member: 0 },
        One::Arrow => ExprKind::Arrow { of: e, member: 0 },
        One::Deref => ExprKind::Deref { e },
        One::Addr => ExprKind::Addr { e },
        One::Cast => ExprKind::Cast { e },
    }
}

fn with_parts(kind: &Two, a: Boxed<Expr>, b: Boxed<Expr>) -> ExprKind {
    match kind {
        Two::Binary => ExprKind::Binary {
            op: BinaryOp::Add,
            a,
            b,
        },
        Two::Logic => ExprKind::Logic {
            op: LogicOp::Both,
            a,
            b,
        },
        Two::Assign => ExprKind::Assign { to: a, from: b },
        Two::Index => ExprKind::Index { of: a, at: b },
    }
}

/// A call with so many arguments, as a part.
fn part(alloc: Global, count: usize) -> Result<Boxed<Expr>, NoMemory> {
    let e = Boxed::new(alloc, call(alloc, count)?)?;
    Ok(e)
}

/// Two calls as arguments.
fn two_calls(alloc: Global, first: usize, second: usize) -> Result<Items<Expr>, NoMemory> {
    let mut args = Items::new(alloc);
    args.push(call(alloc, first)?)?;
    args.push(call(alloc, second)?)?;
    Ok(args)
}

fn one_part(alloc: Global, kind: &One, inner: usize) -> Result<ExprKind, NoMemory> {
    let e = part(alloc, inner)?;
    Ok(with_part(kind, e))
}

fn two_parts(alloc: Global, kind: &Two, first: usize, second: usize) -> Result<ExprKind, NoMemory> {
    let a = part(alloc, first)?;
    let b = part(alloc, second)?;
    Ok(with_parts(kind, a, b))
}

fn condition(alloc: Global, on: usize, yes: usize, no: usize) -> Result<ExprKind, NoMemory> {
    let on = part(alloc, on)?;
    let yes = part(alloc, yes)?;
    let no = part(alloc, no)?;
    Ok(ExprKind::Cond { on, yes, no })
}

fn call_of_call(
    alloc: Global,
    callee: usize,
    first: usize,
    second: usize,
) -> Result<ExprKind, NoMemory> {
    let callee = part(alloc, callee)?;
    let args = two_calls(alloc, first, second)?;
    Ok(ExprKind::Call { callee, args })
}

/// An expression of this shape.
fn expression(alloc: Global, shape: &Shape) -> Result<ExprKind, NoMemory> {
    match shape {
        Shape::Leaf(kind) => Ok(without_parts(kind)),
        Shape::One(kind, inner) => one_part(alloc, kind, *inner),
        Shape::Two(kind, first, second) => two_parts(alloc, kind, *first, *second),
        Shape::Cond(on, yes, no) => condition(alloc, *on, *yes, *no),
        Shape::Call(callee, first, second) => call_of_call(alloc, *callee, *first, *second),
    }
}

/// A call that may be missing.
fn optional(alloc: Global, count: &Option<usize>) -> Result<Option<Boxed<Expr>>, NoMemory> {
    match count {
        Some(count) => Ok(Some(part(alloc, *count)?)),
        None => Ok(None),
    }
}

/// The assignment of a call to a local: two nodes beside the call's.
fn assignment(alloc: Global, count: usize) -> Result<Boxed<Expr>, NoMemory> {
    let to = Boxed::new(alloc, expr(without_parts(&Leaf::Local)))?;
    let from = part(alloc, count)?;
    let e = Boxed::new(alloc, expr(ExprKind::Assign { to, from }))?;
    Ok(e)
}

fn declaration(alloc: Global, count: &Option<usize>) -> Result<StmtKind, NoMemory> {
    match count {
        Some(count) => {
            let start = Some(assignment(alloc, *count)?);
            Ok(StmtKind::Declare { local: 0, start })
        }
        None => Ok(StmtKind::Declare {
            local: 0,
            start: None,
        }),
    }
}

/// The statement of a call, as a part.
fn body(alloc: Global, count: usize) -> Result<Boxed<Stmt>, NoMemory> {
    let s = Boxed::new(alloc, calls(alloc, count)?)?;
    Ok(s)
}

fn pair(alloc: Global, first: usize, second: usize) -> Result<StmtKind, NoMemory> {
    let mut items = Items::new(alloc);
    items.push(calls(alloc, first)?)?;
    items.push(calls(alloc, second)?)?;
    Ok(StmtKind::Block { items })
}

/// An `if` with the second branch, if there is one.
fn branches(
    alloc: Global,
    on: usize,
    yes: usize,
    no: Option<Boxed<Stmt>>,
) -> Result<StmtKind, NoMemory> {
    let on = part(alloc, on)?;
    let yes = body(alloc, yes)?;
    Ok(StmtKind::If { on, yes, no })
}

fn while_loop(alloc: Global, on: usize, inner: usize) -> Result<StmtKind, NoMemory> {
    let on = part(alloc, on)?;
    let body = body(alloc, inner)?;
    Ok(StmtKind::While { on, body })
}

fn do_loop(alloc: Global, inner: usize, on: usize) -> Result<StmtKind, NoMemory> {
    let body = body(alloc, inner)?;
    let on = part(alloc, on)?;
    Ok(StmtKind::DoWhile { body, on })
}

fn for_loop(
    alloc: Global,
    first: &Option<usize>,
    on: &Option<usize>,
    after: &Option<usize>,
    inner: usize,
) -> Result<StmtKind, NoMemory> {
    let first = optional(alloc, first)?;
    let on = optional(alloc, on)?;
    let after = optional(alloc, after)?;
    let body = body(alloc, inner)?;
    Ok(StmtKind::For {
        first,
        on,
        after,
        body,
    })
}

fn kind_of(alloc: Global, form: &Form) -> Result<StmtKind, NoMemory> {
    match form {
        Form::Block(first, second) => pair(alloc, *first, *second),
        Form::Declare(start) => declaration(alloc, start),
        Form::Eval(e) => Ok(StmtKind::Eval {
            e: optional(alloc, e)?,
        }),
        Form::Return(e) => Ok(StmtKind::Return {
            e: optional(alloc, e)?,
        }),
        Form::If(on, yes) => branches(alloc, *on, *yes, None),
        Form::IfElse(on, yes, no) => branches(alloc, *on, *yes, Some(body(alloc, *no)?)),
        Form::While(on, inner) => while_loop(alloc, *on, *inner),
        Form::DoWhile(inner, on) => do_loop(alloc, *inner, *on),
        Form::For(first, on, after, inner) => for_loop(alloc, first, on, after, *inner),
        Form::Break => Ok(StmtKind::Break),
        Form::Continue => Ok(StmtKind::Continue),
    }
}

/// The statement of this form.
pub fn statement(alloc: Global, form: &Form) -> Result<Stmt, NoMemory> {
    let kind = kind_of(alloc, form)?;
    Ok(stmt(kind))
}

/// The expression nodes, the statements and the most arguments in a statement.
fn counted(s: &Stmt) -> Result<(u64, u64, u64), NoMemory> {
    let counts = counts_of(s)?;
    Ok((counts.expressions, counts.statements, counts.arguments))
}

/// The expression nodes and the most arguments of an expression of this shape. Its statement is one.
fn in_shape(alloc: Global, shape: &Shape) -> Result<(u64, u64, u64), NoMemory> {
    let e = Boxed::new(alloc, expr(expression(alloc, shape)?))?;
    counted(&stmt(StmtKind::Eval { e: Some(e) }))
}

/// The same of a statement of this form.
fn in_form(alloc: Global, form: &Form) -> Result<(u64, u64, u64), NoMemory> {
    counted(&statement(alloc, form)?)
}

/// A shape, its nodes and the most arguments of a call in it.
static SHAPES: [(Shape, u64, u64); 27] = [
    (Shape::Leaf(Leaf::Num), 1, 0),
    (Shape::Leaf(Leaf::Str), 1, 0),
    (Shape::Leaf(Leaf::Local), 1, 0),
    (Shape::Leaf(Leaf::Global), 1, 0),
    (Shape::Leaf(Leaf::Func), 1, 0),
    (Shape::Leaf(Leaf::Stub), 1, 0),
    (Shape::One(One::Unary, 2), 5, 2),
    (Shape::One(One::Member, 2), 5, 2),
    (Shape::One(One::Arrow, 2), 5, 2),
    (Shape::One(One::Deref, 2), 5, 2),
    (Shape::One(One::Addr, 2), 5, 2),
    (Shape::One(One::Cast, 2), 5, 2),
    (Shape::Two(Two::Binary, 1, 2), 8, 2),
    (Shape::Two(Two::Binary, 2, 1), 8, 2),
    (Shape::Two(Two::Logic, 1, 2), 8, 2),
    (Shape::Two(Two::Logic, 2, 1), 8, 2),
    (Shape::Two(Two::Assign, 1, 2), 8, 2),
    (Shape::Two(Two::Assign, 2, 1), 8, 2),
    (Shape::Two(Two::Index, 1, 2), 8, 2),
    (Shape::Two(Two::Index, 2, 1), 8, 2),
    (Shape::Cond(1, 2, 3), 13, 3),
    (Shape::Cond(2, 3, 1), 13, 3),
    (Shape::Cond(3, 1, 2), 13, 3),
    // two arguments of its own
    (Shape::Call(0, 1, 1), 9, 2),
    (Shape::Call(3, 1, 0), 11, 3),
    (Shape::Call(0, 3, 1), 11, 3),
    (Shape::Call(1, 0, 3), 11, 3),
];

/// An expression is a node beside its parts.
#[test]
fn counts_each_kind_of_expression(rt: HostRuntime) -> Result<(), Fail> {
    for (row, (shape, nodes, arguments)) in SHAPES.iter().enumerate() {
        let found = in_shape(rt.alloc(), shape)?;
        assert_eq!(rt; found, (*nodes, 1, *arguments), "row {row}");
    }
    Ok(())
}

/// A form, its expression nodes, its statements, and the most arguments of a call in it.
static FORMS: [(Form, u64, u64, u64); 25] = [
    (Form::Block(1, 2), 7, 3, 2),
    (Form::Block(2, 1), 7, 3, 2),
    (Form::Declare(None), 0, 0, 0),
    (Form::Declare(Some(2)), 6, 0, 2),
    (Form::Eval(None), 0, 1, 0),
    (Form::Eval(Some(1)), 3, 1, 1),
    (Form::Return(None), 0, 1, 0),
    (Form::Return(Some(3)), 5, 1, 3),
    (Form::If(1, 2), 7, 2, 2),
    (Form::If(2, 1), 7, 2, 2),
    (Form::IfElse(1, 2, 3), 12, 3, 3),
    (Form::IfElse(2, 3, 1), 12, 3, 3),
    (Form::IfElse(3, 1, 2), 12, 3, 3),
    (Form::While(1, 2), 7, 2, 2),
    (Form::While(2, 1), 7, 2, 2),
    (Form::DoWhile(1, 2), 7, 2, 2),
    (Form::DoWhile(2, 1), 7, 2, 2),
    (Form::For(Some(1), Some(2), Some(3), 4), 18, 2, 4),
    (Form::For(Some(2), Some(3), Some(4), 1), 18, 2, 4),
    (Form::For(Some(3), Some(4), Some(1), 2), 18, 2, 4),
    (Form::For(Some(4), Some(1), Some(2), 3), 18, 2, 4),
    (Form::For(None, Some(2), None, 1), 7, 2, 2),
    (Form::For(None, None, None, 1), 3, 2, 1),
    (Form::Break, 0, 1, 0),
    (Form::Continue, 0, 1, 0),
];

/// A statement counts beside its parts. A declaration is none, but its initialiser has nodes.
#[test]
fn counts_each_kind_of_statement(rt: HostRuntime) -> Result<(), Fail> {
    for (row, (form, nodes, statements, arguments)) in FORMS.iter().enumerate() {
        let found = in_form(rt.alloc(), form)?;
        assert_eq!(rt; found, (*nodes, *statements, *arguments), "row {row}");
    }
    Ok(())
}

//! How much there is in a function: expression nodes, statements, and values that are passed at once.

ghost use Rattle.c_ast.specs.Nodes as nodes;
ghost use Rattle.c_layout.specs.Counts as def;
ghost use Rattle.std.specs.Option.{option_map};
ghost use Rattle.std.specs.Prelude.{◌≡◌, IfOk, map, sum};

use crate::sums::total;
use c_ast::Boxed;
use c_ast::typed::{Expr, ExprKind, Function, Stmt, StmtKind};
use cv_word::NoMemory;

/// What there is in a part of a function.
#[derive(Clone, Copy)]
pub struct Counts {
    /// The expression nodes.
    pub expressions: u64,
    pub statements: u64,
    /// The greatest number of arguments of a call.
    pub arguments: u64,
}

/// How many nodes an expression has.
#[cycle(expression_nodes)]
fn nodes_of(e: &Expr) -> Result<u64, NoMemory>
    ensures { IfOk result (λ n. n ≡ nodes.nodes_of e.now) }
{
    match &e.kind {
        ExprKind::Unary { e, .. }
        | ExprKind::Deref { e }
        | ExprKind::Addr { e }
        | ExprKind::Cast { e }
        | ExprKind::Member { of: e, .. }
        | ExprKind::Arrow { of: e, .. } => {
            let part = nodes_of(e.get())?;
            Ok(total(1, part)?)
        }
        ExprKind::Binary { a, b, .. }
        | ExprKind::Logic { a, b, .. }
        | ExprKind::Assign { to: a, from: b }
        | ExprKind::Index { of: a, at: b } => {
            let first = nodes_of(a.get())?;
            let second = nodes_of(b.get())?;
            Ok(total(total(1, first)?, second)?)
        }
        ExprKind::Cond { on, yes, no } => {
            let condition = nodes_of(on.get())?;
            let first = nodes_of(yes.get())?;
            let second = nodes_of(no.get())?;
            Ok(total(total(total(1, condition)?, first)?, second)?)
        }
        ExprKind::Call { callee, args } => {
            let callee = nodes_of(callee.get())?;
            let args = nodes_of_all(args.as_slice())?;
            Ok(total(total(1, callee)?, args)?)
        }
        _ => Ok(1),
    }
}

/// How many nodes some expressions have together.
#[cycle(expression_nodes)]
fn nodes_of_all(args: &[Expr]) -> Result<u64, NoMemory>
    ensures { IfOk result (λ n. n ≡ sum (map nodes.nodes_of args.now)) }
{
    let mut all = 0u64;
    for arg in args {
        all = total(all, nodes_of(arg)?)?;
    }
    Ok(all)
}

/// The greatest number of arguments of a call in an expression.
#[cycle(arguments)]
fn most_arguments(e: &Expr) -> u64
    ensures { result ≡ def.most_arguments e.now }
{
    match &e.kind {
        ExprKind::Unary { e, .. }
        | ExprKind::Deref { e }
        | ExprKind::Addr { e }
        | ExprKind::Cast { e }
        | ExprKind::Member { of: e, .. }
        | ExprKind::Arrow { of: e, .. } => most_arguments(e.get()),
        ExprKind::Binary { a, b, .. }
        | ExprKind::Logic { a, b, .. }
        | ExprKind::Assign { to: a, from: b }
        | ExprKind::Index { of: a, at: b } => {
            let first = most_arguments(a.get());
            let second = most_arguments(b.get());
            first.max(second)
        }
        ExprKind::Cond { on, yes, no } => {
            let condition = most_arguments(on.get());
            let first = most_arguments(yes.get());
            let second = most_arguments(no.get());
            condition.max(first).max(second)
        }
        ExprKind::Call { callee, args } => {
            let own = args.len() as u64;
            let callee = most_arguments(callee.get());
            let inside = most_arguments_of_all(args.as_slice());
            own.max(callee).max(inside)
        }
        _ => 0,
    }
}

/// The greatest number of arguments of a call in some expressions.
#[cycle(arguments)]
fn most_arguments_of_all(args: &[Expr]) -> u64
    ensures { result ≡ def.greatest (map def.most_arguments args.now) }
{
    let mut most = 0u64;
    for arg in args {
        most = most.max(most_arguments(arg));
    }
    most
}

fn no_counts() -> Counts
    ensures { result ≡ def.no_counts }
{
    Counts {
        expressions: 0,
        statements: 0,
        arguments: 0,
    }
}

/// What there is in two parts.
#[tactic(auto, unfolding(crate::specs::Counts::both))]
fn both(a: Counts, b: Counts) -> Result<Counts, NoMemory>
    ensures { IfOk result (λ counts. counts ≡ def.both a b) }
{
    let expressions = total(a.expressions, b.expressions)?;
    let statements = total(a.statements, b.statements)?;
    let arguments = a.arguments.max(b.arguments);
    Ok(Counts {
        expressions,
        statements,
        arguments,
    })
}

#[tactic(auto, unfolding(crate::specs::Counts::in_expression))]
fn in_expression(e: &Expr) -> Result<Counts, NoMemory>
    ensures { IfOk result (λ counts. counts ≡ def.in_expression e.now) }
{
    let expressions = nodes_of(e)?;
    let arguments = most_arguments(e);
    Ok(Counts {
        expressions,
        statements: 0,
        arguments,
    })
}

fn in_optional(e: &Option<Boxed<Expr>>) -> Result<Counts, NoMemory>
    ensures { IfOk result (λ counts. counts ≡ def.in_optional e.now) }
{
    match e {
        Some(e) => {
            let counts = in_expression(e.get())?;
            Ok(counts)
        }
        None => Ok(no_counts()),
    }
}

/// A statement counts beside its parts.
#[tactic(auto, unfolding(crate::specs::Counts::statement))]
fn statement(parts: Counts) -> Result<Counts, NoMemory>
    ensures { IfOk result (λ counts. counts ≡ def.statement parts) }
{
    let expressions = parts.expressions;
    let statements = total(1, parts.statements)?;
    let arguments = parts.arguments;
    Ok(Counts {
        expressions,
        statements,
        arguments,
    })
}

/// What there is in a statement. A declaration is none, but its initialiser counts.
#[cycle(statements)]
pub fn counts_of(s: &Stmt) -> Result<Counts, NoMemory>
    ensures { IfOk result (λ counts. counts ≡ def.counts_of s.now) }
{
    match &s.kind {
        StmtKind::Block { items } => {
            let parts = counts_of_all(items.as_slice())?;
            Ok(statement(parts)?)
        }
        StmtKind::Declare { start, .. } => {
            let counts = in_optional(start)?;
            Ok(counts)
        }
        StmtKind::Eval { e } | StmtKind::Return { e } => {
            let parts = in_optional(e)?;
            Ok(statement(parts)?)
        }
        StmtKind::If { on, yes, no } => {
            let condition = in_expression(on.get())?;
            let first = counts_of(yes.get())?;
            let second = in_branch(no)?;
            Ok(statement(both(both(condition, first)?, second)?)?)
        }
        StmtKind::While { on, body } => {
            let condition = in_expression(on.get())?;
            let body = counts_of(body.get())?;
            Ok(statement(both(condition, body)?)?)
        }
        StmtKind::DoWhile { body, on } => {
            let body = counts_of(body.get())?;
            let condition = in_expression(on.get())?;
            Ok(statement(both(body, condition)?)?)
        }
        StmtKind::For {
            first,
            on,
            after,
            body,
        } => {
            let before = both(in_optional(first)?, in_optional(on)?)?;
            let after = in_optional(after)?;
            let body = counts_of(body.get())?;
            Ok(statement(both(before, both(after, body)?)?)?)
        }
        StmtKind::Break | StmtKind::Continue => Ok(statement(no_counts())?),
    }
}

/// What there is in a branch that may be missing.
#[cycle(statements)]
fn in_branch(s: &Option<Boxed<Stmt>>) -> Result<Counts, NoMemory>
    ensures { IfOk result (λ counts. counts ≡ def.in_branch (option_map def.counts_of s.now)) }
{
    match s {
        Some(s) => {
            let counts = counts_of(s.get())?;
            Ok(counts)
        }
        None => Ok(no_counts()),
    }
}

/// What there is in some statements.
#[cycle(statements)]
fn counts_of_all(items: &[Stmt]) -> Result<Counts, NoMemory>
    ensures { IfOk result (λ counts. counts ≡ def.all (map def.counts_of items.now)) }
{
    let mut all = no_counts();
    for item in items {
        all = both(all, counts_of(item)?)?;
    }
    Ok(all)
}

/// The expression nodes and statements of a function.
pub fn function_nodes(f: &Function) -> Result<u64, NoMemory>
    ensures { IfOk result (λ n. n ≡ def.function_nodes f.now) }
{
    let counts = counts_of(&f.body)?;
    Ok(total(counts.expressions, counts.statements)?)
}

/// The greatest of a function's number of parameters and the number of arguments of each call in it.
pub fn most_values(f: &Function) -> Result<u64, NoMemory>
    ensures { IfOk result (λ n. n ≡ def.most_values f.now) }
{
    let params = f.params.len() as u64;
    let arguments = counts_of(&f.body)?.arguments;
    Ok(params.max(arguments))
}

/// The expression nodes and statements of a program.
pub fn nodes_in(functions: &[Function]) -> Result<u64, NoMemory>
    ensures { IfOk result (λ n. n ≡ def.nodes_in functions.now) }
{
    let mut all = 0u64;
    for function in functions {
        all = total(all, function_nodes(function)?)?;
    }
    Ok(all)
}

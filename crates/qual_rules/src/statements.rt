//! The constraints of statements, functions and whole sources.

ghost use Rattle.qual_rules.specs.Flows.{flow_of};
ghost use Rattle.qual_rules.specs.Rules.{constraints_of, perhaps, perhaps_sources, returned, statement_constraints};
ghost use Rattle.std.specs.List.{flat_map};
ghost use Rattle.std.specs.Prelude.{◌≡◌, ◌++◌, IfOk, OnOk};

use crate::expressions::flow;
use crate::flow::{Source, push_passed, push_public};
use crate::levels::push_same_below;
use c_ast::typed::{Expr, Stmt, StmtKind};
use c_ast::{Boxed, Items, Ty, Typed};
use cv_word::NoMemory;
use qual_solve::Constraint;
use std::alloc::Global;

/// The constraints of a typed source, in source order, each at the place of the node that it comes from.
/// `NoMemory` comes only where memory is refused.
pub fn constraints(alloc: Global, t: &Typed) -> Result<Vec<Constraint>, NoMemory>
    ensures { IfOk result (λ list. list.items ≡ constraints_of t.now) }
{
    let mut out = Vec::new(alloc);
    for function in t.functions.as_slice() {
        statement(alloc, &function.body, &function.ret, &mut out)?;
    }
    Ok(out)
}

/// The sources of an expression that may be missing. Its constraints are put last.
fn perhaps(
    alloc: Global,
    e: &Option<Boxed<Expr>>,
    out: &mut Vec<Constraint>,
) -> Result<Items<Source>, NoMemory>
    ensures sources { IfOk result (λ sources. sources ≡ perhaps_sources e.now) }
    ensures constraints { OnOk result (out.new.items ≡ out.old.items ++ perhaps e.now) }
{
    match e {
        Some(e) => flow(alloc, e.get(), out),
        None => Ok(Items::new(alloc)),
    }
}

/// A result flows to the result of its function, whose type is `ret`.
fn returned(
    alloc: Global,
    e: &Option<Boxed<Expr>>,
    ret: &Ty,
    out: &mut Vec<Constraint>,
) -> Result<(), NoMemory>
    ensures { OnOk result (out.new.items ≡ out.old.items ++ returned ret.now e.now) }
{
    match e {
        Some(e) => {
            let value = e.get();
            let sources = flow(alloc, value, out)?;
            push_passed(sources.as_slice(), ret, out)?;
            push_same_below(value.place, &value.ty, ret, out)
        }
        None => Ok(()),
    }
}

/// The constraints of a statement in a function with this result are put last.
#[cycle(statements)]
fn statement(alloc: Global, s: &Stmt, ret: &Ty, out: &mut Vec<Constraint>) -> Result<(), NoMemory>
    ensures { OnOk result (out.new.items ≡ out.old.items ++ statement_constraints s.now ret.now) }
{
    match &s.kind {
        StmtKind::Block { items } => statements(alloc, items.as_slice(), ret, out),
        StmtKind::Declare { start: e, .. } | StmtKind::Eval { e } => {
            perhaps(alloc, e, out)?;
            Ok(())
        }
        StmtKind::If { on, yes, no } => {
            let sources = flow(alloc, on.get(), out)?;
            statement(alloc, yes.get(), ret, out)?;
            if let Some(no) = no {
                statement(alloc, no.get(), ret, out)?;
            }
            push_public(sources.as_slice(), out)
        }
        StmtKind::While { on, body } => {
            let sources = flow(alloc, on.get(), out)?;
            statement(alloc, body.get(), ret, out)?;
            push_public(sources.as_slice(), out)
        }
        StmtKind::DoWhile { body, on } => {
            statement(alloc, body.get(), ret, out)?;
            let sources = flow(alloc, on.get(), out)?;
            push_public(sources.as_slice(), out)
        }
        StmtKind::For {
            first,
            on,
            after,
            body,
        } => {
            perhaps(alloc, first, out)?;
            let sources = perhaps(alloc, on, out)?;
            perhaps(alloc, after, out)?;
            statement(alloc, body.get(), ret, out)?;
            push_public(sources.as_slice(), out)
        }
        StmtKind::Return { e } => returned(alloc, e, ret, out),
        StmtKind::Break | StmtKind::Continue => Ok(()),
    }
}

/// The constraints of some statements, one after the other.
#[cycle(statements)]
fn statements(
    alloc: Global,
    items: &[Stmt],
    ret: &Ty,
    out: &mut Vec<Constraint>,
) -> Result<(), NoMemory>
    ensures { OnOk result (out.new.items ≡ out.old.items ++ flat_map (λ s. statement_constraints s ret.now) items.now) }
{
    for item in items {
        statement(alloc, item, ret, out)?;
    }
    Ok(())
}

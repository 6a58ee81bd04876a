//! What flows in expressions.

ghost use Rattle.qual_rules.specs.Flows.{flow_of, own, passed, passed_all, public, same_below, same_below_all};
ghost use Rattle.qual_rules.specs.Levels.{parameters_of};
ghost use Rattle.std.specs.List.{flat_map};
ghost use Rattle.std.specs.Prelude.{◌≡◌, ◌++◌, map, IfOk, OnOk};

use crate::flow::{Source, own, push_divided, push_if_private, push_passed, push_public};
use crate::levels::{parameters_of, push_same_below};
use c_ast::typed::{Expr, ExprKind};
use c_ast::{Items, Ty};
use cv_word::NoMemory;
use qual_solve::Constraint;
use std::alloc::Global;

/// The sources of an expression. The constraints of it and its parts are put last.
#[cycle(flows)]
pub fn flow(alloc: Global, e: &Expr, out: &mut Vec<Constraint>) -> Result<Items<Source>, NoMemory>
    ensures sources { IfOk result (λ sources. sources ≡ (flow_of e.now).sources) }
    ensures constraints { OnOk result (out.new.items ≡ out.old.items ++ (flow_of e.now).constraints) }
{
    match &e.kind {
        ExprKind::Num { .. }
        | ExprKind::Str { .. }
        | ExprKind::Func { .. }
        | ExprKind::Stub { .. } => Ok(Items::new(alloc)),
        ExprKind::Local { .. } | ExprKind::Global { .. } => own(alloc, e.place, &e.ty),
        ExprKind::Unary { e: part, .. } => flow(alloc, part.get(), out),
        ExprKind::Binary { op, a, b } => {
            let sources = flow_of_two(alloc, a.get(), b.get(), out)?;
            push_divided(*op, sources.as_slice(), out)?;
            Ok(sources)
        }
        ExprKind::Logic { a, b, .. } => {
            let both = flow_of_two(alloc, a.get(), b.get(), out)?;
            push_public(both.as_slice(), out)?;
            Ok(Items::new(alloc))
        }
        ExprKind::Cond { on, yes, no } => choice(alloc, on.get(), yes.get(), no.get(), out),
        ExprKind::Assign { to, from } => assign(alloc, e.place, to.get(), from.get(), out),
        ExprKind::Call { callee, args } => {
            call(alloc, callee.get(), args.as_slice(), out)?;
            own(alloc, e.place, &e.ty)
        }
        ExprKind::Index { of, at } => {
            let sources = flow_of_two(alloc, of.get(), at.get(), out)?;
            push_public(sources.as_slice(), out)?;
            own(alloc, e.place, &e.ty)
        }
        ExprKind::Member { of, .. } => {
            flow(alloc, of.get(), out)?;
            own(alloc, e.place, &e.ty)
        }
        ExprKind::Arrow { of, .. } | ExprKind::Deref { e: of } => {
            let sources = flow(alloc, of.get(), out)?;
            push_public(sources.as_slice(), out)?;
            own(alloc, e.place, &e.ty)
        }
        ExprKind::Addr { e: part } => {
            flow(alloc, part.get(), out)?;
            Ok(Items::new(alloc))
        }
        ExprKind::Cast { e: part } => {
            let mut sources = flow(alloc, part.get(), out)?;
            let value = part.get();
            push_same_below(value.place, &value.ty, &e.ty, out)?;
            push_if_private(&mut sources, e.place, &e.ty)?;
            Ok(sources)
        }
    }
}

/// The sources of two expressions, one after the other.
#[cycle(flows)]
fn flow_of_two(
    alloc: Global,
    a: &Expr,
    b: &Expr,
    out: &mut Vec<Constraint>,
) -> Result<Items<Source>, NoMemory>
    ensures sources { IfOk result (λ sources. sources ≡ (flow_of a.now).sources ++ (flow_of b.now).sources) }
    ensures constraints { OnOk result (out.new.items ≡ out.old.items ++ (flow_of a.now).constraints ++ (flow_of b.now).constraints) }
{
    let mut sources = flow(alloc, a, out)?;
    let more = flow(alloc, b, out)?;
    sources.append(more)?;
    Ok(sources)
}

/// A condition and two branches.
#[cycle(flows)]
fn choice(
    alloc: Global,
    on: &Expr,
    yes: &Expr,
    no: &Expr,
    out: &mut Vec<Constraint>,
) -> Result<Items<Source>, NoMemory>
    ensures sources { IfOk result (λ sources. sources ≡ (flow_of yes.now).sources ++ (flow_of no.now).sources) }
    ensures constraints { OnOk result (out.new.items ≡ out.old.items
        ++ ((flow_of on.now).constraints ++ (flow_of yes.now).constraints ++ (flow_of no.now).constraints
        ++ same_below yes.now.place yes.now.ty no.now.ty ++ public (flow_of on.now).sources)) }
{
    let condition = flow(alloc, on, out)?;
    let sources = flow_of_two(alloc, yes, no, out)?;
    push_same_below(yes.place, &yes.ty, &no.ty, out)?;
    push_public(condition.as_slice(), out)?;
    Ok(sources)
}

/// An assignment at its place.
#[cycle(flows)]
fn assign(
    alloc: Global,
    place: u32,
    to: &Expr,
    from: &Expr,
    out: &mut Vec<Constraint>,
) -> Result<Items<Source>, NoMemory>
    ensures sources { IfOk result (λ sources. sources ≡ own place to.now.ty) }
    ensures constraints { OnOk result (out.new.items ≡ out.old.items
        ++ ((flow_of to.now).constraints ++ (flow_of from.now).constraints ++ passed (flow_of from.now).sources to.now.ty
        ++ same_below from.now.place from.now.ty to.now.ty)) }
{
    flow(alloc, to, out)?;
    let sources = flow(alloc, from, out)?;
    push_passed(sources.as_slice(), &to.ty, out)?;
    push_same_below(from.place, &from.ty, &to.ty, out)?;
    own(alloc, place, &to.ty)
}

/// A call's parts, and its arguments to the parameters.
#[cycle(flows)]
fn call(
    alloc: Global,
    callee: &Expr,
    args: &[Expr],
    out: &mut Vec<Constraint>,
) -> Result<(), NoMemory>
    ensures { OnOk result (out.new.items ≡ out.old.items
        ++ ((flow_of callee.now).constraints ++ flat_map (λ a. (flow_of a).constraints) args.now
        ++ passed_all (map (λ a. (flow_of a).sources) args.now) (parameters_of callee.now.ty)
        ++ same_below_all (map flow_of args.now) (parameters_of callee.now.ty) ++ public (flow_of callee.now).sources)) }
{
    let called = flow(alloc, callee, out)?;
    let all = flow_of_all(alloc, args, out)?;
    push_arguments(all.as_slice(), args, &callee.ty, out)?;
    push_public(called.as_slice(), out)
}

/// The sources of each of some expressions.
#[cycle(flows)]
fn flow_of_all(
    alloc: Global,
    args: &[Expr],
    out: &mut Vec<Constraint>,
) -> Result<Items<Items<Source>>, NoMemory>
    ensures sources { IfOk result (λ all. all ≡ map (λ a. (flow_of a).sources) args.now) }
    ensures constraints { OnOk result (out.new.items ≡ out.old.items ++ flat_map (λ a. (flow_of a).constraints) args.now) }
{
    let mut all = Items::new(alloc);
    for arg in args {
        let sources = flow(alloc, arg, out)?;
        all.push(sources)?;
    }
    Ok(all)
}

/// All arguments flow to the parameters of a callee of this type, and the levels below them are the same.
fn push_arguments(
    all: &[Items<Source>],
    args: &[Expr],
    callee: &Ty,
    out: &mut Vec<Constraint>,
) -> Result<(), NoMemory>
    ensures { OnOk result (out.new.items ≡ out.old.items
        ++ (passed_all all.now (parameters_of callee.now) ++ same_below_all (map flow_of args.now) (parameters_of callee.now))) }
{
    match parameters_of(callee) {
        Some(types) => {
            push_passed_all(all, types.as_slice(), out)?;
            push_same_below_all(args, types.as_slice(), out)
        }
        None => Ok(()),
    }
}

/// All arguments flow to their parameters.
fn push_passed_all(
    all: &[Items<Source>],
    types: &[Ty],
    out: &mut Vec<Constraint>,
) -> Result<(), NoMemory>
    ensures { OnOk result (out.new.items ≡ out.old.items ++ passed_all all.now types.now) }
{
    let mut i = 0;
    while i < all.len() && i < types.len() {
        push_passed(all[i].as_slice(), &types[i], out)?;
        i += 1;
    }
    Ok(())
}

/// The levels below all arguments and their parameters are the same.
fn push_same_below_all(
    args: &[Expr],
    types: &[Ty],
    out: &mut Vec<Constraint>,
) -> Result<(), NoMemory>
    ensures { OnOk result (out.new.items ≡ out.old.items ++ same_below_all (map flow_of args.now) types.now) }
{
    let mut i = 0;
    while i < args.len() && i < types.len() {
        let arg = &args[i];
        push_same_below(arg.place, &arg.ty, &types[i], out)?;
        i += 1;
    }
    Ok(())
}

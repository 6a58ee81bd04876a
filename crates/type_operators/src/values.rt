//! Assignments, casts and choices.

ghost use Rattle.std.specs.Prelude.{◌≡◌, IfOk, OnOk};
ghost use Rattle.type_rules.specs.Operators as def;

use crate::fitting::{cast_fits, fits, is_condition, is_place, joined};
use c_ast::typed::{Expr, ExprKind};
use c_ast::{Boxed, Ty};
use cv_word::NoMemory;
use std::alloc::Global;
use type_rules::notes::Notes;
use type_rules::parts::{Form, Part};
use type_rules::rules::{K4, K5, K6};
use type_shapes::types::{copy_type, is_scalar};

#[tactic(auto, unfolding(type_rules::specs::Operators::is_assignable))]
fn is_assignable(p: &Part) -> bool
    ensures { result ≡ def.is_assignable p.now }
{
    match &p.node {
        None => is_place(p.form),
        Some(e) => is_place(p.form) & is_scalar(&e.ty),
    }
}

/// K6 at a value that doesn't fit.
#[tactic(auto, unfolding(type_rules::specs::Operators::stored))]
fn stored(
    alloc: Global,
    place: u32,
    to: Expr,
    form: Form,
    from: Expr,
    notes: &mut Notes,
) -> Result<Option<Expr>, NoMemory>
    ensures node { IfOk result (λ n. n ≡ (def.stored place to form from notes.old).node) }
    ensures notes { OnOk result (notes.new ≡ (def.stored place to form from notes.old).notes) }
{
    if !fits(alloc, form, &from.ty, &to.ty)? {
        notes.broken(K6, from.place)?;
        return Ok(None);
    }
    let ty = copy_type(alloc, &to.ty)?;
    let to = Boxed::new(alloc, to)?;
    let from = Boxed::new(alloc, from)?;
    let kind = ExprKind::Assign { to, from };
    Ok(Some(Expr { place, ty, kind }))
}

/// K5 at the left side unless it is a place of integer or pointer type; K6 at a value that doesn't fit it.
#[tactic(auto, unfolding(type_rules::specs::Operators::assign))]
pub fn assign(
    alloc: Global,
    place: u32,
    to: Part,
    from: Part,
    notes: &mut Notes,
) -> Result<Option<Expr>, NoMemory>
    ensures node { IfOk result (λ n. n ≡ (def.assign place to from notes.old).node) }
    ensures notes { OnOk result (notes.new ≡ (def.assign place to from notes.old).notes) }
{
    if !is_assignable(&to) {
        notes.broken(K5, to.place)?;
        return Ok(None);
    }
    let Part { form, node, .. } = from;
    match to.node {
        None => Ok(None),
        Some(left) => match node {
            None => Ok(None),
            Some(right) => stored(alloc, place, left, form, right, notes),
        },
    }
}

#[tactic(auto, unfolding(type_rules::specs::Operators::cast_node))]
fn cast_node(
    alloc: Global,
    place: u32,
    ty: Ty,
    form: Form,
    e: Expr,
    notes: &mut Notes,
) -> Result<Option<Expr>, NoMemory>
    ensures node { IfOk result (λ n. n ≡ (def.cast_node place ty form e notes.old).node) }
    ensures notes { OnOk result (notes.new ≡ (def.cast_node place ty form e notes.old).notes) }
{
    if !cast_fits(alloc, form, &e.ty, &ty)? {
        notes.broken(K6, e.place)?;
        return Ok(None);
    }
    let e = Boxed::new(alloc, e)?;
    let kind = ExprKind::Cast { e };
    Ok(Some(Expr { place, ty, kind }))
}

/// K6 at an operand that can't be cast so.
#[tactic(auto, unfolding(type_rules::specs::Operators::cast))]
pub fn cast(
    alloc: Global,
    place: u32,
    to: Option<Ty>,
    p: Part,
    notes: &mut Notes,
) -> Result<Option<Expr>, NoMemory>
    ensures node { IfOk result (λ n. n ≡ (def.cast place to p notes.old).node) }
    ensures notes { OnOk result (notes.new ≡ (def.cast place to p notes.old).notes) }
{
    let Part { form, node, .. } = p;
    match to {
        None => Ok(None),
        Some(ty) => match node {
            None => Ok(None),
            Some(e) => cast_node(alloc, place, ty, form, e, notes),
        },
    }
}

/// K4 at a condition that is no integer or pointer.
#[tactic(auto, unfolding(type_rules::specs::Operators::condition))]
pub fn condition(p: Part, notes: &mut Notes) -> Result<Option<Expr>, NoMemory>
    ensures node { IfOk result (λ n. n ≡ (def.condition p notes.old).node) }
    ensures notes { OnOk result (notes.new ≡ (def.condition p notes.old).notes) }
{
    match p.node {
        None => Ok(None),
        Some(e) => {
            if is_condition(&e.ty) {
                return Ok(Some(e));
            }
            notes.broken(K4, e.place)?;
            Ok(None)
        }
    }
}

fn cond_node(
    alloc: Global,
    place: u32,
    ty: Ty,
    on: Expr,
    yes: Expr,
    no: Expr,
) -> Result<Expr, NoMemory>
    ensures { IfOk result (λ n. n ≡ def.cond_node place ty on yes no) }
{
    let on = Boxed::new(alloc, on)?;
    let yes = Boxed::new(alloc, yes)?;
    let no = Boxed::new(alloc, no)?;
    let kind = ExprKind::Cond { on, yes, no };
    Ok(Expr { place, ty, kind })
}

/// A choice of what has a type and a condition.
fn chosen(
    alloc: Global,
    place: u32,
    ty: Option<Ty>,
    on: Option<Expr>,
    yes: Expr,
    no: Expr,
) -> Result<Option<Expr>, NoMemory>
    ensures { IfOk result (λ n. n ≡ def.chosen place ty on yes no) }
{
    match ty {
        None => Ok(None),
        Some(ty) => match on {
            None => Ok(None),
            Some(on) => {
                let node = cond_node(alloc, place, ty, on, yes, no)?;
                Ok(Some(node))
            }
        },
    }
}

/// K6 at the second branch unless the two go together.
#[tactic(auto, unfolding(type_rules::specs::Operators::branches))]
fn branches(
    alloc: Global,
    place: u32,
    on: Option<Expr>,
    form_a: Form,
    a: Expr,
    form_b: Form,
    b: Expr,
    notes: &mut Notes,
) -> Result<Option<Expr>, NoMemory>
    ensures node { IfOk result (λ n. n ≡ (def.branches place on form_a a form_b b notes.old).node) }
    ensures notes { OnOk result (notes.new ≡ (def.branches place on form_a a form_b b notes.old).notes) }
{
    let ty = joined(alloc, form_a, &a.ty, form_b, &b.ty)?;
    notes.unless(ty.is_some(), K6, b.place)?;
    chosen(alloc, place, ty, on, a, b)
}

/// `?:`.
#[tactic(auto, unfolding(type_rules::specs::Operators::choice))]
pub fn choice(
    alloc: Global,
    place: u32,
    on: Part,
    a: Part,
    b: Part,
    notes: &mut Notes,
) -> Result<Option<Expr>, NoMemory>
    ensures node { IfOk result (λ n. n ≡ (def.choice place on a b notes.old).node) }
    ensures notes { OnOk result (notes.new ≡ (def.choice place on a b notes.old).notes) }
{
    let c = condition(on, notes)?;
    let Part {
        form: form_a,
        node: node_a,
        ..
    } = a;
    let Part {
        form: form_b,
        node: node_b,
        ..
    } = b;
    match node_a {
        None => Ok(None),
        Some(x) => match node_b {
            None => Ok(None),
            Some(y) => branches(alloc, place, c, form_a, x, form_b, y, notes),
        },
    }
}

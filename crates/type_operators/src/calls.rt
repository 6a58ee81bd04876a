//! Calls and names.

ghost use Rattle.std.specs.Option.{option_copied};
ghost use Rattle.std.specs.Prelude.{◌≡◌, IfOk, OnOk};
ghost use Rattle.type_rules.specs.Operators as def;

use crate::fitting::fits;
use c_ast::typed::{Expr, ExprKind};
use c_ast::{Boxed, Items, Ty};
use cv_word::NoMemory;
use name_scopes::{Entry, Meaning};
use std::alloc::Global;
use type_rules::notes::Notes;
use type_rules::parts::{Form, Part};
use type_rules::rules::{K6, K7};
use type_shapes::types::{Signature, copy_type, signature_of};

#[tactic(auto, unfolding(type_rules::specs::Operators::signature_for))]
fn signature_for(
    alloc: Global,
    place: u32,
    count: usize,
    f: &Expr,
    notes: &mut Notes,
) -> Result<Option<Signature>, NoMemory>
    ensures signature { IfOk result (λ s. s ≡ (def.signature_for place count f.now notes.old).signature) }
    ensures notes { OnOk result (notes.new ≡ (def.signature_for place count f.now notes.old).notes) }
{
    match signature_of(alloc, &f.ty)? {
        None => {
            notes.broken(K7, f.place)?;
            Ok(None)
        }
        Some(s) => {
            if s.params.len() == count {
                return Ok(Some(s));
            }
            notes.broken(K7, place)?;
            Ok(None)
        }
    }
}

/// K7 at a callee that is no function, gate or pointer to a function, and at the call where the number of arguments
/// is another.
#[tactic(auto, unfolding(type_rules::specs::Operators::signature_at))]
pub fn signature_at(
    alloc: Global,
    place: u32,
    count: usize,
    f: &Part,
    notes: &mut Notes,
) -> Result<Option<Signature>, NoMemory>
    ensures signature { IfOk result (λ s. s ≡ (def.signature_at place count f.now notes.old).signature) }
    ensures notes { OnOk result (notes.new ≡ (def.signature_at place count f.now notes.old).notes) }
{
    match &f.node {
        None => Ok(None),
        Some(e) => signature_for(alloc, place, count, e, notes),
    }
}

/// K6 at an argument that doesn't fit its parameter.
#[tactic(auto, unfolding(type_rules::specs::Operators::fitted_part))]
fn fitted_part(alloc: Global, p: Part, ty: &Ty, notes: &mut Notes) -> Result<Option<Expr>, NoMemory>
    ensures node { IfOk result (λ n. n ≡ (def.fitted_part p ty.now notes.old).node) }
    ensures notes { OnOk result (notes.new ≡ (def.fitted_part p ty.now notes.old).notes) }
{
    let Part { form, node, .. } = p;
    match node {
        None => Ok(None),
        Some(e) => {
            if fits(alloc, form, &e.ty, ty)? {
                return Ok(Some(e));
            }
            notes.broken(K6, e.place)?;
            Ok(None)
        }
    }
}

/// The same where there may be no parameter.
#[tactic(auto, unfolding(type_rules::specs::Operators::fitted_at))]
pub fn fitted_at(
    alloc: Global,
    p: Part,
    ty: Option<&Ty>,
    notes: &mut Notes,
) -> Result<Option<Expr>, NoMemory>
    ensures node { IfOk result (λ n. n ≡ (def.fitted_at p (option_copied ty.entry) notes.old).node) }
    ensures notes { OnOk result (notes.new ≡ (def.fitted_at p (option_copied ty.entry) notes.old).notes) }
{
    match ty {
        None => Ok(None),
        Some(ty) => fitted_part(alloc, p, ty, notes),
    }
}

/// The node of a call.
pub fn call_of(
    alloc: Global,
    place: u32,
    f: Option<Expr>,
    s: Option<Signature>,
    whole: bool,
    nodes: Items<Expr>,
) -> Result<Option<Expr>, NoMemory>
    ensures { IfOk result (λ n. n ≡ def.call_of place f s whole nodes) }
{
    match f {
        None => Ok(None),
        Some(f) => match s {
            None => Ok(None),
            Some(s) => {
                if !whole {
                    return Ok(None);
                }
                let callee = Boxed::new(alloc, f)?;
                let kind = ExprKind::Call {
                    callee,
                    args: nodes,
                };
                let ty = s.ret;
                Ok(Some(Expr { place, ty, kind }))
            }
        },
    }
}

fn typed_name(
    alloc: Global,
    place: u32,
    ty: &Option<Ty>,
    kind: ExprKind,
) -> Result<Option<Expr>, NoMemory>
    ensures { IfOk result (λ n. n ≡ def.typed_name place ty.now kind) }
{
    match ty {
        None => Ok(None),
        Some(ty) => {
            let ty = copy_type(alloc, ty)?;
            Ok(Some(Expr { place, ty, kind }))
        }
    }
}

/// K7 at a gate's name that isn't called.
#[tactic(auto, unfolding(type_rules::specs::Operators::name_node))]
pub fn name_node(
    alloc: Global,
    place: u32,
    is_called: bool,
    entry: &Entry,
    notes: &mut Notes,
) -> Result<Option<Expr>, NoMemory>
    ensures node { IfOk result (λ n. n ≡ (def.name_node place is_called entry.now.ty entry.now.meaning notes.old).node) }
    ensures notes { OnOk result (notes.new ≡ (def.name_node place is_called entry.now.ty entry.now.meaning notes.old).notes) }
{
    match entry.meaning {
        Meaning::Local { number } => typed_name(
            alloc,
            place,
            &entry.ty,
            ExprKind::Local { number },
        ),
        Meaning::Global { number } => typed_name(
            alloc,
            place,
            &entry.ty,
            ExprKind::Global { number },
        ),
        Meaning::Function { number } => typed_name(
            alloc,
            place,
            &entry.ty,
            ExprKind::Func { number },
        ),
        Meaning::Gate { number } => {
            if is_called {
                return typed_name(alloc, place, &entry.ty, ExprKind::Stub { number });
            }
            notes.broken(K7, place)?;
            Ok(None)
        }
        Meaning::Structure { .. } => Ok(None),
        Meaning::Member { .. } => Ok(None),
    }
}

pub fn name_form(meaning: Meaning) -> Form
    ensures { result ≡ def.name_form meaning }
{
    match meaning {
        Meaning::Local { .. } => Form::Place,
        Meaning::Global { .. } => Form::Place,
        _ => Form::Value,
    }
}

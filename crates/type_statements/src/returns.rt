//! Statements that leave a function or a loop.

ghost use Rattle.std.specs.Prelude.{◌≡◌, true, IfOk, OnOk};
ghost use Rattle.type_rules.specs.Statements as def;

use c_ast::program::Expression;
use c_ast::typed::{Stmt, StmtKind};
use c_ast::{Boxed, Ty};
use cv_word::NoMemory;
use std::alloc::Global;
use type_expressions::type_of;
use type_operators::fits;
use type_rules::frames::Frame;
use type_rules::known::Known;
use type_rules::notes::Notes;
use type_rules::parts::Part;
use type_rules::rules::{K6, K8, K9};
use type_shapes::types::is_void;

/// K8: `return` without a value where the function gives one.
#[tactic(auto, unfolding(type_rules::specs::Statements::bare_return))]
fn bare_return(place: u32, ty: &Option<Ty>, notes: &mut Notes) -> Result<Option<Stmt>, NoMemory>
    ensures node { IfOk result (λ n. n ≡ (def.bare_return place ty.now notes.old).node) }
    ensures notes { OnOk result (notes.new ≡ (def.bare_return place ty.now notes.old).notes) }
{
    match ty {
        None => Ok(None),
        Some(ty) => {
            if is_void(ty) {
                let kind = StmtKind::Return { e: None };
                return Ok(Some(Stmt { place, kind }));
            }
            notes.broken(K8, place)?;
            Ok(None)
        }
    }
}

/// K6 at a value that doesn't fit the result.
#[tactic(auto, unfolding(type_rules::specs::Statements::fitting_return))]
fn fitting_return(
    alloc: Global,
    place: u32,
    ty: &Ty,
    p: Part,
    notes: &mut Notes,
) -> Result<Option<Stmt>, NoMemory>
    ensures node { IfOk result (λ n. n ≡ (def.fitting_return place ty.now p notes.old).node) }
    ensures notes { OnOk result (notes.new ≡ (def.fitting_return place ty.now p notes.old).notes) }
{
    let Part { form, node, .. } = p;
    match node {
        None => Ok(None),
        Some(e) => {
            if !fits(alloc, form, &e.ty, ty)? {
                notes.broken(K6, e.place)?;
                return Ok(None);
            }
            let e = Some(Boxed::new(alloc, e)?);
            let kind = StmtKind::Return { e };
            Ok(Some(Stmt { place, kind }))
        }
    }
}

/// K8: `return` with a value in a void function.
#[tactic(auto, unfolding(type_rules::specs::Statements::return_of))]
fn return_of(
    alloc: Global,
    place: u32,
    ty: &Option<Ty>,
    p: Part,
    notes: &mut Notes,
) -> Result<Option<Stmt>, NoMemory>
    ensures node { IfOk result (λ n. n ≡ (def.return_of place ty.now p notes.old).node) }
    ensures notes { OnOk result (notes.new ≡ (def.return_of place ty.now p notes.old).notes) }
{
    match ty {
        None => Ok(None),
        Some(ty) => {
            if is_void(ty) {
                notes.broken(K8, place)?;
                return Ok(None);
            }
            fitting_return(alloc, place, ty, p, notes)
        }
    }
}

/// `return`.
pub fn return_stated(
    alloc: Global,
    place: u32,
    value: &Option<Boxed<Expression>>,
    frame: &Frame,
    known: &Known,
    notes: &mut Notes,
) -> Result<Option<Stmt>, NoMemory>
    ensures node { IfOk result (λ n. n ≡ (def.return_stated value.now place frame.now true known.now notes.old).node) }
    ensures notes { OnOk result (notes.new ≡ (def.return_stated value.now place frame.now true known.now notes.old).notes) }
{
    match value {
        None => bare_return(place, &frame.result, notes),
        Some(e) => {
            let p = type_of(alloc, e.get(), false, known, notes)?;
            return_of(alloc, place, &frame.result, p, notes)
        }
    }
}

/// K9: `break` or `continue` outside a loop.
pub fn leave(
    place: u32,
    in_loop: bool,
    kind: StmtKind,
    notes: &mut Notes,
) -> Result<Option<Stmt>, NoMemory>
    ensures node { IfOk result (λ n. n ≡ (def.leave place in_loop kind notes.old).node) }
    ensures notes { OnOk result (notes.new ≡ (def.leave place in_loop kind notes.old).notes) }
{
    if in_loop {
        return Ok(Some(Stmt { place, kind }));
    }
    notes.broken(K9, place)?;
    Ok(None)
}

//! Operators before an operand.

ghost use Rattle.std.specs.Prelude.{◌≡◌, IfOk, OnOk};
ghost use Rattle.type_rules.specs.Operators as def;
ghost use Rattle.type_shapes.specs.Types as types;

use crate::fitting::{is_condition, is_place};
use c_ast::typed::{Expr, ExprKind, UnaryOp};
use c_ast::{Boxed, Ty};
use cv_word::NoMemory;
use std::alloc::Global;
use type_rules::notes::Notes;
use type_rules::parts::Part;
use type_rules::rules::{K4, K5, K10};
use type_shapes::types::{
    copy_type, is_array, is_integer, long, object_behind, pointer_to, value_type,
};

/// K4 unless the operand is an integer.
#[tactic(auto, unfolding(type_rules::specs::Operators::computed))]
pub fn computed(
    alloc: Global,
    place: u32,
    op: UnaryOp,
    e: Expr,
    notes: &mut Notes,
) -> Result<Option<Expr>, NoMemory>
    ensures node { IfOk result (λ n. n ≡ (def.computed place op e notes.old).node) }
    ensures notes { OnOk result (notes.new ≡ (def.computed place op e notes.old).notes) }
{
    if is_integer(&e.ty) {
        let e = Boxed::new(alloc, e)?;
        let kind = ExprKind::Unary { op, e };
        let ty = long();
        return Ok(Some(Expr { place, ty, kind }));
    }
    notes.broken(K4, e.place)?;
    Ok(None)
}

/// K4 unless it is an integer or a pointer.
#[tactic(auto, unfolding(type_rules::specs::Operators::tested))]
pub fn tested(
    alloc: Global,
    place: u32,
    e: Expr,
    notes: &mut Notes,
) -> Result<Option<Expr>, NoMemory>
    ensures node { IfOk result (λ n. n ≡ (def.tested place e notes.old).node) }
    ensures notes { OnOk result (notes.new ≡ (def.tested place e notes.old).notes) }
{
    if is_condition(&e.ty) {
        let e = Boxed::new(alloc, e)?;
        let op = UnaryOp::IsZero;
        let kind = ExprKind::Unary { op, e };
        let ty = long();
        return Ok(Some(Expr { place, ty, kind }));
    }
    notes.broken(K4, e.place)?;
    Ok(None)
}

/// What an array or a pointer to an object leads to, as a copy.
pub fn object_copy(alloc: Global, ty: &Ty) -> Result<Option<Ty>, NoMemory>
    ensures { IfOk result (λ t. t ≡ types.object_behind ty.now) }
{
    match object_behind(ty) {
        None => Ok(None),
        Some(object) => {
            let object = copy_type(alloc, object)?;
            Ok(Some(object))
        }
    }
}

/// K10 at the whole unless it is an array or a pointer to an object.
#[tactic(auto, unfolding(type_rules::specs::Operators::followed))]
pub fn followed(
    alloc: Global,
    place: u32,
    e: Expr,
    notes: &mut Notes,
) -> Result<Option<Expr>, NoMemory>
    ensures node { IfOk result (λ n. n ≡ (def.followed place e notes.old).node) }
    ensures notes { OnOk result (notes.new ≡ (def.followed place e notes.old).notes) }
{
    match object_copy(alloc, &e.ty)? {
        None => {
            notes.broken(K10, place)?;
            Ok(None)
        }
        Some(ty) => {
            let e = Boxed::new(alloc, e)?;
            let kind = ExprKind::Deref { e };
            Ok(Some(Expr { place, ty, kind }))
        }
    }
}

#[tactic(auto, unfolding(type_rules::specs::Operators::address_type))]
fn address_type(alloc: Global, ty: &Ty) -> Result<Ty, NoMemory>
    ensures { IfOk result (λ t. t ≡ def.address_type ty.now) }
{
    if is_array(ty) {
        return Ok(value_type(alloc, ty)?);
    }
    Ok(pointer_to(alloc, ty)?)
}

fn addressed(alloc: Global, place: u32, e: Expr) -> Result<Expr, NoMemory>
    ensures { IfOk result (λ n. n ≡ def.addressed place e) }
{
    let ty = address_type(alloc, &e.ty)?;
    let e = Boxed::new(alloc, e)?;
    let kind = ExprKind::Addr { e };
    Ok(Expr { place, ty, kind })
}

/// K5 at the operand unless it is a place.
#[tactic(auto, unfolding(type_rules::specs::Operators::address))]
pub fn address(
    alloc: Global,
    place: u32,
    p: Part,
    notes: &mut Notes,
) -> Result<Option<Expr>, NoMemory>
    ensures node { IfOk result (λ n. n ≡ (def.address place p notes.old).node) }
    ensures notes { OnOk result (notes.new ≡ (def.address place p notes.old).notes) }
{
    if !is_place(p.form) {
        notes.broken(K5, p.place)?;
        return Ok(None);
    }
    match p.node {
        None => Ok(None),
        Some(e) => {
            let node = addressed(alloc, place, e)?;
            Ok(Some(node))
        }
    }
}

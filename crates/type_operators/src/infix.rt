//! Operators between two operands.

ghost use Rattle.std.specs.Prelude.{◌≡◌, IfOk, OnOk};
ghost use Rattle.type_rules.specs.Operators as def;

use crate::fitting::{is_condition, is_zero};
use c_ast::program::InfixOp;
use c_ast::typed::{BinaryOp, Expr, ExprKind, LogicOp};
use c_ast::{Boxed, Ty};
use cv_word::NoMemory;
use std::alloc::Global;
use type_rules::notes::Notes;
use type_rules::operators::{Operator, Sort};
use type_rules::parts::{Form, Part};
use type_rules::rules::K4;
use type_shapes::types::{is_integer, is_pointer, long, object_behind, same_type, value_type};

#[tactic(auto, unfolding(type_rules::specs::Operators::compare_pointers))]
fn compare_pointers(form_a: Form, a: &Ty, form_b: Form, b: &Ty) -> bool
    ensures { result ≡ def.compare_pointers form_a a.now form_b b.now }
{
    let shapes = is_pointer(a) & is_pointer(b) & same_type(a, b, false);
    shapes | (is_pointer(a) & is_zero(form_b)) | (is_zero(form_a) & is_pointer(b))
}

#[tactic(auto, unfolding(type_rules::specs::Operators::are_integers))]
fn are_integers(a: &Ty, b: &Ty) -> bool
    ensures { result ≡ def.are_integers a.now b.now }
{
    is_integer(a) & is_integer(b)
}

#[tactic(auto, unfolding(type_rules::specs::Operators::can_step))]
fn can_step(ty: &Ty) -> bool
    ensures { result ≡ def.can_step ty.now }
{
    object_behind(ty).is_some()
}

#[tactic(auto, unfolding(type_rules::specs::Operators::difference))]
fn difference(alloc: Global, a: &Ty, b: &Ty) -> Result<Option<Ty>, NoMemory>
    ensures { IfOk result (λ t. t ≡ def.difference a.now b.now) }
{
    if are_integers(a, b) {
        return Ok(Some(long()));
    }
    if can_step(a) & is_integer(b) {
        return Ok(Some(value_type(alloc, a)?));
    }
    Ok(None)
}

#[tactic(auto, unfolding(type_rules::specs::Operators::sum_type))]
fn sum_type(alloc: Global, a: &Ty, b: &Ty) -> Result<Option<Ty>, NoMemory>
    ensures { IfOk result (λ t. t ≡ def.sum_type a.now b.now) }
{
    if are_integers(a, b) {
        return Ok(Some(long()));
    }
    if can_step(a) & is_integer(b) {
        return Ok(Some(value_type(alloc, a)?));
    }
    if is_integer(a) & can_step(b) {
        return Ok(Some(value_type(alloc, b)?));
    }
    Ok(None)
}

#[tactic(auto, unfolding(type_rules::specs::Operators::decision))]
fn decision(a: &Ty, b: &Ty) -> Option<Ty>
    ensures { result ≡ def.decision a.now b.now }
{
    if is_condition(a) & is_condition(b) {
        return Some(long());
    }
    None
}

#[tactic(auto, unfolding(type_rules::specs::Operators::comparison))]
fn comparison(
    alloc: Global,
    form_a: Form,
    a: &Ty,
    form_b: Form,
    b: &Ty,
) -> Result<Option<Ty>, NoMemory>
    ensures { IfOk result (λ t. t ≡ def.comparison form_a a.now form_b b.now) }
{
    let value_a = value_type(alloc, a)?;
    let value_b = value_type(alloc, b)?;
    if are_integers(a, b) | compare_pointers(form_a, &value_a, form_b, &value_b) {
        return Ok(Some(long()));
    }
    Ok(None)
}

#[tactic(auto, unfolding(type_rules::specs::Operators::arithmetic))]
fn arithmetic(a: &Ty, b: &Ty) -> Option<Ty>
    ensures { result ≡ def.arithmetic a.now b.now }
{
    if are_integers(a, b) {
        return Some(long());
    }
    None
}

fn sort_of(op: InfixOp) -> Sort
    ensures { result ≡ def.sort_of op }
{
    match op {
        InfixOp::Either => Sort::Decides,
        InfixOp::Both => Sort::Decides,
        InfixOp::Equal => Sort::Compares,
        InfixOp::NotEqual => Sort::Compares,
        InfixOp::Less => Sort::Compares,
        InfixOp::LessEqual => Sort::Compares,
        InfixOp::Greater => Sort::Compares,
        InfixOp::GreaterEqual => Sort::Compares,
        InfixOp::Add => Sort::Sums,
        InfixOp::Subtract => Sort::Subtracts,
        _ => Sort::Computes,
    }
}

/// The type that two operands give, if they may stand so.
#[tactic(auto, unfolding(type_rules::specs::Operators::infix_type))]
fn infix_type(
    alloc: Global,
    sort: Sort,
    form_a: Form,
    a: &Ty,
    form_b: Form,
    b: &Ty,
) -> Result<Option<Ty>, NoMemory>
    ensures { IfOk result (λ t. t ≡ def.infix_type sort form_a a.now form_b b.now) }
{
    match sort {
        Sort::Decides => Ok(decision(a, b)),
        Sort::Compares => comparison(alloc, form_a, a, form_b, b),
        Sort::Sums => sum_type(alloc, a, b),
        Sort::Subtracts => difference(alloc, a, b),
        Sort::Computes => Ok(arithmetic(a, b)),
    }
}

#[tactic(auto, unfolding(type_rules::specs::Operators::is_right))]
fn is_right(sort: Sort, ty: &Ty) -> bool
    ensures { result ≡ def.is_right sort ty.now }
{
    match sort {
        Sort::Decides => is_condition(ty),
        _ => is_integer(ty),
    }
}

#[tactic(auto, unfolding(type_rules::specs::Operators::can_be_right))]
fn can_be_right(sort: Sort, ty: &Ty) -> bool
    ensures { result ≡ def.can_be_right sort ty.now }
{
    match sort {
        Sort::Decides => is_condition(ty),
        Sort::Compares => is_condition(ty),
        Sort::Sums => is_integer(ty) | can_step(ty),
        Sort::Subtracts => is_integer(ty) | can_step(ty),
        Sort::Computes => is_integer(ty),
    }
}

fn operator_of(op: InfixOp) -> Operator
    ensures { result ≡ def.operator_of op }
{
    match op {
        InfixOp::Either => Operator::Logic(LogicOp::Either),
        InfixOp::Both => Operator::Logic(LogicOp::Both),
        InfixOp::BitOr => Operator::Binary(BinaryOp::Or),
        InfixOp::BitXor => Operator::Binary(BinaryOp::Xor),
        InfixOp::BitAnd => Operator::Binary(BinaryOp::And),
        InfixOp::Equal => Operator::Binary(BinaryOp::Eq),
        InfixOp::NotEqual => Operator::Binary(BinaryOp::Ne),
        InfixOp::Less => Operator::Binary(BinaryOp::Less),
        InfixOp::LessEqual => Operator::Binary(BinaryOp::LessEq),
        InfixOp::Greater => Operator::Binary(BinaryOp::Greater),
        InfixOp::GreaterEqual => Operator::Binary(BinaryOp::GreaterEq),
        InfixOp::ShiftLeft => Operator::Binary(BinaryOp::Shl),
        InfixOp::ShiftRight => Operator::Binary(BinaryOp::Shr),
        InfixOp::Add => Operator::Binary(BinaryOp::Add),
        InfixOp::Subtract => Operator::Binary(BinaryOp::Sub),
        InfixOp::Multiply => Operator::Binary(BinaryOp::Mul),
        InfixOp::Divide => Operator::Binary(BinaryOp::Div),
        InfixOp::Remainder => Operator::Binary(BinaryOp::Rem),
    }
}

fn infix_kind(alloc: Global, op: Operator, a: Expr, b: Expr) -> Result<ExprKind, NoMemory>
    ensures { IfOk result (λ k. k ≡ def.infix_kind op a b) }
{
    let a = Boxed::new(alloc, a)?;
    let b = Boxed::new(alloc, b)?;
    match op {
        Operator::Logic(op) => Ok(ExprKind::Logic { op, a, b }),
        Operator::Binary(op) => Ok(ExprKind::Binary { op, a, b }),
    }
}

#[tactic(auto, unfolding(type_rules::specs::Operators::wrong_operand))]
fn wrong_operand(sort: Sort, a: &Expr, b: &Expr) -> u32
    ensures { result ≡ def.wrong_operand sort a.now b.now }
{
    if is_right(sort, &a.ty) {
        b.place
    } else {
        a.place
    }
}

/// K4 at the first operand that isn't right by itself.
#[tactic(auto, unfolding(type_rules::specs::Operators::infix_node))]
fn infix_node(
    alloc: Global,
    place: u32,
    op: InfixOp,
    form_a: Form,
    a: Expr,
    form_b: Form,
    b: Expr,
    notes: &mut Notes,
) -> Result<Option<Expr>, NoMemory>
    ensures node { IfOk result (λ n. n ≡ (def.infix_node place op form_a a form_b b notes.old).node) }
    ensures notes { OnOk result (notes.new ≡ (def.infix_node place op form_a a form_b b notes.old).notes) }
{
    let sort = sort_of(op);
    match infix_type(alloc, sort, form_a, &a.ty, form_b, &b.ty)? {
        None => {
            let at = wrong_operand(sort, &a, &b);
            notes.broken(K4, at)?;
            Ok(None)
        }
        Some(ty) => {
            let kind = infix_kind(alloc, operator_of(op), a, b)?;
            Ok(Some(Expr { place, ty, kind }))
        }
    }
}

/// One operand has no type: K4 at the other where it could stand beside none.
#[tactic(auto, unfolding(type_rules::specs::Operators::lone_operand))]
fn lone_operand(op: InfixOp, e: Option<Expr>, notes: &mut Notes) -> Result<Option<Expr>, NoMemory>
    ensures node { IfOk result (λ n. n ≡ (def.lone_operand op e notes.old).node) }
    ensures notes { OnOk result (notes.new ≡ (def.lone_operand op e notes.old).notes) }
{
    if let Some(e) = e {
        notes.unless(can_be_right(sort_of(op), &e.ty), K4, e.place)?;
    }
    Ok(None)
}

/// An operator between two operands.
#[tactic(auto, unfolding(type_rules::specs::Operators::between))]
pub fn between(
    alloc: Global,
    place: u32,
    op: InfixOp,
    a: Part,
    b: Part,
    notes: &mut Notes,
) -> Result<Option<Expr>, NoMemory>
    ensures node { IfOk result (λ n. n ≡ (def.between place op a b notes.old).node) }
    ensures notes { OnOk result (notes.new ≡ (def.between place op a b notes.old).notes) }
{
    let Part {
        form: form_a,
        node: node_a,
        ..
    } = a;
    let Part {
        form: form_b,
        node: node_b,
        ..
    } = b;
    match node_a {
        None => lone_operand(op, node_b, notes),
        Some(x) => match node_b {
            None => lone_operand(op, Some(x), notes),
            Some(y) => infix_node(alloc, place, op, form_a, x, form_b, y, notes),
        },
    }
}

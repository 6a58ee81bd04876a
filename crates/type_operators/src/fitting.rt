//! What values fit, and what a condition is.

ghost use Rattle.name_scopes.specs.Scopes.{or_else};
ghost use Rattle.std.specs.Prelude.{◌≡◌, IfOk};
ghost use Rattle.type_rules.specs.Operators as def;
ghost use Rattle.type_shapes.specs.Types as types;

use c_ast::Ty;
use cv_word::NoMemory;
use std::alloc::Global;
use type_rules::parts::Form;
use type_shapes::types::{
    is_array, is_integer, is_pointer, is_scalar, long, passed_type, same_type, value_type,
};

pub fn is_zero(form: Form) -> bool
    ensures { result ≡ def.is_zero form }
{
    matches!(form, Form::Zero)
}

pub fn is_place(form: Form) -> bool
    ensures { result ≡ def.is_place form }
{
    matches!(form, Form::Place)
}

/// An integer fits an integer, 0 any pointer, and a pointer or a function's name a pointer of its shape.
#[tactic(auto, unfolding(type_rules::specs::Operators::fits))]
pub fn fits(alloc: Global, form: Form, from: &Ty, to: &Ty) -> Result<bool, NoMemory>
    ensures { IfOk result (λ b. b ≡ def.fits form from.now to.now) }
{
    let passed = passed_type(alloc, from)?;
    let integers = is_integer(from) & is_integer(to);
    let zero = is_zero(form) & is_pointer(to);
    let pointers = is_pointer(&passed) & same_type(&passed, to, false);
    Ok(integers | zero | pointers)
}

#[tactic(auto, unfolding(type_rules::specs::Operators::cast_fits))]
pub fn cast_fits(alloc: Global, form: Form, from: &Ty, to: &Ty) -> Result<bool, NoMemory>
    ensures { IfOk result (λ b. b ≡ def.cast_fits form from.now to.now) }
{
    let fit = fits(alloc, form, from, to)?;
    let scalar = is_condition(from) & is_scalar(to);
    Ok(scalar | fit)
}

/// A condition is an integer or a pointer, which an array gives too.
#[tactic(auto, unfolding(type_rules::specs::Operators::is_condition))]
pub fn is_condition(ty: &Ty) -> bool
    ensures { result ≡ def.is_condition ty.now }
{
    is_scalar(ty) | is_array(ty)
}

/// A pointer's type, if a value fits it.
#[tactic(auto, unfolding(type_rules::specs::Operators::fitted_pointer))]
fn fitted_pointer(alloc: Global, form: Form, from: &Ty, to: Ty) -> Result<Option<Ty>, NoMemory>
    ensures { IfOk result (λ t. t ≡ def.fitted_pointer form from.now to) }
{
    let fit = fits(alloc, form, from, &to)?;
    if is_pointer(&to) & fit {
        return Ok(Some(to));
    }
    Ok(None)
}

/// The type of `?:` between pointers, if they go together.
fn joined_pointers(
    alloc: Global,
    form_a: Form,
    a: &Ty,
    form_b: Form,
    b: &Ty,
) -> Result<Option<Ty>, NoMemory>
    ensures { IfOk result (λ t. t ≡ or_else (def.fitted_pointer form_b b.now (types.value_type a.now)) (def.fitted_pointer form_a a.now (types.value_type b.now))) }
{
    let value_a = value_type(alloc, a)?;
    match fitted_pointer(alloc, form_b, b, value_a)? {
        Some(ty) => Ok(Some(ty)),
        None => {
            let value_b = value_type(alloc, b)?;
            fitted_pointer(alloc, form_a, a, value_b)
        }
    }
}

/// The type of `?:`, if its branches go together.
#[tactic(auto, unfolding(type_rules::specs::Operators::joined))]
pub fn joined(
    alloc: Global,
    form_a: Form,
    a: &Ty,
    form_b: Form,
    b: &Ty,
) -> Result<Option<Ty>, NoMemory>
    ensures { IfOk result (λ t. t ≡ def.joined form_a a.now form_b b.now) }
{
    if is_integer(a) & is_integer(b) {
        return Ok(Some(long()));
    }
    joined_pointers(alloc, form_a, a, form_b, b)
}

//! What functions are declared as.

ghost use Rattle.std.specs.Prelude.{◌≡◌, IfOk, OnOk};
ghost use Rattle.type_rules.specs.Declarations as def;

use crate::locals::push_local;
use c_ast::program::{Header, Parameter};
use c_ast::typed::Local;
use c_ast::{Boxed, Items, Ty};
use cv_word::NoMemory;
use name_scopes::{Meaning, Scope};
use std::alloc::Global;
use type_rules::declarations::HeaderType;
use type_rules::known::Known;
use type_rules::notes::{Notes, count};
use type_rules::rules::K1;
use type_rules::written::{Unwritten, as_parameter, declarator_type, result_type};
use type_shapes::types::{copy_option, copy_type};

/// K1 at a parameter's name that another has.
#[tactic(auto, unfolding(type_rules::specs::Declarations::declare_parameter))]
fn declare_parameter(
    alloc: Global,
    known: &Known,
    p: &Parameter,
    scope: &mut Scope,
    typed: &mut Items<Local>,
    notes: &mut Notes,
) -> Result<(), NoMemory>
    ensures scope { OnOk result (scope.new ≡ (def.declare_parameter known.now (record { scope = scope.old; typed = typed.old; notes = notes.old }) p.now).scope) }
    ensures typed { OnOk result (typed.new ≡ (def.declare_parameter known.now (record { scope = scope.old; typed = typed.old; notes = notes.old }) p.now).typed) }
    ensures notes { OnOk result (notes.new ≡ (def.declare_parameter known.now (record { scope = scope.old; typed = typed.old; notes = notes.old }) p.now).notes) }
{
    let d = &p.declarator;
    let ty = match declarator_type(alloc, known, Unwritten::Public, p.specifier, d, notes)? {
        None => None,
        Some(ty) => as_parameter(known, d.place, ty, notes)?,
    };
    let twice = scope.declares(d.name);
    notes.broken_if(twice, K1, d.place)?;
    let number = count(scope.len())?;
    let copy = copy_option(alloc, &ty)?;
    scope.declare(d.name, Meaning::Local { number }, copy)?;
    push_local(typed, d.name, d.place, ty)
}

fn declare_parameters(
    alloc: Global,
    known: &Known,
    all: &[Parameter],
    scope: &mut Scope,
    typed: &mut Items<Local>,
    notes: &mut Notes,
) -> Result<(), NoMemory>
    ensures scope { OnOk result (scope.new ≡ (def.declare_parameters known.now (record { scope = scope.old; typed = typed.old; notes = notes.old }) all.now).scope) }
    ensures typed { OnOk result (typed.new ≡ (def.declare_parameters known.now (record { scope = scope.old; typed = typed.old; notes = notes.old }) all.now).typed) }
    ensures notes { OnOk result (notes.new ≡ (def.declare_parameters known.now (record { scope = scope.old; typed = typed.old; notes = notes.old }) all.now).notes) }
{
    for p in all {
        declare_parameter(alloc, known, p, scope, typed, notes)?;
    }
    Ok(())
}

/// What a function is declared as.
#[tactic(auto, unfolding(type_rules::specs::Declarations::header_type))]
pub fn header_type(
    alloc: Global,
    known: &Known,
    h: &Header,
    notes: &mut Notes,
) -> Result<HeaderType, NoMemory>
    ensures header { IfOk result (λ t. t ≡ (def.header_type known.now h.now notes.old).header) }
    ensures notes { OnOk result (notes.new ≡ (def.header_type known.now h.now notes.old).notes) }
{
    let ret = result_type(
        alloc,
        known,
        h.place,
        h.specifier,
        h.stars.as_slice(),
        notes,
    )?;
    let mut scope = Scope::new(alloc);
    let mut typed = Items::new(alloc);
    declare_parameters(
        alloc,
        known,
        h.parameters.as_slice(),
        &mut scope,
        &mut typed,
        notes,
    )?;
    Ok(HeaderType { ret, scope, typed })
}

fn types_of(alloc: Global, locals: &[Local]) -> Result<Items<Ty>, NoMemory>
    ensures { IfOk result (λ t. t ≡ def.types_of locals.now) }
{
    let mut types = Items::new(alloc);
    for local in locals {
        types.push(copy_type(alloc, &local.ty)?)?;
    }
    Ok(types)
}

/// The function's type where no rule is broken in its header.
#[tactic(auto, unfolding(type_rules::specs::Declarations::function_of))]
pub fn function_of(alloc: Global, t: &HeaderType) -> Result<Option<Ty>, NoMemory>
    ensures { IfOk result (λ f. f ≡ def.function_of t.now) }
{
    match &t.ret {
        None => Ok(None),
        Some(ret) => {
            if t.typed.len() != t.scope.len() {
                return Ok(None);
            }
            let params = types_of(alloc, t.typed.as_slice())?;
            let ret = Boxed::new(alloc, copy_type(alloc, ret)?)?;
            Ok(Some(Ty::Fun { ret, params }))
        }
    }
}

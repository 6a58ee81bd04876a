//! Locals: their declarations and initialisers.

ghost use Rattle.std.specs.Prelude.{◌≡◌, IfOk, OnOk};
ghost use Rattle.type_rules.specs.Statements as def;

use c_ast::program::{Declaration, Expression, Initialised, Specifier};
use c_ast::typed::{Expr, ExprKind, Stmt, StmtKind};
use c_ast::{Boxed, Items, Ty};
use cv_word::NoMemory;
use name_scopes::Meaning;
use std::alloc::Global;
use type_expressions::type_of;
use type_operators::fits;
use type_rules::frames::Frame;
use type_rules::known::Known;
use type_rules::notes::{Notes, count, counted};
use type_rules::parts::Part;
use type_rules::rules::{K1, K6, K12};
use type_rules::written::{Unwritten, object_type};
use type_shapes::types::{copy_option, copy_type, is_scalar};

/// The node of an initialiser: an assignment to the local, both at its name.
fn initialiser(alloc: Global, place: u32, number: u32, ty: &Ty, e: Expr) -> Result<Expr, NoMemory>
    ensures { IfOk result (λ n. n ≡ def.initialiser place number ty.now e) }
{
    let name = Expr {
        place,
        ty: copy_type(alloc, ty)?,
        kind: ExprKind::Local { number },
    };
    let to = Boxed::new(alloc, name)?;
    let from = Boxed::new(alloc, e)?;
    let kind = ExprKind::Assign { to, from };
    let ty = copy_type(alloc, ty)?;
    Ok(Expr { place, ty, kind })
}

/// K6 at a value that doesn't fit.
#[tactic(auto, unfolding(type_rules::specs::Statements::fitting_start))]
fn fitting_start(
    alloc: Global,
    place: u32,
    local: u32,
    number: u32,
    ty: &Ty,
    p: Part,
    notes: &mut Notes,
) -> Result<Option<Stmt>, NoMemory>
    ensures node { IfOk result (λ n. n ≡ (def.fitting_start place local number ty.now p notes.old).node) }
    ensures notes { OnOk result (notes.new ≡ (def.fitting_start place local number ty.now p notes.old).notes) }
{
    let Part { form, node, .. } = p;
    match node {
        None => Ok(None),
        Some(e) => {
            if !fits(alloc, form, &e.ty, ty)? {
                notes.broken(K6, e.place)?;
                return Ok(None);
            }
            let e = initialiser(alloc, place, number, ty, e)?;
            let start = Some(Boxed::new(alloc, e)?);
            let kind = StmtKind::Declare { local, start };
            Ok(Some(Stmt { place, kind }))
        }
    }
}

/// K12 at the name of an array or a struct.
#[tactic(auto, unfolding(type_rules::specs::Statements::started))]
fn started(
    alloc: Global,
    place: u32,
    local: u32,
    number: u32,
    ty: &Option<Ty>,
    p: Part,
    notes: &mut Notes,
) -> Result<Option<Stmt>, NoMemory>
    ensures node { IfOk result (λ n. n ≡ (def.started place local number ty.now p notes.old).node) }
    ensures notes { OnOk result (notes.new ≡ (def.started place local number ty.now p notes.old).notes) }
{
    match ty {
        None => Ok(None),
        Some(ty) => {
            if is_scalar(ty) {
                return fitting_start(alloc, place, local, number, ty, p, notes);
            }
            notes.broken(K12, place)?;
            Ok(None)
        }
    }
}

/// A local without a type has no node.
fn unstarted(place: u32, local: u32, ty: &Option<Ty>) -> Option<Stmt>
    ensures { result ≡ def.unstarted place local ty.now }
{
    match ty {
        None => None,
        Some(_) => {
            let kind = StmtKind::Declare { local, start: None };
            Some(Stmt { place, kind })
        }
    }
}

#[tactic(auto, unfolding(type_rules::specs::Statements::start_of_local))]
fn start_of_local(
    alloc: Global,
    place: u32,
    local: u32,
    number: u32,
    ty: &Option<Ty>,
    start: &Option<Boxed<Expression>>,
    known: &Known,
    notes: &mut Notes,
) -> Result<Option<Stmt>, NoMemory>
    ensures node { IfOk result (λ n. n ≡ (def.start_of_local place local number ty.now start.now known.now notes.old).node) }
    ensures notes { OnOk result (notes.new ≡ (def.start_of_local place local number ty.now start.now known.now notes.old).notes) }
{
    match start {
        None => Ok(unstarted(place, local, ty)),
        Some(e) => {
            let p = type_of(alloc, e.get(), false, known, notes)?;
            started(alloc, place, local, number, ty, p, notes)
        }
    }
}

pub fn push_item(items: &mut Items<Stmt>, node: Option<Stmt>) -> Result<(), NoMemory>
    ensures { OnOk result (items.new ≡ def.with_item node items.old) }
{
    if let Some(s) = node {
        items.push(s)?;
    }
    Ok(())
}

/// K1 at a name that the scope has already; the name is known from its declarator on, and so in its initialiser.
#[tactic(auto, unfolding(type_rules::specs::Statements::declare_local))]
fn declare_local(
    alloc: Global,
    frame: &Frame,
    start: usize,
    specifier: Specifier,
    i: &Initialised,
    known: &mut Known,
    items: &mut Items<Stmt>,
    notes: &mut Notes,
) -> Result<(), NoMemory>
    ensures known { OnOk result (known.new ≡ (def.declare_local frame.now start specifier (record { known = known.old; items = items.old; notes = notes.old }) i.now).known) }
    ensures items { OnOk result (items.new ≡ (def.declare_local frame.now start specifier (record { known = known.old; items = items.old; notes = notes.old }) i.now).items) }
    ensures notes { OnOk result (notes.new ≡ (def.declare_local frame.now start specifier (record { known = known.old; items = items.old; notes = notes.old }) i.now).notes) }
{
    let d = &i.declarator;
    let ty = object_type(alloc, known, Unwritten::Variable, specifier, d, notes)?;
    let twice = known.scope.declares_since(start, d.name);
    notes.broken_if(twice, K1, d.place)?;
    let local = count(notes.locals.len())?;
    let number = counted(frame.parameters, local)?;
    let entry = copy_option(alloc, &ty)?;
    known
        .scope
        .declare(d.name, Meaning::Local { number }, entry)?;
    let copy = copy_option(alloc, &ty)?;
    notes.with_local(d.name, d.place, copy)?;
    let node = start_of_local(alloc, d.place, local, number, &ty, &i.start, known, notes)?;
    push_item(items, node)
}

pub fn declare_locals(
    alloc: Global,
    frame: &Frame,
    start: usize,
    d: &Declaration,
    known: &mut Known,
    items: &mut Items<Stmt>,
    notes: &mut Notes,
) -> Result<(), NoMemory>
    ensures known { OnOk result (known.new ≡ (def.declare_locals frame.now start d.now (record { known = known.old; items = items.old; notes = notes.old })).known) }
    ensures items { OnOk result (items.new ≡ (def.declare_locals frame.now start d.now (record { known = known.old; items = items.old; notes = notes.old })).items) }
    ensures notes { OnOk result (notes.new ≡ (def.declare_locals frame.now start d.now (record { known = known.old; items = items.old; notes = notes.old })).notes) }
{
    for i in d.declarators.as_slice() {
        declare_local(alloc, frame, start, d.specifier, i, known, items, notes)?;
    }
    Ok(())
}

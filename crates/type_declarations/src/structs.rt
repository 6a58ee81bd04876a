//! Structs: their members, and what they take.

ghost use Rattle.std.specs.Prelude.{◌≡◌, IfOk, OnOk};
ghost use Rattle.type_rules.specs.Declarations as def;

use crate::locals::push_local;
use c_ast::program::{Declarator, MemberDeclaration, Shape, Specifier, Star, StructDefinition};
use c_ast::typed::{Local, StructDef};
use c_ast::{Items, Ty};
use cv_word::NoMemory;
use name_scopes::{Meaning, Scope};
use std::alloc::Global;
use type_rules::known::Known;
use type_rules::notes::{Notes, count};
use type_rules::rules::{K1, K3, K13};
use type_rules::written::{Unwritten, object_type};
use type_shapes::Extent;
use type_shapes::sizes::{GREATEST_SIZE, closed, nothing, with_member};
use type_shapes::types::copy_option;

fn is_last_private(base: bool, stars: &[Star]) -> bool
    ensures { result ≡ def.is_last_private base stars.now }
{
    let mut is_private = base;
    for star in stars {
        is_private = star.is_private;
    }
    is_private
}

fn is_outermost_private(plain: bool, shape: &Shape) -> bool
    ensures { result ≡ def.is_outermost_private plain shape.now }
{
    match shape {
        Shape::FunctionPointer { is_private, .. } => *is_private,
        _ => plain,
    }
}

fn is_private_member(specifier: Specifier, d: &Declarator) -> bool
    ensures { result ≡ def.is_private_member specifier d.now }
{
    let plain = is_last_private(specifier.is_private, d.stars.as_slice());
    is_outermost_private(plain, &d.shape)
}

/// K13: `private` is written at a member's outermost level, whatever else its type breaks.
fn field_type(
    alloc: Global,
    known: &Known,
    specifier: Specifier,
    d: &Declarator,
    notes: &mut Notes,
) -> Result<Option<Ty>, NoMemory>
    ensures ty { IfOk result (λ t. t ≡ (def.field_type known.now specifier d.now notes.old).ty) }
    ensures notes { OnOk result (notes.new ≡ (def.field_type known.now specifier d.now notes.old).notes) }
{
    let ty = object_type(alloc, known, Unwritten::Public, specifier, d, notes)?;
    if is_private_member(specifier, d) {
        notes.broken(K13, d.place)?;
        return Ok(None);
    }
    Ok(ty)
}

/// K1 at a member's name that the struct has already.
#[tactic(auto, unfolding(type_rules::specs::Declarations::declare_member))]
fn declare_member(
    alloc: Global,
    known: &Known,
    specifier: Specifier,
    d: &Declarator,
    fields: &mut Scope,
    typed: &mut Items<Local>,
    notes: &mut Notes,
) -> Result<(), NoMemory>
    ensures fields { OnOk result (fields.new ≡ (def.declare_member known.now specifier (record { fields = fields.old; typed = typed.old; notes = notes.old }) d.now).fields) }
    ensures typed { OnOk result (typed.new ≡ (def.declare_member known.now specifier (record { fields = fields.old; typed = typed.old; notes = notes.old }) d.now).typed) }
    ensures notes { OnOk result (notes.new ≡ (def.declare_member known.now specifier (record { fields = fields.old; typed = typed.old; notes = notes.old }) d.now).notes) }
{
    let ty = field_type(alloc, known, specifier, d, notes)?;
    let twice = fields.declares(d.name);
    notes.broken_if(twice, K1, d.place)?;
    let number = count(fields.len())?;
    let copy = copy_option(alloc, &ty)?;
    fields.declare(d.name, Meaning::Member { number }, copy)?;
    push_local(typed, d.name, d.place, ty)
}

fn declare_members(
    alloc: Global,
    known: &Known,
    m: &MemberDeclaration,
    fields: &mut Scope,
    typed: &mut Items<Local>,
    notes: &mut Notes,
) -> Result<(), NoMemory>
    ensures fields { OnOk result (fields.new ≡ (def.declare_members known.now (record { fields = fields.old; typed = typed.old; notes = notes.old }) m.now).fields) }
    ensures typed { OnOk result (typed.new ≡ (def.declare_members known.now (record { fields = fields.old; typed = typed.old; notes = notes.old }) m.now).typed) }
    ensures notes { OnOk result (notes.new ≡ (def.declare_members known.now (record { fields = fields.old; typed = typed.old; notes = notes.old }) m.now).notes) }
{
    for d in m.declarators.as_slice() {
        declare_member(alloc, known, m.specifier, d, fields, typed, notes)?;
    }
    Ok(())
}

fn all_members(
    alloc: Global,
    known: &Known,
    members: &[MemberDeclaration],
    fields: &mut Scope,
    typed: &mut Items<Local>,
    notes: &mut Notes,
) -> Result<(), NoMemory>
    ensures fields { OnOk result (fields.new ≡ (def.all_members known.now (record { fields = fields.old; typed = typed.old; notes = notes.old }) members.now).fields) }
    ensures typed { OnOk result (typed.new ≡ (def.all_members known.now (record { fields = fields.old; typed = typed.old; notes = notes.old }) members.now).typed) }
    ensures notes { OnOk result (notes.new ≡ (def.all_members known.now (record { fields = fields.old; typed = typed.old; notes = notes.old }) members.now).notes) }
{
    for m in members {
        declare_members(alloc, known, m, fields, typed, notes)?;
    }
    Ok(())
}

/// The members in order, aligned, and the size rounded up to the greatest alignment.
fn extent_of_members(structs: &[Extent], typed: &[Local]) -> Result<Extent, NoMemory>
    ensures { IfOk result (λ e. e ≡ def.extent_of_members structs.now typed.now) }
{
    let mut extent = nothing();
    for local in typed {
        extent = with_member(structs, extent, &local.ty)?;
    }
    let all = closed(extent)?;
    Ok(all)
}

/// A struct with a fault in a member takes nothing.
fn members_extent(structs: &[Extent], fields: &Scope, typed: &[Local]) -> Result<Extent, NoMemory>
    ensures { IfOk result (λ e. e ≡ def.members_extent structs.now fields.now typed.now) }
{
    if typed.len() == fields.len() {
        extent_of_members(structs, typed)
    } else {
        Ok(nothing())
    }
}

fn is_too_large(extent: Extent) -> bool
    ensures { result ≡ def.is_too_large extent }
{
    extent.size > GREATEST_SIZE
}

/// Nor does one that is too large take anything.
fn kept(extent: Extent) -> Extent
    ensures { result ≡ def.kept extent }
{
    if is_too_large(extent) {
        nothing()
    } else {
        extent
    }
}

fn with_tag(known: &mut Known, name: u32) -> Result<(), NoMemory>
    ensures { OnOk result (known.new ≡ def.with_tag name known.old) }
{
    let number = count(known.structs.len())?;
    known
        .tags
        .declare(name, Meaning::Structure { number }, None)
}

/// A struct is defined behind its definition.
fn with_structure(
    known: &mut Known,
    definition: StructDef,
    fields: Scope,
    extent: Extent,
) -> Result<(), NoMemory>
    ensures { OnOk result (known.new ≡ def.with_structure definition fields extent known.old) }
{
    known.structs.push(definition)?;
    known.fields.push(fields)?;
    known.extents.push(extent)?;
    Ok(())
}

/// K1 at a struct's name that is declared already; K3 there where the struct is too large.
#[tactic(auto, unfolding(type_rules::specs::Declarations::declare_struct))]
pub fn declare_struct(
    alloc: Global,
    known: &mut Known,
    s: &StructDefinition,
    notes: &mut Notes,
) -> Result<(), NoMemory>
    ensures known { OnOk result (known.new ≡ (def.declare_struct known.old s.now notes.old).known) }
    ensures notes { OnOk result (notes.new ≡ (def.declare_struct known.old s.now notes.old).notes) }
{
    let twice = known.tags.declares(s.name);
    notes.broken_if(twice, K1, s.place)?;
    with_tag(known, s.name)?;
    let mut fields = Scope::new(alloc);
    let mut typed = Items::new(alloc);
    all_members(
        alloc,
        known,
        s.members.as_slice(),
        &mut fields,
        &mut typed,
        notes,
    )?;
    let extent = members_extent(known.extents.as_slice(), &fields, typed.as_slice())?;
    notes.broken_if(is_too_large(extent), K3, s.place)?;
    let definition = StructDef {
        name: s.name,
        place: s.place,
        members: typed,
    };
    with_structure(known, definition, fields, kept(extent))
}

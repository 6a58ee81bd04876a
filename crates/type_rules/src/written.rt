//! Types as they are written.

ghost use Rattle.name_scopes.specs.Scopes.{meaning_in};
ghost use Rattle.type_rules.specs.WrittenTypes as def;
ghost use Rattle.std.specs.Prelude.{◌≡◌, ◌+◌, ◌<◌, ◌^◌, IfOk, OnOk, map};

use crate::known::Known;
use crate::notes::{Notes, counted};
use crate::rules::{K2, K3, K13};
use c_ast::program::{Base, Declarator, Shape, Specifier, Star, TypeName, TypeShape};
use c_ast::{Boxed, Items, Qual, Ty};
use cv_word::{NoMemory, Taint};
use name_scopes::{Meaning, Scope};
use std::alloc::Global;
use type_shapes::sizes::{is_array_of, is_sized};
use type_shapes::types::{is_array, is_struct, is_void};

/// What a level is where no `private` is written.
#[derive(Clone, Copy)]
pub enum Unwritten {
    Public,
    Variable,
}

fn level(u: Unwritten, is_private: bool, n: u32) -> Qual
    ensures { result ≡ def.level u is_private n }
{
    if is_private {
        return Qual::Fixed(Taint::Priv);
    }
    match u {
        Unwritten::Public => Qual::Fixed(Taint::Pub),
        Unwritten::Variable => Qual::Var(n),
    }
}

/// How many variables a level takes.
fn taken(u: Unwritten, is_private: bool) -> u32
    ensures { result ≡ def.taken u is_private }
{
    match u {
        Unwritten::Public => 0,
        Unwritten::Variable => { if is_private { 0 } else { 1 } }
    }
}

/// How many variables stars take.
fn taken_by(u: Unwritten, stars: &[Star]) -> Result<u32, NoMemory>
    ensures { IfOk result (λ n. n ≡ def.taken_by u stars.now) }
{
    let mut all = 0u32;
    for star in stars {
        all = counted(all, taken(u, star.is_private))?;
    }
    Ok(all)
}

/// The stars stand from the base outwards; `inside` is how many variables they take.
fn pointers(
    alloc: Global,
    u: Unwritten,
    n: u32,
    stars: &[Star],
    inside: u32,
    base: Ty,
) -> Result<Ty, NoMemory>
    requires all { inside ≡ def.taken_by u stars.now }
    requires room { n + inside < 2 ^ 32 }
    ensures { IfOk result (λ t. t ≡ def.pointers u n stars.now base) }
{
    let mut rest = inside;
    let mut ty = base;
    for star in stars {
        rest -= taken(u, star.is_private);
        let q = level(u, star.is_private, n + rest);
        let to = Boxed::new(alloc, ty)?;
        ty = Ty::Ptr { to, q };
    }
    Ok(ty)
}

fn structure_type(tags: &Scope, q: Qual, name: u32) -> Option<Ty>
    ensures { result ≡ def.tagged_type q (meaning_in tags.now name) }
{
    match tags.find(name) {
        None => None,
        Some(entry) => match entry.meaning {
            Meaning::Structure { number } => Some(Ty::Struct { id: number, q }),
            _ => None,
        },
    }
}

/// A struct that isn't known is K2 at its name.
fn base_type(tags: &Scope, q: Qual, base: Base, notes: &mut Notes) -> Result<Option<Ty>, NoMemory>
    ensures ty { IfOk result (λ t. t ≡ (def.base_type tags.now q base notes.old).ty) }
    ensures notes { OnOk result (notes.new ≡ (def.base_type tags.now q base notes.old).notes) }
{
    match base {
        Base::Char => Ok(Some(Ty::Int { width: 1, q })),
        Base::Int => Ok(Some(Ty::Int { width: 4, q })),
        Base::Long => Ok(Some(Ty::Int { width: 8, q })),
        Base::Void => Ok(Some(Ty::Void)),
        Base::Struct { name, place } => match structure_type(tags, q, name) {
            Some(ty) => Ok(Some(ty)),
            None => {
                notes.broken(K2, place)?;
                Ok(None)
            }
        },
    }
}

/// K3: a pointee is void.
fn starred(
    alloc: Global,
    at: u32,
    u: Unwritten,
    n: u32,
    stars: &[Star],
    inside: u32,
    base: Ty,
    notes: &mut Notes,
) -> Result<Option<Ty>, NoMemory>
    requires all { inside ≡ def.taken_by u stars.now }
    requires room { n + inside < 2 ^ 32 }
    ensures ty { IfOk result (λ t. t ≡ (def.starred_type at u n stars.now base notes.old).ty) }
    ensures notes { OnOk result (notes.new ≡ (def.starred_type at u n stars.now base notes.old).notes) }
{
    if is_void(&base) & !is_empty(stars) {
        notes.broken(K3, at)?;
        return Ok(None);
    }
    let ty = pointers(alloc, u, n, stars, inside, base)?;
    Ok(Some(ty))
}

fn is_empty(stars: &[Star]) -> bool
    ensures { result ≡ def.is_empty stars.now }
{
    matches!(stars, [])
}

/// A base with its stars.
#[tactic(auto, unfolding(crate::specs::WrittenTypes::plain))]
pub fn plain(
    alloc: Global,
    known: &Known,
    u: Unwritten,
    at: u32,
    specifier: Specifier,
    stars: &[Star],
    notes: &mut Notes,
) -> Result<Option<Ty>, NoMemory>
    ensures ty { IfOk result (λ t. t ≡ (def.plain known.now u at specifier stars.now notes.old).ty) }
    ensures notes { OnOk result (notes.new ≡ (def.plain known.now u at specifier stars.now notes.old).notes) }
{
    let n = notes.vars;
    let inside = taken_by(u, stars)?;
    let base = counted(n, inside)?;
    notes.vars = counted(base, taken(u, specifier.is_private))?;
    let q = level(u, specifier.is_private, base);
    match base_type(&known.tags, q, specifier.base, notes)? {
        None => Ok(None),
        Some(ty) => starred(alloc, at, u, n, stars, inside, ty, notes),
    }
}

/// K3: an object, a member or the operand of `sizeof` is void or a struct that isn't defined yet.
#[tactic(auto, unfolding(crate::specs::WrittenTypes::as_object))]
pub fn as_object(known: &Known, at: u32, ty: Ty, notes: &mut Notes) -> Result<Option<Ty>, NoMemory>
    ensures ty { IfOk result (λ t. t ≡ (def.as_object known.now at ty notes.old).ty) }
    ensures notes { OnOk result (notes.new ≡ (def.as_object known.now at ty notes.old).notes) }
{
    if is_sized(known.extents.as_slice(), &ty) {
        return Ok(Some(ty));
    }
    notes.broken(K3, at)?;
    Ok(None)
}

/// K3: a parameter is so or an array. K13: it is a struct by value.
#[tactic(auto, unfolding(crate::specs::WrittenTypes::as_parameter))]
pub fn as_parameter(
    known: &Known,
    at: u32,
    ty: Ty,
    notes: &mut Notes,
) -> Result<Option<Ty>, NoMemory>
    ensures ty { IfOk result (λ t. t ≡ (def.as_parameter known.now at ty notes.old).ty) }
    ensures notes { OnOk result (notes.new ≡ (def.as_parameter known.now at ty notes.old).notes) }
{
    let by_value = is_struct(&ty);
    let wrong = !is_sized(known.extents.as_slice(), &ty) | is_array(&ty);
    notes.broken_if(by_value, K13, at)?;
    notes.broken_if(wrong, K3, at)?;
    if wrong | by_value {
        return Ok(None);
    }
    Ok(Some(ty))
}

/// K13: a result is a struct by value.
#[tactic(auto, unfolding(crate::specs::WrittenTypes::as_result))]
pub fn as_result(at: u32, ty: Ty, notes: &mut Notes) -> Result<Option<Ty>, NoMemory>
    ensures ty { IfOk result (λ t. t ≡ (def.as_result at ty notes.old).ty) }
    ensures notes { OnOk result (notes.new ≡ (def.as_result at ty notes.old).notes) }
{
    if is_struct(&ty) {
        notes.broken(K13, at)?;
        return Ok(None);
    }
    Ok(Some(ty))
}

/// The type of a parameter that has no name.
#[tactic(auto, unfolding(crate::specs::WrittenTypes::parameter_type, crate::specs::WrittenTypes::type_reader))]
#[cycle(written)]
fn parameter_type(
    alloc: Global,
    known: &Known,
    parameter: &TypeName,
    notes: &mut Notes,
) -> Result<Option<Ty>, NoMemory>
    ensures ty { IfOk result (λ t. t ≡ (def.parameter_type known.now (def.type_reader parameter.now) notes.old).ty) }
    ensures notes { OnOk result (notes.new ≡ (def.parameter_type known.now (def.type_reader parameter.now) notes.old).notes) }
{
    match type_name(alloc, known, Unwritten::Public, parameter, notes)? {
        None => Ok(None),
        Some(ty) => as_parameter(known, parameter.specifier.place, ty, notes),
    }
}

/// The types of parameters, and whether each has one.
#[cycle(written)]
fn parameters(
    alloc: Global,
    known: &Known,
    types: &[TypeName],
    notes: &mut Notes,
) -> Result<(Items<Ty>, bool), NoMemory>
    ensures types { IfOk result (λ r. r.0 ≡ (def.parameters known.now (map def.type_reader types.now) notes.old).types) }
    ensures whole { IfOk result (λ r. r.1 ≡ (def.parameters known.now (map def.type_reader types.now) notes.old).whole) }
    ensures notes { OnOk result (notes.new ≡ (def.parameters known.now (map def.type_reader types.now) notes.old).notes) }
{
    let mut found = Items::new(alloc);
    let mut whole = true;
    for parameter in types {
        match parameter_type(alloc, known, parameter, notes)? {
            None => whole = false,
            Some(ty) => found.push(ty)?,
        }
    }
    Ok((found, whole))
}

fn pointer_type(
    alloc: Global,
    q: Qual,
    ret: Option<Ty>,
    params: Items<Ty>,
    whole: bool,
) -> Result<Option<Ty>, NoMemory>
    ensures { IfOk result (λ t. t ≡ def.pointer_to_function q ret params whole) }
{
    match ret {
        None => Ok(None),
        Some(ret) => {
            if !whole {
                return Ok(None);
            }
            let ret = Boxed::new(alloc, ret)?;
            let to = Boxed::new(alloc, Ty::Fun { ret, params })?;
            Ok(Some(Ty::Ptr { to, q }))
        }
    }
}

/// What a pointer to a function gives.
#[tactic(auto, unfolding(crate::specs::WrittenTypes::result_type))]
pub fn result_type(
    alloc: Global,
    known: &Known,
    at: u32,
    specifier: Specifier,
    stars: &[Star],
    notes: &mut Notes,
) -> Result<Option<Ty>, NoMemory>
    ensures ty { IfOk result (λ t. t ≡ (def.result_type known.now at specifier stars.now notes.old).ty) }
    ensures notes { OnOk result (notes.new ≡ (def.result_type known.now at specifier stars.now notes.old).notes) }
{
    match plain(alloc, known, Unwritten::Public, at, specifier, stars, notes)? {
        None => Ok(None),
        Some(ty) => as_result(at, ty, notes),
    }
}

/// A pointer to a function. Where nothing is written, its result and its parameters are public.
#[tactic(auto, unfolding(crate::specs::WrittenTypes::function_pointer))]
#[cycle(written)]
fn function_pointer(
    alloc: Global,
    known: &Known,
    u: Unwritten,
    at: u32,
    specifier: Specifier,
    stars: &[Star],
    is_private: bool,
    types: &[TypeName],
    notes: &mut Notes,
) -> Result<Option<Ty>, NoMemory>
    ensures ty { IfOk result (λ t. t ≡ (def.function_pointer known.now u at specifier stars.now is_private (map def.type_reader types.now) notes.old).ty) }
    ensures notes { OnOk result (notes.new ≡ (def.function_pointer known.now u at specifier stars.now is_private (map def.type_reader types.now) notes.old).notes) }
{
    let q = level(u, is_private, notes.vars);
    notes.vars = counted(notes.vars, taken(u, is_private))?;
    let ret = result_type(alloc, known, at, specifier, stars, notes)?;
    let (params, whole) = parameters(alloc, known, types, notes)?;
    let ty = pointer_type(alloc, q, ret, params, whole)?;
    Ok(ty)
}

/// A type without a name. Its rules are told at its first byte.
#[tactic(auto, unfolding(crate::specs::WrittenTypes::type_reader, crate::specs::WrittenTypes::shape_step))]
#[cycle(written)]
pub fn type_name(
    alloc: Global,
    known: &Known,
    u: Unwritten,
    ty: &TypeName,
    notes: &mut Notes,
) -> Result<Option<Ty>, NoMemory>
    ensures ty { IfOk result (λ t. t ≡ (def.type_name ty.now known.now u notes.old).ty) }
    ensures notes { OnOk result (notes.new ≡ (def.type_name ty.now known.now u notes.old).notes) }
{
    let at = ty.specifier.place;
    match &ty.shape {
        TypeShape::Plain => plain(
            alloc,
            known,
            u,
            at,
            ty.specifier,
            ty.stars.as_slice(),
            notes,
        ),
        TypeShape::FunctionPointer {
            is_private,
            parameters,
        } => function_pointer(
            alloc,
            known,
            u,
            at,
            ty.specifier,
            ty.stars.as_slice(),
            *is_private,
            parameters.as_slice(),
            notes,
        ),
    }
}

/// K3: an array's element is void or a struct that isn't defined yet, its length is 0 or too great, or it is too large.
#[tactic(auto, unfolding(crate::specs::WrittenTypes::array_type, type_shapes::specs::Sizes::is_array_of))]
fn array_type(
    alloc: Global,
    known: &Known,
    at: u32,
    len: u64,
    elem: Ty,
    notes: &mut Notes,
) -> Result<Option<Ty>, NoMemory>
    ensures ty { IfOk result (λ t. t ≡ (def.array_type known.now at len elem notes.old).ty) }
    ensures notes { OnOk result (notes.new ≡ (def.array_type known.now at len elem notes.old).notes) }
{
    if is_array_of(known.extents.as_slice(), &elem, len)? && len < 4294967296 {
        let elem = Boxed::new(alloc, elem)?;
        return Ok(Some(Ty::Array {
            elem,
            len: len as u32,
        }));
    }
    notes.broken(K3, at)?;
    Ok(None)
}

/// The type of a declared name. Its rules are told at the name.
#[tactic(auto, unfolding(crate::specs::WrittenTypes::declarator_type))]
pub fn declarator_type(
    alloc: Global,
    known: &Known,
    u: Unwritten,
    specifier: Specifier,
    d: &Declarator,
    notes: &mut Notes,
) -> Result<Option<Ty>, NoMemory>
    ensures ty { IfOk result (λ t. t ≡ (def.declarator_type known.now u specifier d.now notes.old).ty) }
    ensures notes { OnOk result (notes.new ≡ (def.declarator_type known.now u specifier d.now notes.old).notes) }
{
    match &d.shape {
        Shape::Plain => plain(
            alloc,
            known,
            u,
            d.place,
            specifier,
            d.stars.as_slice(),
            notes,
        ),
        Shape::Array { length } => match plain(
            alloc,
            known,
            u,
            d.place,
            specifier,
            d.stars.as_slice(),
            notes,
        )? {
            None => Ok(None),
            Some(elem) => array_type(alloc, known, d.place, *length, elem, notes),
        },
        Shape::FunctionPointer {
            is_private,
            parameters,
        } => function_pointer(
            alloc,
            known,
            u,
            d.place,
            specifier,
            d.stars.as_slice(),
            *is_private,
            parameters.as_slice(),
            notes,
        ),
    }
}

/// The type of an object that is declared.
#[tactic(auto, unfolding(crate::specs::WrittenTypes::object_type))]
pub fn object_type(
    alloc: Global,
    known: &Known,
    u: Unwritten,
    specifier: Specifier,
    d: &Declarator,
    notes: &mut Notes,
) -> Result<Option<Ty>, NoMemory>
    ensures ty { IfOk result (λ t. t ≡ (def.object_type known.now u specifier d.now notes.old).ty) }
    ensures notes { OnOk result (notes.new ≡ (def.object_type known.now u specifier d.now notes.old).notes) }
{
    match declarator_type(alloc, known, u, specifier, d, notes)? {
        None => Ok(None),
        Some(ty) => as_object(known, d.place, ty, notes),
    }
}

//! Indices and members.

ghost use Rattle.std.specs.Option.{option_copied};
ghost use Rattle.std.specs.Prelude.{◌≡◌, IfOk, OnOk};
ghost use Rattle.type_rules.specs.Operators as def;

use crate::prefix::object_copy;
use c_ast::typed::{Expr, ExprKind};
use c_ast::{Boxed, Qual, Ty};
use cv_word::NoMemory;
use name_scopes::{Entry, Meaning, Scope};
use std::alloc::Global;
use type_rules::notes::Notes;
use type_rules::operators::FoundMember;
use type_rules::parts::Part;
use type_rules::rules::{K2, K4, K10};
use type_shapes::types::{StructType, is_integer, struct_of, under};

/// K4 at an index that is no integer.
#[tactic(auto, unfolding(type_rules::specs::Operators::integer_part))]
fn integer_part(p: Part, notes: &mut Notes) -> Result<Option<Expr>, NoMemory>
    ensures node { IfOk result (λ n. n ≡ (def.integer_part p notes.old).node) }
    ensures notes { OnOk result (notes.new ≡ (def.integer_part p notes.old).notes) }
{
    match p.node {
        None => Ok(None),
        Some(e) => {
            if is_integer(&e.ty) {
                return Ok(Some(e));
            }
            notes.broken(K4, e.place)?;
            Ok(None)
        }
    }
}

/// K10 at the whole unless it is an index of an array or of a pointer to an object.
#[tactic(auto, unfolding(type_rules::specs::Operators::indexed))]
fn indexed(
    alloc: Global,
    place: u32,
    at: Option<Expr>,
    of: Expr,
    notes: &mut Notes,
) -> Result<Option<Expr>, NoMemory>
    ensures node { IfOk result (λ n. n ≡ (def.indexed place at of notes.old).node) }
    ensures notes { OnOk result (notes.new ≡ (def.indexed place at of notes.old).notes) }
{
    match object_copy(alloc, &of.ty)? {
        None => {
            notes.broken(K10, place)?;
            Ok(None)
        }
        Some(ty) => match at {
            None => Ok(None),
            Some(at) => {
                let of = Boxed::new(alloc, of)?;
                let at = Boxed::new(alloc, at)?;
                let kind = ExprKind::Index { of, at };
                Ok(Some(Expr { place, ty, kind }))
            }
        },
    }
}

/// `of[at]`.
#[tactic(auto, unfolding(type_rules::specs::Operators::index))]
pub fn index(
    alloc: Global,
    place: u32,
    of: Part,
    at: Part,
    notes: &mut Notes,
) -> Result<Option<Expr>, NoMemory>
    ensures node { IfOk result (λ n. n ≡ (def.index place of at notes.old).node) }
    ensures notes { OnOk result (notes.new ≡ (def.index place of at notes.old).notes) }
{
    let i = integer_part(at, notes)?;
    match of.node {
        None => Ok(None),
        Some(e) => indexed(alloc, place, i, e, notes),
    }
}

fn member_number(meaning: Meaning) -> u32
    ensures { result ≡ def.member_number meaning }
{
    match meaning {
        Meaning::Member { number } => number,
        _ => 0,
    }
}

/// A member's outermost qualifier is its object's.
#[tactic(auto, unfolding(type_rules::specs::Operators::member_type))]
fn member_type(alloc: Global, q: Qual, entry: &Entry) -> Result<Option<FoundMember>, NoMemory>
    ensures { IfOk result (λ m. m ≡ def.member_type q entry.now) }
{
    match &entry.ty {
        None => Ok(None),
        Some(ty) => {
            let number = member_number(entry.meaning);
            let ty = under(alloc, q, ty)?;
            Ok(Some(FoundMember { number, ty }))
        }
    }
}

/// K2 at a name that is no member of the struct.
fn found_member(
    alloc: Global,
    q: Qual,
    entry: Option<&Entry>,
    name_place: u32,
    notes: &mut Notes,
) -> Result<Option<FoundMember>, NoMemory>
    ensures member { IfOk result (λ m. m ≡ (def.found_member name_place q (option_copied entry.entry) notes.old).member) }
    ensures notes { OnOk result (notes.new ≡ (def.found_member name_place q (option_copied entry.entry) notes.old).notes) }
{
    match entry {
        None => {
            notes.broken(K2, name_place)?;
            Ok(None)
        }
        Some(entry) => {
            let member = member_type(alloc, q, entry)?;
            Ok(member)
        }
    }
}

/// The same of a struct by its number. One that is defined later has no members yet.
#[tactic(auto, unfolding(type_rules::specs::Operators::member_of))]
fn member_of(
    alloc: Global,
    structs: &[Scope],
    name: u32,
    name_place: u32,
    s: StructType,
    notes: &mut Notes,
) -> Result<Option<FoundMember>, NoMemory>
    ensures member { IfOk result (λ m. m ≡ (def.member_of structs.now name name_place s notes.old).member) }
    ensures notes { OnOk result (notes.new ≡ (def.member_of structs.now name name_place s notes.old).notes) }
{
    match structs.get(s.id as usize) {
        None => {
            notes.broken(K2, name_place)?;
            Ok(None)
        }
        Some(fields) => found_member(alloc, s.q, fields.find(name), name_place, notes),
    }
}

/// K10 at the whole where it is no struct.
#[tactic(auto, unfolding(type_rules::specs::Operators::dotted))]
pub fn dotted(
    alloc: Global,
    structs: &[Scope],
    place: u32,
    name: u32,
    name_place: u32,
    e: Expr,
    notes: &mut Notes,
) -> Result<Option<Expr>, NoMemory>
    ensures node { IfOk result (λ n. n ≡ (def.dotted structs.now place name name_place e notes.old).node) }
    ensures notes { OnOk result (notes.new ≡ (def.dotted structs.now place name name_place e notes.old).notes) }
{
    match struct_of(&e.ty) {
        None => {
            notes.broken(K10, place)?;
            Ok(None)
        }
        Some(s) => match member_of(alloc, structs, name, name_place, s, notes)? {
            None => Ok(None),
            Some(found) => {
                let of = Boxed::new(alloc, e)?;
                let member = found.number;
                let kind = ExprKind::Member { of, member };
                let ty = found.ty;
                Ok(Some(Expr { place, ty, kind }))
            }
        },
    }
}

/// An object that is no struct has no members.
#[tactic(auto, unfolding(type_rules::specs::Operators::pointed_member))]
fn pointed_member(
    alloc: Global,
    structs: &[Scope],
    name: u32,
    name_place: u32,
    object: &Ty,
    notes: &mut Notes,
) -> Result<Option<FoundMember>, NoMemory>
    ensures member { IfOk result (λ m. m ≡ (def.pointed_member structs.now name name_place object.now notes.old).member) }
    ensures notes { OnOk result (notes.new ≡ (def.pointed_member structs.now name name_place object.now notes.old).notes) }
{
    match struct_of(object) {
        None => {
            notes.broken(K2, name_place)?;
            Ok(None)
        }
        Some(s) => member_of(alloc, structs, name, name_place, s, notes),
    }
}

/// K10 at the whole where it is no array or pointer to an object.
#[tactic(auto, unfolding(type_rules::specs::Operators::arrowed))]
pub fn arrowed(
    alloc: Global,
    structs: &[Scope],
    place: u32,
    name: u32,
    name_place: u32,
    e: Expr,
    notes: &mut Notes,
) -> Result<Option<Expr>, NoMemory>
    ensures node { IfOk result (λ n. n ≡ (def.arrowed structs.now place name name_place e notes.old).node) }
    ensures notes { OnOk result (notes.new ≡ (def.arrowed structs.now place name name_place e notes.old).notes) }
{
    match object_copy(alloc, &e.ty)? {
        None => {
            notes.broken(K10, place)?;
            Ok(None)
        }
        Some(object) => match pointed_member(alloc, structs, name, name_place, &object, notes)? {
            None => Ok(None),
            Some(found) => {
                let of = Boxed::new(alloc, e)?;
                let member = found.number;
                let kind = ExprKind::Arrow { of, member };
                let ty = found.ty;
                Ok(Some(Expr { place, ty, kind }))
            }
        },
    }
}

//! In which segment globals lie, and where.

ghost use Rattle.c_layout.specs.Segments as def;
ghost use Rattle.c_layout.specs.Places as places;
ghost use Rattle.cv_word.specs.declared.registers.Taint.TheVariants.{Pub as Public, Priv as Private};
ghost use Rattle.type_shapes.specs.Types.{same_taint};
ghost use Rattle.std.specs.Prelude.{◌≡◌, IfOk, [], if◌then◌else◌};

use crate::places::{aligned, end_behind};
use c_ast::typed::Global as Object;
use c_ast::{Qual, Ty};
use cv_word::{NoMemory, Taint};
use std::alloc::Global;
use type_shapes::Extent;
use type_shapes::sizes::extent_of;

/// The first offset of a segment.
pub const FIRST_OFFSET: u64 = 4096;

/// The offsets of globals, and where those of each segment end.
#[derive(Drop)]
pub struct Globals {
    pub offsets: Vec<u64>,
    pub public_end: u64,
    pub private_end: u64,
}

/// The outermost qualifier of a type.
#[tactic(auto, unfolding(crate::specs::Segments::outermost))]
fn outermost(ty: &Ty) -> Qual
    ensures { result ≡ def.outermost ty.now }
{
    match ty {
        Ty::Int { q, .. } | Ty::Struct { q, .. } | Ty::Ptr { q, .. } => *q,
        Ty::Array { elem, .. } => outermost(elem.get()),
        _ => Qual::Fixed(Taint::Pub),
    }
}

/// The segment in which an object of this type lies.
fn segment_of(asg: &[Taint], ty: &Ty) -> Taint
    ensures { result ≡ def.segment_of asg.now ty.now }
{
    match outermost(ty) {
        Qual::Fixed(taint) => taint,
        Qual::Var(variable) => match asg.get(variable as usize) {
            Some(taint) => *taint,
            None => Taint::Pub,
        },
    }
}

/// The end of the object's own segment.
fn own_end(own: Taint, public_end: u64, private_end: u64) -> u64
    ensures { result ≡ def.own_end own public_end private_end }
{
    match own {
        Taint::Pub => public_end,
        Taint::Priv => private_end,
    }
}

/// The end of a segment behind one more object, if the object lies in it.
fn end_with(end: u64, is_here: bool, extent: Extent) -> Result<u64, NoMemory>
    ensures { IfOk result (λ n. n ≡ (if is_here then places.end_behind end extent else end)) }
{
    if is_here {
        let end = end_behind(end, extent)?;
        return Ok(end);
    }
    Ok(end)
}

/// The offsets of globals, and where those of each segment end.
pub fn place_globals(
    alloc: Global,
    structs: &[Extent],
    asg: &[Taint],
    globals: &[Object],
) -> Result<Globals, NoMemory>
    ensures offsets { IfOk result (λ g. g.offsets.items ≡ def.offsets_behind structs.now asg.now [] globals.now) }
    ensures public { IfOk result (λ g. g.public_end ≡ def.end_in structs.now asg.now Public globals.now) }
    ensures private { IfOk result (λ g. g.private_end ≡ def.end_in structs.now asg.now Private globals.now) }
{
    let mut offsets = Vec::new(alloc);
    let mut public_end = FIRST_OFFSET;
    let mut private_end = FIRST_OFFSET;
    for global in globals {
        let own = segment_of(asg, &global.ty);
        let extent = extent_of(structs, &global.ty)?;
        let end = own_end(own, public_end, private_end);
        offsets.push(aligned(end, extent.align)?)?;
        public_end = end_with(public_end, matches!(own, Taint::Pub), extent)?;
        private_end = end_with(private_end, matches!(own, Taint::Priv), extent)?;
    }
    Ok(Globals {
        offsets,
        public_end,
        private_end,
    })
}

//! What structs and objects take, and where objects lie one behind the other.

ghost use Rattle.c_layout.specs.Places as def;
ghost use Rattle.type_shapes.specs.Sizes as sizes;
ghost use Rattle.std.specs.Prelude.{◌≡◌, IfOk, map};

use crate::sums::{narrow, total};
use c_ast::typed::{Local, StructDef};
use c_ast::{Items, Text};
use cv_word::NoMemory;
use std::alloc::Global;
use type_shapes::Extent;
use type_shapes::sizes::{closed, extent_of, nothing, with_member};

/// The least multiple of `align` from `n` on.
#[tactic(auto, unfolding(type_shapes::specs::Sizes::closed))]
pub fn aligned(n: u64, align: u64) -> Result<u64, NoMemory>
    ensures { IfOk result (λ m. m ≡ sizes.aligned n align) }
{
    let all = closed(Extent { size: n, align })?;
    Ok(all.size)
}

/// What a struct takes, over those before it.
fn extent_of_struct(before: &[Extent], definition: &StructDef) -> Result<Extent, NoMemory>
    ensures { IfOk result (λ e. e ≡ def.extent_of_struct before.now definition.now) }
{
    let mut so_far = nothing();
    for member in definition.members.as_slice() {
        so_far = with_member(before, so_far, &member.ty)?;
    }
    let all = closed(so_far)?;
    Ok(all)
}

/// What each struct takes, in order.
pub fn extents_of(alloc: Global, structs: &[StructDef]) -> Result<Items<Extent>, NoMemory>
    ensures { IfOk result (λ extents. extents ≡ def.extents_of structs.now) }
{
    let mut extents = Items::new(alloc);
    for definition in structs {
        let extent = extent_of_struct(extents.as_slice(), definition)?;
        extents.push(extent)?;
    }
    Ok(extents)
}

/// What parameters or locals take.
pub fn extents_in(
    alloc: Global,
    structs: &[Extent],
    locals: &[Local],
) -> Result<Items<Extent>, NoMemory>
    ensures { IfOk result (λ extents. extents ≡ def.extents_in structs.now locals.now) }
{
    let mut extents = Items::new(alloc);
    for local in locals {
        extents.push(extent_of(structs, &local.ty)?)?;
    }
    Ok(extents)
}

/// A string takes its bytes and a zero byte.
fn string_extent(text: &Text) -> Result<Extent, NoMemory>
    ensures { IfOk result (λ e. e ≡ def.string_extent text.now) }
{
    let size = total(text.as_slice().len() as u64, 1)?;
    Ok(Extent { size, align: 1 })
}

/// What strings take.
pub fn string_extents(alloc: Global, strings: &[Text]) -> Result<Items<Extent>, NoMemory>
    ensures { IfOk result (λ extents. extents ≡ map def.string_extent strings.now) }
{
    let mut extents = Items::new(alloc);
    for text in strings {
        extents.push(string_extent(text)?)?;
    }
    Ok(extents)
}

/// Where an object ends that lies at the first aligned offset from `start` on.
pub fn end_behind(start: u64, extent: Extent) -> Result<u64, NoMemory>
    ensures { IfOk result (λ n. n ≡ def.end_behind start extent) }
{
    let offset = aligned(start, extent.align)?;
    let end = total(offset, extent.size)?;
    Ok(end)
}

/// Where objects end that lie one behind the other from `start` on.
pub fn end_of(start: u64, extents: &[Extent]) -> Result<u64, NoMemory>
    ensures { IfOk result (λ n. n ≡ def.end_of start extents.now) }
{
    let mut end = start;
    for extent in extents {
        end = end_behind(end, *extent)?;
    }
    Ok(end)
}

/// The offsets of objects that lie one behind the other from `start` on.
pub fn placed(alloc: Global, start: u64, extents: &[Extent]) -> Result<Items<u32>, NoMemory>
    ensures { IfOk result (λ offsets. offsets ≡ def.placed start extents.now) }
{
    let mut offsets = Items::new(alloc);
    let mut end = start;
    for extent in extents {
        let offset = aligned(end, extent.align)?;
        offsets.push(narrow(offset)?)?;
        end = end_behind(end, *extent)?;
    }
    Ok(offsets)
}

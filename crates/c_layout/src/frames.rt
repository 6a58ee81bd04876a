//! The frames of functions.

ghost use Rattle.c_layout.specs.Frames as def;
ghost use Rattle.std.specs.Prelude.{◌≡◌, IfOk, map};

use crate::counts::counts_of;
use crate::places::{aligned, end_of, extents_in, placed};
use crate::sums::{narrow, product, total};
use c_ast::Items;
use c_ast::typed::Function;
use cv_word::NoMemory;
use std::alloc::Global;
use type_shapes::Extent;

/// Where a function's parameters, locals and expression nodes lie, counted from the frame's base.
#[derive(Debug, Drop)]
pub struct Frame {
    pub params: Items<u32>,
    pub locals: Items<u32>,
    /// The slot of the first expression node. Each next slot lies 8 bytes behind the one before. The order of the slots
    /// is that of the nodes: a node comes before its parts.
    pub nodes: u32,
    /// A multiple of 8.
    pub size: u32,
}

/// Where the parameters end.
fn end_of_params(alloc: Global, structs: &[Extent], f: &Function) -> Result<u64, NoMemory>
    ensures { IfOk result (λ n. n ≡ def.end_of_params structs.now f.now) }
{
    let params = extents_in(alloc, structs, f.params.as_slice())?;
    let end = end_of(0, params.as_slice())?;
    Ok(end)
}

/// The slot of the first expression node.
fn first_slot(alloc: Global, structs: &[Extent], f: &Function) -> Result<u64, NoMemory>
    ensures { IfOk result (λ n. n ≡ def.first_slot structs.now f.now) }
{
    let start = end_of_params(alloc, structs, f)?;
    let locals = extents_in(alloc, structs, f.locals.as_slice())?;
    let end = end_of(start, locals.as_slice())?;
    Ok(aligned(end, 8)?)
}

/// The size of a frame.
pub fn frame_size(alloc: Global, structs: &[Extent], f: &Function) -> Result<u64, NoMemory>
    ensures { IfOk result (λ n. n ≡ def.frame_size structs.now f.now) }
{
    let first = first_slot(alloc, structs, f)?;
    let counts = counts_of(&f.body)?;
    let slots = product(counts.expressions, 8)?;
    Ok(total(first, slots)?)
}

/// The frame of a function.
fn frame_of(alloc: Global, structs: &[Extent], f: &Function) -> Result<Frame, NoMemory>
    ensures { IfOk result (λ frame. frame ≡ def.frame_of structs.now f.now) }
{
    let params = extents_in(alloc, structs, f.params.as_slice())?;
    let params = placed(alloc, 0, params.as_slice())?;
    let start = end_of_params(alloc, structs, f)?;
    let locals = extents_in(alloc, structs, f.locals.as_slice())?;
    let locals = placed(alloc, start, locals.as_slice())?;
    let nodes = narrow(first_slot(alloc, structs, f)?)?;
    let size = narrow(frame_size(alloc, structs, f)?)?;
    Ok(Frame {
        params,
        locals,
        nodes,
        size,
    })
}

/// The frames of functions, in order.
pub fn frames_of(
    alloc: Global,
    structs: &[Extent],
    functions: &[Function],
) -> Result<Items<Frame>, NoMemory>
    ensures { IfOk result (λ frames. frames ≡ map (def.frame_of structs.now) functions.now) }
{
    let mut frames = Items::new(alloc);
    for function in functions {
        frames.push(frame_of(alloc, structs, function)?)?;
    }
    Ok(frames)
}

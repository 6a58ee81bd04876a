//! The limits of a program, in order.

ghost use Rattle.c_layout.specs.Limits as def;
ghost use Rattle.std.specs.Prelude.{◌≡◌, IfOk};

use crate::counts::{most_values, nodes_in};
use crate::errors::LimitKind;
use crate::frames::frame_size;
use crate::segments::FIRST_OFFSET;
use crate::sums::{product, total};
use c_ast::typed::Function;
use cv_word::NoMemory;
use std::alloc::Global;
use type_shapes::Extent;

/// The greatest number of entries.
const MOST_ENTRIES: u32 = 8;

/// The greatest number of expression nodes and statements of a program.
const MOST_NODES: u64 = 20000;

/// The greatest number of parameters, and of arguments.
const MOST_VALUES: u64 = 4;

/// The greatest size of a frame.
const LARGEST_FRAME: u64 = 16384;

/// The least size of a stack.
const LEAST_STACK: u32 = 256;

/// The least size of a segment.
const LEAST_SEGMENT: u32 = 65536;

/// The greatest size of a segment.
const LARGEST_SEGMENT: u32 = 67108864;

/// A limit that is passed, and its value.
#[derive(Clone, Copy)]
pub struct Passed {
    pub kind: LimitKind,
    pub value: u64,
}

/// The number of entries, if it is too great.
#[tactic(auto, unfolding(crate::specs::Limits::entries_limit))]
fn entries_limit(entries: u32) -> Option<u64>
    ensures { result ≡ def.entries_limit entries }
{
    if entries > MOST_ENTRIES {
        Some(u64::from(entries))
    } else {
        None
    }
}

/// The number of expression nodes and statements, if it is too great.
#[tactic(auto, unfolding(crate::specs::Limits::nodes_limit))]
fn nodes_limit(functions: &[Function]) -> Result<Option<u64>, NoMemory>
    ensures { IfOk result (λ n. n ≡ def.nodes_limit functions.now) }
{
    let nodes = nodes_in(functions)?;
    if nodes > MOST_NODES {
        Ok(Some(nodes))
    } else {
        Ok(None)
    }
}

/// The number of parameters or arguments in the first function where it is too great.
#[tactic(auto, unfolding(crate::specs::Limits::params_limit))]
fn params_limit(functions: &[Function]) -> Result<Option<u64>, NoMemory>
    ensures { IfOk result (λ n. n ≡ def.params_limit functions.now) }
{
    for function in functions {
        let values = most_values(function)?;
        if values > MOST_VALUES {
            return Ok(Some(values));
        }
    }
    Ok(None)
}

/// The size of the first frame that is too large.
#[tactic(auto, unfolding(crate::specs::Limits::frame_limit))]
fn frame_limit(
    alloc: Global,
    structs: &[Extent],
    functions: &[Function],
) -> Result<Option<u64>, NoMemory>
    ensures { IfOk result (λ n. n ≡ def.frame_limit structs.now functions.now) }
{
    for function in functions {
        let size = frame_size(alloc, structs, function)?;
        if size > LARGEST_FRAME {
            return Ok(Some(size));
        }
    }
    Ok(None)
}

/// What a segment has to hold: the bytes before the first offset, so many start bytes, and a stack for each entry.
fn needed(length: u64, stack_size: u32, entries: u32) -> Result<u64, NoMemory>
    ensures { IfOk result (λ n. n ≡ def.needed length stack_size entries) }
{
    let start = total(FIRST_OFFSET, length)?;
    let stacks = product(u64::from(entries), u64::from(stack_size))?;
    Ok(total(start, stacks)?)
}

/// The size of a stack, if it isn't allowed or the segment doesn't hold the stacks.
#[tactic(auto, unfolding(crate::specs::Limits::stack_limit))]
fn stack_limit(seg_size: u32, stack_size: u32, entries: u32) -> Result<Option<u64>, NoMemory>
    ensures { IfOk result (λ n. n ≡ def.stack_limit seg_size stack_size entries) }
{
    let all = needed(0, stack_size, entries)?;
    if (stack_size % 16 == 0) & (stack_size >= LEAST_STACK) & (all <= u64::from(seg_size)) {
        Ok(None)
    } else {
        Ok(Some(u64::from(stack_size)))
    }
}

/// A multiple of 4096 that is neither too small nor too great.
fn is_segment_size(seg_size: u32) -> bool
    ensures { result ≡ def.is_segment_size seg_size }
{
    (seg_size % 4096 == 0) & (seg_size >= LEAST_SEGMENT) & (seg_size <= LARGEST_SEGMENT)
}

/// What the segment would have to hold, if it doesn't hold that; else its size, if it isn't allowed.
#[tactic(auto, unfolding(crate::specs::Limits::segment_limit))]
fn segment_limit(
    length: u64,
    seg_size: u32,
    stack_size: u32,
    entries: u32,
) -> Result<Option<u64>, NoMemory>
    ensures { IfOk result (λ n. n ≡ def.segment_limit length seg_size stack_size entries) }
{
    let all = needed(length, stack_size, entries)?;
    if all > u64::from(seg_size) {
        return Ok(Some(all));
    }
    if is_segment_size(seg_size) {
        Ok(None)
    } else {
        Ok(Some(u64::from(seg_size)))
    }
}

/// The first limit that is passed. `length` is how many start bytes the larger segment has.
pub fn first_passed(
    alloc: Global,
    functions: &[Function],
    structs: &[Extent],
    length: u64,
    seg_size: u32,
    stack_size: u32,
    entries: u32,
) -> Result<Option<Passed>, NoMemory>
    ensures { IfOk result (λ p. p ≡ def.first_passed functions.now structs.now length seg_size stack_size entries) }
{
    if let Some(value) = entries_limit(entries) {
        let kind = LimitKind::Entries;
        return Ok(Some(Passed { kind, value }));
    }
    if let Some(value) = nodes_limit(functions)? {
        let kind = LimitKind::Nodes;
        return Ok(Some(Passed { kind, value }));
    }
    if let Some(value) = params_limit(functions)? {
        let kind = LimitKind::Params;
        return Ok(Some(Passed { kind, value }));
    }
    if let Some(value) = frame_limit(alloc, structs, functions)? {
        let kind = LimitKind::Frame;
        return Ok(Some(Passed { kind, value }));
    }
    if let Some(value) = stack_limit(seg_size, stack_size, entries)? {
        let kind = LimitKind::Stack;
        return Ok(Some(Passed { kind, value }));
    }
    if let Some(value) = segment_limit(length, seg_size, stack_size, entries)? {
        let kind = LimitKind::Segment;
        return Ok(Some(Passed { kind, value }));
    }
    Ok(None)
}

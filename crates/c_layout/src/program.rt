//! The layout of a program.

ghost use Rattle.c_layout.specs.Layouts as def;
ghost use Rattle.c_layout.specs.Limits.{IsLayout, IsRefusal};
ghost use Rattle.std.specs.Prelude.{◌≡◌, ◌≤◌, IfOk, IfErr};

use crate::errors::LayoutError;
use crate::frames::frames_of;
use crate::layouts::Layout;
use crate::limits::first_passed;
use crate::places::{end_of, extents_of, placed, string_extents};
use crate::segments::{FIRST_OFFSET, place_globals};
use crate::sums::{narrow, narrow_all};
use c_ast::Typed;
use cv_word::Taint;
use std::alloc::Global;

/// The layout of a program under an assignment of its qualifier variables. `NoMemory` comes where memory is refused, or
/// where a size or an offset is 2^64 bytes or more. Otherwise `Limit` comes exactly where a limit is passed, and names
/// the first.
pub fn layout(
    alloc: Global,
    typed: &Typed,
    asg: &[Taint],
    seg_size: u32,
    stack_size: u32,
    entries: u32,
) -> Result<Layout, LayoutError>
    requires { 1 ≤ entries }
    ensures layout { IfOk result (IsLayout typed.now asg.now seg_size stack_size entries) }
    ensures refusal { IfErr result (IsRefusal typed.now asg.now seg_size stack_size entries) }
{
    let structs = extents_of(alloc, typed.structs.as_slice())?;
    let globals = place_globals(alloc, structs.as_slice(), asg, typed.globals.as_slice())?;
    let strings = string_extents(alloc, typed.strings.as_slice())?;
    let public = end_of(globals.public_end, strings.as_slice())?.saturating_sub(FIRST_OFFSET);
    let private = globals.private_end.saturating_sub(FIRST_OFFSET);
    let length = public.max(private);
    let functions = typed.functions.as_slice();
    if let Some(passed) = first_passed(
        alloc,
        functions,
        structs.as_slice(),
        length,
        seg_size,
        stack_size,
        entries,
    )? {
        let kind = passed.kind;
        let value = passed.value;
        return Err(LayoutError::Limit { kind, value });
    }
    Ok(Layout {
        globals: narrow_all(alloc, &globals.offsets)?,
        strings: placed(alloc, globals.public_end, strings.as_slice())?,
        frames: frames_of(alloc, structs.as_slice(), functions)?,
        pub_len: narrow(public)?,
        priv_len: narrow(private)?,
    })
}

//! Where parameters, locals and slots lie in frames, and what structs take.

use super::nodes::{Form, statement};
use super::{
    PUBLIC, array, block, function, global, int, local, locals_of, offset, pointer, program_of,
    stmt, struct_def, structs_of, structure,
};
use crate::{Layout, LayoutError, layout};
use c_ast::typed::{Global as Object, Local, StructDef};
use c_ast::{Function, Items, StmtKind, Typed};
use cv_word::NoMemory;
use std::alloc::Global;
use std::process::Abort;
use std::test::Fail;

/// `char x; S s; char y;` as locals, with the struct of this number.
fn around_locals(alloc: Global, id: u32) -> Result<Items<Local>, NoMemory> {
    let mut locals = Items::new(alloc);
    locals.push(local(int(1, PUBLIC)))?;
    locals.push(local(structure(id, PUBLIC)))?;
    locals.push(local(int(1, PUBLIC)))?;
    Ok(locals)
}

/// `char x; S s; char y;` as globals, with the struct of this number.
fn around_globals(alloc: Global, id: u32) -> Result<Items<Object>, NoMemory> {
    let mut globals = Items::new(alloc);
    globals.push(global(alloc, int(1, PUBLIC)))?;
    globals.push(global(alloc, structure(id, PUBLIC)))?;
    globals.push(global(alloc, int(1, PUBLIC)))?;
    Ok(globals)
}

/// One function with these locals, whose body is a `break`.
fn functions_with(alloc: Global, locals: Items<Local>) -> Result<Items<Function>, NoMemory> {
    let mut functions = Items::new(alloc);
    functions.push(function(Items::new(alloc), locals, stmt(StmtKind::Break)))?;
    Ok(functions)
}

/// `char x; S s; char y;` as globals and as locals.
fn around(alloc: Global, structs: Items<StructDef>, id: u32) -> Result<Typed, NoMemory> {
    let globals = around_globals(alloc, id)?;
    let functions = functions_with(alloc, around_locals(alloc, id)?)?;
    Ok(Typed {
        structs,
        globals,
        strings: Items::new(alloc),
        functions,
        vars: 0,
    })
}

/// The offset of the third local, that of the first slot, and the size of the first frame.
fn first_frame(found: &Layout) -> (u32, u32, u32) {
    match found.frames.as_slice().get(0) {
        Some(frame) => (offset(frame.locals.as_slice(), 2), frame.nodes, frame.size),
        None => (0, 0, 0),
    }
}

/// The offset of the `char` behind a struct as a global, its offset as a local, the first slot and the frame's size.
fn behind(
    alloc: Global,
    structs: Items<StructDef>,
    id: u32,
) -> Result<(u32, (u32, u32, u32)), LayoutError> {
    let typed = around(alloc, structs, id)?;
    let found = layout(alloc, &typed, &[], 65536, 256, 1)?;
    Ok((offset(found.globals.as_slice(), 2), first_frame(&found)))
}

/// The widths of a struct's members, the offset of the `char` behind it as a global and as a local, and the frame's
/// size. Aligned to 8 the struct lies at 4104 and at 8, to 4 at 4100 and at 4, and to 1 at 4097 and at 1.
static MEMBERS: [(&[u8], u32, u32, u32); 10] = [
    (&[1, 4, 8], 4120, 24, 32),
    (&[1, 8, 4], 4128, 32, 40),
    (&[4, 1, 8], 4120, 24, 32),
    (&[4, 8, 1], 4128, 32, 40),
    (&[8, 1, 4], 4120, 24, 32),
    (&[8, 4, 1], 4120, 24, 32),
    (&[1, 4], 4108, 12, 16),
    (&[4, 1], 4108, 12, 16),
    (&[1, 4, 1], 4112, 16, 24),
    (&[1, 1, 1], 4100, 4, 8),
];

/// A struct is padded inside and at its end.
#[test]
fn pads_structs(rt: HostRuntime) -> Result<(), Fail> {
    let alloc = rt.alloc();
    for (widths, as_global, as_local, size) in &MEMBERS {
        let found = behind(alloc, structs_of(alloc, widths)?, 0)?;
        let wanted = (*as_global, (*as_local, *size, *size));
        assert_eq!(rt; found, wanted, "{widths:?}");
    }
    Ok(())
}

/// `char c; S s; char *p; S two[2];` as members, where a struct S takes 8 bytes and is aligned to 4.
fn outer_members(alloc: Global) -> Result<Items<Local>, NoMemory> {
    let two = array(alloc, structure(0, PUBLIC), 2)?;
    let mut members = Items::new(alloc);
    members.push(local(int(1, PUBLIC)))?;
    members.push(local(structure(0, PUBLIC)))?;
    members.push(local(pointer(alloc, PUBLIC, PUBLIC)?))?;
    members.push(local(two))?;
    Ok(members)
}

/// The members lie at 0, 4, 16 and 24. So the outer struct takes 40 bytes and is aligned to 8.
#[test]
fn pads_nested_structs(rt: HostRuntime) -> Result<(), Fail> {
    let alloc = rt.alloc();
    let mut structs = structs_of(alloc, &[1, 4])?;
    structs.push(struct_def(outer_members(alloc)?))?;
    assert_eq!(rt; behind(alloc, structs, 1)?, (4144, (48, 56, 56)));
    Ok(())
}

/// A function with parameters and locals of these widths and this statement in its body's block.
fn with_values(
    alloc: Global,
    params: &[u8],
    locals: &[u8],
    form: &Form,
) -> Result<Function, NoMemory> {
    let body = block(alloc, statement(alloc, form)?)?;
    let params = locals_of(alloc, params)?;
    let locals = locals_of(alloc, locals)?;
    Ok(function(params, locals, body))
}

/// The widths of a function's parameters and locals, and its statement.
type Values = (&'static [u8], &'static [u8], Form);

/// The offsets of its parameters and locals, that of the first slot, and the frame's size.
type Places = (&'static [u32], &'static [u32], u32, u32);

/// The statements have 0, 2, 2, 4, 6, 14 and 0 expression nodes.
static FRAMES: [(Values, Places); 7] = [
    ((&[], &[], Form::Break), (&[], &[], 0, 0)),
    (
        (&[1, 8], &[4, 4, 4], Form::Return(Some(0))),
        (&[0, 8], &[16, 20, 24], 32, 48),
    ),
    (
        (&[1, 1, 4, 8], &[], Form::Eval(Some(0))),
        (&[0, 1, 4, 8], &[], 16, 32),
    ),
    (
        (&[4, 1], &[1, 1, 1], Form::Eval(Some(2))),
        (&[0, 4], &[5, 6, 7], 8, 40),
    ),
    (
        (&[], &[1, 8], Form::Declare(Some(2))),
        (&[], &[0, 8], 16, 64),
    ),
    (
        (&[8, 1], &[8], Form::For(Some(0), Some(1), Some(2), 3)),
        (&[0, 8], &[16], 24, 136),
    ),
    ((&[1], &[1], Form::Declare(None)), (&[0], &[1], 8, 8)),
];

/// The functions of all rows.
fn functions_of(alloc: Global) -> Result<Items<Function>, NoMemory> {
    let mut functions = Items::new(alloc);
    for ((params, locals, form), _) in &FRAMES {
        functions.push(with_values(alloc, params, locals, form)?)?;
    }
    Ok(functions)
}

fn assert_frame(rt: &impl Abort, found: &Layout, number: usize, wanted: &Places) {
    match found.frames.as_slice().get(number) {
        Some(frame) => {
            let (params, locals, nodes, size) = wanted;
            assert_eq!(rt; frame.params.as_slice(), *params, "frame {number}");
            assert_eq!(rt; frame.locals.as_slice(), *locals, "frame {number}");
            assert_eq!(rt;
                (frame.nodes, frame.size),
                (*nodes, *size),
                "frame {number}"
            );
        }
        None => assert!(rt; false),
    }
}

/// Each frame begins at 0. The locals follow the parameters, and the slots follow the locals from a multiple of 8 on.
#[test]
fn pads_frames(rt: HostRuntime) -> Result<(), Fail> {
    let alloc = rt.alloc();
    let typed = program_of(alloc, functions_of(alloc)?);
    let found = layout(alloc, &typed, &[], 65536, 256, 1)?;
    assert_eq!(rt; found.frames.as_slice().len(), 7);
    for (number, (_, wanted)) in FRAMES.iter().enumerate() {
        assert_frame(&rt, &found, number, wanted);
    }
    Ok(())
}

//! The text of each form of type, by hand.

use super::*;
use c_ast::typed::{Local, StructDef};
use c_ast::{Boxed, Function, Items, Qual, Stmt, StmtKind, Text, Ty, Typed};
use cv_word::{NoMemory, Taint};
use std::alloc::Global;
use std::process::Abort;
use std::test::Fail;

const PUBLIC: Qual = Qual::Fixed(Taint::Pub);

const PRIVATE: Qual = Qual::Fixed(Taint::Priv);

/// The second variable, which is private.
const SOLVED: Qual = Qual::Var(1);

fn pointer(alloc: Global, to: Ty, q: Qual) -> Result<Ty, NoMemory> {
    let to = Boxed::new(alloc, to)?;
    Ok(Ty::Ptr { to, q })
}

fn integer(width: u8, q: Qual) -> Ty {
    Ty::Int { width, q }
}

fn function(alloc: Global, ret: Ty, params: Items<Ty>) -> Result<Ty, NoMemory> {
    let ret = Boxed::new(alloc, ret)?;
    Ok(Ty::Fun { ret, params })
}

/// A name by its number: `f`, `x` and `s`.
fn names(alloc: Global) -> Result<Vec<Text>, NoMemory> {
    let mut names = Vec::new(alloc);
    for letter in [b'f', b'x', b's'] {
        let mut name = Vec::new(alloc);
        name.push(letter)?;
        names.push(Text::from_vec(name))?;
    }
    Ok(names)
}

/// A program with a struct `s`, and a function `f` with these locals, each named `x`.
fn program(alloc: Global, types: Vec<Ty>) -> Result<Typed, NoMemory> {
    let mut locals = Items::new(alloc);
    for ty in types {
        locals.push(Local {
            name: 1,
            place: 0,
            ty,
        })?;
    }
    let mut structs = Items::new(alloc);
    structs.push(StructDef {
        name: 2,
        place: 0,
        members: Items::new(alloc),
    })?;
    let kind = StmtKind::Block {
        items: Items::new(alloc),
    };
    let mut functions = Items::new(alloc);
    functions.push(Function {
        name: 0,
        place: 0,
        ret: Ty::Void,
        params: Items::new(alloc),
        locals,
        body: Stmt { place: 0, kind },
    })?;
    Ok(Typed {
        structs,
        globals: Items::new(alloc),
        strings: Items::new(alloc),
        functions,
        vars: 2,
    })
}

/// Whether the locals of these types have these lines, where the second of two variables is private.
fn lines_are(rt: &impl Abort, alloc: Global, types: Vec<Ty>, expected: &[u8]) -> Result<(), Fail> {
    let names = names(alloc)?;
    let typed = program(alloc, types)?;
    let lines = local_lines(alloc, names.as_slice(), &typed, &[Taint::Pub, Taint::Priv])?;
    assert_eq!(rt; lines.as_slice(), expected);
    Ok(())
}

#[test]
fn base_types(rt: HostRuntime) -> Result<(), Fail> {
    let alloc = rt.alloc();
    let mut types = Vec::new(alloc);
    types.push(integer(1, PUBLIC))?;
    types.push(integer(4, Qual::Var(0)))?;
    types.push(integer(8, PRIVATE))?;
    types.push(integer(1, SOLVED))?;
    types.push(Ty::Struct { id: 0, q: PUBLIC })?;
    types.push(Ty::Struct { id: 0, q: SOLVED })?;
    lines_are(
        &rt,
        alloc,
        types,
        b"f.x: char\nf.x: int\nf.x: private long\nf.x: private char\nf.x: struct s\nf.x: private struct s\n",
    )
}

#[test]
fn pointers_and_arrays(rt: HostRuntime) -> Result<(), Fail> {
    let alloc = rt.alloc();
    let mut types = Vec::new(alloc);
    types.push(pointer(alloc, integer(1, PRIVATE), PUBLIC)?)?;
    types.push(pointer(alloc, pointer(alloc, Ty::Void, SOLVED)?, PUBLIC)?)?;
    let elem = Boxed::new(alloc, pointer(alloc, integer(4, SOLVED), PRIVATE)?)?;
    types.push(Ty::Array { elem, len: 1048576 })?;
    lines_are(
        &rt,
        alloc,
        types,
        b"f.x: private char *\nf.x: void * private *\nf.x: private int * private [1048576]\n",
    )
}

#[test]
fn pointers_to_functions(rt: HostRuntime) -> Result<(), Fail> {
    let alloc = rt.alloc();
    let none = function(alloc, Ty::Void, Items::new(alloc))?;
    let mut params = Items::new(alloc);
    params.push(pointer(alloc, integer(1, PUBLIC), PUBLIC)?)?;
    params.push(pointer(alloc, none, PUBLIC)?)?;
    params.push(integer(8, PRIVATE))?;
    let result = pointer(alloc, integer(4, PRIVATE), PUBLIC)?;
    let mut types = Vec::new(alloc);
    types.push(pointer(alloc, function(alloc, result, params)?, SOLVED)?)?;
    lines_are(
        &rt,
        alloc,
        types,
        b"f.x: private int * (* private) (char *, void (*) (), private long)\n",
    )
}

//! The layouts and limits of small programs, whose trees are built by hand. What is wanted is computed by hand too.

mod globals;
mod nodes;
mod padding;
mod refusals;

use super::*;
use c_ast::typed::{Global as Object, Local, StructDef};
use c_ast::{Boxed, Expr, ExprKind, Function, Items, Qual, Stmt, StmtKind, Text, Ty, Typed};
use cv_word::{NoMemory, Taint};
use std::alloc::Global;
use std::process::Abort;

const PUBLIC: Qual = Qual::Fixed(Taint::Pub);

const PRIVATE: Qual = Qual::Fixed(Taint::Priv);

/// An integer of so many bytes.
fn int(width: u8, q: Qual) -> Ty {
    Ty::Int { width, q }
}

/// The struct with this number.
fn structure(id: u32, q: Qual) -> Ty {
    Ty::Struct { id, q }
}

fn array(alloc: Global, elem: Ty, len: u32) -> Result<Ty, NoMemory> {
    let elem = Boxed::new(alloc, elem)?;
    Ok(Ty::Array { elem, len })
}

/// A pointer to a `char`.
fn pointer(alloc: Global, to: Qual, q: Qual) -> Result<Ty, NoMemory> {
    let to = Boxed::new(alloc, int(1, to))?;
    Ok(Ty::Ptr { to, q })
}

fn local(ty: Ty) -> Local {
    Local {
        name: 0,
        place: 0,
        ty,
    }
}

fn global(alloc: Global, ty: Ty) -> Object {
    Object {
        name: 0,
        place: 0,
        ty,
        start: Text::from_vec(Vec::new(alloc)),
    }
}

/// A statement at the first place.
fn stmt(kind: StmtKind) -> Stmt {
    Stmt { place: 0, kind }
}

/// An expression at the first place.
fn expr(kind: ExprKind) -> Expr {
    Expr {
        place: 0,
        ty: int(8, PUBLIC),
        kind,
    }
}

/// A number.
fn number() -> Expr {
    expr(ExprKind::Num { value: 0 })
}

/// A call with so many arguments: two nodes, and one for each argument.
fn call(alloc: Global, count: usize) -> Result<Expr, NoMemory> {
    let callee = Boxed::new(alloc, number())?;
    let mut args = Items::new(alloc);
    for _ in 0..count {
        args.push(number())?;
    }
    Ok(expr(ExprKind::Call { callee, args }))
}

/// The statement of such a call.
fn calls(alloc: Global, count: usize) -> Result<Stmt, NoMemory> {
    let e = Boxed::new(alloc, call(alloc, count)?)?;
    Ok(stmt(StmtKind::Eval { e: Some(e) }))
}

/// Parameters, locals or members of these widths.
fn locals_of(alloc: Global, widths: &[u8]) -> Result<Items<Local>, NoMemory> {
    let mut locals = Items::new(alloc);
    for width in widths {
        locals.push(local(int(*width, PUBLIC)))?;
    }
    Ok(locals)
}

/// A body's block with one statement.
fn block(alloc: Global, inner: Stmt) -> Result<Stmt, NoMemory> {
    let mut items = Items::new(alloc);
    items.push(inner)?;
    Ok(stmt(StmtKind::Block { items }))
}

fn function(params: Items<Local>, locals: Items<Local>, body: Stmt) -> Function {
    Function {
        name: 0,
        place: 0,
        ret: Ty::Void,
        params,
        locals,
        body,
    }
}

/// A program that has functions alone.
fn program_of(alloc: Global, functions: Items<Function>) -> Typed {
    Typed {
        structs: Items::new(alloc),
        globals: Items::new(alloc),
        strings: Items::new(alloc),
        functions,
        vars: 0,
    }
}

/// A program without functions.
fn data(
    alloc: Global,
    structs: Items<StructDef>,
    globals: Items<Object>,
    strings: Items<Text>,
) -> Typed {
    Typed {
        structs,
        globals,
        strings,
        functions: Items::new(alloc),
        vars: 2,
    }
}

/// A struct with these members.
fn struct_def(members: Items<Local>) -> StructDef {
    StructDef {
        name: 0,
        place: 0,
        members,
    }
}

/// One struct, with members of these widths.
fn structs_of(alloc: Global, widths: &[u8]) -> Result<Items<StructDef>, NoMemory> {
    let members = locals_of(alloc, widths)?;
    let mut structs = Items::new(alloc);
    structs.push(struct_def(members))?;
    Ok(structs)
}

/// The offset with this number, and 0 if there is none.
fn offset(offsets: &[u32], number: usize) -> u32 {
    match offsets.get(number) {
        Some(offset) => *offset,
        None => 0,
    }
}

/// Why a program has no layout, if it has none.
fn refusal(
    rt: &impl Abort,
    alloc: Global,
    typed: &Typed,
    seg_size: u32,
    stack_size: u32,
    entries: u32,
) -> Option<LayoutError> {
    assert!(rt; entries >= 1, "a layout is for at least one entry");
    match layout(alloc, typed, &[], seg_size, stack_size, entries) {
        Ok(_) => None,
        Err(e) => Some(e),
    }
}

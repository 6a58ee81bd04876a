//! The constraints of a few sources, whose trees are built by hand.

use super::*;
use crate::expressions::flow;
use c_ast::typed::{BinaryOp, Global as Object};
use c_ast::{Boxed, Expr, ExprKind, Function, Items, Qual, Stmt, StmtKind, Text, Ty, Typed};
use cv_word::{NoMemory, Taint};
use qual_solve::Constraint;
use std::alloc::Global;
use std::test::Fail;

const PUBLIC: Qual = Qual::Fixed(Taint::Pub);

const PRIVATE: Qual = Qual::Fixed(Taint::Priv);

/// A constraint at its place.
fn at(place: u32, from: Qual, to: Qual) -> Constraint {
    Constraint { from, to, place }
}

/// `int` with this qualifier.
fn int(q: Qual) -> Ty {
    Ty::Int { width: 4, q }
}

/// A pointer with this qualifier.
fn pointer(alloc: Global, to: Ty, q: Qual) -> Result<Ty, NoMemory> {
    let to = Boxed::new(alloc, to)?;
    Ok(Ty::Ptr { to, q })
}

/// A function from one parameter.
fn function(alloc: Global, ret: Ty, param: Ty) -> Result<Ty, NoMemory> {
    let ret = Boxed::new(alloc, ret)?;
    let mut params = Items::new(alloc);
    params.push(param)?;
    Ok(Ty::Fun { ret, params })
}

/// A local of this type.
fn local(place: u32, number: u32, ty: Ty) -> Expr {
    let kind = ExprKind::Local { number };
    Expr { place, ty, kind }
}

/// `return` with a number, at one place.
fn gives(alloc: Global, place: u32, value: u64) -> Result<Stmt, NoMemory> {
    let kind = ExprKind::Num { value };
    let number = Expr {
        place,
        ty: int(PUBLIC),
        kind,
    };
    let e = Some(Boxed::new(alloc, number)?);
    let kind = StmtKind::Return { e };
    Ok(Stmt { place, kind })
}

/// `private char k; int main(){ if (k) return 1; return 0; }`.
fn tests_a_private(alloc: Global) -> Result<Typed, NoMemory> {
    let k = Ty::Int {
        width: 1,
        q: PRIVATE,
    };
    let kind = ExprKind::Global { number: 0 };
    let on = Boxed::new(
        alloc,
        Expr {
            place: 32,
            ty: k,
            kind,
        },
    )?;
    let yes = Boxed::new(alloc, gives(alloc, 35, 1)?)?;
    let kind = StmtKind::If { on, yes, no: None };
    let mut items = Items::new(alloc);
    items.push(Stmt { place: 28, kind })?;
    items.push(gives(alloc, 45, 0)?)?;
    let kind = StmtKind::Block { items };
    let mut functions = Items::new(alloc);
    functions.push(Function {
        name: 1,
        place: 20,
        ret: int(Qual::Var(0)),
        params: Items::new(alloc),
        locals: Items::new(alloc),
        body: Stmt { place: 26, kind },
    })?;
    let ty = Ty::Int {
        width: 1,
        q: PRIVATE,
    };
    let mut globals = Items::new(alloc);
    globals.push(Object {
        name: 0,
        place: 13,
        ty,
        start: Text::from_vec(Vec::new(alloc)),
    })?;
    Ok(Typed {
        structs: Items::new(alloc),
        globals,
        strings: Items::new(alloc),
        functions,
        vars: 1,
    })
}

/// `x = a + b`, with a variable for each name.
fn adds(alloc: Global) -> Result<Expr, NoMemory> {
    let a = Boxed::new(alloc, local(4, 1, int(Qual::Var(1))))?;
    let b = Boxed::new(alloc, local(8, 2, int(Qual::Var(2))))?;
    let op = BinaryOp::Add;
    let kind = ExprKind::Binary { op, a, b };
    let ty = int(PUBLIC);
    let from = Boxed::new(alloc, Expr { place: 6, ty, kind })?;
    let to = Boxed::new(alloc, local(0, 0, int(Qual::Var(0))))?;
    let kind = ExprKind::Assign { to, from };
    let ty = int(Qual::Var(0));
    Ok(Expr { place: 2, ty, kind })
}

/// A pointer to a pointer to `int`, with its three levels' variables.
fn twice(alloc: Global, outer: u32, middle: u32, inner: u32) -> Result<Ty, NoMemory> {
    let to = pointer(alloc, int(Qual::Var(inner)), Qual::Var(middle))?;
    pointer(alloc, to, Qual::Var(outer))
}

/// `f(p)`, where both are locals and `f` is a pointer to a function.
fn calls(alloc: Global) -> Result<Expr, NoMemory> {
    let called = function(alloc, int(Qual::Var(6)), twice(alloc, 3, 4, 5)?)?;
    let callee = local(0, 0, pointer(alloc, called, PRIVATE)?);
    let mut args = Items::new(alloc);
    args.push(local(2, 1, twice(alloc, 0, 1, 2)?))?;
    let callee = Boxed::new(alloc, callee)?;
    let kind = ExprKind::Call { callee, args };
    let ty = int(Qual::Var(6));
    Ok(Expr { place: 1, ty, kind })
}

/// A branch on what is private has one constraint, which can't be met.
#[test]
fn branches_on_a_private(rt: HostRuntime) -> Result<(), Fail> {
    let typed = tests_a_private(rt.alloc())?;
    let list = constraints(rt.alloc(), &typed)?;
    assert_eq!(rt; list.as_slice(), [at(32, PRIVATE, PUBLIC)].as_slice());
    Ok(())
}

/// Both operands flow to what is assigned, each at its own place.
#[test]
fn assigns_a_sum(rt: HostRuntime) -> Result<(), Fail> {
    let e = adds(rt.alloc())?;
    let mut out = Vec::new(rt.alloc());
    let sources = flow(rt.alloc(), &e, &mut out)?;
    assert_eq!(rt;
        out.as_slice(),
        [
            at(4, Qual::Var(1), Qual::Var(0)),
            at(8, Qual::Var(2), Qual::Var(0)),
        ]
        .as_slice()
    );
    let q = Qual::Var(0);
    assert_eq!(rt; sources.as_slice(), [Source { q, place: 2 }].as_slice());
    Ok(())
}

/// The outermost level of an argument flows to the parameter, those below are the same, and the callee is public.
#[test]
fn passes_a_pointer(rt: HostRuntime) -> Result<(), Fail> {
    let e = calls(rt.alloc())?;
    let mut out = Vec::new(rt.alloc());
    let sources = flow(rt.alloc(), &e, &mut out)?;
    assert_eq!(rt;
        out.as_slice(),
        [
            at(2, Qual::Var(0), Qual::Var(3)),
            at(2, Qual::Var(1), Qual::Var(4)),
            at(2, Qual::Var(4), Qual::Var(1)),
            at(2, Qual::Var(2), Qual::Var(5)),
            at(2, Qual::Var(5), Qual::Var(2)),
            at(0, PRIVATE, PUBLIC),
        ]
        .as_slice()
    );
    let q = Qual::Var(6);
    assert_eq!(rt; sources.as_slice(), [Source { q, place: 1 }].as_slice());
    Ok(())
}

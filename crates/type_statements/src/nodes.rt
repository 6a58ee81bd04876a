//! Nodes of statements: none where a part has none.

ghost use Rattle.std.specs.Prelude.{◌≡◌, IfOk};
ghost use Rattle.type_rules.specs.Statements as def;

use c_ast::typed::{Expr, Stmt, StmtKind};
use c_ast::{Boxed, Items};
use cv_word::NoMemory;
use std::alloc::Global;

fn boxed(alloc: Global, e: Option<Expr>) -> Result<Option<Boxed<Expr>>, NoMemory>
    ensures { IfOk result (λ b. b ≡ e) }
{
    match e {
        None => Ok(None),
        Some(e) => {
            let e = Boxed::new(alloc, e)?;
            Ok(Some(e))
        }
    }
}

fn boxed_statement(alloc: Global, s: Option<Stmt>) -> Result<Option<Boxed<Stmt>>, NoMemory>
    ensures { IfOk result (λ b. b ≡ s) }
{
    match s {
        None => Ok(None),
        Some(s) => {
            let s = Boxed::new(alloc, s)?;
            Ok(Some(s))
        }
    }
}

pub fn eval_of(alloc: Global, place: u32, e: Option<Option<Expr>>) -> Result<Option<Stmt>, NoMemory>
    ensures { IfOk result (λ s. s ≡ def.eval_of place e) }
{
    match e {
        None => Ok(None),
        Some(e) => {
            let e = boxed(alloc, e)?;
            let kind = StmtKind::Eval { e };
            Ok(Some(Stmt { place, kind }))
        }
    }
}

fn if_node(
    alloc: Global,
    place: u32,
    on: Expr,
    yes: Stmt,
    no: Option<Stmt>,
) -> Result<Stmt, NoMemory>
    ensures { IfOk result (λ s. s ≡ def.if_node place on yes no) }
{
    let on = Boxed::new(alloc, on)?;
    let yes = Boxed::new(alloc, yes)?;
    let no = boxed_statement(alloc, no)?;
    let kind = StmtKind::If { on, yes, no };
    Ok(Stmt { place, kind })
}

pub fn if_of(
    alloc: Global,
    place: u32,
    on: Option<Expr>,
    yes: Option<Stmt>,
    no: Option<Option<Stmt>>,
) -> Result<Option<Stmt>, NoMemory>
    ensures { IfOk result (λ s. s ≡ def.if_of place on yes no) }
{
    match on.zip(yes).zip(no) {
        None => Ok(None),
        Some(((on, yes), no)) => {
            let node = if_node(alloc, place, on, yes, no)?;
            Ok(Some(node))
        }
    }
}

pub fn while_of(
    alloc: Global,
    place: u32,
    on: Option<Expr>,
    body: Option<Stmt>,
) -> Result<Option<Stmt>, NoMemory>
    ensures { IfOk result (λ s. s ≡ def.while_of place on body) }
{
    match on.zip(body) {
        None => Ok(None),
        Some((on, body)) => {
            let on = Boxed::new(alloc, on)?;
            let body = Boxed::new(alloc, body)?;
            let kind = StmtKind::While { on, body };
            Ok(Some(Stmt { place, kind }))
        }
    }
}

pub fn do_while_of(
    alloc: Global,
    place: u32,
    body: Option<Stmt>,
    on: Option<Expr>,
) -> Result<Option<Stmt>, NoMemory>
    ensures { IfOk result (λ s. s ≡ def.do_while_of place body on) }
{
    match body.zip(on) {
        None => Ok(None),
        Some((body, on)) => {
            let on = Boxed::new(alloc, on)?;
            let body = Boxed::new(alloc, body)?;
            let kind = StmtKind::DoWhile { body, on };
            Ok(Some(Stmt { place, kind }))
        }
    }
}

fn for_node(
    alloc: Global,
    place: u32,
    first: Option<Expr>,
    on: Option<Expr>,
    after: Option<Expr>,
    body: Stmt,
) -> Result<Stmt, NoMemory>
    ensures { IfOk result (λ s. s ≡ def.for_node place first on after body) }
{
    let first = boxed(alloc, first)?;
    let on = boxed(alloc, on)?;
    let after = boxed(alloc, after)?;
    let body = Boxed::new(alloc, body)?;
    let kind = StmtKind::For {
        first,
        on,
        after,
        body,
    };
    Ok(Stmt { place, kind })
}

pub fn for_of(
    alloc: Global,
    place: u32,
    first: Option<Option<Expr>>,
    on: Option<Option<Expr>>,
    after: Option<Option<Expr>>,
    body: Option<Stmt>,
) -> Result<Option<Stmt>, NoMemory>
    ensures { IfOk result (λ s. s ≡ def.for_of place first on after body) }
{
    match first.zip(on).zip(after.zip(body)) {
        None => Ok(None),
        Some(((first, on), (after, body))) => {
            let node = for_node(alloc, place, first, on, after, body)?;
            Ok(Some(node))
        }
    }
}

pub fn block_node(place: u32, items: Items<Stmt>) -> Option<Stmt>
    ensures { result ≡ def.block_node place items }
{
    let kind = StmtKind::Block { items };
    Some(Stmt { place, kind })
}

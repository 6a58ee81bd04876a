//! Statements and blocks: the rules that are asked of one, and its node.

ghost use Rattle.std.specs.Option.{option_map};
ghost use Rattle.std.specs.Prelude.{◌≡◌, IfOk, OnOk, map};
ghost use Rattle.type_rules.specs.Statements as def;

use crate::locals::{declare_locals, push_item};
use crate::nodes::{block_node, do_while_of, eval_of, for_of, if_of, while_of};
use crate::returns::{leave, return_stated};
use c_ast::program::{BlockItem, Expression, Statement, StatementKind};
use c_ast::typed::{Expr, Stmt, StmtKind};
use c_ast::{Boxed, Items};
use cv_word::NoMemory;
use std::alloc::Global;
use type_expressions::type_of;
use type_operators::condition;
use type_rules::frames::Frame;
use type_rules::known::Known;
use type_rules::notes::Notes;

/// A condition that is no integer or pointer is K4.
#[tactic(auto, unfolding(type_rules::specs::Statements::condition_of))]
fn condition_of(
    alloc: Global,
    e: &Expression,
    known: &Known,
    notes: &mut Notes,
) -> Result<Option<Expr>, NoMemory>
    ensures node { IfOk result (λ n. n ≡ (def.condition_of e.now known.now notes.old).node) }
    ensures notes { OnOk result (notes.new ≡ (def.condition_of e.now known.now notes.old).notes) }
{
    let p = type_of(alloc, e, false, known, notes)?;
    condition(p, notes)
}

fn present(e: Option<Expr>) -> Option<Option<Expr>>
    ensures { result ≡ def.present e }
{
    match e {
        None => None,
        Some(e) => Some(Some(e)),
    }
}

/// An expression that may be missing: none where a rule is broken in it.
#[tactic(auto, unfolding(type_rules::specs::Statements::perhaps))]
fn perhaps(
    alloc: Global,
    e: &Option<Boxed<Expression>>,
    known: &Known,
    notes: &mut Notes,
) -> Result<Option<Option<Expr>>, NoMemory>
    ensures node { IfOk result (λ n. n ≡ (def.perhaps e.now known.now notes.old).node) }
    ensures notes { OnOk result (notes.new ≡ (def.perhaps e.now known.now notes.old).notes) }
{
    match e {
        None => Ok(Some(None)),
        Some(e) => {
            let p = type_of(alloc, e.get(), false, known, notes)?;
            Ok(present(p.node))
        }
    }
}

#[tactic(auto, unfolding(type_rules::specs::Statements::perhaps_condition))]
fn perhaps_condition(
    alloc: Global,
    e: &Option<Boxed<Expression>>,
    known: &Known,
    notes: &mut Notes,
) -> Result<Option<Option<Expr>>, NoMemory>
    ensures node { IfOk result (λ n. n ≡ (def.perhaps_condition e.now known.now notes.old).node) }
    ensures notes { OnOk result (notes.new ≡ (def.perhaps_condition e.now known.now notes.old).notes) }
{
    match e {
        None => Ok(Some(None)),
        Some(e) => {
            let node = condition_of(alloc, e.get(), known, notes)?;
            Ok(present(node))
        }
    }
}

/// A branch that may be missing.
#[cycle(statements)]
fn branch(
    alloc: Global,
    s: &Option<Boxed<Statement>>,
    frame: &Frame,
    in_loop: bool,
    known: &mut Known,
    notes: &mut Notes,
) -> Result<Option<Option<Stmt>>, NoMemory>
    ensures node { IfOk result (λ n. n ≡ (def.branch (option_map def.statement_typed s.now) frame.now in_loop known.old notes.old).node) }
    ensures notes { OnOk result (notes.new ≡ (def.branch (option_map def.statement_typed s.now) frame.now in_loop known.old notes.old).notes) }
    ensures known { OnOk result (known.new ≡ known.old) }
{
    match s {
        None => Ok(Some(None)),
        Some(s) => match statement(alloc, s.get(), frame, in_loop, known, notes)? {
            None => Ok(None),
            Some(node) => Ok(Some(Some(node))),
        },
    }
}

/// An expression by itself.
fn eval_stated(
    alloc: Global,
    place: u32,
    value: &Option<Boxed<Expression>>,
    known: &Known,
    notes: &mut Notes,
) -> Result<Option<Stmt>, NoMemory>
    ensures node { IfOk result (λ n. n ≡ def.eval_of place (def.perhaps value.now known.now notes.old).node) }
    ensures notes { OnOk result (notes.new ≡ (def.perhaps value.now known.now notes.old).notes) }
{
    let e = perhaps(alloc, value, known, notes)?;
    eval_of(alloc, place, e)
}

/// A block.
#[tactic(auto, unfolding(type_rules::specs::Statements::block_stated))]
#[cycle(statements)]
fn block_stated(
    alloc: Global,
    place: u32,
    all: &[BlockItem],
    frame: &Frame,
    in_loop: bool,
    known: &mut Known,
    notes: &mut Notes,
) -> Result<Option<Stmt>, NoMemory>
    ensures node { IfOk result (λ n. n ≡ (def.block_stated (def.block_of (map def.item_typed all.now)) place frame.now in_loop known.old notes.old).node) }
    ensures notes { OnOk result (notes.new ≡ (def.block_stated (def.block_of (map def.item_typed all.now)) place frame.now in_loop known.old notes.old).notes) }
    ensures known { OnOk result (known.new ≡ known.old) }
{
    let start = known.scope.len();
    let items = block_items(alloc, all, frame, in_loop, start, known, notes)?;
    Ok(block_node(place, items))
}

/// `if`.
#[tactic(auto, unfolding(type_rules::specs::Statements::if_stated))]
#[cycle(statements)]
fn if_stated(
    alloc: Global,
    place: u32,
    on: &Expression,
    yes: &Statement,
    no: &Option<Boxed<Statement>>,
    frame: &Frame,
    in_loop: bool,
    known: &mut Known,
    notes: &mut Notes,
) -> Result<Option<Stmt>, NoMemory>
    ensures node { IfOk result (λ n. n ≡ (def.if_stated on.now (def.statement_typed yes.now) (option_map def.statement_typed no.now) place frame.now in_loop known.old notes.old).node) }
    ensures notes { OnOk result (notes.new ≡ (def.if_stated on.now (def.statement_typed yes.now) (option_map def.statement_typed no.now) place frame.now in_loop known.old notes.old).notes) }
    ensures known { OnOk result (known.new ≡ known.old) }
{
    let on = condition_of(alloc, on, known, notes)?;
    let yes = statement(alloc, yes, frame, in_loop, known, notes)?;
    let no = branch(alloc, no, frame, in_loop, known, notes)?;
    if_of(alloc, place, on, yes, no)
}

/// `while`.
#[tactic(auto, unfolding(type_rules::specs::Statements::while_stated))]
#[cycle(statements)]
fn while_stated(
    alloc: Global,
    place: u32,
    on: &Expression,
    body: &Statement,
    frame: &Frame,
    in_loop: bool,
    known: &mut Known,
    notes: &mut Notes,
) -> Result<Option<Stmt>, NoMemory>
    ensures node { IfOk result (λ n. n ≡ (def.while_stated on.now (def.statement_typed body.now) place frame.now in_loop known.old notes.old).node) }
    ensures notes { OnOk result (notes.new ≡ (def.while_stated on.now (def.statement_typed body.now) place frame.now in_loop known.old notes.old).notes) }
    ensures known { OnOk result (known.new ≡ known.old) }
{
    let on = condition_of(alloc, on, known, notes)?;
    let body = statement(alloc, body, frame, true, known, notes)?;
    while_of(alloc, place, on, body)
}

/// `do` and `while`.
#[tactic(auto, unfolding(type_rules::specs::Statements::do_while_stated))]
#[cycle(statements)]
fn do_while_stated(
    alloc: Global,
    place: u32,
    body: &Statement,
    on: &Expression,
    frame: &Frame,
    in_loop: bool,
    known: &mut Known,
    notes: &mut Notes,
) -> Result<Option<Stmt>, NoMemory>
    ensures node { IfOk result (λ n. n ≡ (def.do_while_stated (def.statement_typed body.now) on.now place frame.now in_loop known.old notes.old).node) }
    ensures notes { OnOk result (notes.new ≡ (def.do_while_stated (def.statement_typed body.now) on.now place frame.now in_loop known.old notes.old).notes) }
    ensures known { OnOk result (known.new ≡ known.old) }
{
    let body = statement(alloc, body, frame, true, known, notes)?;
    let on = condition_of(alloc, on, known, notes)?;
    do_while_of(alloc, place, body, on)
}

/// `for`.
#[tactic(auto, unfolding(type_rules::specs::Statements::for_stated))]
#[cycle(statements)]
fn for_stated(
    alloc: Global,
    place: u32,
    first: &Option<Boxed<Expression>>,
    on: &Option<Boxed<Expression>>,
    after: &Option<Boxed<Expression>>,
    body: &Statement,
    frame: &Frame,
    in_loop: bool,
    known: &mut Known,
    notes: &mut Notes,
) -> Result<Option<Stmt>, NoMemory>
    ensures node { IfOk result (λ n. n ≡ (def.for_stated first.now on.now after.now (def.statement_typed body.now) place frame.now in_loop known.old notes.old).node) }
    ensures notes { OnOk result (notes.new ≡ (def.for_stated first.now on.now after.now (def.statement_typed body.now) place frame.now in_loop known.old notes.old).notes) }
    ensures known { OnOk result (known.new ≡ known.old) }
{
    let first = perhaps(alloc, first, known, notes)?;
    let on = perhaps_condition(alloc, on, known, notes)?;
    let after = perhaps(alloc, after, known, notes)?;
    let body = statement(alloc, body, frame, true, known, notes)?;
    for_of(alloc, place, first, on, after, body)
}

/// A statement's node.
#[tactic(auto, unfolding(type_rules::specs::Statements::eval_stated))]
#[cycle(statements)]
fn statement(
    alloc: Global,
    s: &Statement,
    frame: &Frame,
    in_loop: bool,
    known: &mut Known,
    notes: &mut Notes,
) -> Result<Option<Stmt>, NoMemory>
    ensures node { IfOk result (λ n. n ≡ (def.statement_typed s.now frame.now in_loop known.old notes.old).node) }
    ensures notes { OnOk result (notes.new ≡ (def.statement_typed s.now frame.now in_loop known.old notes.old).notes) }
    ensures known { OnOk result (known.new ≡ known.old) }
{
    let place = s.place;
    match &s.kind {
        StatementKind::Block { block } => block_stated(
            alloc,
            place,
            block.items.as_slice(),
            frame,
            in_loop,
            known,
            notes,
        ),
        StatementKind::Eval { value } => eval_stated(alloc, place, value, known, notes),
        StatementKind::If {
            condition,
            then,
            otherwise,
        } => if_stated(
            alloc,
            place,
            condition.get(),
            then.get(),
            otherwise,
            frame,
            in_loop,
            known,
            notes,
        ),
        StatementKind::While { condition, body } => while_stated(
            alloc,
            place,
            condition.get(),
            body.get(),
            frame,
            in_loop,
            known,
            notes,
        ),
        StatementKind::DoWhile { body, condition } => do_while_stated(
            alloc,
            place,
            body.get(),
            condition.get(),
            frame,
            in_loop,
            known,
            notes,
        ),
        StatementKind::For {
            first,
            condition,
            after,
            body,
        } => for_stated(
            alloc,
            place,
            first,
            condition,
            after,
            body.get(),
            frame,
            in_loop,
            known,
            notes,
        ),
        StatementKind::Return { value } => return_stated(alloc, place, value, frame, known, notes),
        StatementKind::Break => leave(place, in_loop, StmtKind::Break, notes),
        StatementKind::Continue => leave(place, in_loop, StmtKind::Continue, notes),
    }
}

/// One more item of a block.
#[tactic(auto, unfolding(type_rules::specs::Statements::item_typed, type_rules::specs::Statements::item_step))]
#[cycle(statements)]
fn block_item(
    alloc: Global,
    item: &BlockItem,
    frame: &Frame,
    in_loop: bool,
    start: usize,
    known: &mut Known,
    items: &mut Items<Stmt>,
    notes: &mut Notes,
) -> Result<(), NoMemory>
    ensures known { OnOk result (known.new ≡ (def.item_typed item.now frame.now in_loop start (record { known = known.old; items = items.old; notes = notes.old })).known) }
    ensures items { OnOk result (items.new ≡ (def.item_typed item.now frame.now in_loop start (record { known = known.old; items = items.old; notes = notes.old })).items) }
    ensures notes { OnOk result (notes.new ≡ (def.item_typed item.now frame.now in_loop start (record { known = known.old; items = items.old; notes = notes.old })).notes) }
{
    match item {
        BlockItem::Declare { declaration } => {
            declare_locals(alloc, frame, start, declaration, known, items, notes)
        }
        BlockItem::Run { statement: s } => {
            let node = statement(alloc, s, frame, in_loop, known, notes)?;
            push_item(items, node)
        }
    }
}

/// The items of a block. What it declares is forgotten behind it.
#[cycle(statements)]
pub fn block_items(
    alloc: Global,
    all: &[BlockItem],
    frame: &Frame,
    in_loop: bool,
    start: usize,
    known: &mut Known,
    notes: &mut Notes,
) -> Result<Items<Stmt>, NoMemory>
    ensures items { IfOk result (λ r. r ≡ (def.block_of (map def.item_typed all.now) frame.now in_loop start known.old notes.old).items) }
    ensures notes { OnOk result (notes.new ≡ (def.block_of (map def.item_typed all.now) frame.now in_loop start known.old notes.old).notes) }
    ensures known { OnOk result (known.new ≡ known.old) }
{
    let before = known.scope.len();
    let mut items = Items::new(alloc);
    for item in all {
        block_item(alloc, item, frame, in_loop, start, known, &mut items, notes)?;
    }
    known.scope.forget(before);
    Ok(items)
}

//! Statements and blocks.

ghost use Rattle.c_grammar.specs.Grammar as form;
ghost use Rattle.c_grammar.specs.Grammar.{B, Here, N, T};
ghost use Rattle.c_parser.specs.Parts.{IsShallow, Pushes, Reads, Sticks};
ghost use Rattle.c_parser.specs.Paths.{Breaks, IsReady};
ghost use Rattle.c_grammar.specs.Steps.{MakeDoWhile, MakeEval, MakeFor, MakeReturn, MakeWhile, OfBlock, OfKind, OfStatement, Give};
ghost use Rattle.c_parser.specs.Operators.{begins_item};
ghost use Rattle.c_parser.specs.declared.errors.ParseError.TheVariants.{NoMemory};
ghost use Rattle.c_grammar.specs.declared.words.Terminal.TheVariants as terminal;
ghost use Rattle.c_ast.specs.declared.program.StatementKind as statement;
ghost use Rattle.std.specs.Prelude.{◌≡◌, ◌<◌, ◌≤◌, ◌+◌, true, None, Some, [], ◌∷◌, drop, IfErr, IfOk};

use crate::errors::ParseError;
use crate::objects::{declaration, perhaps_whole, whole};
use crate::operators::{begins_evaluation, begins_item};
use crate::spot::{NESTING, Spot, next_is, place_here, take, take_here};
use crate::types::begins_type;
use c_ast::program::{Block, BlockItem, Expression, Statement, StatementKind};
use c_ast::{Boxed, Items};
use c_grammar::{Terminal, Word};
use std::alloc::Global;

/// An expression and `;`, or `;` alone.
fn evaluation(
    alloc: Global,
    words: &[Word],
    spot: Spot,
) -> Result<(StatementKind, Spot), ParseError>
    requires ready { IsReady words.now spot }
    requires shallow { IsShallow spot }
    requires room { spot.depth ≤ NESTING + 1 }
    requires none_ended { spot.ended ≡ 0 }
    ensures read { IfOk result (λ r. Reads words.now spot (N form.PerhapsWhole ∷ T terminal.Semicolon ∷ B MakeEval ∷ []) r.1 (OfKind r.0)) }
    ensures none_ended { IfOk result (λ r. r.1.ended ≡ 0) }
    ensures on { IfOk result (λ r. spot.at < r.1.at) }
    ensures refused { IfErr result (Breaks NESTING words.now spot (N form.PerhapsWhole ∷ T terminal.Semicolon ∷ B MakeEval ∷ [])) }
{
    let (value, one) = perhaps_whole(alloc, words, spot)?;
    let (_, two) = take(words, one, Terminal::Semicolon)?;
    Ok((StatementKind::Eval { value }, two))
}

/// `return` with a value or without.
fn returning(alloc: Global, words: &[Word], spot: Spot) -> Result<(StatementKind, Spot), ParseError>
    requires ready { IsReady words.now spot }
    requires shallow { IsShallow spot }
    requires room { spot.depth ≤ NESTING + 1 }
    requires none_ended { spot.ended ≡ 0 }
    ensures read { IfOk result (λ r. Reads words.now spot (T terminal.Return ∷ N form.PerhapsWhole ∷ T terminal.Semicolon ∷ B MakeReturn ∷ []) r.1 (OfKind r.0)) }
    ensures none_ended { IfOk result (λ r. r.1.ended ≡ 0) }
    ensures on { IfOk result (λ r. spot.at < r.1.at) }
    ensures refused { IfErr result (Breaks NESTING words.now spot (T terminal.Return ∷ N form.PerhapsWhole ∷ T terminal.Semicolon ∷ B MakeReturn ∷ [])) }
{
    let (_, one) = take(words, spot, Terminal::Return)?;
    let (value, two) = perhaps_whole(alloc, words, one)?;
    let (_, three) = take(words, two, Terminal::Semicolon)?;
    Ok((StatementKind::Return { value }, three))
}

/// `break;`
fn breaking(words: &[Word], spot: Spot) -> Result<(StatementKind, Spot), ParseError>
    requires ready { IsReady words.now spot }
    requires shallow { IsShallow spot }
    requires room { spot.depth ≤ NESTING + 1 }
    requires none_ended { spot.ended ≡ 0 }
    ensures read { IfOk result (λ r. Reads words.now spot (T terminal.Break ∷ T terminal.Semicolon ∷ B (Give (OfKind statement.Break)) ∷ []) r.1 (OfKind r.0)) }
    ensures none_ended { IfOk result (λ r. r.1.ended ≡ 0) }
    ensures on { IfOk result (λ r. spot.at < r.1.at) }
    ensures refused { IfErr result (Breaks NESTING words.now spot (T terminal.Break ∷ T terminal.Semicolon ∷ B (Give (OfKind statement.Break)) ∷ [])) }
{
    let (_, one) = take(words, spot, Terminal::Break)?;
    let (_, two) = take(words, one, Terminal::Semicolon)?;
    Ok((StatementKind::Break, two))
}

/// `continue;`
fn continuing(words: &[Word], spot: Spot) -> Result<(StatementKind, Spot), ParseError>
    requires ready { IsReady words.now spot }
    requires shallow { IsShallow spot }
    requires room { spot.depth ≤ NESTING + 1 }
    requires none_ended { spot.ended ≡ 0 }
    ensures read { IfOk result (λ r. Reads words.now spot (T terminal.Continue ∷ T terminal.Semicolon ∷ B (Give (OfKind statement.Continue)) ∷ []) r.1 (OfKind r.0)) }
    ensures none_ended { IfOk result (λ r. r.1.ended ≡ 0) }
    ensures on { IfOk result (λ r. spot.at < r.1.at) }
    ensures refused { IfErr result (Breaks NESTING words.now spot (T terminal.Continue ∷ T terminal.Semicolon ∷ B (Give (OfKind statement.Continue)) ∷ [])) }
{
    let (_, one) = take(words, spot, Terminal::Continue)?;
    let (_, two) = take(words, one, Terminal::Semicolon)?;
    Ok((StatementKind::Continue, two))
}

/// An `if` without `else`.
fn if_of(alloc: Global, test: Expression, first: Statement) -> Result<StatementKind, ParseError>
    ensures value { IfOk result (λ r. r ≡ StatementKind.If test first None) }
    ensures refused { IfErr result (λ e. e ≡ NoMemory) }
{
    let condition = Boxed::new(alloc, test)?;
    let then = Boxed::new(alloc, first)?;
    let otherwise = None;
    Ok(StatementKind::If {
        condition,
        then,
        otherwise,
    })
}

/// An `if` with `else`.
fn either_of(
    alloc: Global,
    test: Expression,
    first: Statement,
    second: Statement,
) -> Result<StatementKind, ParseError>
    ensures value { IfOk result (λ r. r ≡ StatementKind.If test first (Some second)) }
    ensures refused { IfErr result (λ e. e ≡ NoMemory) }
{
    let condition = Boxed::new(alloc, test)?;
    let then = Boxed::new(alloc, first)?;
    let other = Boxed::new(alloc, second)?;
    let otherwise = Some(other);
    Ok(StatementKind::If {
        condition,
        then,
        otherwise,
    })
}

/// A `while` of its test and its body.
fn while_of(alloc: Global, test: Expression, turn: Statement) -> Result<StatementKind, ParseError>
    ensures value { IfOk result (λ r. r ≡ StatementKind.While test turn) }
    ensures refused { IfErr result (λ e. e ≡ NoMemory) }
{
    let condition = Boxed::new(alloc, test)?;
    let body = Boxed::new(alloc, turn)?;
    Ok(StatementKind::While { condition, body })
}

/// A `do` of its body and its test.
fn do_of(alloc: Global, turn: Statement, test: Expression) -> Result<StatementKind, ParseError>
    ensures value { IfOk result (λ r. r ≡ StatementKind.DoWhile turn test) }
    ensures refused { IfErr result (λ e. e ≡ NoMemory) }
{
    let condition = Boxed::new(alloc, test)?;
    let body = Boxed::new(alloc, turn)?;
    Ok(StatementKind::DoWhile { body, condition })
}

/// `if` with its branches. An `else` goes with the nearest `if`.
#[cycle(statements)]
fn branching(alloc: Global, words: &[Word], spot: Spot) -> Result<(StatementKind, Spot), ParseError>
    requires ready { IsReady words.now spot }
    requires shallow { IsShallow spot }
    requires room { spot.depth ≤ NESTING + 1 }
    requires none_ended { spot.ended ≡ 0 }
    ensures read { IfOk result (λ r. Reads words.now spot (T terminal.If ∷ T terminal.Open ∷ N form.Whole ∷ T terminal.Close ∷ N form.Statement ∷ N form.PerhapsElse ∷ []) r.1 (OfKind r.0)) }
    ensures none_ended { IfOk result (λ r. r.1.ended ≡ 0) }
    ensures on { IfOk result (λ r. spot.at < r.1.at) }
    ensures refused { IfErr result (Breaks NESTING words.now spot (T terminal.If ∷ T terminal.Open ∷ N form.Whole ∷ T terminal.Close ∷ N form.Statement ∷ N form.PerhapsElse ∷ [])) }
{
    let (_, one) = take(words, spot, Terminal::If)?;
    let (_, two) = take(words, one, Terminal::Open)?;
    let (test, three) = whole(alloc, words, two)?;
    let (_, four) = take(words, three, Terminal::Close)?;
    let (first, five) = statement(alloc, words, four)?;
    if !next_is(words, five.at, Terminal::Else) {
        let alone = if_of(alloc, test, first)?;
        return Ok((alone, five));
    }
    let (_, six) = take(words, five, Terminal::Else)?;
    let (second, seven) = statement(alloc, words, six)?;
    let either = either_of(alloc, test, first, second)?;
    Ok((either, seven))
}

/// `while`
#[cycle(statements)]
fn while_loop(
    alloc: Global,
    words: &[Word],
    spot: Spot,
) -> Result<(StatementKind, Spot), ParseError>
    requires ready { IsReady words.now spot }
    requires shallow { IsShallow spot }
    requires room { spot.depth ≤ NESTING + 1 }
    requires none_ended { spot.ended ≡ 0 }
    ensures read { IfOk result (λ r. Reads words.now spot (T terminal.While ∷ T terminal.Open ∷ N form.Whole ∷ T terminal.Close ∷ N form.Statement ∷ B MakeWhile ∷ []) r.1 (OfKind r.0)) }
    ensures none_ended { IfOk result (λ r. r.1.ended ≡ 0) }
    ensures on { IfOk result (λ r. spot.at < r.1.at) }
    ensures refused { IfErr result (Breaks NESTING words.now spot (T terminal.While ∷ T terminal.Open ∷ N form.Whole ∷ T terminal.Close ∷ N form.Statement ∷ B MakeWhile ∷ [])) }
{
    let (_, one) = take(words, spot, Terminal::While)?;
    let (_, two) = take(words, one, Terminal::Open)?;
    let (test, three) = whole(alloc, words, two)?;
    let (_, four) = take(words, three, Terminal::Close)?;
    let (turn, five) = statement(alloc, words, four)?;
    let kind = while_of(alloc, test, turn)?;
    Ok((kind, five))
}

/// `do`, and `while` behind its body
#[cycle(statements)]
fn do_loop(alloc: Global, words: &[Word], spot: Spot) -> Result<(StatementKind, Spot), ParseError>
    requires ready { IsReady words.now spot }
    requires shallow { IsShallow spot }
    requires room { spot.depth ≤ NESTING + 1 }
    requires none_ended { spot.ended ≡ 0 }
    ensures read { IfOk result (λ r. Reads words.now spot (T terminal.Do ∷ N form.Statement ∷ T terminal.While ∷ T terminal.Open ∷ N form.Whole ∷ T terminal.Close ∷ T terminal.Semicolon ∷ B MakeDoWhile ∷ []) r.1 (OfKind r.0)) }
    ensures none_ended { IfOk result (λ r. r.1.ended ≡ 0) }
    ensures on { IfOk result (λ r. spot.at < r.1.at) }
    ensures refused { IfErr result (Breaks NESTING words.now spot (T terminal.Do ∷ N form.Statement ∷ T terminal.While ∷ T terminal.Open ∷ N form.Whole ∷ T terminal.Close ∷ T terminal.Semicolon ∷ B MakeDoWhile ∷ [])) }
{
    let (_, one) = take(words, spot, Terminal::Do)?;
    let (turn, two) = statement(alloc, words, one)?;
    let (_, three) = take(words, two, Terminal::While)?;
    let (_, four) = take(words, three, Terminal::Open)?;
    let (test, five) = whole(alloc, words, four)?;
    let (_, six) = take(words, five, Terminal::Close)?;
    let (_, seven) = take(words, six, Terminal::Semicolon)?;
    let kind = do_of(alloc, turn, test)?;
    Ok((kind, seven))
}

/// `for`
#[cycle(statements)]
fn for_loop(alloc: Global, words: &[Word], spot: Spot) -> Result<(StatementKind, Spot), ParseError>
    requires ready { IsReady words.now spot }
    requires shallow { IsShallow spot }
    requires room { spot.depth ≤ NESTING + 1 }
    requires none_ended { spot.ended ≡ 0 }
    ensures read { IfOk result (λ r. Reads words.now spot (T terminal.For ∷ T terminal.Open ∷ N form.PerhapsWhole ∷ T terminal.Semicolon ∷ N form.PerhapsWhole ∷ T terminal.Semicolon ∷ N form.PerhapsWhole ∷ T terminal.Close ∷ N form.Statement ∷ B MakeFor ∷ []) r.1 (OfKind r.0)) }
    ensures none_ended { IfOk result (λ r. r.1.ended ≡ 0) }
    ensures on { IfOk result (λ r. spot.at < r.1.at) }
    ensures refused { IfErr result (Breaks NESTING words.now spot (T terminal.For ∷ T terminal.Open ∷ N form.PerhapsWhole ∷ T terminal.Semicolon ∷ N form.PerhapsWhole ∷ T terminal.Semicolon ∷ N form.PerhapsWhole ∷ T terminal.Close ∷ N form.Statement ∷ B MakeFor ∷ [])) }
{
    let (_, one) = take(words, spot, Terminal::For)?;
    let (_, two) = take(words, one, Terminal::Open)?;
    let (first, three) = perhaps_whole(alloc, words, two)?;
    let (_, four) = take(words, three, Terminal::Semicolon)?;
    let (condition, five) = perhaps_whole(alloc, words, four)?;
    let (_, six) = take(words, five, Terminal::Semicolon)?;
    let (after, seven) = perhaps_whole(alloc, words, six)?;
    let (_, eight) = take(words, seven, Terminal::Close)?;
    let (turn, nine) = statement(alloc, words, eight)?;
    let body = Boxed::new(alloc, turn)?;
    let kind = StatementKind::For {
        first,
        condition,
        after,
        body,
    };
    Ok((kind, nine))
}

/// What a statement is, by its first word.
#[cycle(statements)]
fn kind(alloc: Global, words: &[Word], spot: Spot) -> Result<(StatementKind, Spot), ParseError>
    requires ready { IsReady words.now spot }
    requires shallow { IsShallow spot }
    requires room { spot.depth ≤ NESTING + 1 }
    requires none_ended { spot.ended ≡ 0 }
    ensures read { IfOk result (λ r. Reads words.now spot (N form.AnyStatement ∷ []) r.1 (OfKind r.0)) }
    ensures none_ended { IfOk result (λ r. r.1.ended ≡ 0) }
    ensures on { IfOk result (λ r. spot.at < r.1.at) }
    ensures refused { IfErr result (Breaks NESTING words.now spot (N form.AnyStatement ∷ [])) }
{
    if next_is(words, spot.at, Terminal::If) {
        let (branches, one) = branching(alloc, words, spot)?;
        return Ok((branches, one));
    }
    if next_is(words, spot.at, Terminal::While) {
        let (turns, two) = while_loop(alloc, words, spot)?;
        return Ok((turns, two));
    }
    if next_is(words, spot.at, Terminal::Do) {
        let (tested, three) = do_loop(alloc, words, spot)?;
        return Ok((tested, three));
    }
    if next_is(words, spot.at, Terminal::For) {
        let (counted, four) = for_loop(alloc, words, spot)?;
        return Ok((counted, four));
    }
    if next_is(words, spot.at, Terminal::Return) {
        let (given, five) = returning(alloc, words, spot)?;
        return Ok((given, five));
    }
    if next_is(words, spot.at, Terminal::Break) {
        let (broken, six) = breaking(words, spot)?;
        return Ok((broken, six));
    }
    if next_is(words, spot.at, Terminal::Continue) {
        let (skipped, seven) = continuing(words, spot)?;
        return Ok((skipped, seven));
    }
    if begins_evaluation(words, spot.at) {
        let (value, eight) = evaluation(alloc, words, spot)?;
        return Ok((value, eight));
    }
    let (block, nine) = block(alloc, words, spot)?;
    Ok((StatementKind::Block { block }, nine))
}

/// A statement.
#[cycle(statements)]
fn statement(alloc: Global, words: &[Word], spot: Spot) -> Result<(Statement, Spot), ParseError>
    requires ready { IsReady words.now spot }
    requires shallow { IsShallow spot }
    requires room { spot.depth ≤ NESTING }
    requires none_ended { spot.ended ≡ 0 }
    ensures read { IfOk result (λ r. Reads words.now spot (N form.Statement ∷ []) r.1 (OfStatement r.0)) }
    ensures none_ended { IfOk result (λ r. r.1.ended ≡ 0) }
    ensures on { IfOk result (λ r. spot.at < r.1.at) }
    ensures refused { IfErr result (Breaks NESTING words.now spot (N form.Statement ∷ [])) }
{
    let inside = Spot {
        depth: spot.depth + 1,
        ..spot
    };
    let place = place_here(words, inside)?;
    let (kind, one) = kind(alloc, words, inside)?;
    let outside = Spot {
        depth: spot.depth,
        ..one
    };
    Ok((Statement { place, kind }, outside))
}

/// A declaration or a statement of a block.
#[cycle(statements)]
fn block_item(alloc: Global, words: &[Word], spot: Spot) -> Result<(BlockItem, Spot), ParseError>
    requires ready { IsReady words.now spot }
    requires shallow { IsShallow spot }
    requires room { spot.depth ≤ NESTING }
    requires none_ended { spot.ended ≡ 0 }
    requires next { begins_item (drop spot.at words.now) ≡ true }
    ensures read { IfOk result (λ r. Pushes words.now spot r.1 r.0) }
    ensures none_ended { IfOk result (λ r. r.1.ended ≡ 0) }
    ensures on { IfOk result (λ r. spot.at < r.1.at) }
    ensures refused { IfErr result (Sticks words.now spot) }
{
    if begins_type(words, spot.at) {
        let (declaration, one) = declaration(alloc, words, spot)?;
        return Ok((BlockItem::Declare { declaration }, one));
    }
    let (statement, two) = statement(alloc, words, spot)?;
    Ok((BlockItem::Run { statement }, two))
}

/// A block.
#[cycle(statements)]
pub fn block(alloc: Global, words: &[Word], spot: Spot) -> Result<(Block, Spot), ParseError>
    requires ready { IsReady words.now spot }
    requires shallow { IsShallow spot }
    requires room { spot.depth ≤ NESTING + 1 }
    requires none_ended { spot.ended ≡ 0 }
    ensures read { IfOk result (λ r. Reads words.now spot (N form.Block ∷ []) r.1 (OfBlock r.0)) }
    ensures none_ended { IfOk result (λ r. r.1.ended ≡ 0) }
    ensures on { IfOk result (λ r. spot.at < r.1.at) }
    ensures refused { IfErr result (Breaks NESTING words.now spot (N form.Block ∷ [])) }
{
    let (place, one) = take_here(words, spot, Terminal::OpenBrace)?;
    let mut items = Items::new(alloc);
    let mut here = one;
    while begins_item(words, here.at) {
        let (item, two) = block_item(alloc, words, here)?;
        items.push(item)?;
        here = two;
    }
    let (_, three) = take(words, here, Terminal::CloseBrace)?;
    Ok((Block { place, items }, three))
}

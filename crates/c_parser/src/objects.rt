//! Declarations of objects, with their initialisers.

ghost use Rattle.c_grammar.specs.Grammar as form;
ghost use Rattle.c_grammar.specs.Grammar.{B, N};
ghost use Rattle.c_parser.specs.Parts.{Halts, IsShallow, Reads, Turns};
ghost use Rattle.c_parser.specs.Paths.{Breaks, IsReady};
ghost use Rattle.c_grammar.specs.Steps.{AllInitialised, First, OfDeclaration, OfExpression, OfInitialised, Perhaps};
ghost use Rattle.std.specs.Prelude.{◌≡◌, ◌<◌, ◌≤◌, ◌+◌, [], ◌∷◌, IfErr, IfOk};

use crate::declarators::declarator;
use crate::errors::ParseError;
use crate::expressions::expression;
use crate::operators::begins_expression;
use crate::spot::{NESTING, Spot, next_is, take};
use crate::types::specifier;
use c_ast::program::{Declaration, Expression, Initialised};
use c_ast::{Boxed, Items};
use c_grammar::{Terminal, Word};
use std::alloc::Global;

/// An expression that no other contains.
pub fn whole(alloc: Global, words: &[Word], spot: Spot) -> Result<(Expression, Spot), ParseError>
    requires ready { IsReady words.now spot }
    requires shallow { IsShallow spot }
    requires room { spot.depth ≤ NESTING + 1 }
    ensures read { IfOk result (λ r. Reads words.now spot (N form.Whole ∷ []) r.1 (OfExpression r.0)) }
    ensures none_ended { IfOk result (λ r. r.1.ended ≡ 0) }
    ensures on { IfOk result (λ r. spot.at < r.1.at) }
    ensures refused { IfErr result (Breaks NESTING words.now spot (N form.Whole ∷ [])) }
{
    let (value, one) = expression(alloc, words, spot)?;
    Ok((value, Spot { ended: 0, ..one }))
}

/// An expression that no other contains, or nothing.
pub fn perhaps_whole(
    alloc: Global,
    words: &[Word],
    spot: Spot,
) -> Result<(Option<Boxed<Expression>>, Spot), ParseError>
    requires ready { IsReady words.now spot }
    requires shallow { IsShallow spot }
    requires room { spot.depth ≤ NESTING + 1 }
    requires none_ended { spot.ended ≡ 0 }
    ensures read { IfOk result (λ r. Reads words.now spot (N form.PerhapsWhole ∷ []) r.1 (Perhaps r.0)) }
    ensures none_ended { IfOk result (λ r. r.1.ended ≡ 0) }
    ensures refused { IfErr result (Breaks NESTING words.now spot (N form.PerhapsWhole ∷ [])) }
{
    if !begins_expression(words, spot.at) {
        return Ok((None, spot));
    }
    let (value, one) = whole(alloc, words, spot)?;
    let value = Boxed::new(alloc, value)?;
    Ok((Some(value), one))
}

/// `=` and an expression, or nothing.
pub fn perhaps_start(
    alloc: Global,
    words: &[Word],
    spot: Spot,
) -> Result<(Option<Boxed<Expression>>, Spot), ParseError>
    requires ready { IsReady words.now spot }
    requires shallow { IsShallow spot }
    requires none_ended { spot.ended ≡ 0 }
    ensures read { IfOk result (λ r. Reads words.now spot (N form.PerhapsStart ∷ []) r.1 (Perhaps r.0)) }
    ensures none_ended { IfOk result (λ r. r.1.ended ≡ 0) }
    ensures refused { IfErr result (Breaks NESTING words.now spot (N form.PerhapsStart ∷ [])) }
{
    if !next_is(words, spot.at, Terminal::Equals) {
        return Ok((None, spot));
    }
    let (_, one) = take(words, spot, Terminal::Equals)?;
    let (value, two) = whole(alloc, words, one)?;
    let value = Boxed::new(alloc, value)?;
    Ok((Some(value), two))
}

/// A declared name with its initialiser.
pub fn object(alloc: Global, words: &[Word], spot: Spot) -> Result<(Initialised, Spot), ParseError>
    requires ready { IsReady words.now spot }
    requires shallow { IsShallow spot }
    requires none_ended { spot.ended ≡ 0 }
    ensures read { IfOk result (λ r. Reads words.now spot (N form.Object ∷ []) r.1 (OfInitialised r.0)) }
    ensures none_ended { IfOk result (λ r. r.1.ended ≡ 0) }
    ensures refused { IfErr result (Breaks NESTING words.now spot (N form.Object ∷ [])) }
{
    let (declarator, one) = declarator(alloc, words, spot)?;
    let (start, two) = perhaps_start(alloc, words, one)?;
    Ok((Initialised { declarator, start }, two))
}

/// The objects behind the first one.
pub fn more_objects(
    alloc: Global,
    words: &[Word],
    spot: Spot,
    first: Initialised,
) -> Result<(Items<Initialised>, Spot), ParseError>
    requires ready { IsReady words.now spot }
    requires shallow { IsShallow spot }
    requires none_ended { spot.ended ≡ 0 }
    ensures read { IfOk result (λ r. Turns words.now spot (λ back. B First ∷ N form.MoreObjects ∷ back) (OfInitialised first) r.1 (λ back. back) (AllInitialised r.0)) }
    ensures none_ended { IfOk result (λ r. r.1.ended ≡ 0) }
    ensures refused { IfErr result (Halts words.now spot (λ back. B First ∷ N form.MoreObjects ∷ back) (OfInitialised first)) }
{
    let mut objects = Items::new(alloc);
    objects.push(first)?;
    let mut here = spot;
    while next_is(words, here.at, Terminal::Comma) {
        let (_, one) = take(words, here, Terminal::Comma)?;
        let (next, two) = object(alloc, words, one)?;
        objects.push(next)?;
        here = two;
    }
    Ok((objects, here))
}

/// Declared objects of one base type.
pub fn declaration(
    alloc: Global,
    words: &[Word],
    spot: Spot,
) -> Result<(Declaration, Spot), ParseError>
    requires ready { IsReady words.now spot }
    requires shallow { IsShallow spot }
    requires none_ended { spot.ended ≡ 0 }
    ensures read { IfOk result (λ r. Reads words.now spot (N form.Declaration ∷ []) r.1 (OfDeclaration r.0)) }
    ensures none_ended { IfOk result (λ r. r.1.ended ≡ 0) }
    ensures on { IfOk result (λ r. spot.at < r.1.at) }
    ensures refused { IfErr result (Breaks NESTING words.now spot (N form.Declaration ∷ [])) }
{
    let (specifier, one) = specifier(words, spot)?;
    let (first, two) = object(alloc, words, one)?;
    let (declarators, three) = more_objects(alloc, words, two, first)?;
    let (_, four) = take(words, three, Terminal::Semicolon)?;
    Ok((
        Declaration {
            specifier,
            declarators,
        },
        four,
    ))
}

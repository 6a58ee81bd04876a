//! Structs and parameters.

ghost use Rattle.c_grammar.specs.Grammar as form;
ghost use Rattle.c_grammar.specs.Grammar.{B, N};
ghost use Rattle.c_parser.specs.Parts.{Halts, IsShallow, Reads, Turns};
ghost use Rattle.c_parser.specs.Paths.{Breaks, IsReady};
ghost use Rattle.c_grammar.specs.Steps.{Declarators, First, OfDeclarator, OfMember, OfParameter, Parameters};
ghost use Rattle.std.specs.Prelude.{◌≡◌, ◌<◌, ◌≤◌, ◌+◌, [], ◌∷◌, IfErr, IfOk};

use crate::declarators::{declarator, parameter};
use crate::errors::ParseError;
use crate::spot::{NESTING, Spot, next_is, take};
use crate::types::{begins_type, is_bare_void, specifier};
use c_ast::Items;
use c_ast::program::{Declarator, MemberDeclaration, Parameter};
use c_grammar::{Terminal, Word};
use std::alloc::Global;

/// The declared names behind the first one.
fn more_declarators(
    alloc: Global,
    words: &[Word],
    spot: Spot,
    first: Declarator,
) -> Result<(Items<Declarator>, Spot), ParseError>
    requires ready { IsReady words.now spot }
    requires shallow { IsShallow spot }
    requires none_ended { spot.ended ≡ 0 }
    ensures read { IfOk result (λ r. Turns words.now spot (λ back. B First ∷ N form.MoreDeclarators ∷ back) (OfDeclarator first) r.1 (λ back. back) (Declarators r.0)) }
    ensures none_ended { IfOk result (λ r. r.1.ended ≡ 0) }
    ensures refused { IfErr result (Halts words.now spot (λ back. B First ∷ N form.MoreDeclarators ∷ back) (OfDeclarator first)) }
{
    let mut declarators = Items::new(alloc);
    declarators.push(first)?;
    let mut here = spot;
    while next_is(words, here.at, Terminal::Comma) {
        let (_, one) = take(words, here, Terminal::Comma)?;
        let (next, two) = declarator(alloc, words, one)?;
        declarators.push(next)?;
        here = two;
    }
    Ok((declarators, here))
}

/// Members of one base type.
pub fn member_line(
    alloc: Global,
    words: &[Word],
    spot: Spot,
) -> Result<(MemberDeclaration, Spot), ParseError>
    requires ready { IsReady words.now spot }
    requires shallow { IsShallow spot }
    requires none_ended { spot.ended ≡ 0 }
    ensures read { IfOk result (λ r. Reads words.now spot (N form.Member ∷ []) r.1 (OfMember r.0)) }
    ensures none_ended { IfOk result (λ r. r.1.ended ≡ 0) }
    ensures on { IfOk result (λ r. spot.at < r.1.at) }
    ensures refused { IfErr result (Breaks NESTING words.now spot (N form.Member ∷ [])) }
{
    let (specifier, one) = specifier(words, spot)?;
    let (first, two) = declarator(alloc, words, one)?;
    let (declarators, three) = more_declarators(alloc, words, two, first)?;
    let (_, four) = take(words, three, Terminal::Semicolon)?;
    Ok((
        MemberDeclaration {
            specifier,
            declarators,
        },
        four,
    ))
}

/// The parameters behind the first one.
fn more_parameters(
    alloc: Global,
    words: &[Word],
    spot: Spot,
    first: Parameter,
) -> Result<(Items<Parameter>, Spot), ParseError>
    requires ready { IsReady words.now spot }
    requires shallow { IsShallow spot }
    requires none_ended { spot.ended ≡ 0 }
    ensures read { IfOk result (λ r. Turns words.now spot (λ back. B First ∷ N form.MoreParameters ∷ back) (OfParameter first) r.1 (λ back. back) (Parameters r.0)) }
    ensures none_ended { IfOk result (λ r. r.1.ended ≡ 0) }
    ensures refused { IfErr result (Halts words.now spot (λ back. B First ∷ N form.MoreParameters ∷ back) (OfParameter first)) }
{
    let mut parameters = Items::new(alloc);
    parameters.push(first)?;
    let mut here = spot;
    while next_is(words, here.at, Terminal::Comma) {
        let (_, one) = take(words, here, Terminal::Comma)?;
        let (next, two) = parameter(alloc, words, one)?;
        parameters.push(next)?;
        here = two;
    }
    Ok((parameters, here))
}

/// What stands in the brackets of a function. `void` alone is nothing.
pub fn parameters(
    alloc: Global,
    words: &[Word],
    spot: Spot,
) -> Result<(Items<Parameter>, Spot), ParseError>
    requires ready { IsReady words.now spot }
    requires shallow { IsShallow spot }
    requires none_ended { spot.ended ≡ 0 }
    ensures read { IfOk result (λ r. Reads words.now spot (N form.Parameters ∷ []) r.1 (Parameters r.0)) }
    ensures none_ended { IfOk result (λ r. r.1.ended ≡ 0) }
    ensures refused { IfErr result (Breaks NESTING words.now spot (N form.Parameters ∷ [])) }
{
    if is_bare_void(words, spot.at) {
        let (_, one) = take(words, spot, Terminal::Void)?;
        return Ok((Items::new(alloc), one));
    }
    if !begins_type(words, spot.at) {
        return Ok((Items::new(alloc), spot));
    }
    let (first, two) = parameter(alloc, words, spot)?;
    let (parameters, three) = more_parameters(alloc, words, two, first)?;
    Ok((parameters, three))
}

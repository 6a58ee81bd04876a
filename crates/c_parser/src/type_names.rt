//! Types without names, and lists of them.

ghost use Rattle.c_grammar.specs.Grammar as form;
ghost use Rattle.c_grammar.specs.Grammar.{N, ParameterTypes, PerhapsPointer};
ghost use Rattle.c_parser.specs.Paths.{Breaks, IsReady, Parses};
ghost use Rattle.c_grammar.specs.Steps.{OfType, OfTypeShape, Types};
ghost use Rattle.std.specs.Prelude.{◌≡◌, ◌≤◌, [], ◌∷◌, IfErr, IfOk};

use crate::errors::ParseError;
use crate::spot::{NESTING, Spot, next_is, take};
use crate::types::{begins_type, is_bare_void, perhaps_private, pointer, specifier};
use c_ast::Items;
use c_ast::program::{TypeName, TypeShape};
use c_grammar::{Terminal, Word};
use std::alloc::Global;

/// `(*)(..)` behind a type, or nothing.
#[cycle(type_names)]
pub fn perhaps_pointer(
    alloc: Global,
    words: &[Word],
    spot: Spot,
) -> Result<(TypeShape, Spot), ParseError>
    requires ready { IsReady words.now spot }
    requires outside { spot.stars ≡ 0 }
    ensures read { IfOk result (λ r. Parses words.now spot PerhapsPointer r.1 (OfTypeShape r.0)) }
    ensures refused { IfErr result (Breaks NESTING words.now spot (N PerhapsPointer ∷ [])) }
{
    if !next_is(words, spot.at, Terminal::Open) {
        return Ok((TypeShape::Plain, spot));
    }
    let (_, one) = take(words, spot, Terminal::Open)?;
    let (_, two) = take(words, one, Terminal::Star)?;
    let (is_private, three) = perhaps_private(words, two)?;
    let (_, four) = take(words, three, Terminal::Close)?;
    let (_, five) = take(words, four, Terminal::Open)?;
    let (parameters, six) = parameter_types(alloc, words, five)?;
    let (_, seven) = take(words, six, Terminal::Close)?;
    Ok((
        TypeShape::FunctionPointer {
            is_private,
            parameters,
        },
        seven,
    ))
}

/// A type without a name.
#[cycle(type_names)]
pub fn type_name(alloc: Global, words: &[Word], spot: Spot) -> Result<(TypeName, Spot), ParseError>
    requires ready { IsReady words.now spot }
    requires outside { spot.stars ≡ 0 }
    ensures read { IfOk result (λ r. Parses words.now spot form.TypeName r.1 (OfType r.0)) }
    ensures refused { IfErr result (Breaks NESTING words.now spot (N form.TypeName ∷ [])) }
{
    let (specifier, one) = specifier(words, spot)?;
    let (stars, two) = pointer(alloc, words, one)?;
    let (shape, three) = perhaps_pointer(alloc, words, two)?;
    Ok((
        TypeName {
            specifier,
            stars,
            shape,
        },
        three,
    ))
}

/// The types of a function pointer's parameters. `void` alone is none.
#[cycle(type_names)]
pub fn parameter_types(
    alloc: Global,
    words: &[Word],
    spot: Spot,
) -> Result<(Items<TypeName>, Spot), ParseError>
    requires ready { IsReady words.now spot }
    requires outside { spot.stars ≡ 0 }
    requires shallow { spot.depth ≤ NESTING }
    ensures read { IfOk result (λ r. Parses words.now spot ParameterTypes r.1 (Types r.0)) }
    ensures refused { IfErr result (Breaks NESTING words.now spot (N ParameterTypes ∷ [])) }
{
    let mut types = Items::new(alloc);
    let inside = Spot {
        depth: spot.depth + 1,
        ..spot
    };
    if is_bare_void(words, spot.at) {
        let (_, behind) = take(words, inside, Terminal::Void)?;
        return Ok((
            types,
            Spot {
                depth: spot.depth,
                ..behind
            },
        ));
    }
    if !begins_type(words, spot.at) {
        return Ok((types, spot));
    }
    let (first, behind) = type_name(alloc, words, inside)?;
    types.push(first)?;
    let mut here = behind;
    while next_is(words, here.at, Terminal::Comma) {
        let (_, behind) = take(words, here, Terminal::Comma)?;
        let (next, behind) = type_name(alloc, words, behind)?;
        types.push(next)?;
        here = behind;
    }
    Ok((
        types,
        Spot {
            depth: spot.depth,
            ..here
        },
    ))
}

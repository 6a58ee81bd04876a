//! Declared names.

ghost use Rattle.c_grammar.specs.Grammar as form;
ghost use Rattle.c_grammar.specs.Grammar.{N, PerhapsLength};
ghost use Rattle.c_parser.specs.Paths.{Breaks, IsReady, Parses};
ghost use Rattle.c_grammar.specs.Steps.{OfDeclarator, OfParameter, OfShape};
ghost use Rattle.std.specs.Prelude.{◌≡◌, [], ◌∷◌, IfErr, IfOk};

use crate::errors::ParseError;
use crate::spot::{NESTING, Spot, next_is, take};
use crate::type_names::parameter_types;
use crate::types::{perhaps_private, pointer, specifier};
use c_ast::program::{Declarator, Parameter, Shape};
use c_grammar::{Terminal, Word};
use std::alloc::Global;

/// `[LENGTH]`, or nothing.
pub fn perhaps_length(words: &[Word], spot: Spot) -> Result<(Shape, Spot), ParseError>
    requires { IsReady words.now spot }
    ensures read { IfOk result (λ r. Parses words.now spot PerhapsLength r.1 (OfShape r.0)) }
    ensures refused { IfErr result (Breaks NESTING words.now spot (N PerhapsLength ∷ [])) }
{
    if !next_is(words, spot.at, Terminal::OpenBracket) {
        return Ok((Shape::Plain, spot));
    }
    let (_, one) = take(words, spot, Terminal::OpenBracket)?;
    let (word, two) = take(words, one, Terminal::Number)?;
    let (_, three) = take(words, two, Terminal::CloseBracket)?;
    let length = word.value;
    Ok((Shape::Array { length }, three))
}

/// A declared name with the stars before it.
pub fn declarator(
    alloc: Global,
    words: &[Word],
    spot: Spot,
) -> Result<(Declarator, Spot), ParseError>
    requires ready { IsReady words.now spot }
    requires outside { spot.stars ≡ 0 }
    ensures read { IfOk result (λ r. Parses words.now spot form.Declarator r.1 (OfDeclarator r.0)) }
    ensures refused { IfErr result (Breaks NESTING words.now spot (N form.Declarator ∷ [])) }
{
    let (stars, one) = pointer(alloc, words, spot)?;
    if !next_is(words, one.at, Terminal::Open) {
        let (word, two) = take(words, one, Terminal::Name)?;
        let (shape, three) = perhaps_length(words, two)?;
        let name = word.value as u32;
        let place = word.place;
        return Ok((
            Declarator {
                name,
                place,
                stars,
                shape,
            },
            three,
        ));
    }
    let (_, two) = take(words, one, Terminal::Open)?;
    let (_, three) = take(words, two, Terminal::Star)?;
    let (is_private, four) = perhaps_private(words, three)?;
    let (word, five) = take(words, four, Terminal::Name)?;
    let (_, six) = take(words, five, Terminal::Close)?;
    let (_, seven) = take(words, six, Terminal::Open)?;
    let (parameters, eight) = parameter_types(alloc, words, seven)?;
    let (_, nine) = take(words, eight, Terminal::Close)?;
    let name = word.value as u32;
    let place = word.place;
    let shape = Shape::FunctionPointer {
        is_private,
        parameters,
    };
    Ok((
        Declarator {
            name,
            place,
            stars,
            shape,
        },
        nine,
    ))
}

/// A parameter: a type and a name.
pub fn parameter(alloc: Global, words: &[Word], spot: Spot) -> Result<(Parameter, Spot), ParseError>
    requires ready { IsReady words.now spot }
    requires outside { spot.stars ≡ 0 }
    ensures read { IfOk result (λ r. Parses words.now spot form.Parameter r.1 (OfParameter r.0)) }
    ensures refused { IfErr result (Breaks NESTING words.now spot (N form.Parameter ∷ [])) }
{
    let (specifier, one) = specifier(words, spot)?;
    let (declarator, two) = declarator(alloc, words, one)?;
    Ok((
        Parameter {
            specifier,
            declarator,
        },
        two,
    ))
}

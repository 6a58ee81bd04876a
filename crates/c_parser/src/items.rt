//! What stands at the top of a source.

ghost use Rattle.c_grammar.specs.Grammar as form;
ghost use Rattle.c_grammar.specs.Grammar.{AfterName, AfterObject, AfterParameters, AfterStars, B, L, Left, N, T};
ghost use Rattle.c_parser.specs.Parts.{Fails, Grows, IsShallow, Reads};
ghost use Rattle.c_parser.specs.Paths.{Breaks, IsReady};
ghost use Rattle.c_grammar.specs.Steps.{Leaf, MakePointer, OfDeclarator, OfItem, OfSpecifier, Parameters, Stars};
ghost use Rattle.c_grammar.specs.Ways.{begins_structure};
ghost use Rattle.c_grammar.specs.declared.words.Terminal.TheVariants as terminal;
ghost use Rattle.std.specs.Prelude.{◌≡◌, ◌^◌, ◌<◌, ◌≤◌, ◌+◌, [], ◌∷◌, drop, length, IfErr, IfOk};

use crate::declarators::perhaps_length;
use crate::errors::ParseError;
use crate::members::parameters;
use crate::objects::{more_objects, perhaps_start};
use crate::operators::object_next;
use crate::spot::{NESTING, Spot, next_is, take};
use crate::statements::block;
use crate::structures::structure;
use crate::type_names::parameter_types;
use crate::types::{perhaps_private, pointer, specifier};
use c_ast::Items;
use c_ast::program::{Declaration, Declarator, Header, Initialised, Item, Shape, Specifier, Star};
use c_grammar::{Terminal, Word};
use std::alloc::Global;

/// The initialiser of the first object, and the objects behind it.
fn after_object(
    alloc: Global,
    words: &[Word],
    spot: Spot,
    specifier: Specifier,
    declarator: Declarator,
) -> Result<(Item, Spot), ParseError>
    requires ready { IsReady words.now spot }
    requires shallow { IsShallow spot }
    requires none_ended { spot.ended ≡ 0 }
    requires outer { spot.depth ≡ 0 }
    ensures read { IfOk result (λ r. Grows words.now spot (λ back. N (Left AfterObject) ∷ back) (OfDeclarator declarator ∷ OfSpecifier specifier ∷ []) r.1 (OfItem r.0)) }
    ensures none_ended { IfOk result (λ r. r.1.ended ≡ 0) }
    ensures refused { IfErr result (Fails words.now spot (λ back. N (Left AfterObject) ∷ back) (OfDeclarator declarator ∷ OfSpecifier specifier ∷ [])) }
{
    let (start, one) = perhaps_start(alloc, words, spot)?;
    let first = Initialised { declarator, start };
    let (declarators, two) = more_objects(alloc, words, one, first)?;
    let (_, three) = take(words, two, Terminal::Semicolon)?;
    let declaration = Declaration {
        specifier,
        declarators,
    };
    Ok((Item::Object { declaration }, three))
}

/// `;`, or the body of a function.
fn after_parameters(
    alloc: Global,
    words: &[Word],
    spot: Spot,
    header: Header,
) -> Result<(Item, Spot), ParseError>
    requires ready { IsReady words.now spot }
    requires shallow { IsShallow spot }
    requires none_ended { spot.ended ≡ 0 }
    requires outer { spot.depth ≡ 0 }
    ensures read { IfOk result (λ r. Grows words.now spot (λ back. N (Left AfterParameters) ∷ back) (Parameters header.parameters ∷ Leaf header.place header.name ∷ Stars header.stars ∷ OfSpecifier header.specifier ∷ []) r.1 (OfItem r.0)) }
    ensures none_ended { IfOk result (λ r. r.1.ended ≡ 0) }
    ensures refused { IfErr result (Fails words.now spot (λ back. N (Left AfterParameters) ∷ back) (Parameters header.parameters ∷ Leaf header.place header.name ∷ Stars header.stars ∷ OfSpecifier header.specifier ∷ [])) }
{
    if !next_is(words, spot.at, Terminal::OpenBrace) {
        let (_, one) = take(words, spot, Terminal::Semicolon)?;
        return Ok((Item::Prototype { header }, one));
    }
    let inside = Spot {
        depth: spot.depth + 1,
        ..spot
    };
    let (body, two) = block(alloc, words, inside)?;
    let outside = Spot {
        depth: spot.depth,
        ..two
    };
    Ok((Item::Function { header, body }, outside))
}

/// What may stand behind the first name.
fn after_name(
    alloc: Global,
    words: &[Word],
    spot: Spot,
    specifier: Specifier,
    stars: Items<Star>,
    name: u32,
    place: u32,
) -> Result<(Item, Spot), ParseError>
    requires ready { IsReady words.now spot }
    requires shallow { IsShallow spot }
    requires none_ended { spot.ended ≡ 0 }
    requires outer { spot.depth ≡ 0 }
    ensures read { IfOk result (λ r. Grows words.now spot (λ back. N (Left AfterName) ∷ back) (Leaf place name ∷ Stars stars ∷ OfSpecifier specifier ∷ []) r.1 (OfItem r.0)) }
    ensures none_ended { IfOk result (λ r. r.1.ended ≡ 0) }
    ensures refused { IfErr result (Fails words.now spot (λ back. N (Left AfterName) ∷ back) (Leaf place name ∷ Stars stars ∷ OfSpecifier specifier ∷ [])) }
{
    if object_next(words, spot.at) {
        let (shape, five) = perhaps_length(words, spot)?;
        let declarator = Declarator {
            name,
            place,
            stars,
            shape,
        };
        let (object, six) = after_object(alloc, words, five, specifier, declarator)?;
        return Ok((object, six));
    }
    let (_, one) = take(words, spot, Terminal::Open)?;
    let (parameters, two) = parameters(alloc, words, one)?;
    let (_, three) = take(words, two, Terminal::Close)?;
    let header = Header {
        specifier,
        stars,
        name,
        place,
        parameters,
    };
    let (item, four) = after_parameters(alloc, words, three, header)?;
    Ok((item, four))
}

/// A pointer to a function, behind its stars.
fn function_pointer(
    alloc: Global,
    words: &[Word],
    spot: Spot,
    stars: Items<Star>,
) -> Result<(Declarator, Spot), ParseError>
    requires ready { IsReady words.now spot }
    requires shallow { IsShallow spot }
    requires none_ended { spot.ended ≡ 0 }
    requires outer { spot.depth ≡ 0 }
    ensures read { IfOk result (λ r. Grows words.now spot (λ back. T terminal.Open ∷ T terminal.Star ∷ N form.PerhapsPrivate ∷ L terminal.Name ∷ T terminal.Close ∷ T terminal.Open ∷ N form.ParameterTypes ∷ T terminal.Close ∷ B MakePointer ∷ back) (Stars stars ∷ []) r.1 (OfDeclarator r.0)) }
    ensures none_ended { IfOk result (λ r. r.1.ended ≡ 0) }
    ensures on { IfOk result (λ r. spot.at < r.1.at) }
    ensures refused { IfErr result (Fails words.now spot (λ back. T terminal.Open ∷ T terminal.Star ∷ N form.PerhapsPrivate ∷ L terminal.Name ∷ T terminal.Close ∷ T terminal.Open ∷ N form.ParameterTypes ∷ T terminal.Close ∷ B MakePointer ∷ back) (Stars stars ∷ [])) }
{
    let (_, one) = take(words, spot, Terminal::Open)?;
    let (_, two) = take(words, one, Terminal::Star)?;
    let (is_private, three) = perhaps_private(words, two)?;
    let (word, four) = take(words, three, Terminal::Name)?;
    let (_, five) = take(words, four, Terminal::Close)?;
    let (_, six) = take(words, five, Terminal::Open)?;
    let (parameters, seven) = parameter_types(alloc, words, six)?;
    let (_, eight) = take(words, seven, Terminal::Close)?;
    let name = word.value as u32;
    let place = word.place;
    let shape = Shape::FunctionPointer {
        is_private,
        parameters,
    };
    Ok((
        Declarator {
            name,
            place,
            stars,
            shape,
        },
        eight,
    ))
}

/// What may stand behind the first stars.
fn after_stars(
    alloc: Global,
    words: &[Word],
    spot: Spot,
    specifier: Specifier,
    stars: Items<Star>,
) -> Result<(Item, Spot), ParseError>
    requires ready { IsReady words.now spot }
    requires shallow { IsShallow spot }
    requires none_ended { spot.ended ≡ 0 }
    requires outer { spot.depth ≡ 0 }
    ensures read { IfOk result (λ r. Grows words.now spot (λ back. N (Left AfterStars) ∷ back) (Stars stars ∷ OfSpecifier specifier ∷ []) r.1 (OfItem r.0)) }
    ensures none_ended { IfOk result (λ r. r.1.ended ≡ 0) }
    ensures on { IfOk result (λ r. spot.at < r.1.at) }
    ensures refused { IfErr result (Fails words.now spot (λ back. N (Left AfterStars) ∷ back) (Stars stars ∷ OfSpecifier specifier ∷ [])) }
{
    if next_is(words, spot.at, Terminal::Open) {
        let (declarator, one) = function_pointer(alloc, words, spot, stars)?;
        let (object, two) = after_object(alloc, words, one, specifier, declarator)?;
        return Ok((object, two));
    }
    let (word, three) = take(words, spot, Terminal::Name)?;
    let name = word.value as u32;
    let place = word.place;
    let (item, four) = after_name(alloc, words, three, specifier, stars, name, place)?;
    Ok((item, four))
}

/// Whether `struct NAME {` is next.
fn begins_structure(words: &[Word], at: usize) -> bool
    requires { length words.now < 2 ^ 32 }
    ensures { result ≡ begins_structure (drop at words.now) }
{
    if at >= words.len() {
        return false;
    }
    let left = words.len() - at;
    if left < 3 {
        return false;
    }
    let named = next_is(words, at, Terminal::Struct);
    let braced = next_is(words, at + 2, Terminal::OpenBrace);
    named & braced
}

/// A struct, objects, a prototype or a function.
pub fn top(alloc: Global, words: &[Word], spot: Spot) -> Result<(Item, Spot), ParseError>
    requires ready { IsReady words.now spot }
    requires shallow { IsShallow spot }
    requires none_ended { spot.ended ≡ 0 }
    requires outer { spot.depth ≡ 0 }
    ensures read { IfOk result (λ r. Reads words.now spot (N form.Top ∷ []) r.1 (OfItem r.0)) }
    ensures none_ended { IfOk result (λ r. r.1.ended ≡ 0) }
    ensures on { IfOk result (λ r. spot.at < r.1.at) }
    ensures refused { IfErr result (Breaks NESTING words.now spot (N form.Top ∷ [])) }
{
    if begins_structure(words, spot.at) {
        let (definition, one) = structure(alloc, words, spot)?;
        return Ok((definition, one));
    }
    let (specifier, two) = specifier(words, spot)?;
    let (stars, three) = pointer(alloc, words, two)?;
    let (item, four) = after_stars(alloc, words, three, specifier, stars)?;
    Ok((item, four))
}

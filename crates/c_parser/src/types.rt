//! Base types, pointers and qualifiers.

ghost use Rattle.c_grammar.specs.Grammar as form;
ghost use Rattle.c_grammar.specs.Grammar.{BaseType, N, PerhapsPrivate, Pointer};
ghost use Rattle.c_parser.specs.Paths.{Breaks, IsReady, Parses};
ghost use Rattle.c_grammar.specs.Steps.{OfBase, OfSpecifier, Private, Stars};
ghost use Rattle.c_grammar.specs.Ways.{can_begin, is_bare_void};
ghost use Rattle.std.specs.Prelude.{◌≡◌, ◌^◌, ◌<◌, [], ◌∷◌, drop, length, IfErr, IfOk};

use crate::errors::ParseError;
use crate::spot::{NESTING, Spot, fault, next_is, take};
use c_ast::Items;
use c_ast::program::{Base, Specifier, Star};
use c_grammar::{Terminal, Word};
use std::alloc::Global;

/// Whether `private` stands here.
pub fn perhaps_private(words: &[Word], spot: Spot) -> Result<(bool, Spot), ParseError>
    requires { IsReady words.now spot }
    ensures read { IfOk result (λ r. Parses words.now spot PerhapsPrivate r.1 (Private r.0)) }
    ensures refused { IfErr result (Breaks NESTING words.now spot (N PerhapsPrivate ∷ [])) }
{
    if next_is(words, spot.at, Terminal::Private) {
        let (_, behind) = take(words, spot, Terminal::Private)?;
        Ok((true, behind))
    } else {
        Ok((false, spot))
    }
}

/// A base type.
pub fn base_type(words: &[Word], spot: Spot) -> Result<(Base, Spot), ParseError>
    requires { IsReady words.now spot }
    ensures read { IfOk result (λ r. Parses words.now spot BaseType r.1 (OfBase r.0)) }
    ensures refused { IfErr result (Breaks NESTING words.now spot (N BaseType ∷ [])) }
{
    if next_is(words, spot.at, Terminal::Char) {
        let (_, behind) = take(words, spot, Terminal::Char)?;
        Ok((Base::Char, behind))
    } else if next_is(words, spot.at, Terminal::Int) {
        let (_, behind) = take(words, spot, Terminal::Int)?;
        Ok((Base::Int, behind))
    } else if next_is(words, spot.at, Terminal::Long) {
        let (_, behind) = take(words, spot, Terminal::Long)?;
        Ok((Base::Long, behind))
    } else if next_is(words, spot.at, Terminal::Void) {
        let (_, behind) = take(words, spot, Terminal::Void)?;
        Ok((Base::Void, behind))
    } else if next_is(words, spot.at, Terminal::Struct) {
        let (_, behind) = take(words, spot, Terminal::Struct)?;
        let (word, behind) = take(words, behind, Terminal::Name)?;
        let name = word.value as u32;
        let place = word.place;
        Ok((Base::Struct { name, place }, behind))
    } else {
        Err(fault(words, spot))
    }
}

/// A base type, with `private` on either side or on both.
pub fn specifier(words: &[Word], spot: Spot) -> Result<(Specifier, Spot), ParseError>
    requires { IsReady words.now spot }
    ensures read { IfOk result (λ r. Parses words.now spot form.Specifier r.1 (OfSpecifier r.0)) }
    ensures refused { IfErr result (Breaks NESTING words.now spot (N form.Specifier ∷ [])) }
{
    if spot.at >= words.len() {
        return Err(fault(words, spot));
    }
    let place = words[spot.at].place;
    let (front, behind) = perhaps_private(words, spot)?;
    let (base, behind) = base_type(words, behind)?;
    let (after, behind) = perhaps_private(words, behind)?;
    let is_private = front | after;
    Ok((
        Specifier {
            place,
            is_private,
            base,
        },
        behind,
    ))
}

/// The stars of a pointer, each perhaps with `private`.
pub fn pointer(alloc: Global, words: &[Word], spot: Spot) -> Result<(Items<Star>, Spot), ParseError>
    requires ready { IsReady words.now spot }
    requires outside { spot.stars ≡ 0 }
    ensures read { IfOk result (λ r. Parses words.now spot Pointer r.1 (Stars r.0)) }
    ensures refused { IfErr result (Breaks NESTING words.now spot (N Pointer ∷ [])) }
{
    let mut stars = Items::new(alloc);
    let mut here = spot;
    while next_is(words, here.at, Terminal::Star) {
        let (_, behind) = take(words, here, Terminal::Star)?;
        let marked = Spot {
            stars: behind.stars + 1,
            ..behind
        };
        let (is_private, behind) = perhaps_private(words, marked)?;
        stars.push(Star { is_private })?;
        here = behind;
    }
    Ok((stars, Spot { stars: 0, ..here }))
}

/// Whether a base type or `private` is next.
pub fn begins_type(words: &[Word], at: usize) -> bool
    ensures { result ≡ can_begin form.TypeName (drop at words.now) }
{
    next_is(words, at, Terminal::Char)
        || next_is(words, at, Terminal::Int)
        || next_is(words, at, Terminal::Long)
        || next_is(words, at, Terminal::Void)
        || next_is(words, at, Terminal::Struct)
        || next_is(words, at, Terminal::Private)
}

/// Whether `void )` is next.
pub fn is_bare_void(words: &[Word], at: usize) -> bool
    requires { length words.now < 2 ^ 32 }
    ensures { result ≡ is_bare_void (drop at words.now) }
{
    if at >= words.len() {
        return false;
    }
    if !next_is(words, at, Terminal::Void) {
        return false;
    }
    next_is(words, at + 1, Terminal::Close)
}

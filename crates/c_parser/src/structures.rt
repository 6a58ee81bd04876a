//! Definitions of structs.

ghost use Rattle.c_grammar.specs.Grammar as form;
ghost use Rattle.c_grammar.specs.Grammar.{B, N};
ghost use Rattle.c_parser.specs.Parts.{Halts, IsShallow, Reads, Turns};
ghost use Rattle.c_parser.specs.Paths.{Breaks, IsReady};
ghost use Rattle.c_grammar.specs.Steps.{First, Members, OfItem, OfMember};
ghost use Rattle.std.specs.Prelude.{◌≡◌, ◌<◌, ◌≤◌, ◌+◌, [], ◌∷◌, IfErr, IfOk};

use crate::errors::ParseError;
use crate::members::member_line;
use crate::spot::{NESTING, Spot, take};
use crate::types::begins_type;
use c_ast::Items;
use c_ast::program::{Item, MemberDeclaration, StructDefinition};
use c_grammar::{Terminal, Word};
use std::alloc::Global;

/// The members behind the first line of them.
fn more_members(
    alloc: Global,
    words: &[Word],
    spot: Spot,
    first: MemberDeclaration,
) -> Result<(Items<MemberDeclaration>, Spot), ParseError>
    requires ready { IsReady words.now spot }
    requires shallow { IsShallow spot }
    requires none_ended { spot.ended ≡ 0 }
    ensures read { IfOk result (λ r. Turns words.now spot (λ back. B First ∷ N form.Members ∷ back) (OfMember first) r.1 (λ back. back) (Members r.0)) }
    ensures none_ended { IfOk result (λ r. r.1.ended ≡ 0) }
    ensures refused { IfErr result (Halts words.now spot (λ back. B First ∷ N form.Members ∷ back) (OfMember first)) }
{
    let mut members = Items::new(alloc);
    members.push(first)?;
    let mut here = spot;
    while begins_type(words, here.at) {
        let (next, one) = member_line(alloc, words, here)?;
        members.push(next)?;
        here = one;
    }
    Ok((members, here))
}

/// The definition of a struct.
pub fn structure(alloc: Global, words: &[Word], spot: Spot) -> Result<(Item, Spot), ParseError>
    requires ready { IsReady words.now spot }
    requires shallow { IsShallow spot }
    requires none_ended { spot.ended ≡ 0 }
    ensures read { IfOk result (λ r. Reads words.now spot (N form.Structure ∷ []) r.1 (OfItem r.0)) }
    ensures none_ended { IfOk result (λ r. r.1.ended ≡ 0) }
    ensures on { IfOk result (λ r. spot.at < r.1.at) }
    ensures refused { IfErr result (Breaks NESTING words.now spot (N form.Structure ∷ [])) }
{
    let (_, one) = take(words, spot, Terminal::Struct)?;
    let (word, two) = take(words, one, Terminal::Name)?;
    let (_, three) = take(words, two, Terminal::OpenBrace)?;
    let (first, four) = member_line(alloc, words, three)?;
    let (members, five) = more_members(alloc, words, four, first)?;
    let (_, six) = take(words, five, Terminal::CloseBrace)?;
    let (_, seven) = take(words, six, Terminal::Semicolon)?;
    let name = word.value as u32;
    let place = word.place;
    let definition = StructDefinition {
        name,
        place,
        members,
    };
    Ok((Item::Struct { definition }, seven))
}

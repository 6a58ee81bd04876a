//! A whole source.

ghost use Rattle.c_parser.specs.Parts.{IsProgramOf};
ghost use Rattle.c_parser.specs.Paths.{AreBounded};
ghost use Rattle.c_parser.specs.Programs.{IsFault};
ghost use Rattle.std.specs.Prelude.{◌^◌, ◌<◌, length, IfErr, IfOk};

use crate::errors::ParseError;
use crate::items::top;
use crate::spot::{NESTING, Spot, fault};
use crate::types::begins_type;
use c_ast::Items;
use c_ast::program::Item;
use c_grammar::Word;
use std::alloc::Global;

/// The items of the program that words are, where no word of it is nested above 200.
pub fn items_of(alloc: Global, words: &[Word]) -> Result<Items<Item>, ParseError>
    requires short { length words.now < 2 ^ 32 }
    requires bounded { AreBounded words.now }
    ensures read { IfOk result (IsProgramOf NESTING words.now) }
    ensures refused { IfErr result (IsFault NESTING words.now) }
{
    let mut items = Items::new(alloc);
    let mut here = Spot {
        at: 0,
        depth: 0,
        ended: 0,
        stars: 0,
    };
    while begins_type(words, here.at) {
        let (item, one) = top(alloc, words, here)?;
        items.push(item)?;
        here = one;
    }
    if here.at < words.len() {
        return Err(fault(words, here));
    }
    Ok(items)
}

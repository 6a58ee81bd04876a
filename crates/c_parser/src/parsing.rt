//! The program of a source.

ghost use Rattle.c_lexer.specs.Tokens.{IsTokenList};
ghost use Rattle.c_parser.specs.Programs.{IsFault, IsProgram, words_of_source};
ghost use Rattle.std.specs.Prelude.{◌^◌, ◌<◌, length, IfErr, IfOk};

use crate::errors::ParseError;
use crate::program::items_of;
use crate::tokens_words::{Words, words_of};
use c_ast::Program;
use c_lexer::{Token, tokens_lie_in_source};
use std::alloc::Global;

/// The program that the tokens of a source of fewer than 2^32 bytes are. `tokens` are all tokens of
/// `source`, as `c_lexer::lex` answers them. Names and strings are numbered from 0, in the order in which
/// they are first seen, and each place in the tree is an offset in `source`, in bytes.
///
/// `SyntaxFault` names the first token with which no program goes on, by its number from 0. Where more tokens
/// are needed, it names the number of all tokens. `DepthFault` names the first token that is nested above 200.
/// The earlier of the two is told; `one_answer` says that nothing else fits the same tokens.
pub fn parse(alloc: Global, tokens: &[Token], source: &[u8]) -> Result<Program, ParseError>
    requires short { length source.now < 2 ^ 32 }
    requires whole { IsTokenList source.now tokens.now }
    ensures program { IfOk result (IsProgram source.now tokens.now 200) }
    ensures refused { IfErr result (IsFault 200 (words_of_source source.now tokens.now)) }
{
    tokens_lie_in_source();
    match words_of(alloc, tokens, source) {
        Ok(
            Words {
                words,
                names,
                strings,
            },
        ) => match items_of(alloc, words.as_slice()) {
            Ok(items) => Ok(Program {
                names,
                strings,
                items,
            }),
            Err(error) => Err(error),
        },
        Err(_) => Err(ParseError::NoMemory),
    }
}

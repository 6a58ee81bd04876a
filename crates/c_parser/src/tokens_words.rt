//! The words of a source's tokens.

ghost use Rattle.c_lexer.specs.Spelling.{IsStringText};
ghost use Rattle.c_lexer.specs.Texts.{LiesIn, LieIn, text_of};
ghost use Rattle.c_lexer.specs.Tokens.{IsToken};
ghost use Rattle.c_parser.specs.Programs.{names_of, number_in, Strings, with_name, word_of, words_of_source};
ghost use Rattle.c_parser.specs.Words.{Adds, names_with, value_in};
ghost use Rattle.std.specs.Prelude.{◌≡◌, ◌++◌, ◌∷◌, [], ℕ, List, length, map, OnOk, IfOk};

use crate::terminals::terminal_of;
use c_ast::{Items, Text};
use c_grammar::Word;
use c_lexer::{Token, TokenKind, string_bytes};
use cv_word::NoMemory;
use indexmap::IndexSet;
use std::alloc::Global;

/// What the tokens of a source are to the grammar.
pub struct Words {
    pub words: Vec<Word>,
    /// The names in first-seen order.
    pub names: Items<Text>,
    /// What the strings stand for, in order.
    pub strings: Items<Text>,
}

/// The number of a name among those that are seen, to which a new one is put last.
fn number_name<'a>(names: &mut IndexSet<&'a [u8]>, text: &'a [u8]) -> Result<u64, NoMemory>
    ensures names { OnOk result (map (λ k. k.now) names.new.keys ≡ with_name (map (λ k. k.now) names.old.keys) text.now) }
    ensures number { IfOk result (λ n. n ≡ number_in (map (λ k. k.now) names.old.keys) text.now) }
{
    let (number, _) = names.insert_full(text)?;
    Ok(number as u64)
}

/// The number of a string, which is put last.
fn number_string(alloc: Global, strings: &mut Items<Text>, text: &[u8]) -> Result<u64, NoMemory>
    requires { (bytes : List ℕ) × IsStringText text.now bytes }
    ensures strings { OnOk result ((bytes : List ℕ) × IsStringText text.now bytes × (strings.new ≡ strings.old ++ bytes ∷ [])) }
    ensures number { IfOk result (λ n. n ≡ length strings.old) }
{
    let number = strings.len() as u64;
    let bytes = string_bytes(alloc, text)?;
    strings.push(Text::from_vec(bytes))?;
    Ok(number)
}

/// The value of a token of this kind with this text.
fn value_of<'a>(
    alloc: Global,
    names: &mut IndexSet<&'a [u8]>,
    strings: &mut Items<Text>,
    text: &'a [u8],
    kind: TokenKind,
) -> Result<u64, NoMemory>
    requires { IsToken kind text.now }
    ensures names { OnOk result (map (λ k. k.now) names.new.keys ≡ names_with (map (λ k. k.now) names.old.keys) kind text.now) }
    ensures strings { OnOk result (Adds kind text.now strings.old strings.new) }
    ensures value { IfOk result (λ v. v ≡ value_in (map (λ k. k.now) names.old.keys) (length strings.old) text.now kind) }
{
    match kind {
        TokenKind::Name => number_name(names, text),
        TokenKind::Keyword => Ok(0),
        TokenKind::Num { value } => Ok(value),
        TokenKind::Char { value } => Ok(value as u64),
        TokenKind::Str => number_string(alloc, strings, text),
        TokenKind::Sign => Ok(0),
    }
}

/// The word that a token is.
fn word_of<'a>(
    alloc: Global,
    names: &mut IndexSet<&'a [u8]>,
    strings: &mut Items<Text>,
    source: &'a [u8],
    token: Token,
) -> Result<Word, NoMemory>
    requires { LiesIn source.now token }
    ensures names { OnOk result (map (λ k. k.now) names.new.keys ≡ names_with (map (λ k. k.now) names.old.keys) token.kind (text_of source.now token)) }
    ensures strings { OnOk result (Adds token.kind (text_of source.now token) strings.old strings.new) }
    ensures word { IfOk result (λ w. w ≡ word_of source.now (map (λ k. k.now) names.old.keys) (length strings.old) token) }
{
    let text = &source[token.start as usize..token.end as usize];
    let value = value_of(alloc, names, strings, text, token.kind)?;
    Ok(Word {
        terminal: terminal_of(token.kind, text),
        place: token.start,
        value,
    })
}

/// Copies of some texts.
fn texts_of(alloc: Global, seen: &[&[u8]]) -> Result<Items<Text>, NoMemory>
    ensures { IfOk result (λ texts. texts ≡ map (λ k. k.now) seen.now) }
{
    let mut texts = Items::new(alloc);
    let mut index = 0;
    while index < seen.len() {
        let mut bytes = Vec::new(alloc);
        bytes.extend_from_slice(seen[index])?;
        texts.push(Text::from_vec(bytes))?;
        index += 1;
    }
    Ok(texts)
}

/// The words of a source's tokens, with the names and strings that their values are the numbers of.
pub fn words_of(alloc: Global, tokens: &[Token], source: &[u8]) -> Result<Words, NoMemory>
    requires { LieIn source.now tokens.now }
    ensures words { IfOk result (λ r. r.words.items ≡ words_of_source source.now tokens.now) }
    ensures names { IfOk result (λ r. r.names ≡ names_of source.now tokens.now) }
    ensures strings { IfOk result (λ r. Strings source.now tokens.now r.strings) }
{
    let mut seen = IndexSet::new(alloc);
    let mut strings = Items::new(alloc);
    let mut words = Vec::new(alloc);
    let mut index = 0;
    while index < tokens.len() {
        let word = word_of(alloc, &mut seen, &mut strings, source, tokens[index])?;
        words.push(word)?;
        index += 1;
    }
    let names = texts_of(alloc, seen.as_slice())?;
    Ok(Words {
        words,
        names,
        strings,
    })
}

//! A place among the words, and the one way on from it: to take the word that is wanted.

ghost use Rattle.c_grammar.specs.Grammar.{Here, T, L};
ghost use Rattle.c_parser.specs.Paths.{bound_of, Breaks, IsReady, Leads, next_is};
ghost use Rattle.c_grammar.specs.Steps.{Leaf, Place};
ghost use Rattle.c_parser.specs.declared.errors.ParseError.TheVariants.{SyntaxFault};
ghost use Rattle.c_grammar.specs.Terminals.{same_terminal};
ghost use Rattle.std.specs.Prelude.{◌≡◌, ◌+◌, ◌^◌, ◌<◌, ◌≤◌, [], ◌∷◌, drop, length, slice_get, IfErr, IfOk};

use crate::errors::ParseError;
use c_grammar::{Terminal, Word};

/// How deep a token may be nested.
pub const NESTING: u32 = 200;

/// A place among the words, and what counts in the nesting of a word there.
#[derive(Clone, Copy, Debug)]
pub struct Spot {
    pub at: usize,
    /// How many parts that nest stand around.
    pub depth: u32,
    /// How many operators and suffixes have ended in the outermost expression.
    pub ended: u32,
    /// How many stars have ended in the pointer.
    pub stars: u32,
}

/// Whether two terminals are one.
pub fn same_terminal(one: Terminal, other: Terminal) -> bool
    ensures { result ≡ same_terminal one other }
{
    one as u8 == other as u8
}

/// Whether this terminal is next.
pub fn next_is(words: &[Word], at: usize, wanted: Terminal) -> bool
    ensures { result ≡ next_is (drop at words.now) wanted }
{
    at < words.len() && same_terminal(words[at].terminal, wanted)
}

/// The fault of the word that is next, or of the missing end.
pub fn fault(words: &[Word], spot: Spot) -> ParseError
    requires { IsReady words.now spot }
    ensures { result ≡ SyntaxFault spot.at }
{
    let _ = words;
    ParseError::SyntaxFault {
        token: spot.at as u32,
    }
}

/// The word that is wanted next, and the spot behind it. No other function takes a word, and here alone
/// its nesting is tested.
pub fn take(words: &[Word], spot: Spot, wanted: Terminal) -> Result<(Word, Spot), ParseError>
    requires { IsReady words.now spot }
    ensures token { IfOk result (λ r. Leads NESTING words.now spot (T wanted ∷ []) r.1 []) }
    ensures leaf { IfOk result (λ r. Leads NESTING words.now spot (L wanted ∷ []) r.1 (Leaf r.0.place r.0.value ∷ [])) }
    ensures value { IfOk result (λ r. r.0.value < bound_of wanted) }
    ensures place { IfOk result (λ r. r.1 ≡ record spot { at = spot.at + 1 }) }
    ensures nesting { IfOk result (λ r. spot.depth + spot.ended + spot.stars ≤ NESTING) }
    ensures more { IfOk result (λ r. spot.at < length words.now) }
    ensures word { IfOk result (λ r. slice_get words.now spot.at ≡ Some r.0) }
    ensures no_token { IfErr result (Breaks NESTING words.now spot (T wanted ∷ [])) }
    ensures no_leaf { IfErr result (Breaks NESTING words.now spot (L wanted ∷ [])) }
{
    let token = spot.at as u32;
    if !next_is(words, spot.at, wanted) {
        return Err(ParseError::SyntaxFault { token });
    }
    if spot.depth + spot.ended + spot.stars > NESTING {
        return Err(ParseError::DepthFault { token });
    }
    let behind = Spot {
        at: spot.at + 1,
        ..spot
    };
    Ok((words[spot.at], behind))
}

/// The place of the word that is wanted next, and the spot behind it.
pub fn take_here(words: &[Word], spot: Spot, wanted: Terminal) -> Result<(u32, Spot), ParseError>
    requires { IsReady words.now spot }
    ensures read { IfOk result (λ r. Leads NESTING words.now spot (Here ∷ T wanted ∷ []) r.1 (Place r.0 ∷ [])) }
    ensures place { IfOk result (λ r. r.1 ≡ record spot { at = spot.at + 1 }) }
    ensures nesting { IfOk result (λ r. spot.depth + spot.ended + spot.stars ≤ NESTING) }
    ensures more { IfOk result (λ r. spot.at < length words.now) }
    ensures refused { IfErr result (Breaks NESTING words.now spot (Here ∷ T wanted ∷ [])) }
{
    if spot.at >= words.len() {
        return Err(fault(words, spot));
    }
    let (word, behind) = take(words, spot, wanted)?;
    Ok((word.place, behind))
}

/// The place of the next word.
pub fn place_here(words: &[Word], spot: Spot) -> Result<u32, ParseError>
    requires { IsReady words.now spot }
    ensures read { IfOk result (λ r. Leads NESTING words.now spot (Here ∷ []) spot (Place r ∷ [])) }
    ensures more { IfOk result (λ r. spot.at < length words.now) }
    ensures refused { IfErr result (Breaks NESTING words.now spot (Here ∷ [])) }
{
    if spot.at >= words.len() {
        return Err(fault(words, spot));
    }
    Ok(words[spot.at].place)
}

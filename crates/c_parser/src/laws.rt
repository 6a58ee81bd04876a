//! Laws of what tokens are.

ghost use Rattle.c_ast.specs.declared.program.Program.{Program};
ghost use Rattle.c_grammar.specs.declared.words.Word.{Word};
ghost use Rattle.c_lexer.specs.declared.tokens.Token.{Token};
ghost use Rattle.c_parser.specs.Programs.{IsFault, IsProgram, words_of_source};
ghost use Rattle.c_parser.specs.declared.errors.ParseError.TheVariants.{NoMemory};
ghost use Rattle.c_parser.specs.declared.errors.ParseError.{ParseError};
ghost use Rattle.std.specs.Prelude.{◌≡◌, ◌≢◌, ℕ, List};

/// Tokens have one answer at most, want of memory aside: one program, or one fault at one token.
pub fn one_answer()
    ensures program { (source : List ℕ) (tokens : List Token) (limit : ℕ) (program other : Program)
        → IsProgram source tokens limit program → IsProgram source tokens limit other → program ≡ other }
    ensures fault { (limit : ℕ) (words : List Word) (fault other : ParseError) → fault ≢ NoMemory → other ≢ NoMemory
        → IsFault limit words fault → IsFault limit words other → fault ≡ other }
    ensures not_both { (source : List ℕ) (tokens : List Token) (limit : ℕ) (program : Program) (fault : ParseError)
        → fault ≢ NoMemory → IsProgram source tokens limit program → ¬ IsFault limit (words_of_source source tokens) fault }
{}

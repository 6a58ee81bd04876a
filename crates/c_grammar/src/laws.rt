//! Laws of the grammar.

ghost use Rattle.c_ast.specs.declared.program.Item.{Item};
ghost use Rattle.c_grammar.specs.Faults.{IsDepthFault, IsProgramAtAnyDepth, IsSyntaxFault, IsTooDeep};
ghost use Rattle.c_grammar.specs.Reading.{IsReading, IsWithin, Nested};
ghost use Rattle.c_grammar.specs.declared.words.Word.{Word};
ghost use Rattle.std.specs.Prelude.{◌≡◌, ℕ, List};

/// Words are one program at most.
pub fn one_program()
    ensures { (words : List Word) (items others : List Item) (way another : List Nested)
        → IsReading words items way → IsReading words others another → items ≡ others }
{}

/// Words that are a program, however deep it nests them, have no syntax fault. Where it nests none above the
/// limit, none is too deep.
pub fn program_has_no_fault()
    ensures syntax { (limit : ℕ) (words : List Word) (number : ℕ)
        → IsProgramAtAnyDepth words → ¬ IsSyntaxFault limit words number }
    ensures depth { (limit : ℕ) (words : List Word) (items : List Item) (way : List Nested) (number : ℕ)
        → IsReading words items way → IsWithin limit way → ¬ IsTooDeep limit words number }
{}

/// Words have one fault at most, at one word.
pub fn one_fault()
    ensures syntax { (limit : ℕ) (words : List Word) (number other : ℕ)
        → IsSyntaxFault limit words number → IsSyntaxFault limit words other → number ≡ other }
    ensures depth { (limit : ℕ) (words : List Word) (number other : ℕ)
        → IsDepthFault limit words number → IsDepthFault limit words other → number ≡ other }
    ensures not_both { (limit : ℕ) (words : List Word) (number other : ℕ)
        → IsSyntaxFault limit words number → ¬ IsDepthFault limit words other }
{}

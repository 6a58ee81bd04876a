//! Laws of what a program is.

ghost use Rattle.c_ast.specs.declared.program.Program.{Program};
ghost use Rattle.c_ast.specs.declared.typed.Typed.{Typed};
ghost use Rattle.type_rules.specs.Programs.{IsLeastFault, IsTyped};
ghost use Rattle.std.specs.Prelude.{◌≡◌, ℕ};

/// A program has one answer at most: one typed tree, or one rule that is broken at one place.
pub fn one_answer()
    ensures tree { (p : Program) (tree other : Typed) → IsTyped p tree → IsTyped p other → tree ≡ other }
    ensures fault { (p : Program) (rule place other at : ℕ)
        → IsLeastFault p rule place → IsLeastFault p other at → (rule ≡ other) × (place ≡ at) }
    ensures not_both { (p : Program) (tree : Typed) (rule place : ℕ) → IsTyped p tree → ¬ IsLeastFault p rule place }
{}

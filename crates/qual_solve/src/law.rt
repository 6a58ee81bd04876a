//! What is so of every list of constraints, by the definitions alone.

ghost use Rattle.std.specs.Prelude.{◌≡◌, ℕ, List};
ghost use Rattle.cv_word.specs.declared.registers.Taint.{Taint};
ghost use Rattle.qual_solve.specs.declared.constraint.Constraint.{Constraint};
ghost use Rattle.qual_solve.specs.Assignments.{IsLeast};
ghost use Rattle.qual_solve.specs.Leaks.{IsLeak};

/// A list of constraints has one answer at most: one least assignment, or one leak with one chain, and never both.
pub fn one_answer()
    ensures least { (vars : ℕ) (list : List Constraint) (a b : List Taint) → IsLeast vars list a → IsLeast vars list b → a ≡ b }
    ensures at { (vars : ℕ) (list : List Constraint) (at other : ℕ) (a b : List ℕ) → IsLeak vars list at a → IsLeak vars list other b → at ≡ other }
    ensures chain { (vars : ℕ) (list : List Constraint) (at other : ℕ) (a b : List ℕ) → IsLeak vars list at a → IsLeak vars list other b → a ≡ b }
    ensures not_both { (vars : ℕ) (list : List Constraint) (at : ℕ) (a : List Taint) (b : List ℕ) → IsLeast vars list a → IsLeak vars list at b → ⊥ }
{}

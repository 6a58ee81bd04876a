//! The laws of the verdict, and of listings that can be labelled.

ghost use Rattle.std.specs.Prelude.{◌≡◌, List, ℕ};
ghost use Rattle.code_sweep.specs.declared.item.Placed.{Placed};
ghost use Rattle.code_sweep.specs.Listing.{IsListing};
ghost use Rattle.taint_flow.specs.Places.{StandInOrder, NextStands};
ghost use Rattle.conf_verify.specs.declared.rule.Rule.{Rule};
ghost use Rattle.conf_verify.specs.Rules.{BreaksEnds};
ghost use Rattle.conf_verify.specs.Verdict.{IsAccepted, IsVerdict};

/// Bytes have one verdict: what is accepted breaks nothing, and of what is broken one rule is told at one
/// place.
pub fn one_verdict()
    ensures accepted { (bytes : List ℕ) (rule : Rule) (at : ℕ) → IsAccepted bytes → IsVerdict bytes rule at → ⊥ }
    ensures rule { (bytes : List ℕ) (rule other : Rule) (at there : ℕ) → IsVerdict bytes rule at → IsVerdict bytes other there → rule ≡ other }
    ensures place { (bytes : List ℕ) (rule other : Rule) (at there : ℕ) → IsVerdict bytes rule at → IsVerdict bytes other there → at ≡ there }
{}

/// A listing that keeps V3 is one that `taint_flow::label_code` labels: its items stand in order in the code, and one stands
/// behind each word and each item that leads to the next.
pub fn order_law()
    ensures order { (prefix code : List ℕ) (items : List Placed) → IsListing prefix code items → StandInOrder items code }
    ensures next { (items : List Placed) → ((place : ℕ) → BreaksEnds items place → ⊥) → NextStands items }
{}

//! The laws of two runs of accepted bytes.
//!
//! The functions do nothing: their contracts are the laws, over the definitions of the checker and of the
//! machine alone. What it means that two configurations agree stands in `specs/Agreement.antt`.
#![tactic(auto)]

ghost use Rattle.std.specs.Prelude.{List, ℕ};
ghost use Rattle.cv_word.specs.Words.{AreBytes};
ghost use Rattle.image_form.specs.Image.{Image, IsGood};
ghost use Rattle.conf_verify.specs.Verdict.{IsAccepted, IsAcceptedImage};
ghost use Rattle.x64_machine.specs.Run.{Configuration, step};
ghost use Rattle.x64_machine.specs.Noninterference.{Noninterfering};
ghost use Rattle.ni_laws.specs.Agreement.{Agree, accepted_code};

/// Where two configurations of an accepted code agree and the same core takes a step in both, they agree
/// again.
pub fn step_law()
    ensures { (image : Image) (accepted : IsAcceptedImage image) (size core : ℕ) (mine yours : Configuration) → IsGood image → AreBytes image.prefix → AreBytes image.code → Agree (accepted_code image accepted) size mine yours → Agree (accepted_code image accepted) size (step core mine) (step core yours) }
{}

/// Accepted bytes are noninterfering, whatever made them: what may be seen of two runs is the same, whatever
/// is private.
pub fn accepted_law()
    ensures { (bytes : List ℕ) → AreBytes bytes → IsAccepted bytes → Noninterfering bytes }
{}

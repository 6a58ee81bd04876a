//! The listing of an image, whatever rule after V2 it breaks.

ghost use Rattle.std.specs.Prelude.{◌≡◌, ℕ, List, true, false, IfOk, IfErr};
ghost use Rattle.code_sweep.specs.declared.item.Placed.{Placed};
ghost use Rattle.conf_verify.specs.declared.rule.Rule.{Rule};
ghost use Rattle.conf_verify.specs.Listed.{IsListed, IsListRefusal, IsUnlisted, is_listing_rule};
ghost use Rattle.conf_verify.specs.Verdict.{IsAccepted, IsVerdict};

use crate::verdict::{VerifyError, image_at, listing_of};
use code_sweep::Listing;
use std::alloc::Global;

/// The code of an image as one chain of items, whatever made the bytes.
///
/// It is refused by V1 and V2 alone, so an image that breaks a later rule has its listing too.
pub fn list_items<'a>(alloc: Global, bytes: &'a [u8]) -> Result<Listing<'a>, VerifyError>
    // What is answered is the code of the bytes' image, and the chain of its items.
    ensures listed { IfOk result (λ l. IsListed bytes.now l.code.now l.items.items) }
    // A refusal names the verdict, which is by V1 or V2.
    ensures refused { IfErr result (λ error. IsListRefusal bytes.now error) }
{
    let parts = image_at(bytes)?;
    listing_of(alloc, &parts)
}

/// The law of listings: bytes have one listing at most, and those whose verdict is by V1 or V2 have none.
/// Those with another verdict have one, and so have accepted ones.
pub fn one_listing()
    ensures code { (bytes code other : List ℕ) (items others : List Placed) → IsListed bytes code items → IsListed bytes other others → code ≡ other }
    ensures items { (bytes code other : List ℕ) (items others : List Placed) → IsListed bytes code items → IsListed bytes other others → items ≡ others }
    ensures unlisted { (bytes code : List ℕ) (items : List Placed) (rule : Rule) (at : ℕ) → IsListed bytes code items → IsUnlisted bytes rule at → ⊥ }
    ensures refused { (bytes : List ℕ) (rule : Rule) (at : ℕ) → IsVerdict bytes rule at → is_listing_rule rule ≡ false → (code : List ℕ) × (items : List Placed) × IsListed bytes code items }
    ensures accepted { (bytes : List ℕ) → IsAccepted bytes → (code : List ℕ) × (items : List Placed) × IsListed bytes code items }
{}

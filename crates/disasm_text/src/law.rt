//! The law of listings.

ghost use Rattle.std.specs.Prelude.{List, ℕ, All};
ghost use Rattle.code_sweep.specs.declared.item.Placed.{Placed};
ghost use Rattle.code_sweep.specs.Listing.{IsListing};
ghost use Rattle.disasm_text.specs.ListingText.{LiesInside};

/// The bytes of each item of a listing lie in its code. So what `code_sweep::sweep` answers for a code of at
/// most 4,194,304 bytes meets the condition of `listing_text`.
pub fn listing_law()
    ensures { (prefix code : List ℕ) (items : List Placed) → IsListing prefix code items → All (LiesInside code) items }
{}

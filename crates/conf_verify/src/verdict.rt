//! What is accepted, and what is refused.

ghost use Rattle.std.specs.Prelude.{◌≡◌, ◌+◌, ℕ, true, length, OnOk, IfOk, IfErr};
ghost use Rattle.cv_word.specs.MemoryMap.{code_base};
ghost use Rattle.taint_flow.specs.Places.{NumbersItems, number_at};
ghost use Rattle.conf_verify.specs.declared.rule.Rule.{Rule};
ghost use Rattle.conf_verify.specs.declared.rule.Rule.TheVariants.{V1};
ghost use Rattle.conf_verify.specs.declared.verdict.VerifyError.TheVariants.{NoMemory, Refused};
ghost use Rattle.conf_verify.specs.Rules.{BreaksShape, call_words, other_items, rule_number};
ghost use Rattle.conf_verify.specs.Search.{BadBy, IsFirstBad, is_item_rule};
ghost use Rattle.conf_verify.specs.Steps.{IsCodeRefusal, HoldsBelow};
ghost use Rattle.image_form.specs.Image.{IsGood};
ghost use Rattle.conf_verify.specs.Verdict.{IsImage, IsAccepted, IsAcceptedImage, HasListing};
ghost use Rattle.conf_verify.specs.Listed.{IsByListingRule};
ghost use Rattle.conf_verify.specs.Answer.{Checked, image_of, checked_of, HasCounts, IsRefusal};

use crate::first_bad::first_bad;
use crate::rule::Rule;
use crate::shape::{bad_occurrence, least_bad_entry};
use crate::taint::{bad_label, least_labels};
use code_sweep::{Listing, Placed, SweepError, sweep};
use cv_word::{CODE_BASE, NoMemory};
use image_form::{Parts, read_image};
use magic_words::occurrences;
use std::alloc::Global;
use std::marker::{Brand, Model};
use std::sync::ledger::Blank;
use taint_flow::{ItemNumbers, item_numbers};
use thiserror::Error;

/// How many procedures a code has, and how many items that are no words.
#[derive(Clone, Copy, Debug, PartialEq, Eq)]
pub struct Counts {
    pub procedures: u32,
    pub items: u32,
}

/// An image that is accepted. Its parts are slices of the bytes that were verified.
#[derive(Debug, Drop)]
pub struct Verified<'a> {
    parts: Parts<'a>,
    counts: Counts,
}

impl<'a> Model for Verified<'a> {
    ghost Value = { Checked };

    ghost view = { λ v. checked_of v.parts v.counts.procedures v.counts.items };

    ghost invariant = { λ v. IsGood (image_of v.parts) × IsAcceptedImage (image_of v.parts) };
}

impl<'a> Verified<'a> {
    /// The parts of the image.
    pub fn parts(&self) -> &Parts<'a>
        ensures parts { image_of result.now ≡ self.now.image }
        ensures good { IsGood self.now.image }
        ensures accepted { IsAcceptedImage self.now.image }
    {
        &self.parts
    }

    /// How many procedures and items the image has.
    pub fn counts(&self) -> Counts
        ensures procedures { result.procedures ≡ self.now.procedures }
        ensures items { result.items ≡ self.now.items }
    {
        self.counts
    }
}

/// Why bytes were not accepted.
#[derive(Clone, Copy, Debug, PartialEq, Eq, Error)]
pub enum VerifyError {
    /// Memory was refused.
    #[error("no memory")]
    NoMemory,
    /// The verdict: a rule and where it is broken, for V1 a place in the file, else a flat address.
    #[error("{rule:?} is broken at {at:#x}")]
    Refused { rule: Rule, at: u64 },
}

impl From<NoMemory> for VerifyError {
    ghost from_gives = { λ _ e. e ≡ NoMemory };

    fn from(_e: NoMemory) -> VerifyError {
        VerifyError::NoMemory
    }
}

/// The verdict on the bytes of an image, whatever made them.
pub fn verify<'a>(alloc: Global, bytes: &'a [u8]) -> Result<Verified<'a>, VerifyError>
    // What is answered is the bytes' image, and they are accepted.
    ensures image { IfOk result (λ v. IsImage bytes.now v.image) }
    ensures accepted { IfOk result (λ v. IsAccepted bytes.now) }
    ensures counts { IfOk result (λ v. HasCounts v) }
    // A refusal names the verdict.
    ensures refused { IfErr result (λ error. IsRefusal bytes.now error) }
{
    let parts = image_at(bytes)?;
    match check_code(alloc, &parts) {
        Ok(counts) => Ok(Verified { parts, counts }),
        Err(error) => Err(error),
    }
}

/// The parts of an image, or the least place where the form is wrong.
pub(crate) fn image_at<'a>(bytes: &'a [u8]) -> Result<Parts<'a>, VerifyError>
    ensures image { IfOk result (λ parts. IsImage bytes.now (image_of parts)) }
    ensures refused { IfErr result (λ error. IsRefusal bytes.now error) }
    ensures rule { IfErr result (λ error. IsByListingRule error) }
{
    match read_image(bytes) {
        Ok(parts) => Ok(parts),
        Err(fault) => Err(VerifyError::Refused {
            rule: Rule::V1,
            at: u64::from(fault.place),
        }),
    }
}

/// The rules on the code of a good image.
fn check_code(alloc: Global, parts: &Parts<'_>) -> Result<Counts, VerifyError>
    requires good { IsGood (image_of parts.now) }
    ensures accepted { OnOk result (IsAcceptedImage (image_of parts.now)) }
    ensures counts { IfOk result (λ c. HasCounts (checked_of parts.now c.procedures c.items)) }
    ensures refused { IfErr result (λ error. IsCodeRefusal (image_of parts.now) error) }
{
    let listing = listing_of(alloc, parts)?;
    let numbers = item_numbers(alloc, &listing)?;
    let items = listing.items.as_slice();
    let counts = check_shape(alloc, parts, items, &numbers)?;
    check_flow(alloc, parts, items, &numbers)?;
    Ok(counts)
}

/// V2: the chain of items.
pub(crate) fn listing_of<'a>(alloc: Global, parts: &Parts<'a>) -> Result<Listing<'a>, VerifyError>
    requires { IsGood (image_of parts.now) }
    ensures code { IfOk result (λ l. l.code.now ≡ (image_of parts.now).code) }
    ensures listing { IfOk result (λ l. HasListing (image_of parts.now) l.items.items) }
    ensures refused { IfErr result (λ error. IsCodeRefusal (image_of parts.now) error) }
    ensures rule { IfErr result (λ error. IsByListingRule error) }
{
    match sweep(alloc, parts.code, parts.prefix) {
        Ok(listing) => Ok(listing),
        Err(SweepError::NoMemory) => Err(VerifyError::NoMemory),
        Err(SweepError::NoItem { at }) => Err(refused(Rule::V2, at)),
    }
}

/// A refusal at a place of the code.
fn refused(rule: Rule, place: u32) -> VerifyError
    ensures { result ≡ Refused rule (code_base + place) }
{
    VerifyError::Refused {
        rule,
        at: CODE_BASE + u64::from(place),
    }
}

/// V3 to V9. Where they hold, the counts are those of the items.
fn check_shape(
    alloc: Global,
    parts: &Parts<'_>,
    items: &[Placed],
    numbers: &ItemNumbers<'_>,
) -> Result<Counts, VerifyError>
    requires good { IsGood (image_of parts.now) }
    requires listing { HasListing (image_of parts.now) items.now }
    requires numbers { NumbersItems items.now (number_at numbers.now) }
    ensures holds { OnOk result ((rule : Rule) (place : ℕ) → BreaksShape rule (image_of parts.now) items.now place → ⊥) }
    ensures procedures { IfOk result (λ c. c.procedures ≡ call_words items.now) }
    ensures items { IfOk result (λ c. c.items ≡ other_items items.now) }
    ensures refused { IfErr result (λ error. IsCodeRefusal (image_of parts.now) error) }
{
    let first = first_bad(items, numbers);
    check_items(parts, items, Rule::V3, first.end)?;
    check_prefix(alloc, parts, items, numbers)?;
    check_items(parts, items, Rule::V5, first.return_word)?;
    check_items(parts, items, Rule::V6, first.jump)?;
    check_items(parts, items, Rule::V7, first.call)?;
    check_items(parts, items, Rule::V8, first.result)?;
    check_entries(parts, items, numbers)?;
    Ok(Counts {
        procedures: first.procedures,
        items: first.items,
    })
}

/// V3 and V5 to V8: refuses by the rule at the first item that breaks it, if there is one.
fn check_items(
    parts: &Parts<'_>,
    items: &[Placed],
    rule: Rule,
    first: Option<usize>,
) -> Result<(), VerifyError>
    requires rule { is_item_rule rule ≡ true }
    requires listing { HasListing (image_of parts.now) items.now }
    requires first { IsFirstBad (BadBy rule items.now) (length items.now) first }
    requires below { HoldsBelow (image_of parts.now) items.now (rule_number rule) }
    ensures holds { OnOk result (HoldsBelow (image_of parts.now) items.now (rule_number rule + 1)) }
    ensures refused { IfErr result (λ error. IsCodeRefusal (image_of parts.now) error) }
{
    match first {
        Some(i) => Err(refused(rule, items[i].at)),
        None => Ok(()),
    }
}

/// V4: the prefix stands in words alone.
fn check_prefix(
    alloc: Global,
    parts: &Parts<'_>,
    items: &[Placed],
    numbers: &ItemNumbers<'_>,
) -> Result<(), VerifyError>
    requires good { IsGood (image_of parts.now) }
    requires listing { HasListing (image_of parts.now) items.now }
    requires numbers { NumbersItems items.now (number_at numbers.now) }
    requires below { HoldsBelow (image_of parts.now) items.now 4 }
    ensures holds { OnOk result (HoldsBelow (image_of parts.now) items.now 5) }
    ensures refused { IfErr result (λ error. IsCodeRefusal (image_of parts.now) error) }
{
    let places = occurrences(alloc, parts.code, parts.prefix)?;
    match bad_occurrence(items, numbers, places.as_slice()) {
        Some(k) => Err(refused(Rule::V4, places[k])),
        None => Ok(()),
    }
}

/// V9: each entry follows a call word.
fn check_entries(
    parts: &Parts<'_>,
    items: &[Placed],
    numbers: &ItemNumbers<'_>,
) -> Result<(), VerifyError>
    requires good { IsGood (image_of parts.now) }
    requires listing { HasListing (image_of parts.now) items.now }
    requires numbers { NumbersItems items.now (number_at numbers.now) }
    requires below { HoldsBelow (image_of parts.now) items.now 9 }
    ensures holds { OnOk result ((rule : Rule) (place : ℕ) → BreaksShape rule (image_of parts.now) items.now place → ⊥) }
    ensures refused { IfErr result (λ error. IsCodeRefusal (image_of parts.now) error) }
{
    match least_bad_entry(items, numbers, parts.entries.as_slice()) {
        Some(entry) => Err(refused(Rule::V9, entry)),
        None => Ok(()),
    }
}

/// V10 to V16: the first item that breaks a rule on labels.
fn check_flow(
    alloc: Global,
    parts: &Parts<'_>,
    items: &[Placed],
    numbers: &ItemNumbers<'_>,
) -> Result<(), VerifyError>
    requires good { IsGood (image_of parts.now) }
    requires listing { HasListing (image_of parts.now) items.now }
    requires numbers { NumbersItems items.now (number_at numbers.now) }
    requires shape { (rule : Rule) (place : ℕ) → BreaksShape rule (image_of parts.now) items.now place → ⊥ }
    ensures holds { OnOk result (IsAcceptedImage (image_of parts.now)) }
    ensures refused { IfErr result (λ error. IsCodeRefusal (image_of parts.now) error) }
{
    let labels = least_labels::<Brand>(alloc, items, numbers, Blank::new(1))?;
    match bad_label(items, numbers, &labels) {
        Some((i, rule)) => Err(refused(rule, items[i].at)),
        None => Ok(()),
    }
}

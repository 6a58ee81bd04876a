//! The rules on labels.

ghost use Rattle.std.specs.Prelude.{◌≡◌, ◌<◌, ◌≤◌, ◌+◌, ◌^◌, ℕ, IsTrue, true, false, length, slice_get, Some, MatchOption, IfOk};
ghost use Rattle.taint_flow.specs.Label.{IsAtMost};
ghost use Rattle.taint_flow.specs.Flow.{Labelling, MeetsFlow};
ghost use Rattle.taint_flow.specs.Bits.{label_of, labelling_of};
ghost use Rattle.taint_flow.specs.Calls.{AreEight};
ghost use Rattle.taint_flow.specs.Places.{NumbersItems, StandApart, NextStands, number_at};
ghost use Rattle.conf_verify.specs.declared.rule.Rule.{Rule};
ghost use Rattle.conf_verify.specs.Rules.{item_breaks, rule_number};
ghost use Rattle.conf_verify.specs.Search.{BadLabel, IsFirstBroken};

use crate::rule::Rule;
use code_sweep::{Item, Placed};
use cv_word::{NoMemory, Steps};
use std::alloc::Global;
use std::sync::ledger::{Blank, Ledger};
use taint_flow::{
    ItemNumbers, Label, Labels, branches_on_private, callee, divides_private, has_private_address,
    label_items, leaves_rsp_private, passes_private, returns_private, stores_private,
};

/// The least labels that meet the flow rules. Nobody reads how many steps that took, so any new ledger serves.
pub fn least_labels<L: Ledger>(
    alloc: Global,
    items: &[Placed],
    numbers: &ItemNumbers<'_>,
    blank: Blank,
) -> Result<Labels, NoMemory>
    requires name { blank.name ≡ L.name }
    requires parts { blank.parts ≡ L.parts }
    requires some { 0 < blank.parts }
    requires limit { length items.now < 2 ^ 32 }
    requires numbers { NumbersItems items.now (number_at numbers.now) }
    requires next { NextStands items.now }
    ensures len { IfOk result (λ labels. length labels ≡ length items.now) }
    ensures meets { IfOk result (λ labels. MeetsFlow items.now (labelling_of labels)) }
    ensures least { IfOk result (λ labels. (any : Labelling) → MeetsFlow items.now any → (i : ℕ) → IsAtMost (labelling_of labels i) (any i)) }
{
    let mut steps = Steps::<L>::new(blank);
    label_items(alloc, items, numbers, &mut steps)
}

/// The lowest rule that an item breaks, from the bits of what it calls and what may be private before it.
fn item_broken(item: &Item, called: Option<u8>, l: Label) -> Option<Rule>
    ensures { MatchOption result ((rule : Rule) → item_breaks rule called item.now (label_of l.bits) ≡ false)
        (λ r. (item_breaks r called item.now (label_of l.bits) ≡ true)
        × ((rule : Rule) → rule_number rule < rule_number r → item_breaks rule called item.now (label_of l.bits) ≡ false)) }
{
    if has_private_address(item, l) {
        return Some(Rule::V10);
    }
    if stores_private(item, l) {
        return Some(Rule::V11);
    }
    if branches_on_private(item, l) {
        return Some(Rule::V12);
    }
    if divides_private(item, l) {
        return Some(Rule::V13);
    }
    if leaves_rsp_private(item, l) {
        return Some(Rule::V14);
    }
    if passes_private(called, l) {
        return Some(Rule::V15);
    }
    if returns_private(item, l) {
        return Some(Rule::V16);
    }
    None
}

/// The first item that breaks a rule on labels, and the lowest that it breaks.
pub fn bad_label(
    items: &[Placed],
    numbers: &ItemNumbers<'_>,
    labels: &Labels,
) -> Option<(usize, Rule)>
    requires numbers { NumbersItems items.now (number_at numbers.now) }
    requires eight { AreEight items.now }
    requires apart { StandApart items.now }
    requires labels { length labels.now ≡ length items.now }
    ensures { IsFirstBroken items.now (labelling_of labels.now) result }
{
    for i in 0..items.len() {
        let p = items[i];
        let called = callee(items, numbers, &p);
        if let Some(rule) = item_broken(&p.item, called, labels.get(i)) {
            return Some((i, rule));
        }
    }
    None
}

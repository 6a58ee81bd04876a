//! The worklist of the labelling: labels that rise, and the items that have yet to hand on what rose.

ghost use Rattle.std.specs.Prelude.{◌≡◌, ℕ, ◌<◌, true, List, Some, length, vec_capacity};
ghost use Rattle.taint_flow.specs.Label.{IsAtMost};
ghost use Rattle.taint_flow.specs.Bits.{label_of};
ghost use Rattle.taint_flow.specs.Worklist.{state_of, state_over, topped, all_private, IsWhole, Rises, TakesIn, StaysBelow};

use crate::label::Label;

/// A label for each item, whether it is queued, and the stack of the items that are queued again after their first turn, each
/// of which stands there once. The stack has room for all items from the start.
#[derive(Drop)]
pub struct Worklist {
    pub labels: Vec<Label>,
    pub queued: Vec<bool>,
    pub stack: Vec<u32>,
}

/// Joins a label into that of item `j`, and answers whether that rose and the item was not queued. Then it is flagged as
/// queued, and stays to be pushed or looked at.
#[inline(always)]
pub fn raise(w: &mut Worklist, j: usize, out: Label) -> bool
    requires whole { (below : List ℕ) × IsWhole (length w.old.labels.items) (state_over below w.old) }
    requires inside { j < length w.old.labels.items }
    requires names { IsAtMost (label_of out.bits) all_private }
    ensures rises { (below : List ℕ) → Rises (state_over below w.old) (topped result j (state_over below w.new)) }
    ensures takes { TakesIn (Some j) (label_of out.bits) (state_of w.new) }
    ensures stays { StaysBelow (Some j) (label_of out.bits) (state_of w.old) (state_of w.new) }
    ensures room { result ≡ true → length w.new.stack.items < vec_capacity w.new.stack }
{
    let before = w.labels[j].bits;
    let joined = before | out.bits;
    if joined == before {
        return false;
    }
    w.labels[j] = Label { bits: joined };
    if w.queued[j] {
        return false;
    }
    w.queued[j] = true;
    true
}

/// Joins a label into that of the item `to`, if one is named, and queues the item if its label rose.
pub fn join(w: &mut Worklist, to: Option<u32>, out: Label)
    requires whole { (below : List ℕ) × IsWhole (length w.old.labels.items) (state_over below w.old) }
    requires inside { (j : ℕ) → to ≡ Some j → j < length w.old.labels.items }
    requires names { IsAtMost (label_of out.bits) all_private }
    ensures rises { (below : List ℕ) → Rises (state_over below w.old) (state_over below w.new) }
    ensures takes { TakesIn to (label_of out.bits) (state_of w.new) }
    ensures stays { StaysBelow to (label_of out.bits) (state_of w.old) (state_of w.new) }
{
    let Some(to) = to else {
        return;
    };
    if raise(w, to as usize, out) {
        w.stack.push_reserved(to);
    }
}

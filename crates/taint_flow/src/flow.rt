//! The least labels that meet the flow rules.

ghost use Rattle.std.specs.Prelude.{◌≡◌, ℕ, suc, true, ◌+◌, ◌*◌, ◌<◌, ◌≤◌, ◌^◌, [], List, Option, Some, None, slice_get, length, OnErr, IfOk, vec_capacity};
ghost use Rattle.cv_word.specs.Arithmetic.{added};
ghost use Rattle.cv_word.specs.MemoryMap.{code_base};
ghost use Rattle.cv_word.specs.Words.{widened};
ghost use Rattle.taint_flow.specs.declared.label.Label.{Label as LabelBits};
ghost use Rattle.taint_flow.specs.Label.{IsAtMost, entry_label};
ghost use Rattle.taint_flow.specs.Flow.{Labelling, MeetsFlow, falls_through, left_behind, jump_target, address_after};
ghost use Rattle.taint_flow.specs.Bits.{label_of, labelling_of};
ghost use Rattle.taint_flow.specs.Places.{StandInOrder, NextStands, NumbersItems, number_at};
ghost use Rattle.taint_flow.specs.Worklist.{state_of, state_over, topped, waiting, label_at, all_private, work_left, IsWhole, Rises, HandsOn, StaysLeast, IsFresh, IsSound, behind_word, word_label};

use crate::label::{Label, entry_label, left_by, return_label};
use crate::places::{ItemNumbers, item_numbers};
use crate::worklist::{Worklist, join, raise};
use code_sweep::{Item, Listing, Placed};
use cv_word::{CODE_BASE, NoMemory, Steps};
use std::alloc::Global;
use std::marker::Model;
use std::sync::ledger::Ledger;
use x64_decode::Instr;

/// A label for each item of a listing, by the item's number from 0.
#[derive(Drop)]
pub struct Labels {
    labels: Vec<Label>,
}

impl Model for Labels {
    ghost Value = { List LabelBits };

    ghost view = { λ t. t.labels.items };
}

impl Labels {
    /// The number of labels, which is that of the items.
    pub fn len(&self) -> usize
        ensures { result ≡ length self.now }
    {
        self.labels.len()
    }

    /// The label before item `i`.
    pub fn get(&self, i: usize) -> Label
        requires { i < length self.now }
        ensures { slice_get self.now i ≡ Some result }
    {
        self.labels[i]
    }
}

/// The least labels that meet the flow rules. The listing's items stand in order in its code of fewer than
/// 2^32 bytes, and one stands behind each word and each item that leads to the next. A jump whose target is no item leads nowhere.
/// An item that nothing leads to has nothing private before it, and still hands on what it leaves. A step is one use of an
/// item's row, and there are at most 18 for each item. The one error is want of memory; all room is taken before the first
/// step, so none is counted then.
pub fn label_code<L: Ledger>(
    alloc: Global,
    listing: &Listing<'_>,
    steps: &mut Steps<L>,
) -> Result<Labels, NoMemory>
    requires order { StandInOrder listing.now.items.items listing.now.code.now }
    requires limit { length listing.now.code.now < 2 ^ 32 }
    requires next { NextStands listing.now.items.items }
    ensures len { IfOk result (λ labels. length labels ≡ length listing.now.items.items) }
    ensures meets { IfOk result (λ labels. MeetsFlow listing.now.items.items (labelling_of labels)) }
    ensures least { IfOk result (λ labels. (any : Labelling) → MeetsFlow listing.now.items.items any → (i : ℕ) → IsAtMost (labelling_of labels i) (any i)) }
    ensures bound { steps.new ≤ steps.old + 18 * length listing.now.items.items }
    ensures room_first { OnErr result (steps.new ≡ steps.old) }
{
    let numbers = item_numbers(alloc, listing)?;
    label_items(alloc, listing.items.as_slice(), &numbers, steps)
}

/// The least labels as [`label_code`] answers them, of fewer than 2^32 items whose numbers are at hand.
pub fn label_items<L: Ledger>(
    alloc: Global,
    items: &[Placed],
    numbers: &ItemNumbers<'_>,
    steps: &mut Steps<L>,
) -> Result<Labels, NoMemory>
    requires limit { length items.now < 2 ^ 32 }
    requires numbers { NumbersItems items.now (number_at numbers.now) }
    requires next { NextStands items.now }
    ensures len { IfOk result (λ labels. length labels ≡ length items.now) }
    ensures meets { IfOk result (λ labels. MeetsFlow items.now (labelling_of labels)) }
    ensures least { IfOk result (λ labels. (any : Labelling) → MeetsFlow items.now any → (i : ℕ) → IsAtMost (labelling_of labels i) (any i)) }
    ensures bound { steps.new ≤ steps.old + 18 * length items.now }
    ensures room_first { OnErr result (steps.new ≡ steps.old) }
{
    let mut w = queue_all(alloc, items.len())?;
    take_turns(&mut w, items, numbers, steps);
    settle(&mut w, items, numbers, steps);
    Ok(Labels { labels: w.labels })
}

/// Nothing is private, and every item is queued and waits for its first turn.
fn queue_all(alloc: Global, count: usize) -> Result<Worklist, NoMemory>
    requires { count < 2 ^ 32 }
    ensures { IfOk result (λ w. IsFresh count (state_over (waiting 0 count) w)) }
{
    let labels = vec![in alloc; Label { bits: 0 }; count]?;
    let queued = vec![in alloc; true; count]?;
    let stack = Vec::with_capacity(alloc, count)?;
    Ok(Worklist {
        labels,
        queued,
        stack,
    })
}

/// Gives each item its first turn: a word joins what it says into the label behind it, and then the item hands on what it
/// leaves.
fn take_turns<L: Ledger>(
    w: &mut Worklist,
    items: &[Placed],
    numbers: &ItemNumbers<'_>,
    steps: &mut Steps<L>,
)
    requires fresh { IsFresh (length items.now) (state_over (waiting 0 (length items.now)) w.old) }
    requires limit { length items.now < 2 ^ 32 }
    requires numbers { NumbersItems items.now (number_at numbers.now) }
    requires next { NextStands items.now }
    ensures sound { IsSound items.now (length items.now) (state_of w.new) }
    ensures bound { steps.new + work_left (state_of w.new) ≤ steps.old + 18 * length items.now }
{
    for i in 0..items.len() {
        let item = &items[i].item;
        join(w, behind_word(item, i), word_label(item));
        w.queued[i] = false;
        hand_on(w, items, numbers, i, steps);
    }
}

/// The number of the item behind a word.
fn behind_word(item: &Item, i: usize) -> Option<u32>
    requires { i + 1 < 2 ^ 32 }
    ensures { result ≡ behind_word item.now i }
{
    match *item {
        Item::Call(_) => Some((i + 1) as u32),
        Item::Ret(_) => Some((i + 1) as u32),
        _ => None,
    }
}

/// What a word says of the item behind it.
fn word_label(item: &Item) -> Label
    ensures { label_of result.bits ≡ word_label item.now }
{
    match *item {
        Item::Call(bits) => entry_label(bits),
        Item::Ret(bit) => return_label(bit),
        _ => Label { bits: 0 },
    }
}

/// Lets each queued item hand on what it leaves, until none is queued.
fn settle<L: Ledger>(
    w: &mut Worklist,
    items: &[Placed],
    numbers: &ItemNumbers<'_>,
    steps: &mut Steps<L>,
)
    requires sound { IsSound items.now (length items.now) (state_of w.old) }
    requires limit { length items.now < 2 ^ 32 }
    requires numbers { NumbersItems items.now (number_at numbers.now) }
    requires next { NextStands items.now }
    ensures sound { IsSound items.now (length items.now) (state_of w.new) }
    ensures empty { w.new.stack.items ≡ [] }
    ensures bound { steps.new ≤ steps.old + work_left (state_of w.old) }
{
    while let Some(i) = w.stack.pop() {
        follow(w, items, numbers, i as usize, steps);
    }
}

/// Lets item `i`, which was taken off the stack, hand on what it leaves, and then each item behind it whose label that raises.
#[inline(never)]
fn follow<L: Ledger>(
    w: &mut Worklist,
    items: &[Placed],
    numbers: &ItemNumbers<'_>,
    i: usize,
    steps: &mut Steps<L>,
)
    requires sound { IsSound items.now (length items.now) (topped true i (state_of w.old)) }
    requires limit { length items.now < 2 ^ 32 }
    requires numbers { NumbersItems items.now (number_at numbers.now) }
    requires next { NextStands items.now }
    ensures sound { IsSound items.now (length items.now) (state_of w.new) }
    ensures fall { work_left (state_of w.new) < work_left (topped true i (state_of w.old)) }
    ensures bound { steps.new + work_left (state_of w.new) ≤ steps.old + work_left (topped true i (state_of w.old)) }
{
    let mut at = i;
    loop {
        w.queued[at] = false;
        if !lead_on(w, items, numbers, at, steps) {
            return;
        }
        at += 1;
    }
}

/// Joins what item `i` leaves into the labels of the items that it leads to, and answers whether the one behind it is to be
/// looked at next. Then that is flagged as queued and isn't on the stack.
#[inline(always)]
fn lead_on<L: Ledger>(
    w: &mut Worklist,
    items: &[Placed],
    numbers: &ItemNumbers<'_>,
    i: usize,
    steps: &mut Steps<L>,
) -> bool
    requires whole { (below : List ℕ) × IsWhole (length items.now) (state_over below w.old) }
    requires inside { i < length items.now }
    requires names { IsAtMost (label_at (state_of w.old) i) all_private }
    requires limit { length items.now < 2 ^ 32 }
    requires numbers { NumbersItems items.now (number_at numbers.now) }
    requires next { NextStands items.now }
    ensures rises { (below : List ℕ) → Rises (state_over below w.old) (topped result (i + 1) (state_over below w.new)) }
    ensures room { result ≡ true → (i + 1 < length items.now) × (length w.new.stack.items < vec_capacity w.new.stack) }
    ensures handed { HandsOn items.now i (state_of w.old) (state_of w.new) }
    ensures least { StaysLeast items.now (state_of w.old) (state_of w.new) }
    ensures step { steps.new ≡ steps.old + 1 }
{
    let p = &items[i];
    let out = left_behind(&p.item, w.labels[i], steps);
    join(w, target_number(numbers, p), out);
    if falls_through(&p.item) {
        raise(w, i + 1, out)
    } else {
        false
    }
}

/// Joins what item `i` leaves into the labels of the items that it leads to.
fn hand_on<L: Ledger>(
    w: &mut Worklist,
    items: &[Placed],
    numbers: &ItemNumbers<'_>,
    i: usize,
    steps: &mut Steps<L>,
)
    requires whole { (below : List ℕ) × IsWhole (length items.now) (state_over below w.old) }
    requires inside { i < length items.now }
    requires names { IsAtMost (label_at (state_of w.old) i) all_private }
    requires limit { length items.now < 2 ^ 32 }
    requires numbers { NumbersItems items.now (number_at numbers.now) }
    requires next { NextStands items.now }
    ensures rises { (below : List ℕ) → Rises (state_over below w.old) (state_over below w.new) }
    ensures handed { HandsOn items.now i (state_of w.old) (state_of w.new) }
    ensures least { StaysLeast items.now (state_of w.old) (state_of w.new) }
    ensures step { steps.new ≡ steps.old + 1 }
{
    if lead_on(w, items, numbers, i, steps) {
        w.stack.push_reserved((i + 1) as u32);
    }
}

/// What may be private behind an item. Each use of an item's row is here, and is a step.
fn left_behind<L: Ledger>(item: &Item, l: Label, steps: &mut Steps<L>) -> Label
    ensures label { label_of result.bits ≡ left_behind item.now (label_of l.bits) }
    ensures step { steps.new ≡ steps.old + 1 }
{
    steps.tick();
    match *item {
        Item::Plain(i) => left_by(&i, l),
        _ => l,
    }
}

/// Whether the item leads to the one behind it.
fn falls_through(item: &Item) -> bool
    ensures { result ≡ falls_through item.now }
{
    match *item {
        Item::Plain(Instr::Call { rel: _ }) => false,
        Item::Plain(Instr::Jmp { rel: _ }) => false,
        Item::Plain(Instr::Ud2) => false,
        Item::Plain(_) => true,
        _ => false,
    }
}

/// The number of the item at a jump's target.
fn target_number(numbers: &ItemNumbers<'_>, p: &Placed) -> Option<u32>
    ensures found { (place : ℕ) → jump_target p.now ≡ Some (code_base + place) → result ≡ number_at numbers.now place }
    ensures only { (j : ℕ) → result ≡ Some j → (place : ℕ) × (jump_target p.now ≡ Some (code_base + place)) × (number_at numbers.now place ≡ Some j) }
{
    let Some(target) = jump_target(p) else {
        return None;
    };
    if target < CODE_BASE {
        return None;
    }
    numbers.at(target - CODE_BASE)
}

/// The flat address where a jump goes, modulo 2^64, if the item is one.
pub fn jump_target(p: &Placed) -> Option<u64>
    ensures { result ≡ jump_target p.now }
{
    match p.item {
        Item::Plain(Instr::Jmp { rel }) => Some(target_from(behind(p), rel)),
        Item::Plain(Instr::Jcc { cc: _, rel }) => Some(target_from(behind(p), rel)),
        _ => None,
    }
}

/// The flat address behind an item.
pub fn behind(p: &Placed) -> u64
    ensures { result ≡ address_after p.now }
{
    CODE_BASE + u64::from(p.at) + u64::from(p.len)
}

/// The flat address of a jump or a call, from the one behind it.
pub fn target_from(behind: u64, rel: i32) -> u64
    ensures { result ≡ added behind (widened rel) }
{
    behind.wrapping_add(i64::from(rel).cast_unsigned())
}

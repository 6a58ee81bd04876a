//! The rules on the shape of a listing: how procedures end, where jumps go, where the prefix stands.

ghost use Rattle.std.specs.Prelude.{◌≡◌, ◌<◌, ◌+◌, ◌≤◌, ℕ, IsTrue, true, false, length, slice_get, slice_index, Some, IfSome, if◌then◌else◌};
ghost use Rattle.code_sweep.specs.declared.item.Placed.{Placed};
ghost use Rattle.taint_flow.specs.Places.{NumbersItems, number_at};
ghost use Rattle.conf_verify.specs.Rules.{is_word, is_call_word, may_end, IsGoodTarget, FollowsCallWord, BreaksEntries};
ghost use Rattle.conf_verify.specs.Search.{BeginsAt, IsBorder, IsFirstBad, IsLeastBad, IsProcedure, BadEnd, BadJump, HasWord, BadOccurrence, least_of};

use code_sweep::{Item, Placed};
use cv_word::CODE_BASE;
use taint_flow::{ItemNumbers, jump_target};
use x64_decode::Instr;

/// The items of one procedure: from number `start` up to, not including, number `end`.
#[derive(Clone, Copy)]
pub struct Procedure {
    pub start: usize,
    pub end: usize,
}

/// Whether the item is a word.
pub fn is_word(item: &Item) -> bool
    ensures { result ≡ is_word item.now }
{
    match *item {
        Item::Call(_) => true,
        Item::Ret(_) => true,
        _ => false,
    }
}

/// Whether the item is a call word.
pub fn is_call_word(item: &Item) -> bool
    ensures { result ≡ is_call_word item.now }
{
    match *item {
        Item::Call(_) => true,
        _ => false,
    }
}

/// 1 where the test holds, else 0.
pub fn one_where(test: bool) -> u32
    ensures value { result ≡ (if test then 1 else 0) }
    ensures most { result ≤ 1 }
{
    if test { 1 } else { 0 }
}

/// Whether an item may be the last of a procedure.
fn may_end(item: &Item) -> bool
    ensures { result ≡ may_end item.now }
{
    match *item {
        Item::Plain(Instr::Jmp { rel: _ }) => true,
        Item::Plain(Instr::Ud2) => true,
        Item::ReturnUnit(_) => true,
        _ => false,
    }
}

/// Where the procedure that begins with item `start` ends: the number of the next call word, or how many items there are.
pub fn procedure_end(items: &[Placed], start: usize) -> usize
    requires inside { start < length items.now }
    requires border { IsBorder items.now start }
    ensures { IsProcedure items.now start result }
{
    for j in start + 1..items.len() {
        if is_call_word(&items[j].item) {
            return j;
        }
    }
    items.len()
}

/// Whether item `i` is the first and no call word, or the last of its procedure and may not end it.
pub fn is_bad_end(items: &[Placed], procedure: Procedure, i: usize) -> bool
    requires procedure { IsProcedure items.now procedure.start procedure.end }
    requires from { procedure.start ≤ i }
    requires to { i < procedure.end }
    ensures yes { IsTrue result → BadEnd items.now i }
    ensures no { result ≡ false → BadEnd items.now i → ⊥ }
{
    let p = &items[i];
    if i == 0 && !is_call_word(&p.item) {
        return true;
    }
    i + 1 == procedure.end && !may_end(&p.item)
}

/// The item that begins at a place of the code.
fn item_at_place(items: &[Placed], numbers: &ItemNumbers<'_>, place: u64) -> Option<Placed>
    requires { NumbersItems items.now (number_at numbers.now) }
    ensures found { IfSome result (λ q. BeginsAt items.now q place) }
    ensures only { (j : ℕ) (q : Placed) → slice_get items.now j ≡ Some q → q.at ≡ place → result ≡ Some q }
{
    let Some(j) = numbers.at(place) else {
        return None;
    };
    let j = j as usize;
    if j >= items.len() {
        return None;
    }
    Some(items[j])
}

/// Whether an item of a procedure that is no word stands at a flat address. Item `i` is one of the procedure.
fn is_good_target(
    items: &[Placed],
    numbers: &ItemNumbers<'_>,
    procedure: Procedure,
    i: usize,
    target: u64,
) -> bool
    requires numbers { NumbersItems items.now (number_at numbers.now) }
    requires procedure { IsProcedure items.now procedure.start procedure.end }
    requires from { procedure.start ≤ i }
    requires to { i < procedure.end }
    ensures yes { IsTrue result → IsGoodTarget items.now i target }
    ensures no { result ≡ false → IsGoodTarget items.now i target → ⊥ }
{
    if target < CODE_BASE {
        return false;
    }
    let Some(j) = numbers.at(target - CODE_BASE) else {
        return false;
    };
    let j = j as usize;
    if j < procedure.start {
        return false;
    }
    if j >= procedure.end {
        return false;
    }
    !is_word(&items[j].item)
}

/// Whether item `i` is a jump whose target is no item of its procedure, or a word.
pub fn is_bad_jump(
    items: &[Placed],
    numbers: &ItemNumbers<'_>,
    procedure: Procedure,
    i: usize,
) -> bool
    requires numbers { NumbersItems items.now (number_at numbers.now) }
    requires procedure { IsProcedure items.now procedure.start procedure.end }
    requires from { procedure.start ≤ i }
    requires to { i < procedure.end }
    ensures yes { IsTrue result → BadJump items.now i }
    ensures no { result ≡ false → BadJump items.now i → ⊥ }
{
    let p = &items[i];
    let Some(target) = jump_target(p) else {
        return false;
    };
    !is_good_target(items, numbers, procedure, i, target)
}

/// Whether a word's prefix stands at a place.
fn has_word(items: &[Placed], numbers: &ItemNumbers<'_>, place: u32) -> bool
    requires { NumbersItems items.now (number_at numbers.now) }
    ensures yes { IsTrue result → HasWord items.now place }
    ensures no { result ≡ false → HasWord items.now place → ⊥ }
{
    if place < 2 {
        return false;
    }
    let Some(q) = item_at_place(items, numbers, (place - 2) as u64) else {
        return false;
    };
    is_word(&q.item)
}

/// The first of the places at which the prefix stands and isn't that of a word.
pub fn bad_occurrence(items: &[Placed], numbers: &ItemNumbers<'_>, places: &[u32]) -> Option<usize>
    requires { NumbersItems items.now (number_at numbers.now) }
    ensures { IsFirstBad (BadOccurrence items.now places.now) (length places.now) result }
{
    for k in 0..places.len() {
        if !has_word(items, numbers, places[k]) {
            return Some(k);
        }
    }
    None
}

/// Whether an entry follows a call word.
fn follows_call_word(items: &[Placed], numbers: &ItemNumbers<'_>, entry: u32) -> bool
    requires numbers { NumbersItems items.now (number_at numbers.now) }
    requires eight { (i : ℕ) (p : Placed) → slice_get items.now i ≡ Some p → is_call_word p.item ≡ true → p.len ≡ 8 }
    ensures yes { IsTrue result → FollowsCallWord items.now entry }
    ensures no { result ≡ false → FollowsCallWord items.now entry → ⊥ }
{
    if entry < 8 {
        return false;
    }
    let Some(q) = item_at_place(items, numbers, (entry - 8) as u64) else {
        return false;
    };
    is_call_word(&q.item)
}

/// What the least bad number was before, or `n` where that is bad and lower.
fn least_of(before: Option<u32>, bad: bool, n: u32) -> Option<u32>
    ensures { result ≡ least_of before bad n }
{
    match before {
        Some(low) if bad => Some(low.min(n)),
        None if bad => Some(n),
        _ => before,
    }
}

/// The least of the entries that don't follow a call word.
pub fn least_bad_entry(items: &[Placed], numbers: &ItemNumbers<'_>, entries: &[u32]) -> Option<u32>
    requires numbers { NumbersItems items.now (number_at numbers.now) }
    requires eight { (i : ℕ) (p : Placed) → slice_get items.now i ≡ Some p → is_call_word p.item ≡ true → p.len ≡ 8 }
    ensures { IsLeastBad (BreaksEntries entries.now items.now) result }
{
    let mut least = None;
    for k in 0..entries.len() {
        let entry = entries[k];
        let follows = follows_call_word(items, numbers, entry);
        least = least_of(least, !follows, entry);
    }
    least
}

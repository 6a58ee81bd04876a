//! The first item that breaks each rule on single items, all found in one pass over the items, which it counts too.

ghost use Rattle.std.specs.Prelude.{◌≡◌, ◌≤◌, ◌<◌, ◌^◌, true, Option, length};
ghost use Rattle.taint_flow.specs.Calls.{AreEight};
ghost use Rattle.taint_flow.specs.Places.{NumbersItems, StandApart, number_at};
ghost use Rattle.conf_verify.specs.Rules.{call_words, other_items};
ghost use Rattle.conf_verify.specs.Search.{BadCall, BadEnd, BadJump, BadResult, BadReturn, IsFirstBad, IsProcedure, IsReached, first_of};

use crate::calls::{bits_from, is_bad_call, is_bad_result, is_bad_return, is_quiet};
use crate::shape::{
    Procedure, is_bad_end, is_bad_jump, is_call_word, is_word, one_where, procedure_end,
};
use code_sweep::Placed;
use taint_flow::ItemNumbers;

/// For each rule on single items the number of the first item that breaks it, and the counts of the items.
#[derive(Clone, Copy)]
pub struct FirstBad {
    /// V3: the first item that is no call word, or the last of a procedure that may not end it.
    pub end: Option<usize>,
    /// V5: a call behind which no return word stands that fits, or a return word that follows no call.
    pub return_word: Option<usize>,
    /// V6: a jump whose target is no item of its procedure, or a word.
    pub jump: Option<usize>,
    /// V7: a direct call whose target is neither behind a call word nor a gate.
    pub call: Option<usize>,
    /// V8: a return unit whose bit isn't that of its procedure.
    pub result: Option<usize>,
    /// How many call words there are.
    pub procedures: u32,
    /// How many items that are no words there are.
    pub items: u32,
}

/// What was found before, or item `i` where that is bad.
fn first_of(before: Option<usize>, bad: bool, i: usize) -> Option<usize>
    ensures { result ≡ first_of before bad i }
{
    if bad { earlier(before, i) } else { before }
}

/// What was found before, or else item `i`. A good listing never comes here.
#[cold]
#[inline(never)]
fn earlier(before: Option<usize>, i: usize) -> Option<usize>
    ensures { result ≡ first_of before true i }
{
    match before {
        Some(j) => Some(j),
        None => Some(i),
    }
}

/// The procedure of item `i`, from that of the item before.
fn procedure_from(items: &[Placed], before: Procedure, i: usize) -> Procedure
    requires inside { i < length items.now }
    requires reached { IsReached items.now before.start before.end i }
    ensures procedure { IsProcedure items.now result.start result.end }
    ensures from { result.start ≤ i }
    ensures to { i < result.end }
{
    if i == before.end {
        Procedure {
            start: i,
            end: procedure_end(items, i),
        }
    } else {
        before
    }
}

/// The first items that break the rules on single items, and the counts.
pub fn first_bad(items: &[Placed], numbers: &ItemNumbers<'_>) -> FirstBad
    requires few { length items.now < 2 ^ 32 }
    requires numbers { NumbersItems items.now (number_at numbers.now) }
    requires eight { AreEight items.now }
    requires apart { StandApart items.now }
    ensures end { IsFirstBad (BadEnd items.now) (length items.now) result.end }
    ensures return_word { IsFirstBad (BadReturn items.now) (length items.now) result.return_word }
    ensures jump { IsFirstBad (BadJump items.now) (length items.now) result.jump }
    ensures call { IsFirstBad (BadCall items.now) (length items.now) result.call }
    ensures result { IsFirstBad (BadResult items.now) (length items.now) result.result }
    ensures procedures { result.procedures ≡ call_words items.now }
    ensures items { result.items ≡ other_items items.now }
{
    let mut first = FirstBad {
        end: None,
        return_word: None,
        jump: None,
        call: None,
        result: None,
        procedures: 0,
        items: 0,
    };
    let mut procedure = Procedure { start: 0, end: 0 };
    let mut bits = None;
    for i in 0..items.len() {
        let p = &items[i];
        procedure = procedure_from(items, procedure, i);
        first.end = first_of(first.end, is_bad_end(items, procedure, i), i);
        if is_quiet(p) {
            let bad_jump = is_bad_jump(items, numbers, procedure, i);
            first.jump = first_of(first.jump, bad_jump, i);
            first.items += 1;
            continue;
        }
        bits = bits_from(&p.item, bits);
        first.procedures += one_where(is_call_word(&p.item));
        first.items += one_where(!is_word(&p.item));
        first.return_word = first_of(first.return_word, is_bad_return(items, numbers, i), i);
        first.call = first_of(first.call, is_bad_call(items, numbers, i), i);
        first.result = first_of(first.result, is_bad_result(&p.item, bits), i);
    }
    first
}

//! The rules on calls and returns: what stands behind a call, what a call may name, and what a return unit returns.

ghost use Rattle.std.specs.Prelude.{◌≡◌, ◌<◌, ℕ, IsTrue, true, false, length, Option, Some, None};
ghost use Rattle.std.specs.Option.{option_or};
ghost use Rattle.taint_flow.specs.Places.{NumbersItems, StandApart, number_at};
ghost use Rattle.taint_flow.specs.Calls.{AreEight, call_bits, callee};
ghost use Rattle.taint_flow.specs.Flow.{jump_target};
ghost use Rattle.conf_verify.specs.Rules.{FollowsCall, HasReturnWord, fits_result};
ghost use Rattle.conf_verify.specs.Search.{BadCall, BadResult, BadReturn, IsBadResult, IsQuiet, ret_bit};

use code_sweep::{Item, Placed};
use cv_word::result_bit;
use taint_flow::{ItemNumbers, call_target, callee, is_call};
use x64_decode::Instr;

/// The bit of a return word.
fn ret_bit(item: &Item) -> Option<u8>
    ensures { result ≡ ret_bit item.now }
{
    match *item {
        Item::Ret(bit) => Some(bit),
        _ => None,
    }
}

/// Whether the bit of a return word is that of what is called; where that is nothing, any bit is.
fn fits_result(called: Option<u8>, bit: u8) -> bool
    ensures { result ≡ fits_result called bit }
{
    match called {
        Some(bits) => bit == result_bit(bits),
        None => true,
    }
}

/// Whether a return word that fits stands behind item `i`.
fn is_followed(items: &[Placed], i: usize, called: Option<u8>) -> bool
    requires { i < length items.now }
    ensures yes { IsTrue result → (bit : ℕ) × HasReturnWord items.now i bit × (fits_result called bit ≡ true) }
    ensures no { result ≡ false → (bit : ℕ) → HasReturnWord items.now i bit → fits_result called bit ≡ true → ⊥ }
{
    if i + 1 == items.len() {
        return false;
    }
    let q = &items[i + 1];
    match ret_bit(&q.item) {
        Some(bit) => fits_result(called, bit),
        None => false,
    }
}

/// Whether a call stands before item `i`.
fn follows_call(items: &[Placed], i: usize) -> bool
    requires { i < length items.now }
    ensures yes { IsTrue result → FollowsCall items.now i }
    ensures no { result ≡ false → FollowsCall items.now i → ⊥ }
{
    if i == 0 {
        return false;
    }
    let q = &items[i - 1];
    is_call(&q.item)
}

/// Whether an item is an instruction that doesn't call. V5, V7 and V8 don't speak of it, and V6 only of such.
pub fn is_quiet(p: &Placed) -> bool
    ensures yes { IsTrue result → IsQuiet p.now }
    ensures no { result ≡ false → jump_target p.now ≡ None }
{
    match p.item {
        Item::Plain(Instr::Call { rel: _ }) => false,
        Item::Plain(_) => true,
        _ => false,
    }
}

/// Whether item `i` is a call behind which no return word stands that fits, or a return word that follows no call.
pub fn is_bad_return(items: &[Placed], numbers: &ItemNumbers<'_>, i: usize) -> bool
    requires numbers { NumbersItems items.now (number_at numbers.now) }
    requires eight { AreEight items.now }
    requires apart { StandApart items.now }
    requires inside { i < length items.now }
    ensures yes { IsTrue result → BadReturn items.now i }
    ensures no { result ≡ false → BadReturn items.now i → ⊥ }
{
    let p = &items[i];
    if is_call(&p.item) {
        return !is_followed(items, i, callee(items, numbers, p));
    }
    match ret_bit(&p.item) {
        Some(_) => !follows_call(items, i),
        None => false,
    }
}

/// Whether item `i` is a direct call whose target is neither behind a call word nor a gate.
pub fn is_bad_call(items: &[Placed], numbers: &ItemNumbers<'_>, i: usize) -> bool
    requires numbers { NumbersItems items.now (number_at numbers.now) }
    requires eight { AreEight items.now }
    requires apart { StandApart items.now }
    requires inside { i < length items.now }
    ensures yes { IsTrue result → BadCall items.now i }
    ensures no { result ≡ false → BadCall items.now i → ⊥ }
{
    let p = &items[i];
    if call_target(p).is_none() {
        return false;
    }
    callee(items, numbers, p).is_none()
}

/// The bits of the procedure from an item on, from those before it.
pub fn bits_from(item: &Item, before: Option<u8>) -> Option<u8>
    ensures { result ≡ option_or (call_bits item.now) before }
{
    match *item {
        Item::Call(bits) => Some(bits),
        _ => before,
    }
}

/// Whether the item is a return unit whose bit isn't bit 4 of its procedure's bits.
pub fn is_bad_result(item: &Item, procedure: Option<u8>) -> bool
    ensures yes { IsTrue result → IsBadResult item.now procedure }
    ensures no { result ≡ false → IsBadResult item.now procedure → ⊥ }
{
    let Some(bits) = procedure else {
        return false;
    };
    match *item {
        Item::ReturnUnit(bit) => bit != result_bit(bits),
        _ => false,
    }
}

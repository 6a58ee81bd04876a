//! What an item calls.

ghost use Rattle.std.specs.Prelude.{◌≡◌, ◌+◌, ◌/◌, ◌%◌, ◌≤◌, ℕ, length, Some, None, Option};
ghost use Rattle.cv_word.specs.Gates.{gate_bits_at};
ghost use Rattle.taint_flow.specs.Places.{StandApart, NumbersItems, number_at};
ghost use Rattle.taint_flow.specs.Calls.{bits_at, call_bits, call_target, callee, is_call, procedure_at, AreEight};

use crate::flow::{behind, target_from};
use crate::places::ItemNumbers;
use code_sweep::{Item, Placed};
use cv_word::{CODE_BASE, gate_bits};
use x64_decode::Instr;

/// The flat address of gate 0. Gate k stands at 16 k behind it.
const FIRST_GATE: u64 = 0x1000;

/// How many bytes a word has.
const WORD: u64 = 8;

/// Whether the item is a direct call or a call unit.
pub fn is_call(item: &Item) -> bool
    ensures { result ≡ is_call item.now }
{
    match *item {
        Item::Plain(Instr::Call { rel: _ }) => true,
        Item::CallUnit(_, _) => true,
        _ => false,
    }
}

/// The flat address that a direct call names, modulo 2^64, if the item is one.
pub fn call_target(p: &Placed) -> Option<u64>
    ensures { result ≡ call_target p.now }
{
    match p.item {
        Item::Plain(Instr::Call { rel }) => Some(target_from(behind(p), rel)),
        _ => None,
    }
}

/// The bits of what an item calls, as in a call word: of a direct call those of the procedure or the gate at its target, of a
/// call unit its own. `None` exactly where a direct call has a bad target, and for every item that calls nothing.
pub fn callee(items: &[Placed], numbers: &ItemNumbers<'_>, p: &Placed) -> Option<u8>
    requires numbers { NumbersItems items.now (number_at numbers.now) }
    requires eight { AreEight items.now }
    requires apart { StandApart items.now }
    ensures { result ≡ callee items.now p.now }
{
    if let Item::CallUnit(_, bits) = p.item {
        return Some(bits);
    }
    let Some(target) = call_target(p) else {
        return None;
    };
    match procedure_at(items, numbers, target) {
        Some(bits) => Some(bits),
        None => gate_at(target),
    }
}

/// The bits of the procedure whose call word ends at a flat address.
fn procedure_at(items: &[Placed], numbers: &ItemNumbers<'_>, target: u64) -> Option<u8>
    requires numbers { NumbersItems items.now (number_at numbers.now) }
    requires eight { AreEight items.now }
    requires apart { StandApart items.now }
    ensures { result ≡ procedure_at items.now target }
{
    if target < CODE_BASE + WORD {
        return None;
    }
    let Some(j) = numbers.at(target - CODE_BASE - WORD) else {
        return None;
    };
    let j = j as usize;
    if j >= items.len() {
        return None;
    }
    call_bits(&items[j].item)
}

fn call_bits(item: &Item) -> Option<u8>
    ensures { result ≡ call_bits item.now }
{
    match *item {
        Item::Call(bits) => Some(bits),
        _ => None,
    }
}

/// The bits of the gate at a flat address.
fn gate_at(address: u64) -> Option<u8>
    ensures { result ≡ gate_bits_at address }
{
    if address < FIRST_GATE || (address - FIRST_GATE) % 16 != 0 {
        return None;
    }
    let number = (address - FIRST_GATE) / 16;
    if number > 12 {
        return None;
    }
    gate_bits(number as u8)
}

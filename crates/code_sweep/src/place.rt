//! The item at a place of the code.

ghost use Rattle.std.specs.Prelude.{◌≡◌, IfSome, IfNone, IsTrue, false, Some, None, Option, ◌<◌, ◌≤◌, ◌+◌, length, drop};
ghost use Rattle.code_sweep.specs.declared.item.Item.{Item};
ghost use Rattle.std.specs.Prelude.{ℕ};
ghost use Rattle.code_sweep.specs.Listing.{StandsAt, StandsAlone, item_bytes, item_of};

use crate::item::Item;
use crate::unit::{call_unit_parts, return_unit_bit};
use magic_words::{Word, read_word};
use x64_decode::{Instr, decode};

/// The code from a place on; nothing past its end.
fn bytes_from(code: &[u8], at: usize) -> &[u8]
    ensures { result.now ≡ drop at code.now }
{
    if at < code.len() { &code[at..] } else { &[] }
}

/// Whether the instruction may stand outside a check unit.
fn stands_alone(i: &Instr) -> bool
    ensures yes { IsTrue result → StandsAlone i.now }
    ensures no { result ≡ false → StandsAlone i.now → ⊥ }
{
    match *i {
        Instr::CmpFlat => false,
        Instr::JmpR10 => false,
        Instr::CallR10 => false,
        _ => true,
    }
}

/// The item that stands at a place of the code, and how many bytes it has. None exactly where none stands
/// there; any place is fine.
pub fn item_at(code: &[u8], at: usize, prefix: [u8; 6]) -> Option<(Item, u8)>
    ensures found { IfSome result (λ r. StandsAt prefix code.now at r.0) }
    ensures len { IfSome result (λ r. r.1 ≡ length (item_bytes prefix r.0)) }
    ensures inside { IfSome result (λ r. (0 < r.1) × (at + r.1 ≤ length code.now)) }
    ensures none { IfNone result ((item : Item) → StandsAt prefix code.now at item → ⊥) }
{
    if at >= code.len() {
        return None;
    }
    if let Some(word) = read_word(code, at, prefix) {
        return Some((word_item(word), 8));
    }
    let bytes = bytes_from(code, at);
    if let Some(bit) = return_unit_bit(bytes, prefix) {
        return Some((Item::ReturnUnit(bit), 56));
    }
    if let Some((r, bits)) = call_unit_parts(bytes, prefix) {
        return Some((Item::CallUnit(r, bits), 42));
    }
    let Some((i, len)) = decode(code, at) else {
        return None;
    };
    if stands_alone(&i) {
        Some((Item::Plain(i), len))
    } else {
        None
    }
}

/// The item that a word is.
fn word_item(word: Word) -> Item
    ensures { result ≡ item_of word }
{
    match word {
        Word::Call(bits) => Item::Call(bits),
        Word::Ret(bit) => Item::Ret(bit),
    }
}

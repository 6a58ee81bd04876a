//! The lines of a listing.

ghost use Rattle.std.specs.Prelude.{◌≡◌, ◌+◌, ◌≤◌, ◌++◌, length, take, drop, All, IfOk, OnOk};
ghost use Rattle.std.specs.String.{string_bytes};
ghost use Rattle.disasm_text.specs.ListingText.{LiesInside, item_text, line_of, text_of};

use crate::instruction::push_instruction;
use crate::operand::register_name;
use code_sweep::{Item, Listing, Placed};
use cv_word::{CODE_BASE, NoMemory};
use std::alloc::Global;

/// Appends the text of an item, from the flat address behind it.
#[tactic(auto, using(crate::proofs::Padding::padding), unfolding(crate::specs::ListingText::item_text))]
fn push_item(out: &mut String, next: u64, item: &Item) -> Result<(), NoMemory>
    ensures { OnOk result (string_bytes out.new ≡ string_bytes out.old ++ item_text next item.now) }
{
    match item {
        Item::Call(bits) => write!(out, "callword {bits:02x}")?,
        Item::Ret(bit) => write!(out, "retword {bit}")?,
        Item::Plain(i) => return push_instruction(out, next, i),
        Item::ReturnUnit(bit) => write!(out, "return-unit {bit}")?,
        Item::CallUnit(r, bits) => {
            let register = register_name(*r);
            write!(out, "call-unit {register} {bits:02x}")?
        }
    }
    Ok(())
}

/// The bytes of an item.
fn bytes_of<'a>(code: &'a [u8], p: &Placed) -> &'a [u8]
    requires { LiesInside code.now p.now }
    ensures { result.now ≡ take p.now.len (drop p.now.at code.now) }
{
    let at = p.at as usize;
    &code[at..at + p.len as usize]
}

/// Appends the line of an item.
#[tactic(auto, using(crate::proofs::Padding::padding), unfolding(crate::specs::ListingText::line_of))]
fn push_line(alloc: Global, out: &mut String, code: &[u8], p: &Placed) -> Result<(), NoMemory>
    requires inside { LiesInside code.now p.now }
    requires short { length code.now ≤ 4194304 }
    ensures { OnOk result (string_bytes out.new ≡ string_bytes out.old ++ line_of code.now p.now) }
{
    let address = CODE_BASE + u64::from(p.at);
    let bytes = hex::encode(alloc, bytes_of(code, p))?;
    write!(out, "{address:08x}: {bytes} ")?;
    push_item(out, address + u64::from(p.len), &p.item)?;
    out.push('\n')?;
    Ok(())
}

/// The text of a listing: a line for each item, which ends with a line feed. The line is the flat address
/// of the item's first byte, in 8 hexadecimal digits, its bytes, in hexadecimal, and its text. Letters are
/// lower-case.
///
/// The bytes of each item lie in the listing's code, which has at most 4,194,304 bytes. The one error is
/// that memory was refused.
pub fn listing_text(alloc: Global, l: &Listing<'_>) -> Result<String, NoMemory>
    requires inside { All (LiesInside l.now.code.now) l.now.items.items }
    requires short { length l.now.code.now ≤ 4194304 }
    ensures { IfOk result (λ text. string_bytes text ≡ text_of l.now.code.now l.now.items.items) }
{
    let mut text = String::new(alloc);
    for p in &l.items {
        push_line(alloc, &mut text, l.code, p)?;
    }
    Ok(text)
}

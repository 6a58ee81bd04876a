//! From the parts of an image to a file.

ghost use Rattle.std.specs.Prelude.{◌≡◌, ◌++◌, IfOk, OnOk};
ghost use Rattle.std.specs.List.{flat_map};
ghost use Rattle.image_form.specs.Image.{IsGood, word, spelling};
ghost use Rattle.image_form.specs.View.{view};

use crate::parts::Parts;
use cv_word::NoMemory;
use std::alloc::Global;

/// The bytes of the image that the parts are. They are the ones that `read_image` answers these parts for.
///
/// The parts keep the limits of an image. The only refusal is want of memory.
pub fn write_image(alloc: Global, parts: &Parts<'_>) -> Result<Vec<u8>, NoMemory>
    requires { IsGood (view parts.now) }
    ensures { IfOk result (λ bytes. bytes.items ≡ spelling (view parts.now)) }
{
    let entries = parts.entries.as_slice();
    let numbers = [
        parts.seg_size,
        parts.stack_size,
        parts.code.len() as u32,
        parts.public.len() as u32,
        parts.private.len() as u32,
        0,
    ];
    let body = 4 * entries.len() + parts.code.len() + parts.public.len() + parts.private.len();
    let mut out = Vec::with_capacity(alloc, 40 + body)?;
    out.extend_from_slice(&[b'C', b'F', b'V', b'I', 1, entries.len() as u8, 0, 0])?;
    out.extend_from_slice(&parts.prefix)?;
    out.extend_from_slice(&[0, 0])?;
    put_words(&mut out, &numbers)?;
    put_words(&mut out, entries)?;
    out.extend_from_slice(parts.code)?;
    out.extend_from_slice(parts.public)?;
    out.extend_from_slice(parts.private)?;
    Ok(out)
}

/// Writes each number at the end, in four bytes.
fn put_words(out: &mut Vec<u8>, numbers: &[u32]) -> Result<(), NoMemory>
    ensures { OnOk result (out.new.items ≡ out.old.items ++ flat_map word numbers.now) }
{
    for number in numbers {
        out.extend_from_slice(&number.to_le_bytes())?;
    }
    Ok(())
}

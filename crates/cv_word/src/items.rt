//! So many items of a list, from a place on.

ghost use Rattle.std.specs.Prelude.{◌≡◌, ◌-◌, ◌≤◌, ◌++◌, length, replicate, take};
ghost use Rattle.cv_word.specs.Memory.{items_at};
ghost use Rattle.cv_word.specs.Words.{spliced};

/// Fills a list with the items of `source` from place `from` on, zeros where it has no more.
pub fn copy_items(out: &mut [u8], source: &[u8], from: u64)
    ensures { out.new ≡ items_at source.now from (length out.old) }
{
    let start = from.min(source.len() as u64) as usize;
    let count = out.len().min(source.len() - start);
    put_front(out, &source[start..start + count]);
    clear(out, count);
}

/// Makes all from a place on 0.
fn clear(out: &mut [u8], from: usize)
    requires { from ≤ length out.old }
    ensures { out.new ≡ take from out.old ++ replicate (length out.old - from) 0 }
{
    out[from..].fill(0);
}

/// Writes bytes to the front of a list.
fn put_front(out: &mut [u8], bytes: &[u8])
    requires { length bytes.now ≤ length out.old }
    ensures { out.new ≡ spliced out.old 0 bytes.now }
{
    let end = bytes.len();
    out[..end].copy_from_slice(bytes);
}

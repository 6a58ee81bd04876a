//! Reading and writing by pieces, to the end or to the first fault.

ghost use Rattle.std.specs.Io.KnownBytes.{Appends};
ghost use Rattle.std.specs.Prelude.{◌≡◌, ◌≤◌, true, IfOk, IfSome, IsErrOf, vec_len};

use cv_io::{LONGEST_LOAD, StoreError};
use std::alloc::Global;
use std::io;
use std::io::{Read, Write};

/// All bytes that the reader gives, at most [`LONGEST_LOAD`]; `Failed` where there are more, or a read fails. Room for
/// `expected` bytes is taken first.
pub fn read_all<R: Read + Drop>(
    alloc: Global,
    reader: R,
    expected: u64,
) -> Result<Vec<u8>, StoreError>
    // What is answered is all that the reader gives, where that is known.
    ensures all { IfOk result (λ bytes. IfSome (R.remaining reader) (λ given. bytes.items ≡ given)) }
    ensures small { IfOk result (λ bytes. vec_len bytes ≤ LONGEST_LOAD) }
    ensures not_missing { IsErrOf result StoreError.Missing → ⊥ }
{
    let longest = LONGEST_LOAD as u64;
    // One byte more, so that the read that finds the end has room.
    let mut bytes = Vec::with_capacity(alloc, (expected.min(longest) + 1) as usize)?;
    match reader.take(longest + 1).read_to_end(&mut bytes) {
        Ok(_) if bytes.len() <= LONGEST_LOAD => Ok(bytes),
        Err(error) if error.kind() == io::ErrorKind::OutOfMemory => Err(StoreError::NoMemory),
        _ => Err(StoreError::Failed),
    }
}

/// Writes all bytes, and answers whether that went well. A write that takes nothing has failed.
pub fn write_all<W: Write>(writer: &mut W, bytes: &[u8]) -> bool
    // Where it went well and the writer's bytes are known, these stand behind them.
    ensures all { result ≡ true → Appends (W.contents writer.old) (W.contents writer.new) bytes.now }
{
    writer.write_all(bytes).is_ok()
}

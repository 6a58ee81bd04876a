//! Where the prefix occurs.

ghost use Rattle.std.specs.Prelude.{◌≡◌, ◌<◌, ◌≤◌, ◌^◌, length, drop, IfOk, MatchOption, slice_index};
ghost use Rattle.magic_words.specs.MagicWords.{IsOccurrence, NoneBetween, AreOccurrences};

use cv_word::NoMemory;
use memchr::memmem;
use std::alloc::Global;

/// The code from a place on.
fn bytes_from(code: &[u8], from: usize) -> &[u8]
    requires { from ≤ length code.now }
    ensures { result.now ≡ drop from code.now }
{
    &code[from..]
}

/// The first place from `from` on where the prefix stands.
fn next_occurrence(code: &[u8], prefix: &[u8; 6], from: usize) -> Option<usize>
    requires { from ≤ length code.now }
    ensures { MatchOption result (NoneBetween prefix.now code.now from (length code.now))
        (λ place. (from ≤ place) × (place < length code.now) × IsOccurrence prefix.now code.now place × NoneBetween prefix.now code.now from place) }
{
    let rest = bytes_from(code, from);
    match memmem::find(rest, prefix) {
        Some(skipped) => Some(from + skipped),
        None => None,
    }
}

/// Every place of the code where the six bytes of the prefix stand, overlapping ones too, in order.
pub fn occurrences(alloc: Global, code: &[u8], prefix: [u8; 6]) -> Result<Vec<u32>, NoMemory>
    requires { length code.now < 2 ^ 32 }
    ensures { IfOk result (λ places. AreOccurrences prefix code.now (length code.now) places.items) }
{
    let mut places = Vec::new(alloc);
    let mut from = 0usize;
    while let Some(place) = next_occurrence(code, &prefix, from) {
        places.push(place as u32)?;
        from = place + 1;
    }
    Ok(places)
}

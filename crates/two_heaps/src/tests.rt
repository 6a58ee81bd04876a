//! Calls by hand, and a long run beside a plain list of units.

use super::*;
use std::process::Abort;
use std::test::Fail;

/// A call of a heap, with what it answers.
enum Call {
    Take(u64, u32),
    Give(u32, bool),
}

fn answers(rt: &impl Abort, heap: &mut Heap, calls: &[Call]) {
    for call in calls {
        match call {
            Call::Take(n, wanted) => assert_eq!(rt; heap.take(*n), *wanted, "take {n}"),
            Call::Give(at, wanted) => assert_eq!(rt; heap.give(*at), *wanted, "give {at}"),
        }
    }
}

/// In the 48 bytes from 4096 on.
static SMALL: [Call; 8] = [
    Call::Take(17, 4096),
    Call::Take(16, 4128),
    Call::Take(1, 0),
    Call::Give(4100, false),
    Call::Give(4096, true),
    Call::Take(0, 0),
    Call::Take(33, 0),
    Call::Take(32, 4096),
];

/// In the 128 bytes from 16 on: holes before, behind and on both sides, and a first hole that fits worse than the next.
static MERGES: [Call; 22] = [
    Call::Take(16, 16),
    Call::Take(16, 32),
    Call::Take(16, 48),
    Call::Take(32, 64),
    Call::Take(16, 96),
    Call::Take(32, 112),
    Call::Take(1, 0),
    Call::Give(32, true),
    Call::Give(32, false),
    Call::Give(64, true),
    Call::Give(48, true),
    Call::Take(80, 0),
    Call::Take(64, 32),
    Call::Give(32, true),
    Call::Give(112, true),
    Call::Take(32, 32),
    Call::Take(32, 64),
    Call::Take(17, 112),
    Call::Give(16, true),
    Call::Give(40, false),
    Call::Take(16, 16),
    Call::Give(96, true),
];

/// Requests of a heap of 2^32 - 32 bytes from 16 on.
static LARGE: [(u64, u32); 9] = [
    (0, 0),
    (1, 16),
    (0xffff_ffd1, 16),
    (0xffff_ffe0, 16),
    (0xffff_ffe1, 0),
    (0xffff_fff1, 0),
    (0x1_0000_0000, 0),
    (0xffff_ffff_ffff_fff0, 0),
    (0xffff_ffff_ffff_ffff, 0),
];

#[test]
fn answers_by_hand(rt: HostRuntime) -> Result<(), Fail> {
    let mut small = Heap::new(rt.alloc(), 4096, 4144)?;
    answers(&rt, &mut small, &SMALL);
    assert_eq!(rt; small.holes().len(), 0);
    let mut merges = Heap::new(rt.alloc(), 16, 144)?;
    answers(&rt, &mut merges, &MERGES);
    assert_eq!(rt; merges.holes().len(), 1);
    assert_eq!(rt;
        merges.holes().first().copied(),
        Some(Hole { at: 96, len: 16 })
    );
    let mut none = Heap::new(rt.alloc(), 4096, 4096)?;
    assert_eq!(rt; none.holes().len(), 0);
    assert_eq!(rt; none.take(1), 0);
    for (n, wanted) in LARGE {
        let mut large = Heap::new(rt.alloc(), 16, 0xffff_fff0)?;
        assert_eq!(rt; large.take(n), wanted, "take {n}");
    }
    Ok(())
}

#[test]
fn has_4096_blocks_at_most(rt: HostRuntime) -> Result<(), Fail> {
    let mut heap = Heap::new(rt.alloc(), 4096, 135168)?;
    for k in 0..4096u32 {
        assert_eq!(rt; heap.take(1), 4096 + 16 * k);
    }
    assert_eq!(rt; heap.take(1), 0);
    for k in 0..2048u32 {
        assert_eq!(rt; heap.give(4096 + 32 * k), true);
    }
    assert_eq!(rt; heap.holes().len(), 2049);
    assert_eq!(rt; heap.take(17), 69632);
    Ok(())
}

/// The first of so many free units in a row. A unit is 0 where it is free, 1 where it begins a block, and 2 where it goes on.
fn first_run(units: &[u8], wanted: usize) -> Option<usize> {
    let mut run: usize = 0;
    for (i, unit) in units.iter().enumerate() {
        run = if *unit == 0 { run.saturating_add(1) } else { 0 };
        if run == wanted {
            return Some(i.saturating_sub(wanted.saturating_sub(1)));
        }
    }
    None
}

fn mark(units: &mut [u8], first: usize, count: usize) {
    for (i, unit) in units.iter_mut().enumerate() {
        if i == first {
            *unit = 1;
        } else if i > first && i - first < count {
            *unit = 2;
        }
    }
}

/// Frees the block that begins at a unit, if one does.
fn free(units: &mut [u8], first: usize) -> bool {
    if units.get(first).copied() != Some(1) {
        return false;
    }
    let mut inside = false;
    for (i, unit) in units.iter_mut().enumerate() {
        inside = i == first || (inside && *unit == 2);
        if inside {
            *unit = 0;
        }
    }
    true
}

/// Whether the holes are the runs of free units.
fn are_runs(units: &[u8], holes: &[Hole]) -> bool {
    let mut from_holes: u64 = 0;
    for hole in holes {
        let first = (hole.at as usize).saturating_sub(4096) / 16;
        let after = first.saturating_add(hole.len as usize / 16);
        if first > 0 && units.get(first - 1).copied() == Some(0) {
            return false;
        }
        if units.get(after).copied() == Some(0) || hole.len == 0 {
            return false;
        }
        for i in first..after {
            if units.get(i).copied() != Some(0) {
                return false;
            }
            from_holes = from_holes.saturating_add(1);
        }
    }
    let mut free_units: u64 = 0;
    for unit in units {
        if *unit == 0 {
            free_units = free_units.saturating_add(1);
        }
    }
    free_units == from_holes
}

/// 6,000 calls in a row, of which the words come from one seed.
#[test]
fn runs_like_a_list_of_units(rt: HostRuntime) -> Result<(), Fail> {
    let mut units = [0u8; 600];
    let mut heap = Heap::new(rt.alloc(), 4096, 4096 + 600 * 16)?;
    let mut seed: u64 = 20;
    for _ in 0..6000u32 {
        seed = seed
            .wrapping_mul(6364136223846793005)
            .wrapping_add(1442695040888963407);
        let word = seed >> 33;
        if word % 2 == 0 {
            let n = word / 2 % 200;
            let wanted = n.div_ceil(16) as usize;
            let unit = if n == 0 {
                None
            } else {
                first_run(&units, wanted)
            };
            let at = match unit {
                Some(unit) => unit.saturating_mul(16).saturating_add(4096),
                None => 0,
            };
            assert_eq!(rt; heap.take(n) as usize, at);
            if let Some(unit) = unit {
                mark(&mut units, unit, wanted);
            }
        } else {
            let unit = (word / 2 % 610) as usize;
            let at = 4096 + 16 * (word / 2 % 610) as u32;
            assert_eq!(rt; heap.give(at + 4), false);
            assert_eq!(rt; heap.give(at), free(&mut units, unit));
        }
        assert!(rt; are_runs(&units, heap.holes()));
    }
    Ok(())
}

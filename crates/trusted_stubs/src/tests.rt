//! Releases: answered, failed, and of a class without a releaser.

use super::*;
use cv_io::{Trusted, XorPad};
use cv_word::{Flags, Gate, NoMemory, Registers};
use magic_words::return_word;
use std::alloc::Global;
use std::process::Abort;
use std::test::Fail;
use two_heaps::Heap;
use two_segments::Segments;
use x64_decode::{Seg, Width};

/// The prefix of the words.
const PREFIX: [u8; 6] = [0x31, 0x41, 0x59, 0x26, 0x53, 0x58];

/// Where the core waits: at the first word of the code, whose address lies at rsp.
const WAITS: [u8; 4] = [0, 0, 1, 0];

/// The first source byte, and where answers are written, behind rsp.
const SOURCE: u64 = 4096;

const ANSWER: u64 = 4104;

fn fresh_world(alloc: Global) -> Result<World<'static>, NoMemory> {
    let pub_heap = Heap::new(alloc, 4096, 4096)?;
    let priv_heap = Heap::new(alloc, 4096, 4096)?;
    World::new(alloc, PREFIX, b"", b"", pub_heap, priv_heap)
}

/// A core that asks for a release of so many bytes of a class.
fn asking(count: u64, class: u64) -> Registers {
    let none = Flags {
        zf: false,
        sf: false,
        cf: false,
        of: false,
    };
    Registers {
        r: [
            7, class, count, 0, 4096, 0, ANSWER, SOURCE, 0, 0, 0, 0, 0, 0, 0, 0,
        ],
        flags: none,
        pc: 0x10c0,
    }
}

/// The end of the step, and rax, rsp and the program counter behind it.
fn release(
    count: u64,
    class: u64,
    segs: &mut Segments<'_>,
    world: &mut World<'_>,
    trusted: &mut Vec<Option<Box<dyn Trusted>>>,
) -> (GateEnd, [u64; 3]) {
    let mut regs = asking(count, class);
    let end = gate_step(Gate::Release, &mut regs, segs, world, trusted);
    (end, [regs.r[0], regs.r[4], regs.pc])
}

/// A byte, no byte, and two bytes at the third call, which fails: the release of no bytes was one of the calls.
fn one_none_failing(
    rt: &impl Abort,
    segs: &mut Segments<'_>,
    world: &mut World<'_>,
    trusted: &mut Vec<Option<Box<dyn Trusted>>>,
) {
    let one = release(1, 0, segs, world, trusted);
    assert!(rt; one == (GateEnd::Next, [1, 4104, 0x1_0008]));
    assert!(rt; world.audit() == [0, 0, 0, 0, 1, 0, 0, 0, 0x5a].as_slice());

    let none = release(0, 0, segs, world, trusted);
    assert!(rt; none == (GateEnd::Next, [0, 4104, 0x1_0008]));
    assert!(rt; world.audit() == TWO.as_slice());

    let failed = release(2, 0, segs, world, trusted);
    assert!(rt; failed == (GateEnd::Tape(0), [7, 4096, 0x10c0]));
    assert!(rt; world.audit() == TWO.as_slice());
    assert!(rt; segs.read(Seg::Fs, 4104, Width::B4) == Some(0x5a));
}

/// How the audit lists them.
const TWO: [u8; 17] = [0, 0, 0, 0, 1, 0, 0, 0, 0x5a, 0, 0, 0, 0, 0, 0, 0, 0];

/// What the first releaser has kept of them.
fn has_kept(trusted: &Vec<Option<Box<dyn Trusted>>>) -> bool {
    if trusted.is_empty() {
        return false;
    }
    match &trusted[0] {
        Some(releaser) => {
            releaser.heard() == [0x03].as_slice()
                && releaser.told() == [0x5a].as_slice()
                && releaser.faults() == 1
                && releaser.failed_len() == 2
        }
        None => false,
    }
}

#[test]
fn releases_are_answered_and_counted(rt: HostRuntime) -> Result<(), Fail> {
    let alloc = rt.alloc();
    let code = return_word(0, PREFIX);
    let mut segs = Segments::new(alloc, 8192, &code, &WAITS, &[0x03, 0xff])?;
    let mut world = fresh_world(alloc)?;
    let pad = XorPad::new(alloc, vec![in alloc; 0x59, 0xa5, 1]?, vec![in alloc; 3]?)?;
    let mut trusted: Vec<Option<Box<dyn Trusted>>> = Vec::new(alloc);
    trusted.push(Some(Box::new(alloc, pad)?))?;
    one_none_failing(&rt, &mut segs, &mut world, &mut trusted);
    assert!(rt; has_kept(&trusted));
    Ok(())
}

/// Whether each of these classes, when asked, has no releaser.
fn all_refused(
    classes: &[u64],
    segs: &mut Segments<'_>,
    world: &mut World<'_>,
    trusted: &mut Vec<Option<Box<dyn Trusted>>>,
) -> bool {
    let mut all = true;
    for class in classes {
        let (end, after) = release(1, *class, segs, world, trusted);
        all &= end == GateEnd::Fault(FaultKind::NoReleaser) && after == [7, 4096, 0x10c0];
    }
    all
}

/// No class has one, or class 1 alone.
#[test]
fn classes_without_a_releaser(rt: HostRuntime) -> Result<(), Fail> {
    let alloc = rt.alloc();
    let code = return_word(0, PREFIX);
    let mut segs = Segments::new(alloc, 8192, &code, &WAITS, &[3])?;
    let mut world = fresh_world(alloc)?;

    let mut none: Vec<Option<Box<dyn Trusted>>> = Vec::new(alloc);
    let classes = [0, 1, 1 << 32, u64::MAX];
    assert!(rt; all_refused(&classes, &mut segs, &mut world, &mut none));

    let pad = XorPad::new(alloc, vec![in alloc; 1]?, Vec::new(alloc))?;
    let mut second: Vec<Option<Box<dyn Trusted>>> = Vec::new(alloc);
    second.push(None)?;
    second.push(Some(Box::new(alloc, pad)?))?;
    let others = [0, 2, (1 << 32) + 1, u64::MAX];
    assert!(rt; all_refused(&others, &mut segs, &mut world, &mut second));
    Ok(())
}

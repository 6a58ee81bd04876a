//! The limits: each at its number and past it, their order, and the value that comes with each.

use super::{
    PRIVATE, PUBLIC, array, calls, data, function, global, int, local, program_of, refusal, stmt,
};
use crate::{LayoutError, LimitKind};
use c_ast::typed::{Global as Object, Local};
use c_ast::{Function, Items, Stmt, StmtKind, Text, Typed};
use cv_word::NoMemory;
use std::alloc::Global;
use std::test::Fail;

/// A limit that is passed, with its value.
type Passed = (LimitKind, u64);

fn wanted(passed: &Option<Passed>) -> Option<LayoutError> {
    match passed {
        Some((kind, value)) => Some(LayoutError::Limit {
            kind: *kind,
            value: *value,
        }),
        None => None,
    }
}

/// A number of `int` parameters, of bytes in a `char` array, of arguments in a call, and of `break`s.
type Sizes = (usize, u32, usize, usize);

fn ints(alloc: Global, count: usize) -> Result<Items<Local>, NoMemory> {
    let mut params = Items::new(alloc);
    for _ in 0..count {
        params.push(local(int(4, PUBLIC)))?;
    }
    Ok(params)
}

/// One local, an array of so many `char`s.
fn local_array(alloc: Global, len: u32) -> Result<Items<Local>, NoMemory> {
    let ty = array(alloc, int(1, PUBLIC), len)?;
    let mut locals = Items::new(alloc);
    locals.push(local(ty))?;
    Ok(locals)
}

/// A body's block with a call and so many `break`s.
fn body(alloc: Global, arguments: usize, breaks: usize) -> Result<Stmt, NoMemory> {
    let mut items = Items::new(alloc);
    items.push(calls(alloc, arguments)?)?;
    for _ in 0..breaks {
        items.push(stmt(StmtKind::Break))?;
    }
    Ok(stmt(StmtKind::Block { items }))
}

/// A function of these sizes. Beside the arguments and the `break`s it has 4 nodes: the block, the call's statement,
/// the call and its callee. Its frame has a slot for the call, one for its callee and one for each argument.
fn sized(alloc: Global, sizes: Sizes) -> Result<Function, NoMemory> {
    let (params, bytes, arguments, breaks) = sizes;
    let params = ints(alloc, params)?;
    let locals = local_array(alloc, bytes)?;
    let body = body(alloc, arguments, breaks)?;
    Ok(function(params, locals, body))
}

/// A program with a function of each of these sizes.
fn sized_program(alloc: Global, all: &[Sizes]) -> Result<Typed, NoMemory> {
    let mut functions = Items::new(alloc);
    for sizes in all {
        functions.push(sized(alloc, *sizes)?)?;
    }
    Ok(program_of(alloc, functions))
}

/// A small function, which has 4 nodes and a frame of 24 bytes.
const SMALL: Sizes = (0, 8, 0, 0);

/// The first function, the second, and the limit that is passed.
static FUNCTIONS: [(Sizes, Sizes, Option<Passed>); 20] = [
    // 10,000 nodes, and then as many, or one more
    ((0, 8, 0, 9996), (0, 8, 0, 9996), None),
    (
        (0, 8, 0, 9996),
        (0, 8, 0, 9997),
        Some((LimitKind::Nodes, 20001)),
    ),
    (
        (0, 8, 0, 9997),
        (0, 8, 0, 9996),
        Some((LimitKind::Nodes, 20001)),
    ),
    (SMALL, (0, 8, 4, 19989), Some((LimitKind::Nodes, 20001))),
    // parameters and arguments
    ((4, 8, 4, 0), (4, 8, 4, 0), None),
    ((5, 8, 0, 0), SMALL, Some((LimitKind::Params, 5))),
    ((0, 8, 5, 0), SMALL, Some((LimitKind::Params, 5))),
    (SMALL, (5, 8, 0, 0), Some((LimitKind::Params, 5))),
    (SMALL, (0, 8, 5, 0), Some((LimitKind::Params, 5))),
    ((5, 8, 0, 0), (7, 8, 0, 0), Some((LimitKind::Params, 5))),
    ((7, 8, 0, 0), (5, 8, 0, 0), Some((LimitKind::Params, 7))),
    ((5, 8, 6, 0), SMALL, Some((LimitKind::Params, 6))),
    ((6, 8, 5, 0), SMALL, Some((LimitKind::Params, 6))),
    // frames: the array's bytes, rounded up to 8, and two slots
    ((0, 16368, 0, 0), (0, 16368, 0, 0), None),
    ((0, 16369, 0, 0), SMALL, Some((LimitKind::Frame, 16392))),
    (SMALL, (0, 16369, 0, 0), Some((LimitKind::Frame, 16392))),
    (
        (0, 16384, 0, 0),
        (0, 16369, 0, 0),
        Some((LimitKind::Frame, 16400)),
    ),
    // 16 bytes of parameters, 16,320 of the array, and six slots; then 4 bytes more
    (SMALL, (4, 16320, 4, 0), None),
    (SMALL, (4, 16324, 4, 0), Some((LimitKind::Frame, 16392))),
    // the kinds come before the functions
    ((0, 16384, 0, 0), (5, 8, 0, 0), Some((LimitKind::Params, 5))),
];

/// The nodes of all functions are counted together. The other values are those of the first function that passes the
/// limit.
#[test]
fn limits_functions(rt: HostRuntime) -> Result<(), Fail> {
    let alloc = rt.alloc();
    for (row, (first, second, passed)) in FUNCTIONS.iter().enumerate() {
        let typed = sized_program(alloc, &[*first, *second])?;
        let found = refusal(&rt, alloc, &typed, 65536, 256, 1);
        assert_eq!(rt; found, wanted(passed), "row {row}");
    }
    Ok(())
}

/// 20,004 nodes, 5 parameters and a frame of 16,424 bytes.
const LONG: Sizes = (5, 16384, 0, 20000);

/// 5 parameters and a frame of 16,424 bytes.
const WIDE: Sizes = (5, 16384, 0, 0);

/// A frame of 16,400 bytes.
const LARGE: Sizes = (0, 16384, 0, 0);

/// A function, the sizes of a segment and of a stack, the number of entries, and the limit that is passed.
static ORDER: [(Sizes, u32, u32, u32, Option<Passed>); 8] = [
    (LONG, 65537, 264, 9, Some((LimitKind::Entries, 9))),
    (LONG, 65537, 264, 8, Some((LimitKind::Nodes, 20004))),
    (WIDE, 65537, 264, 8, Some((LimitKind::Params, 5))),
    (LARGE, 65537, 264, 8, Some((LimitKind::Frame, 16400))),
    (SMALL, 65537, 264, 8, Some((LimitKind::Stack, 264))),
    (SMALL, 65537, 256, 8, Some((LimitKind::Segment, 65537))),
    (SMALL, 65536, 256, 8, None),
    (SMALL, 65536, 256, 9, Some((LimitKind::Entries, 9))),
];

/// The first program passes all limits. Each one after it keeps to one limit more, until all are kept.
#[test]
fn tries_limits_in_order(rt: HostRuntime) -> Result<(), Fail> {
    let alloc = rt.alloc();
    for (row, (sizes, seg_size, stack_size, entries, passed)) in ORDER.iter().enumerate() {
        let typed = sized_program(alloc, &[*sizes])?;
        let found = refusal(&rt, alloc, &typed, *seg_size, *stack_size, *entries);
        assert_eq!(rt; found, wanted(passed), "row {row}");
    }
    Ok(())
}

/// The sizes of a segment and of a stack, the number of entries, and the limit that is passed.
static SEGMENTS_AND_STACKS: [(u32, u32, u32, Option<Passed>); 22] = [
    // stacks of too few bytes, and of no multiple of 16
    (65536, 256, 1, None),
    (65536, 272, 1, None),
    (65536, 0, 1, Some((LimitKind::Stack, 0))),
    (65536, 240, 1, Some((LimitKind::Stack, 240))),
    (65536, 264, 1, Some((LimitKind::Stack, 264))),
    // one, two and eight stacks that fill the segment, and larger ones
    (65536, 61440, 1, None),
    (65536, 61456, 1, Some((LimitKind::Stack, 61456))),
    (65536, 30720, 2, None),
    (65536, 30736, 2, Some((LimitKind::Stack, 30736))),
    (65536, 7680, 8, None),
    (65536, 7696, 8, Some((LimitKind::Stack, 7696))),
    // eight stacks whose size in 32 bits would be small, and a segment that holds nothing
    (65536, 0x2000_0010, 8, Some((LimitKind::Stack, 0x2000_0010))),
    (0, 65536, 1, Some((LimitKind::Stack, 65536))),
    // segments
    (61440, 256, 1, Some((LimitKind::Segment, 61440))),
    (65537, 256, 1, Some((LimitKind::Segment, 65537))),
    (67584, 256, 1, Some((LimitKind::Segment, 67584))),
    (69632, 256, 1, None),
    (67104768, 256, 1, None),
    (67108864, 256, 1, None),
    (67108880, 256, 1, Some((LimitKind::Segment, 67108880))),
    (67112960, 256, 1, Some((LimitKind::Segment, 67112960))),
    (0xffff_f000, 256, 1, Some((LimitKind::Segment, 0xffff_f000))),
];

/// A stack's size is a multiple of 16 from 256 on, and the segment holds the stacks behind its first 4096 bytes. A
/// segment's size is a multiple of 4096 from 65,536 to 67,108,864.
#[test]
fn limits_sizes(rt: HostRuntime) -> Result<(), Fail> {
    let alloc = rt.alloc();
    let typed = program_of(alloc, Items::new(alloc));
    for (seg_size, stack_size, entries, passed) in &SEGMENTS_AND_STACKS {
        let found = refusal(&rt, alloc, &typed, *seg_size, *stack_size, *entries);
        assert_eq!(rt; found, wanted(passed), "{seg_size} {stack_size} {entries}");
    }
    Ok(())
}

/// A public and a private array of so many `char`s.
fn arrays(alloc: Global, public: u32, private: u32) -> Result<Items<Object>, NoMemory> {
    let first = array(alloc, int(1, PUBLIC), public)?;
    let second = array(alloc, int(1, PRIVATE), private)?;
    let mut globals = Items::new(alloc);
    globals.push(global(alloc, first))?;
    globals.push(global(alloc, second))?;
    Ok(globals)
}

/// These arrays and the string `ab`, which takes three bytes in the public segment.
fn filled(alloc: Global, public: u32, private: u32) -> Result<Typed, NoMemory> {
    let globals = arrays(alloc, public, private)?;
    let bytes = Vec::from_slice(alloc, b"ab")?;
    let mut strings = Items::new(alloc);
    strings.push(Text::from_vec(bytes))?;
    Ok(data(alloc, Items::new(alloc), globals, strings))
}

/// The lengths of a public and a private array, the sizes of a segment and of a stack, the number of entries, and the
/// limit that is passed. With its string the public segment has three bytes more than its array.
static STARTS: [(u32, u32, u32, u32, u32, Option<Passed>); 12] = [
    // 128 bytes are left in each segment
    (125, 128, 65536, 61312, 1, None),
    (126, 128, 65536, 61312, 1, Some((LimitKind::Segment, 65537))),
    (125, 129, 65536, 61312, 1, Some((LimitKind::Segment, 65537))),
    (126, 130, 65536, 61312, 1, Some((LimitKind::Segment, 65538))),
    (125, 128, 65536, 7664, 8, None),
    (126, 128, 65536, 7664, 8, Some((LimitKind::Segment, 65537))),
    // 48 bytes are left
    (45, 48, 65536, 20464, 3, None),
    (45, 49, 65536, 20464, 3, Some((LimitKind::Segment, 65537))),
    // none is left
    (1, 1, 65536, 61440, 1, Some((LimitKind::Segment, 65540))),
    (
        1048576,
        1,
        65536,
        256,
        1,
        Some((LimitKind::Segment, 1052931)),
    ),
    // the segment's size isn't allowed either: the sum comes first
    (126, 1, 65552, 61328, 1, Some((LimitKind::Segment, 65553))),
    (125, 1, 65552, 61328, 1, Some((LimitKind::Segment, 65552))),
];

/// Each segment holds its first 4096 bytes, its own start bytes and the stacks. The value is the sum of the fuller one.
#[test]
fn holds_start_bytes(rt: HostRuntime) -> Result<(), Fail> {
    let alloc = rt.alloc();
    for (row, (public, private, seg_size, stack_size, entries, passed)) in STARTS
        .iter()
        .enumerate()
    {
        let typed = filled(alloc, *public, *private)?;
        let found = refusal(&rt, alloc, &typed, *seg_size, *stack_size, *entries);
        assert_eq!(rt; found, wanted(passed), "row {row}");
    }
    Ok(())
}

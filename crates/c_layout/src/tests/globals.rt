//! Where globals and strings lie in the two segments.

use super::{PRIVATE, PUBLIC, array, data, global, int, pointer, refusal, structs_of, structure};
use crate::{LayoutError, layout};
use c_ast::typed::Global as Object;
use c_ast::{Items, Qual, Text, Ty, Typed};
use cv_word::{NoMemory, Taint};
use std::alloc::Global;
use std::process::Abort;
use std::test::Fail;

/// The taints of two variables.
const TAINTS: [Taint; 2] = [Taint::Pub, Taint::Priv];

/// What a global may be.
enum Kind {
    /// An integer of so many bytes.
    Int(u8),
    /// An array of so many `char`s.
    Chars(u32),
    /// A pointer to a public `char`.
    ToPublic,
    /// A pointer to a private `char`.
    ToPrivate,
    /// The struct with number 0.
    Struct,
    /// An array of two pointers to public `char`s.
    Pointers,
    /// An array of two structs.
    Structs,
}

/// The type of this kind with this outermost qualifier.
fn type_of(alloc: Global, kind: &Kind, q: Qual) -> Result<Ty, NoMemory> {
    match kind {
        Kind::Int(width) => Ok(int(*width, q)),
        Kind::Chars(len) => array(alloc, int(1, q), *len),
        Kind::ToPublic => pointer(alloc, PUBLIC, q),
        Kind::ToPrivate => pointer(alloc, PRIVATE, q),
        Kind::Struct => Ok(structure(0, q)),
        Kind::Pointers => array(alloc, pointer(alloc, PUBLIC, q)?, 2),
        Kind::Structs => array(alloc, structure(0, q), 2),
    }
}

/// Globals of these kinds, each with its outermost qualifier.
fn globals_of(alloc: Global, kinds: &[(Kind, Qual)]) -> Result<Items<Object>, NoMemory> {
    let mut globals = Items::new(alloc);
    for (kind, q) in kinds {
        let ty = type_of(alloc, kind, *q)?;
        globals.push(global(alloc, ty))?;
    }
    Ok(globals)
}

/// The string `ab` and the empty one.
fn two_strings(alloc: Global) -> Result<Items<Text>, NoMemory> {
    let bytes = Vec::from_slice(alloc, b"ab")?;
    let mut strings = Items::new(alloc);
    strings.push(Text::from_vec(bytes))?;
    strings.push(Text::from_vec(Vec::new(alloc)))?;
    Ok(strings)
}

/// Asserts where the globals and strings of a program lie, and how long the start of each segment is.
fn assert_places(
    rt: &impl Abort,
    alloc: Global,
    typed: &Typed,
    offsets: (&[u32], &[u32]),
    lengths: (u32, u32),
) -> Result<(), Fail> {
    let found = layout(alloc, typed, &TAINTS, 65536, 256, 1)?;
    let (globals, strings) = offsets;
    assert_eq!(rt; found.globals.as_slice(), globals);
    assert_eq!(rt; found.strings.as_slice(), strings);
    assert_eq!(rt; (found.pub_len, found.priv_len), lengths);
    Ok(())
}

/// Public and private integers, one private by its elements, one by its variable, and one public by its variable.
static INTEGERS: [(Kind, Qual); 6] = [
    (Kind::Chars(3), PRIVATE),
    (Kind::Int(1), PUBLIC),
    (Kind::Int(4), PRIVATE),
    (Kind::Int(8), PUBLIC),
    (Kind::Int(1), Qual::Var(1)),
    (Kind::Int(1), Qual::Var(0)),
];

/// Each segment is filled in source order, and the strings follow the public globals.
#[test]
fn fills_both_segments(rt: HostRuntime) -> Result<(), Fail> {
    let alloc = rt.alloc();
    let globals = globals_of(alloc, &INTEGERS)?;
    let strings = two_strings(alloc)?;
    let typed = data(alloc, Items::new(alloc), globals, strings);
    assert_places(
        &rt,
        alloc,
        &typed,
        (&[4096, 4096, 4100, 4104, 4104, 4112], &[4113, 4116]),
        (21, 9),
    )
}

/// Structs, pointers and arrays of them. A struct takes 8 bytes and is aligned to 4.
static OTHERS: [(Kind, Qual); 12] = [
    (Kind::Int(1), PUBLIC),
    (Kind::ToPrivate, PUBLIC),
    (Kind::Int(1), PRIVATE),
    (Kind::ToPublic, PRIVATE),
    (Kind::Struct, PRIVATE),
    (Kind::Struct, PUBLIC),
    (Kind::Structs, PRIVATE),
    (Kind::Pointers, PRIVATE),
    (Kind::Pointers, PUBLIC),
    (Kind::ToPublic, Qual::Var(1)),
    (Kind::ToPrivate, Qual::Var(0)),
    (Kind::Chars(3), PRIVATE),
];

/// The outermost qualifier names the segment. What a pointer points to doesn't.
#[test]
fn goes_by_the_outermost_qualifier(rt: HostRuntime) -> Result<(), Fail> {
    let alloc = rt.alloc();
    let structs = structs_of(alloc, &[1, 4])?;
    let globals = globals_of(alloc, &OTHERS)?;
    let typed = data(alloc, structs, globals, Items::new(alloc));
    assert_places(
        &rt,
        alloc,
        &typed,
        (
            &[
                4096, 4104, 4096, 4104, 4112, 4112, 4120, 4136, 4120, 4152, 4136, 4160,
            ],
            &[],
        ),
        (48, 67),
    )
}

/// Strings alone begin at 4096, and a segment in which nothing lies has length 0.
#[test]
fn places_strings_alone(rt: HostRuntime) -> Result<(), Fail> {
    let alloc = rt.alloc();
    let strings = two_strings(alloc)?;
    let typed = data(alloc, Items::new(alloc), Items::new(alloc), strings);
    assert_places(&rt, alloc, &typed, (&[], &[4096, 4099]), (4, 0))
}

/// An array of 2^64 bytes or more has no room.
#[test]
fn has_no_room_for_2_to_the_64(rt: HostRuntime) -> Result<(), Fail> {
    let alloc = rt.alloc();
    let row = array(alloc, int(8, PUBLIC), u32::MAX)?;
    let mut globals = Items::new(alloc);
    globals.push(global(alloc, array(alloc, row, u32::MAX)?))?;
    let typed = data(alloc, Items::new(alloc), globals, Items::new(alloc));
    let found = refusal(&rt, alloc, &typed, 65536, 256, 1);
    assert_eq!(rt; found, Some(LayoutError::NoMemory));
    Ok(())
}

//! Verdicts by hand: small codes, an image with each bit turned, and one cut to each length.

mod rows;

use super::*;
use cv_word::NoMemory;
use std::alloc::Global;
use std::test::Fail;

/// An image whose code is a call word and an undefined instruction.
const SMALL: [u8; 54] = [
    0x43, 0x46, 0x56, 0x49, 0x01, 0x01, 0x00, 0x00, 0xa1, 0xa2, 0xa3, 0xa4, 0xa5, 0xa6, 0x00, 0x00,
    0x00, 0x00, 0x01, 0x00, 0x00, 0x10, 0x00, 0x00, 0x0a, 0x00, 0x00, 0x00, 0x00, 0x00, 0x00, 0x00,
    0x00, 0x00, 0x00, 0x00, 0x00, 0x00, 0x00, 0x00, 0x08, 0x00, 0x00, 0x00, 0x0f, 0x11, 0xa1, 0xa2,
    0xa3, 0xa4, 0xa5, 0xa6, 0x0f, 0x0b,
];

/// Stands for acceptance.
const NONE: u64 = u64::MAX;

/// What the small image cut to each length breaks: V1 at this place.
const CUT: [u64; 55] = [
    0, 0, 0, 0, 4, 5, 6, 6, 8, 8, 8, 8, 8, 8, 14, 14, 16, 16, 16, 16, 20, 20, 20, 20, 24, 24, 24,
    24, 24, 24, 24, 24, 24, 24, 24, 24, 24, 24, 24, 24, 24, 24, 24, 24, 24, 24, 24, 24, 24, 24, 24,
    24, 24, 24, NONE,
];

/// What the small image with all bits of one byte turned breaks: V1 below address 256, then V9 from
/// there up, and V2 at 0x10000 and 0x10008.
const TURNED: [u64; 54] = [
    0,
    0,
    0,
    0,
    4,
    5,
    6,
    6,
    0x10000,
    0x10000,
    0x10000,
    0x10000,
    0x10000,
    0x10000,
    14,
    14,
    16,
    16,
    NONE,
    16,
    20,
    NONE,
    20,
    20,
    24,
    24,
    24,
    24,
    28,
    28,
    28,
    28,
    32,
    32,
    32,
    32,
    36,
    36,
    36,
    36,
    0x100f7,
    0x1ff08,
    0x100_0008,
    0xff01_0008,
    0x10000,
    0x10000,
    0x10000,
    0x10000,
    0x10000,
    0x10000,
    0x10000,
    0x10000,
    0x10008,
    0x10008,
];

/// An image with one entry at 8, this prefix and this code of at most 255 bytes.
fn image(alloc: Global, prefix: &[u8; 6], code: &[u8]) -> Result<Vec<u8>, NoMemory> {
    image_with(alloc, prefix, &[8], code)
}

/// An image with these entries, at most 255 of them, this prefix and this code of at most 255 bytes.
fn image_with(
    alloc: Global,
    prefix: &[u8; 6],
    entries: &[u32],
    code: &[u8],
) -> Result<Vec<u8>, NoMemory> {
    let mut bytes = Vec::new(alloc);
    bytes.extend_from_slice(&SMALL[..5])?;
    bytes.push((entries.len() % 256) as u8)?;
    bytes.extend_from_slice(&SMALL[6..8])?;
    bytes.extend_from_slice(prefix)?;
    bytes.extend_from_slice(&SMALL[14..24])?;
    bytes.push((code.len() % 256) as u8)?;
    bytes.extend_from_slice(&SMALL[25..40])?;
    for entry in entries {
        bytes.extend_from_slice(&entry.to_le_bytes())?;
    }
    bytes.extend_from_slice(code)?;
    Ok(bytes)
}

/// A code under the prefix of the small image, and what it breaks by `tools/verdicts.py`.
const CODES: [(&[u8], Option<Rule>, u64); 31] = [
    (
        b"\x0f\x11\xa1\xa2\xa3\xa4\xa5\xa6\x90\x0f\x11\xa1\xa2\xa3\xa4\xa5\xa6\x0f\x0b",
        Some(Rule::V3),
        0x10008,
    ),
    (
        b"\x0f\x11\xa1\xa2\xa3\xa4\xa5\xa6\xe8\x00\x00\x00\x00\x0f\x0b",
        Some(Rule::V5),
        0x10008,
    ),
    (
        b"\x0f\x11\xa1\xa2\xa3\xa4\xa5\xa6\xc3",
        Some(Rule::V2),
        0x10008,
    ),
    (b"\x0f\x0b", Some(Rule::V3), 0x10000),
    (b"\x0f\x11\xa1\xa2\xa3\xa4\xa5\xa6", Some(Rule::V3), 0x10000),
    (
        b"\x0f\x11\xa1\xa2\xa3\xa4\xa5\xa6\x90",
        Some(Rule::V3),
        0x10008,
    ),
    (b"\x90\x0f\x0b", Some(Rule::V3), 0x10000),
    (
        b"\x0f\x11\xa1\xa2\xa3\xa4\xa5\xa6\xeb\x00",
        Some(Rule::V2),
        0x10008,
    ),
    (
        b"\x0f\x11\xa1\xa2\xa3\xa4\xa5\xa6\xe9\x01\x00\x00\x00\x90\x0f\x0b",
        None,
        0,
    ),
    (
        b"\x0f\x11\xa1\xa2\xa3\xa4\xa5\xa6\xe9\xfc\xff\xff\xff\x0f\x0b",
        Some(Rule::V6),
        0x10008,
    ),
    (
        b"\x0f\x11\xa1\xa2\xa3\xa4\xa5\xa6\xe9\xf3\xff\xff\xff\x0f\x0b",
        Some(Rule::V6),
        0x10008,
    ),
    (
        b"\x0f\x11\xa1\xa2\xa3\xa4\xa5\xa6\x90\xe9\x00\x00\x00\x00",
        Some(Rule::V6),
        0x10009,
    ),
    (
        b"\x0f\x11\xa1\xa2\xa3\xa4\xa5\xa6\x0f\x84\x0a\x00\x00\x00\x0f\x0b",
        Some(Rule::V6),
        0x10008,
    ),
    (
        b"\x0f\x11\xa1\xa2\xa3\xa4\xa5\xa6\x40\xb8\x00\x00\x00\x00\x48\x81\xf8\x00\x00\x00\x00\x0f\x84\x08\x00\x00\x00\x48\x89\xf8\xe9\xeb\xff\xff\xff\x0f\x0b",
        Some(Rule::V12),
        0x10015,
    ),
    (
        b"\x0f\x11\xa1\xa2\xa3\xa4\xa5\xa6\x41\xb8\x00\x10\x00\x00\x65\x67\x49\x8b\x80\x00\x00\x00\x00\x64\x67\x49\x89\x80\x00\x00\x00\x00\x0f\x0b",
        Some(Rule::V11),
        0x10017,
    ),
    (
        b"\x0f\x11\xa1\xa2\xa3\xa4\xa5\xa6\x41\xb8\x00\x10\x00\x00\x64\x67\x49\x8b\x80\x00\x00\x00\x00\x65\x67\x49\x89\x80\x00\x00\x00\x00\x0f\x0b",
        None,
        0,
    ),
    (
        b"\x0f\x11\xa1\xa2\xa3\xa4\xa5\xa6\x48\xb8\x00\x00\x00\x00\x00\x00\x00\x80\x48\x99\x48\xf7\xf9\x0f\x0b",
        Some(Rule::V13),
        0x10014,
    ),
    (
        b"\x0f\x11\xa1\xa2\xa3\xa4\xa5\xa6\xe8\xfb\xff\xff\xff\x0f\x0b",
        Some(Rule::V5),
        0x10008,
    ),
    (
        b"\x0f\x11\xa1\xa2\xa3\xa4\xa5\xa6\xe8\x00\x00\x00\x00\x00\x22\xa1\xa2\xa3\xa4\xa5\xa6\x0f\x0b",
        Some(Rule::V7),
        0x10008,
    ),
    (
        b"\x1f\x11\xa1\xa2\xa3\xa4\xa5\xa6\x64\x67\x44\x8b\x94\x24\x00\x00\x00\x00\x48\x81\xc4\x08\x00\x00\x00\x49\xbb\xff\xdd\x5e\x5d\x5c\x5b\x5a\x59\x49\xf7\xd3\x67\x4d\x3b\x9a\x00\x00\x00\x00\x0f\x84\x02\x00\x00\x00\x0f\x0b\x49\x81\xc2\x08\x00\x00\x00\x41\xff\xe2",
        Some(Rule::V8),
        0x10008,
    ),
    (
        b"\x0f\x11\xa1\xa2\xa3\xa4\xa5\xa6\xe8\x12\x00\x00\x00\x00\x22\xa1\xa2\xa3\xa4\xa5\xa6\x0f\x0b\x0e\x11\xa1\xa2\xa3\xa4\xa5\xa6\x0f\x0b",
        Some(Rule::V15),
        0x10008,
    ),
    (
        b"\x0f\x11\xa1\xa2\xa3\xa4\xa5\xa6\x64\x67\x44\x8b\x94\x24\x00\x00\x00\x00\x48\x81\xc4\x08\x00\x00\x00\x49\xbb\xff\xdd\x5e\x5d\x5c\x5b\x5a\x59\x49\xf7\xd3\x67\x4d\x3b\x9a\x00\x00\x00\x00\x0f\x84\x02\x00\x00\x00\x0f\x0b\x49\x81\xc2\x08\x00\x00\x00\x41\xff\xe2",
        Some(Rule::V16),
        0x10008,
    ),
    (
        b"\x0f\x11\xa1\xa2\xa3\xa4\xa5\xa6\x40\xb8\x42\x00\x01\x00\x41\x89\xc2\x49\xbb\xf0\xee\x5e\x5d\x5c\x5b\x5a\x59\x49\xf7\xd3\x67\x4d\x3b\x9a\x00\x00\x00\x00\x0f\x84\x02\x00\x00\x00\x0f\x0b\x49\x81\xc2\x08\x00\x00\x00\x41\xff\xd2\x00\x22\xa1\xa2\xa3\xa4\xa5\xa6\x0f\x0b\x0f\x11\xa1\xa2\xa3\xa4\xa5\xa6\x0f\x0b",
        None,
        0,
    ),
    (
        b"\x0f\x11\xa1\xa2\xa3\xa4\xa5\xa6\x0f\x84\x0a\x00\x00\x00\x64\x67\x44\x8b\x94\x24\x00\x00\x00\x00\x48\x81\xc4\x08\x00\x00\x00\x49\xbb\xff\xdd\x5e\x5d\x5c\x5b\x5a\x59\x49\xf7\xd3\x67\x4d\x3b\x9a\x00\x00\x00\x00\x0f\x84\x02\x00\x00\x00\x0f\x0b\x49\x81\xc2\x08\x00\x00\x00\x41\xff\xe2",
        Some(Rule::V6),
        0x10008,
    ),
    (
        b"\x0f\x11\xa1\xa2\xa3\xa4\xa5\xa6\xe8\x22\x00\x00\x00\x00\x22\xa1\xa2\xa3\xa4\xa5\xa6\x0f\x0b\xe8\x13\x00\x00\x00\x00\x22\xa1\xa2\xa3\xa4\xa5\xa6\x90\x0f\x0b\x0f\x11\xa1\xa2\xa3\xa4\xa5\xa6\x40\xb8\x1c\x00\x01\x00\x64\x67\x48\x89\x84\x24\x00\x00\x00\x00\x64\x67\x44\x8b\x94\x24\x00\x00\x00\x00\x48\x81\xc4\x08\x00\x00\x00\x49\xbb\xff\xdd\x5e\x5d\x5c\x5b\x5a\x59\x49\xf7\xd3\x67\x4d\x3b\x9a\x00\x00\x00\x00\x0f\x84\x02\x00\x00\x00\x0f\x0b\x49\x81\xc2\x08\x00\x00\x00\x41\xff\xe2",
        None,
        0,
    ),
    (
        b"\x0f\x11\xa1\xa2\xa3\xa4\xa5\xa6\x48\x89\xc4\x64\x67\x48\x8b\x80\x00\x00\x00\x00\x0f\x0b",
        Some(Rule::V14),
        0x10008,
    ),
    (
        b"\x0f\x11\xa1\xa2\xa3\xa4\xa5\xa6\xe8\x12\x00\x00\x00\x01\x22\xa1\xa2\xa3\xa4\xa5\xa6\x0f\x0b\x0f\x11\xa1\xa2\xa3\xa4\xa5\xa6\x0f\x0b",
        Some(Rule::V5),
        0x10008,
    ),
    (
        b"\x0f\x11\xa1\xa2\xa3\xa4\xa5\xa6\xe8\x0b\xff\xff\xff\x00\x22\xa1\xa2\xa3\xa4\xa5\xa6\x0f\x0b",
        Some(Rule::V7),
        0x10008,
    ),
    (
        b"\x0f\x11\xa1\xa2\xa3\xa4\xa5\xa6\xe8\xf3\x0f\xff\xff\x00\x22\xa1\xa2\xa3\xa4\xa5\xa6\x0f\x0b",
        Some(Rule::V15),
        0x10008,
    ),
    (
        b"\x0f\x11\xa1\xa2\xa3\xa4\xa5\xa6\xe8\xf4\x0f\xff\xff\x00\x22\xa1\xa2\xa3\xa4\xa5\xa6\x0f\x0b",
        Some(Rule::V7),
        0x10008,
    ),
    (
        b"\x0f\x11\xa1\xa2\xa3\xa4\xa5\xa6\xe8\x53\x0f\xff\xff\x01\x22\xa1\xa2\xa3\xa4\xa5\xa6\x0f\x0b",
        Some(Rule::V7),
        0x10008,
    ),
];

/// The rules from V2 on, each with a piece of code that breaks it behind a call word of bits 0f. V9 is broken by an entry
/// of 4 beside a NOP.
static PIECES: [(Rule, &[u8]); 15] = [
    (Rule::V2, b"\x06"),
    (Rule::V3, b"\x90\x0f\x11\xa1\xa2\xa3\xa4\xa5\xa6"),
    (Rule::V4, b"\x49\xb8\xa1\xa2\xa3\xa4\xa5\xa6\x00\x00"),
    (Rule::V5, b"\x00\x22\xa1\xa2\xa3\xa4\xa5\xa6"),
    (Rule::V6, b"\xe9\xfc\xff\xff\xff"),
    (
        Rule::V7,
        b"\xe8\x00\x00\x00\x00\x00\x22\xa1\xa2\xa3\xa4\xa5\xa6",
    ),
    (
        Rule::V8,
        b"\x0f\x0b\x0f\x11\xa1\xa2\xa3\xa4\xa5\xa6\x64\x67\x44\x8b\x94\x24\x00\x00\x00\x00\x48\x81\xc4\x08\x00\x00\x00\x49\xbb\xfe\xdd\x5e\x5d\x5c\x5b\x5a\x59\x49\xf7\xd3\x67\x4d\x3b\x9a\x00\x00\x00\x00\x0f\x84\x02\x00\x00\x00\x0f\x0b\x49\x81\xc2\x08\x00\x00\x00\x41\xff\xe2\x0f\x11\xa1\xa2\xa3\xa4\xa5\xa6",
    ),
    (Rule::V9, b"\x90"),
    (Rule::V10, b"\x64\x67\x48\x8b\x98\x00\x00\x00\x00"),
    (
        Rule::V11,
        b"\x41\xb8\x00\x10\x00\x00\x64\x67\x49\x89\x80\x00\x00\x00\x00",
    ),
    (Rule::V12, b"\x0f\x84\x00\x00\x00\x00"),
    (Rule::V13, b"\x48\xf7\xf9"),
    (Rule::V14, b"\x48\x89\xc4"),
    (
        Rule::V15,
        b"\xe8\x12\x00\x00\x00\x00\x22\xa1\xa2\xa3\xa4\xa5\xa6\x0f\x0b\x00\x11\xa1\xa2\xa3\xa4\xa5\xa6\x0f\x0b\x0f\x11\xa1\xa2\xa3\xa4\xa5\xa6",
    ),
    (
        Rule::V16,
        b"\x0f\x0b\x0f\x11\xa1\xa2\xa3\xa4\xa5\xa6\x64\x67\x44\x8b\x94\x24\x00\x00\x00\x00\x48\x81\xc4\x08\x00\x00\x00\x49\xbb\xff\xdd\x5e\x5d\x5c\x5b\x5a\x59\x49\xf7\xd3\x67\x4d\x3b\x9a\x00\x00\x00\x00\x0f\x84\x02\x00\x00\x00\x0f\x0b\x49\x81\xc2\x08\x00\x00\x00\x41\xff\xe2\x0f\x11\xa1\xa2\xa3\xa4\xa5\xa6",
    ),
];

/// For each two pieces, the first before the second: the number of the rule that is told and its place in the code, by
/// `tools/verdicts.py pairs`.
static PAIRS: [[(u8, u32); 15]; 15] = [
    [
        (2, 8),
        (2, 8),
        (2, 8),
        (2, 8),
        (2, 8),
        (2, 8),
        (2, 8),
        (2, 8),
        (2, 8),
        (2, 8),
        (2, 8),
        (2, 8),
        (2, 8),
        (2, 8),
        (2, 8),
    ],
    [
        (2, 17),
        (3, 8),
        (3, 8),
        (3, 8),
        (3, 8),
        (3, 8),
        (3, 8),
        (3, 8),
        (3, 8),
        (3, 8),
        (3, 8),
        (3, 8),
        (3, 8),
        (3, 8),
        (3, 8),
    ],
    [
        (2, 18),
        (3, 18),
        (4, 10),
        (4, 10),
        (4, 10),
        (4, 10),
        (4, 10),
        (4, 10),
        (4, 10),
        (4, 10),
        (4, 10),
        (4, 10),
        (4, 10),
        (4, 10),
        (4, 10),
    ],
    [
        (2, 16),
        (3, 16),
        (4, 18),
        (5, 8),
        (5, 8),
        (5, 8),
        (5, 8),
        (5, 8),
        (5, 8),
        (5, 8),
        (5, 8),
        (5, 8),
        (5, 8),
        (5, 8),
        (5, 8),
    ],
    [
        (2, 13),
        (3, 13),
        (4, 15),
        (5, 13),
        (6, 8),
        (6, 8),
        (6, 8),
        (6, 8),
        (6, 8),
        (6, 8),
        (6, 8),
        (6, 8),
        (6, 8),
        (6, 8),
        (6, 8),
    ],
    [
        (2, 21),
        (3, 21),
        (4, 23),
        (5, 21),
        (6, 21),
        (7, 8),
        (7, 8),
        (7, 8),
        (7, 8),
        (7, 8),
        (7, 8),
        (7, 8),
        (7, 8),
        (7, 8),
        (7, 8),
    ],
    [
        (2, 82),
        (3, 82),
        (4, 84),
        (5, 82),
        (6, 82),
        (7, 82),
        (8, 18),
        (8, 18),
        (8, 18),
        (8, 18),
        (8, 18),
        (8, 18),
        (8, 18),
        (8, 18),
        (8, 18),
    ],
    [
        (2, 9),
        (3, 9),
        (4, 11),
        (5, 9),
        (6, 9),
        (7, 9),
        (8, 19),
        (9, 4),
        (9, 4),
        (9, 4),
        (9, 4),
        (9, 4),
        (9, 4),
        (9, 4),
        (9, 4),
    ],
    [
        (2, 17),
        (3, 17),
        (4, 19),
        (5, 17),
        (6, 17),
        (7, 17),
        (8, 27),
        (9, 4),
        (10, 8),
        (10, 8),
        (10, 8),
        (10, 8),
        (10, 8),
        (10, 8),
        (10, 8),
    ],
    [
        (2, 23),
        (3, 23),
        (4, 25),
        (5, 23),
        (6, 23),
        (7, 23),
        (8, 33),
        (9, 4),
        (11, 14),
        (11, 14),
        (11, 14),
        (11, 14),
        (11, 14),
        (11, 14),
        (11, 14),
    ],
    [
        (2, 14),
        (3, 14),
        (4, 16),
        (5, 14),
        (6, 14),
        (7, 14),
        (8, 24),
        (9, 4),
        (12, 8),
        (12, 8),
        (12, 8),
        (12, 8),
        (12, 8),
        (12, 8),
        (12, 8),
    ],
    [
        (2, 11),
        (3, 11),
        (4, 13),
        (5, 11),
        (6, 11),
        (7, 11),
        (8, 21),
        (9, 4),
        (13, 8),
        (13, 8),
        (13, 8),
        (13, 8),
        (13, 8),
        (13, 8),
        (13, 8),
    ],
    [
        (2, 11),
        (3, 11),
        (4, 13),
        (5, 11),
        (6, 11),
        (7, 11),
        (8, 21),
        (9, 4),
        (14, 8),
        (14, 8),
        (14, 8),
        (14, 8),
        (14, 8),
        (14, 8),
        (14, 8),
    ],
    [
        (2, 41),
        (3, 41),
        (4, 43),
        (5, 41),
        (6, 41),
        (7, 41),
        (8, 51),
        (9, 4),
        (15, 8),
        (15, 8),
        (15, 8),
        (15, 8),
        (15, 8),
        (15, 8),
        (15, 8),
    ],
    [
        (2, 82),
        (3, 82),
        (4, 84),
        (5, 82),
        (6, 82),
        (7, 82),
        (8, 92),
        (9, 4),
        (16, 18),
        (16, 18),
        (16, 18),
        (16, 18),
        (16, 18),
        (16, 18),
        (16, 18),
    ],
];

fn told(alloc: Global, bytes: &[u8]) -> Result<(Option<Rule>, u64), NoMemory> {
    match verify(alloc, bytes) {
        Ok(_) => Ok((None, 0)),
        Err(VerifyError::Refused { rule, at }) => Ok((Some(rule), at)),
        Err(VerifyError::NoMemory) => Err(NoMemory),
    }
}

/// With ample memory the small image is accepted.
#[test]
fn accepts_a_small_image(rt: HostRuntime) {
    let Ok(verified) = verify(rt.alloc(), &SMALL) else {
        assert!(rt; false);
        return;
    };
    assert_eq!(rt;
        verified.counts(),
        Counts {
            procedures: 1,
            items: 1
        }
    );
    assert_eq!(rt; verified.parts().code.len(), 10);
}

#[test]
fn tells_the_form_of_a_cut_image(rt: HostRuntime) {
    for n in 0..SMALL.len() {
        assert_eq!(rt; told(rt.alloc(), &SMALL[..n]), Ok((Some(Rule::V1), CUT[n])));
    }
    let mut long = Vec::new(rt.alloc());
    assert_eq!(rt; long.extend_from_slice(&SMALL), Ok(()));
    assert_eq!(rt; long.extend_from_slice(&[0]), Ok(()));
    assert_eq!(rt; told(rt.alloc(), long.as_slice()), Ok((Some(Rule::V1), 54)));
}

/// The rule of an entry of `TURNED`.
fn rule_of(at: u64) -> Option<Rule> {
    if at == NONE {
        None
    } else if at < 256 {
        Some(Rule::V1)
    } else if at == 0x10000 || at == 0x10008 {
        Some(Rule::V2)
    } else {
        Some(Rule::V9)
    }
}

#[test]
fn tells_a_turned_byte(rt: HostRuntime) {
    for place in 0..SMALL.len() {
        let mut bytes = SMALL;
        bytes[place] ^= 0xff;
        let at = TURNED[place];
        let wanted = (rule_of(at), if at == NONE { 0 } else { at });
        assert_eq!(rt; told(rt.alloc(), &bytes), Ok(wanted));
    }
}

#[test]
fn tells_the_rule_of_a_code(rt: HostRuntime) {
    let prefix = [0xa1, 0xa2, 0xa3, 0xa4, 0xa5, 0xa6];
    for (code, rule, at) in CODES {
        match image(rt.alloc(), &prefix, code) {
            Ok(bytes) => assert_eq!(rt; told(rt.alloc(), bytes.as_slice()), Ok((rule, at))),
            Err(NoMemory) => assert!(rt; false),
        }
    }
}

/// Of two rules that are broken, in both orders of address, the right one is told.
#[test]
fn tells_one_of_two_rules(rt: HostRuntime) -> Result<(), Fail> {
    let alloc = rt.alloc();
    for (i, (first, a)) in PIECES.iter().enumerate() {
        for (j, (second, b)) in PIECES.iter().enumerate() {
            let mut code = Vec::new(alloc);
            code.extend_from_slice(&SMALL[44..52])?;
            code.extend_from_slice(a)?;
            code.extend_from_slice(b)?;
            code.extend_from_slice(&SMALL[52..])?;
            let mut bytes = image(
                alloc,
                &[0xa1, 0xa2, 0xa3, 0xa4, 0xa5, 0xa6],
                code.as_slice(),
            )?;
            assert!(rt; bytes.len() > 40);
            bytes[40] = if *first == Rule::V9 || *second == Rule::V9 {
                4
            } else {
                8
            };
            let (number, place) = PAIRS[i][j];
            let (rule, at) = told(alloc, bytes.as_slice())?;
            assert_eq!(rt; rule.map_or(0, number_of), number, "{first:?} {second:?}");
            assert_eq!(rt; at, 0x10000 + u64::from(place), "{first:?} {second:?}");
        }
    }
    Ok(())
}

/// The number in a rule's name.
fn number_of(rule: Rule) -> u8 {
    rule as u8 + 1
}

/// The second of two occurrences that overlap is not that of the word.
#[test]
fn tells_an_occurrence_that_overlaps(rt: HostRuntime) {
    let code = b"\x0f\x11\x90\x90\x90\x90\x90\x90\x90\x0f\x0b";
    match image(rt.alloc(), &[0x90; 6], code) {
        Ok(bytes) => assert_eq!(rt;
            told(rt.alloc(), bytes.as_slice()),
            Ok((Some(Rule::V4), 0x10003))
        ),
        Err(NoMemory) => assert!(rt; false),
    }
}

/// A code of two procedures, in which an entry may be 8 or 18.
const TWO: [u8; 20] =
    *b"\x0f\x11\xa1\xa2\xa3\xa4\xa5\xa6\x0f\x0b\x0f\x11\xa1\xa2\xa3\xa4\xa5\xa6\x0f\x0b";

/// Entries of that code, and what they break by `tools/verdicts.py entries`.
static ENTRIES: [(&[u32], Option<Rule>, u64); 16] = [
    (&[8], None, 0),
    (&[18], None, 0),
    (&[8, 18], None, 0),
    (&[18, 8], None, 0),
    (&[8, 8], None, 0),
    (&[8, 4], Some(Rule::V9), 0x10004),
    (&[4, 8], Some(Rule::V9), 0x10004),
    (&[20, 4], Some(Rule::V9), 0x10004),
    (&[4, 20], Some(Rule::V9), 0x10004),
    (&[10, 10], Some(Rule::V9), 0x1000a),
    (&[8, 20, 10], Some(Rule::V9), 0x1000a),
    (&[18, 0xffff_ffff], Some(Rule::V9), 0x1_0000_ffff),
    (&[8, 18, 8, 18, 8, 18, 8, 18], None, 0),
    (&[8, 18, 8, 18, 8, 18, 8, 17], Some(Rule::V9), 0x10011),
    (&[7, 6, 5, 4, 3, 2, 1, 0], Some(Rule::V9), 0x10000),
    (&[19, 8, 9, 18, 7, 8, 11, 18], Some(Rule::V9), 0x10007),
];

/// Each entry is judged, and of bad ones the least is told.
#[test]
fn tells_the_least_bad_entry(rt: HostRuntime) -> Result<(), Fail> {
    let prefix = [0xa1, 0xa2, 0xa3, 0xa4, 0xa5, 0xa6];
    for (entries, rule, at) in &ENTRIES {
        let bytes = image_with(rt.alloc(), &prefix, entries, &TWO)?;
        assert_eq!(rt;
            told(rt.alloc(), bytes.as_slice())?,
            (*rule, *at),
            "{entries:?}"
        );
    }
    Ok(())
}

/// An image has 1 to 8 entries, which it holds whole.
#[test]
fn tells_a_wrong_count_of_entries(rt: HostRuntime) -> Result<(), Fail> {
    let prefix = [0xa1, 0xa2, 0xa3, 0xa4, 0xa5, 0xa6];
    for entries in [&[][..], &[8; 9][..], &[18; 200][..]] {
        let bytes = image_with(rt.alloc(), &prefix, entries, &TWO)?;
        assert_eq!(rt; told(rt.alloc(), bytes.as_slice())?, (Some(Rule::V1), 5));
    }
    let mut bytes = SMALL;
    bytes[5] = 2;
    assert_eq!(rt; told(rt.alloc(), &bytes)?, (Some(Rule::V1), 24));
    Ok(())
}

/// A code of two procedures: the first calls the gates at 0x1030 and 0x1000, the second stores a number and goes round.
const TWO_CORES: &[u8] =
    b"\x0f\x11\xa1\xa2\xa3\xa4\xa5\xa6\x40\xbf\x00\x10\x00\x00\x40\xbe\x01\x00\x00\x00\x64\x67\x40\x88\xb7\x00\x00\x00\x00\xe8\x0e\x10\xff\xff\x00\x22\xa1\xa2\xa3\xa4\xa5\xa6\x40\xbf\x00\x00\x00\x00\xe8\xcb\x0f\xff\xff\x00\x22\xa1\xa2\xa3\xa4\xa5\xa6\x0f\x0b\x0f\x11\xa1\xa2\xa3\xa4\xa5\xa6\x40\xbf\x00\x10\x00\x00\x40\xbe\x02\x00\x00\x00\x64\x67\x40\x88\xb7\x00\x00\x00\x00\xe9\xfb\xff\xff\xff";

/// An image for two cores is accepted: two call words, two return words, and 11 other items.
#[test]
fn accepts_an_image_of_two_entries(rt: HostRuntime) -> Result<(), Fail> {
    let alloc = rt.alloc();
    let prefix = [0xa1, 0xa2, 0xa3, 0xa4, 0xa5, 0xa6];
    let bytes = image_with(alloc, &prefix, &[8, 71], TWO_CORES)?;
    let verified = verify(alloc, bytes.as_slice())?;
    assert_eq!(rt;
        verified.counts(),
        Counts {
            procedures: 2,
            items: 11
        }
    );
    assert_eq!(rt; verified.parts().entries.as_slice(), &[8, 71][..]);
    let listing = list_items(alloc, bytes.as_slice())?;
    assert_eq!(rt; listing.items.len(), 15);
    Ok(())
}

//! Cases from the table of the form, by hand and by another program, and two images there and back.

use super::*;
use arrayvec::ArrayVec;
use std::process::Abort;
use std::test::Fail;

/// An image whose code is a call word and an undefined instruction.
const SMALL: [u8; 54] = [
    0x43, 0x46, 0x56, 0x49, 0x01, 0x01, 0x00, 0x00, 0xa1, 0xa2, 0xa3, 0xa4, 0xa5, 0xa6, 0x00, 0x00,
    0x00, 0x00, 0x01, 0x00, 0x00, 0x10, 0x00, 0x00, 0x0a, 0x00, 0x00, 0x00, 0x00, 0x00, 0x00, 0x00,
    0x00, 0x00, 0x00, 0x00, 0x00, 0x00, 0x00, 0x00, 0x08, 0x00, 0x00, 0x00, 0x0f, 0x11, 0xa1, 0xa2,
    0xa3, 0xa4, 0xa5, 0xa6, 0x0f, 0x0b,
];

/// An image with eight entries and start bytes in both segments.
const LARGE: [u8; 82] = [
    0x43, 0x46, 0x56, 0x49, 0x01, 0x08, 0x00, 0x00, 0x90, 0x91, 0x92, 0x93, 0x94, 0x95, 0x00, 0x00,
    0x00, 0x00, 0x02, 0x00, 0x00, 0x30, 0x00, 0x00, 0x03, 0x00, 0x00, 0x00, 0x02, 0x00, 0x00, 0x00,
    0x05, 0x00, 0x00, 0x00, 0x00, 0x00, 0x00, 0x00, 0x00, 0x00, 0x00, 0x00, 0x01, 0x00, 0x00, 0x00,
    0x02, 0x00, 0x00, 0x00, 0x02, 0x01, 0x00, 0x00, 0x00, 0x00, 0x01, 0x00, 0xff, 0xff, 0xff, 0x7f,
    0x00, 0x00, 0x00, 0x80, 0xff, 0xff, 0xff, 0xff, 0x90, 0x0f, 0x0b, 0x70, 0x75, 0x70, 0x72, 0x69,
    0x76, 0x21,
];

/// Stands for no fault.
const NONE: u32 = u32::MAX;

/// The fault of the small image cut to each length.
const CUT: [u32; 55] = [
    0, 0, 0, 0, 4, 5, 6, 6, 8, 8, 8, 8, 8, 8, 14, 14, 16, 16, 16, 16, 20, 20, 20, 20, 24, 24, 24,
    24, 24, 24, 24, 24, 24, 24, 24, 24, 24, 24, 24, 24, 24, 24, 24, 24, 24, 24, 24, 24, 24, 24, 24,
    24, 24, 24, NONE,
];

/// The fault of the small image with all bits of one byte turned.
const TURNED: [u32; 54] = [
    0, 0, 0, 0, 4, 5, 6, 6, NONE, NONE, NONE, NONE, NONE, NONE, 14, 14, 16, 16, NONE, 16, 20, NONE,
    20, 20, 24, 24, 24, 24, 28, 28, 28, 28, 32, 32, 32, 32, 36, 36, 36, 36, NONE, NONE, NONE, NONE,
    NONE, NONE, NONE, NONE, NONE, NONE, NONE, NONE, NONE, NONE,
];

/// The fault of the small image with one byte greater by one.
const RAISED: [u32; 54] = [
    0, 0, 0, 0, 4, 24, 6, 6, NONE, NONE, NONE, NONE, NONE, NONE, 14, 14, 16, 16, NONE, NONE, 20,
    NONE, 20, 20, 24, 24, 24, 24, 28, 28, 28, 28, 32, 32, 32, 32, 36, 36, 36, 36, NONE, NONE, NONE,
    NONE, NONE, NONE, NONE, NONE, NONE, NONE, NONE, NONE, NONE, NONE,
];

/// The fault of the small image with another number at a place.
const NUMBERS: [(usize, u32, u32); 26] = [
    (16, 0, 16),
    (16, 0xf000, 16),
    (16, 0x1_0010, 16),
    (16, 0x1_1000, NONE),
    (16, 0x400_0000, NONE),
    (16, 0x400_1000, 16),
    (16, 0xffff_f000, 16),
    (20, 0, 20),
    (20, 240, 20),
    (20, 256, NONE),
    (20, 257, 20),
    (20, 0xf000, NONE),
    (20, 0xf010, 20),
    (20, 0xffff_fff0, 20),
    (24, 0, 24),
    (24, 1, 45),
    (24, 9, 53),
    (24, 11, 24),
    (24, 0xffff_ffd4, 24),
    (24, 0xffff_ffff, 24),
    (28, 1, 28),
    (28, 0xffff_ffca, 28),
    (28, 0xffff_ffff, 28),
    (32, 1, 32),
    (32, 0xffff_ffca, 32),
    (32, 0xffff_ffff, 32),
];

/// The place of the fault.
fn fault(bytes: &[u8]) -> u32 {
    match read_image(bytes) {
        Ok(_) => NONE,
        Err(fault) => fault.place,
    }
}

/// The small image with one byte changed.
fn with_byte(at: usize, byte: u8) -> [u8; 54] {
    let mut image = SMALL;
    if at < 54 {
        image[at] = byte;
    }
    image
}

/// The small image with another number at the place.
fn with_number(at: usize, number: u32) -> [u8; 54] {
    let mut image = SMALL;
    if at <= 50 {
        image[at..at + 4].copy_from_slice(&number.to_le_bytes());
    }
    image
}

#[test]
fn tells_where_a_cut_file_is_wrong(rt: HostRuntime) {
    for length in 0..55 {
        assert_eq!(rt; fault(&SMALL[..length]), CUT[length], "at {length}");
    }
}

#[test]
fn tells_where_a_changed_file_is_wrong(rt: HostRuntime) {
    for at in 0..54 {
        let byte = SMALL[at];
        assert_eq!(rt; fault(&with_byte(at, !byte)), TURNED[at], "turned at {at}");
        assert_eq!(rt;
            fault(&with_byte(at, byte.wrapping_add(1))),
            RAISED[at],
            "raised at {at}"
        );
    }
    for (at, number, place) in NUMBERS {
        assert_eq!(rt; fault(&with_number(at, number)), place, "{number} at {at}");
    }
}

#[test]
fn tells_the_first_byte_too_many(rt: HostRuntime) -> Result<(), Fail> {
    let mut longer = LARGE.to_vec(rt.alloc())?;
    assert_eq!(rt; fault(longer.as_slice()), NONE);
    longer.push(0)?;
    longer.push(0)?;
    assert_eq!(rt; fault(longer.as_slice()), 82);
    let told = format!(in rt.alloc(); "{}", FormFault { place: 82 })?;
    assert_eq!(rt; told.as_str(), "no image at place 82");
    Ok(())
}

#[test]
fn writes_and_reads_the_small_image(rt: HostRuntime) -> Result<(), Fail> {
    let mut entries = ArrayVec::new();
    entries.push(8);
    let parts = Parts {
        prefix: [0xa1, 0xa2, 0xa3, 0xa4, 0xa5, 0xa6],
        seg_size: 65_536,
        stack_size: 4_096,
        entries,
        code: &[0x0f, 0x11, 0xa1, 0xa2, 0xa3, 0xa4, 0xa5, 0xa6, 0x0f, 0x0b],
        public: &[],
        private: &[],
    };
    let bytes = write_image(rt.alloc(), &parts)?;
    assert_eq!(rt; bytes.as_slice(), SMALL.as_slice());
    let again = read_image(bytes.as_slice())?;
    assert_same(&rt, &again, &parts);
    Ok(())
}

#[test]
fn writes_and_reads_the_large_image(rt: HostRuntime) -> Result<(), Fail> {
    let parts = Parts {
        prefix: [0x90, 0x91, 0x92, 0x93, 0x94, 0x95],
        seg_size: 131_072,
        stack_size: 12_288,
        entries: ArrayVec::from([
            0,
            1,
            2,
            0x102,
            0x1_0000,
            0x7fff_ffff,
            0x8000_0000,
            0xffff_ffff,
        ]),
        code: &[0x90, 0x0f, 0x0b],
        public: &[0x70, 0x75],
        private: &[0x70, 0x72, 0x69, 0x76, 0x21],
    };
    let bytes = write_image(rt.alloc(), &parts)?;
    assert_eq!(rt; bytes.as_slice(), LARGE.as_slice());
    let again = read_image(bytes.as_slice())?;
    assert_same(&rt, &again, &parts);
    Ok(())
}

/// The parts are the same, field by field.
fn assert_same(rt: &impl Abort, parts: &Parts<'_>, wanted: &Parts<'_>) {
    assert_eq!(rt; parts.prefix, wanted.prefix);
    assert_eq!(rt; parts.seg_size, wanted.seg_size);
    assert_eq!(rt; parts.stack_size, wanted.stack_size);
    assert_eq!(rt; parts.entries.as_slice(), wanted.entries.as_slice());
    assert_eq!(rt; parts.code, wanted.code);
    assert_eq!(rt; parts.public, wanted.public);
    assert_eq!(rt; parts.private, wanted.private);
}

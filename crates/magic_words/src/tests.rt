//! Words byte by byte, and where a prefix stands, by hand.

use super::*;
use std::test::Fail;

const PREFIX: [u8; 6] = [0xa1, 0xa2, 0xa3, 0xa4, 0xa5, 0xa6];

const RUN: [u8; 6] = [0xaa; 6];

/// Its first three bytes are its last three.
const PERIOD: [u8; 6] = [1, 2, 3, 1, 2, 3];

#[test]
fn writes_words(rt: HostRuntime) {
    for bits in 0..32u8 {
        assert_eq!(rt;
            call_word(bits, PREFIX),
            [bits, 0x11, 0xa1, 0xa2, 0xa3, 0xa4, 0xa5, 0xa6]
        );
        assert_eq!(rt;
            read_word(&call_word(bits, PREFIX), 0, PREFIX),
            Some(Word::Call(bits))
        );
    }
    for bit in 0..2u8 {
        assert_eq!(rt;
            return_word(bit, PREFIX),
            [bit, 0x22, 0xa1, 0xa2, 0xa3, 0xa4, 0xa5, 0xa6]
        );
        assert_eq!(rt;
            read_word(&return_word(bit, PREFIX), 0, PREFIX),
            Some(Word::Ret(bit))
        );
    }
}

/// Every taint byte with either kind.
#[test]
fn reads_bits_in_range(rt: HostRuntime) {
    for taint in 0..=255u8 {
        let call = [taint, 0x11, 0xa1, 0xa2, 0xa3, 0xa4, 0xa5, 0xa6];
        let wanted = if taint < 32 {
            Some(Word::Call(taint))
        } else {
            None
        };
        assert_eq!(rt; read_word(&call, 0, PREFIX), wanted, "call {taint}");
        let ret = [taint, 0x22, 0xa1, 0xa2, 0xa3, 0xa4, 0xa5, 0xa6];
        let wanted = if taint < 2 {
            Some(Word::Ret(taint))
        } else {
            None
        };
        assert_eq!(rt; read_word(&ret, 0, PREFIX), wanted, "return {taint}");
    }
}

/// Two bytes, a call word, a return word and a byte.
#[test]
fn reads_at_a_place(rt: HostRuntime) {
    let code = b"\x90\x90\x1f\x11\xa1\xa2\xa3\xa4\xa5\xa6\x01\x22\xa1\xa2\xa3\xa4\xa5\xa6\x90";
    for at in 0..24usize {
        let wanted = match at {
            2 => Some(Word::Call(31)),
            10 => Some(Word::Ret(1)),
            _ => None,
        };
        assert_eq!(rt; read_word(code, at, PREFIX), wanted, "at {at}");
    }
    assert_eq!(rt; read_word(code, usize::MAX, PREFIX), None);
    for length in 0..10usize {
        assert_eq!(rt; read_word(&code[..length], 2, PREFIX), None, "of {length}");
    }
    assert_eq!(rt; read_word(&code[..10], 2, PREFIX), Some(Word::Call(31)));
}

/// A word of which one byte is another one.
#[test]
fn reads_no_other_kind_or_prefix(rt: HostRuntime) {
    for byte in 0..=255u8 {
        let kind = [1, byte, 0xa1, 0xa2, 0xa3, 0xa4, 0xa5, 0xa6];
        let wanted = match byte {
            0x11 => Some(Word::Call(1)),
            0x22 => Some(Word::Ret(1)),
            _ => None,
        };
        assert_eq!(rt; read_word(&kind, 0, PREFIX), wanted, "kind {byte}");
    }
    for at in 2..8usize {
        let mut word = call_word(0, PREFIX);
        word[at] = !word[at];
        assert_eq!(rt; read_word(&word, 0, PREFIX), None, "at {at}");
    }
    assert_eq!(rt;
        read_word(b"\x00\x11\xa6\xa5\xa4\xa3\xa2\xa1", 0, PREFIX),
        None
    );
}

/// A code, a prefix and every place of the prefix in the code.
static OCCURRENCES: [(&[u8], [u8; 6], &[u32]); 12] = [
    (b"", PREFIX, &[]),
    (b"\xa1\xa2\xa3\xa4\xa5", PREFIX, &[]),
    (b"\xa1\xa2\xa3\xa4\xa5\xa6", PREFIX, &[0]),
    (b"\x0f\x11\xa1\xa2\xa3\xa4\xa5\xa6\x0f\x0b", PREFIX, &[2]),
    (
        b"\xa1\xa2\xa3\xa4\xa5\xa6\xa1\xa2\xa3\xa4\xa5\xa6",
        PREFIX,
        &[0, 6],
    ),
    (
        b"\xa1\xa2\xa3\xa4\xa5\xa6\xa1\xa2\xa3\xa4\xa5",
        PREFIX,
        &[0],
    ),
    (b"\xa1\xa2\xa3\xa1\xa2\xa3\xa4\xa5\xa6\x00", PREFIX, &[3]),
    (b"\xa6\xa5\xa4\xa3\xa2\xa1", PREFIX, &[]),
    (b"\xaa\xaa\xaa\xaa\xaa", RUN, &[]),
    (b"\xaa\xaa\xaa\xaa\xaa\xaa\xaa\xaa\xaa", RUN, &[0, 1, 2, 3]),
    (
        b"\xaa\xaa\xaa\xaa\xaa\xaa\xaa\x00\xaa\xaa\xaa\xaa\xaa\xaa",
        RUN,
        &[0, 1, 8],
    ),
    (
        b"\x01\x02\x03\x01\x02\x03\x01\x02\x03\x01\x02",
        PERIOD,
        &[0, 3],
    ),
];

#[test]
fn finds_every_occurrence(rt: HostRuntime) -> Result<(), Fail> {
    for (code, prefix, wanted) in OCCURRENCES {
        let places = occurrences(rt.alloc(), code, prefix)?;
        assert_eq!(rt; places.as_slice(), wanted);
    }
    Ok(())
}

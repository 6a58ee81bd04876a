//! Chains and the places where they break, by hand; units as their tables give them.

use super::*;
use std::test::Fail;
use x64_decode::{Instr, Mem, Reg, Seg};

const PREFIX: [u8; 6] = [0xa1, 0xa2, 0xa3, 0xa4, 0xa5, 0xa6];

/// The return unit of bit 0. The inverse of its word is at 19.
const RETURN: [u8; 56] = [
    0x64, 0x67, 0x44, 0x8b, 0x94, 0x24, 0, 0, 0, 0, 0x48, 0x81, 0xc4, 8, 0, 0, 0, 0x49, 0xbb, 0xff,
    0xdd, 0x5e, 0x5d, 0x5c, 0x5b, 0x5a, 0x59, 0x49, 0xf7, 0xd3, 0x67, 0x4d, 0x3b, 0x9a, 0, 0, 0, 0,
    0x0f, 0x84, 2, 0, 0, 0, 0x0f, 0x0b, 0x49, 0x81, 0xc2, 8, 0, 0, 0, 0x41, 0xff, 0xe2,
];

/// The call unit of rax with bits 0. The inverse of its word is at 5.
const CALL: [u8; 42] = [
    0x41, 0x89, 0xc2, 0x49, 0xbb, 0xff, 0xee, 0x5e, 0x5d, 0x5c, 0x5b, 0x5a, 0x59, 0x49, 0xf7, 0xd3,
    0x67, 0x4d, 0x3b, 0x9a, 0, 0, 0, 0, 0x0f, 0x84, 2, 0, 0, 0, 0x0f, 0x0b, 0x49, 0x81, 0xc2, 8, 0,
    0, 0, 0x41, 0xff, 0xd2,
];

/// The registers by number.
const REGISTERS: [Reg; 16] = [
    Reg::Rax,
    Reg::Rcx,
    Reg::Rdx,
    Reg::Rbx,
    Reg::Rsp,
    Reg::Rbp,
    Reg::Rsi,
    Reg::Rdi,
    Reg::Gpr8,
    Reg::Gpr9,
    Reg::Gpr10,
    Reg::Gpr11,
    Reg::Gpr12,
    Reg::Gpr13,
    Reg::Gpr14,
    Reg::Gpr15,
];

/// The first instruction of a return unit, with its displacement.
fn stack_load(disp: i32) -> Option<(Item, u8)> {
    let mem = Mem {
        seg: Seg::Fs,
        base: Reg::Rsp,
        disp,
    };
    Some((
        Item::Plain(Instr::Load {
            wide: false,
            dst: Reg::Gpr10,
            mem,
        }),
        10,
    ))
}

/// The first instruction of a call unit.
fn half_move(src: Reg) -> Option<(Item, u8)> {
    Some((
        Item::Plain(Instr::Mov {
            wide: false,
            dst: Reg::Gpr10,
            src,
        }),
        3,
    ))
}

/// A code, a place in it and the item there.
static ITEMS: [(&[u8], usize, Option<(Item, u8)>); 19] = [
    (
        b"\x1f\x11\xa1\xa2\xa3\xa4\xa5\xa6",
        0,
        Some((Item::Call(31), 8)),
    ),
    (
        b"\x00\x11\xa1\xa2\xa3\xa4\xa5\xa6",
        0,
        Some((Item::Call(0), 8)),
    ),
    (b"\x20\x11\xa1\xa2\xa3\xa4\xa5\xa6", 0, None),
    (
        b"\x01\x22\xa1\xa2\xa3\xa4\xa5\xa6",
        0,
        Some((Item::Ret(1), 8)),
    ),
    (b"\x02\x22\xa1\xa2\xa3\xa4\xa5\xa6", 0, None),
    (
        b"\x90\x1f\x11\xa1\xa2\xa3\xa4\xa5\xa6",
        0,
        Some((Item::Plain(Instr::Nop), 1)),
    ),
    (
        b"\x90\x1f\x11\xa1\xa2\xa3\xa4\xa5\xa6",
        1,
        Some((Item::Call(31), 8)),
    ),
    (b"\x90\x0f\x0b", 1, Some((Item::Plain(Instr::Ud2), 2))),
    (b"\x90\x0f\x0b", 2, None),
    (b"\x90\x0f\x0b", 3, None),
    (b"\x90\x0f\x0b", 4, None),
    (b"\x90\x0f\x0b", usize::MAX, None),
    (b"", 0, None),
    (
        b"\xe9\x00\x00\x00\x80",
        0,
        Some((Item::Plain(Instr::Jmp { rel: i32::MIN }), 5)),
    ),
    (b"\xe9\x00\x00\x00", 0, None),
    (
        b"\xe8\x00\x00\x00\x00",
        0,
        Some((Item::Plain(Instr::Call { rel: 0 }), 5)),
    ),
    (b"\x67\x4d\x3b\x9a\x00\x00\x00\x00", 0, None),
    (b"\x41\xff\xe2", 0, None),
    (b"\x41\xff\xd2", 0, None),
];

#[test]
fn items_at_places(rt: HostRuntime) {
    for (code, at, item) in ITEMS {
        assert_eq!(rt; item_at(code, at, PREFIX), item);
    }
}

#[test]
fn a_return_unit_is_one_item(rt: HostRuntime) {
    assert_eq!(rt;
        item_at(&RETURN, 0, PREFIX),
        Some((Item::ReturnUnit(0), 56))
    );
    let mut other = RETURN;
    other[19] = 0xfe;
    assert_eq!(rt; item_at(&other, 0, PREFIX), Some((Item::ReturnUnit(1), 56)));
    other[19] = 0xfd;
    assert_eq!(rt; item_at(&other, 0, PREFIX), stack_load(0));
    assert_eq!(rt; item_at(&RETURN[..55], 0, PREFIX), stack_load(0));
    assert_eq!(rt;
        item_at(&RETURN, 0, [0xa1, 0xa2, 0xa3, 0xa4, 0xa5, 0xa7]),
        stack_load(0)
    );
}

/// With one byte changed no unit is left, but mostly its first instruction.
#[test]
fn a_changed_return_unit(rt: HostRuntime) {
    for at in 0..56usize {
        let mut unit = RETURN;
        unit[at] = !unit[at];
        let wanted = match at {
            0..=5 => None,
            6 => stack_load(0xff),
            7 => stack_load(0xff00),
            8 => stack_load(0xff_0000),
            9 => stack_load(-0x100_0000),
            _ => stack_load(0),
        };
        assert_eq!(rt; item_at(&unit, 0, PREFIX), wanted, "at {at}");
    }
}

#[test]
fn a_call_unit_is_one_item(rt: HostRuntime) {
    for number in 0..16u8 {
        for bits in 0..33u8 {
            let mut unit = CALL;
            unit[0] = 0x41 + number / 8 * 4;
            unit[2] = 0xc2 + number % 8 * 8;
            unit[5] = 255 - bits;
            let r = REGISTERS[number as usize];
            let wanted = if bits < 32 {
                Some((Item::CallUnit(r, bits), 42))
            } else {
                half_move(r)
            };
            assert_eq!(rt; item_at(&unit, 0, PREFIX), wanted, "{number} {bits}");
        }
    }
    assert_eq!(rt; item_at(&CALL[..41], 0, PREFIX), half_move(Reg::Rax));
}

/// With one byte changed no unit is left, but mostly its first instruction.
#[test]
fn a_changed_call_unit(rt: HostRuntime) {
    for at in 0..42usize {
        let mut unit = CALL;
        unit[at] = !unit[at];
        let wanted = if at < 3 { None } else { half_move(Reg::Rax) };
        assert_eq!(rt; item_at(&unit, 0, PREFIX), wanted, "at {at}");
    }
}

/// A code and its items.
static CHAINS: [(&[u8], &[Placed]); 7] = [
    (
        b"\x0f\x11\xa1\xa2\xa3\xa4\xa5\xa6\xe8\x00\x00\x00\x00\x01\x22\xa1\xa2\xa3\xa4\xa5\xa6\x0f\x0b\x00\x11\xa1\xa2\xa3\xa4\xa5\xa6\x90",
        &[
            Placed {
                at: 0,
                len: 8,
                item: Item::Call(15),
            },
            Placed {
                at: 8,
                len: 5,
                item: Item::Plain(Instr::Call { rel: 0 }),
            },
            Placed {
                at: 13,
                len: 8,
                item: Item::Ret(1),
            },
            Placed {
                at: 21,
                len: 2,
                item: Item::Plain(Instr::Ud2),
            },
            Placed {
                at: 23,
                len: 8,
                item: Item::Call(0),
            },
            Placed {
                at: 31,
                len: 1,
                item: Item::Plain(Instr::Nop),
            },
        ],
    ),
    (
        &RETURN,
        &[Placed {
            at: 0,
            len: 56,
            item: Item::ReturnUnit(0),
        }],
    ),
    (
        &CALL,
        &[Placed {
            at: 0,
            len: 42,
            item: Item::CallUnit(Reg::Rax, 0),
        }],
    ),
    (b"", &[]),
    (
        b"\x90",
        &[Placed {
            at: 0,
            len: 1,
            item: Item::Plain(Instr::Nop),
        }],
    ),
    (
        b"\x0f\x11\xa1\xa2\xa3\xa4\xa5\xa6\x90\x0f\x0b",
        &[
            Placed {
                at: 0,
                len: 8,
                item: Item::Call(15),
            },
            Placed {
                at: 8,
                len: 1,
                item: Item::Plain(Instr::Nop),
            },
            Placed {
                at: 9,
                len: 2,
                item: Item::Plain(Instr::Ud2),
            },
        ],
    ),
    (
        b"\x48\x99\xe9\xfe\xff\xff\xff\x49\xbb\xff\xee\x5e\x5d\x5c\x5b\x5a\x59\x0f\x0b",
        &[
            Placed {
                at: 0,
                len: 2,
                item: Item::Plain(Instr::Cqo),
            },
            Placed {
                at: 2,
                len: 5,
                item: Item::Plain(Instr::Jmp { rel: -2 }),
            },
            Placed {
                at: 7,
                len: 10,
                item: Item::Plain(Instr::MovImm64 {
                    dst: Reg::Gpr11,
                    imm: 0x595a_5b5c_5d5e_eeff,
                }),
            },
            Placed {
                at: 17,
                len: 2,
                item: Item::Plain(Instr::Ud2),
            },
        ],
    ),
];

#[test]
fn sweeps_to_the_end(rt: HostRuntime) -> Result<(), Fail> {
    for (code, items) in CHAINS {
        let listing = sweep(rt.alloc(), code, PREFIX)?;
        assert_eq!(rt; listing.code, code);
        assert_eq!(rt; listing.items.as_slice(), items);
    }
    Ok(())
}

/// A code and the place where its chain breaks.
static BREAKS: [(&[u8], u32); 11] = [
    (b"\x00", 0),
    (b"\x90\x0f", 1),
    (b"\x90\x0f\x0b\xe9\x00\x00\x00", 3),
    (b"\x0f\x11\xa1\xa2\xa3\xa4\xa5", 0),
    (b"\x0f\x11\xa1\xa2\xa3\xa4\xa5\xa7", 0),
    (b"\x90\x11\xa1\xa2\xa3\xa4\xa5\xa6", 1),
    (
        b"\x0f\x11\xa1\xa2\xa3\xa4\xa5\xa6\x0f\x0b\x20\x11\xa1\xa2\xa3\xa4\xa5\xa6",
        10,
    ),
    (b"\x90\xe8\x00\x00\x00", 1),
    (b"\x90\x90\x67\x4d\x3b\x9a\x00\x00\x00\x00", 2),
    (b"\x48\x99\x41\xff\xe2", 2),
    (b"\x48\x99\x41\xff\xd2", 2),
];

#[test]
fn tells_where_a_chain_breaks(rt: HostRuntime) {
    for (code, at) in BREAKS {
        let broken = match sweep(rt.alloc(), code, PREFIX) {
            Ok(_) => None,
            Err(error) => Some(error),
        };
        assert_eq!(rt; broken, Some(SweepError::NoItem { at }));
    }
}

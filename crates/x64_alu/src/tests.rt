//! Values and flags that a processor gave for the same operands, worked accesses, and steps.

use super::*;
use cv_word::{FaultKind, Flags, Registers};
use std::process::Abort;
use std::test::Fail;
use two_segments::Segments;
use x64_decode::{AluOp, Cond, Instr, Reg, Seg, ShiftOp, Width};

const SIGN: u64 = 0x8000_0000_0000_0000;

const LAST: u64 = 0xffff_ffff_ffff_ffff;

/// Two operands, the result and the flags, as ZF, SF, CF and OF from bit 3 down.
static ADD: [(u64, u64, u64, u8); 28] = [
    (0, 0, 0, 8),
    (0, 1, 1, 0),
    (0, 0x8000_0000, 0x8000_0000, 0),
    (0, 0xffff_ffff, 0xffff_ffff, 0),
    (0, SIGN - 1, SIGN - 1, 0),
    (0, SIGN, SIGN, 4),
    (0, LAST, LAST, 4),
    (1, 1, 2, 0),
    (1, 0x8000_0000, 0x8000_0001, 0),
    (1, 0xffff_ffff, 0x1_0000_0000, 0),
    (1, SIGN - 1, SIGN, 5),
    (1, SIGN, SIGN + 1, 4),
    (1, LAST, 0, 10),
    (0x8000_0000, 0x8000_0000, 0x1_0000_0000, 0),
    (0x8000_0000, 0xffff_ffff, 0x1_7fff_ffff, 0),
    (0x8000_0000, SIGN - 1, 0x8000_0000_7fff_ffff, 5),
    (0x8000_0000, SIGN, 0x8000_0000_8000_0000, 4),
    (0x8000_0000, LAST, 0x7fff_ffff, 2),
    (0xffff_ffff, 0xffff_ffff, 0x1_ffff_fffe, 0),
    (0xffff_ffff, SIGN - 1, 0x8000_0000_ffff_fffe, 5),
    (0xffff_ffff, SIGN, 0x8000_0000_ffff_ffff, 4),
    (0xffff_ffff, LAST, 0xffff_fffe, 2),
    (SIGN - 1, SIGN - 1, LAST - 1, 5),
    (SIGN - 1, SIGN, LAST, 4),
    (SIGN - 1, LAST, 0x7fff_ffff_ffff_fffe, 2),
    (SIGN, SIGN, 0, 11),
    (SIGN, LAST, SIGN - 1, 3),
    (LAST, LAST, LAST - 1, 6),
];

static SUB: [(u64, u64, u64, u8); 49] = [
    (0, 0, 0, 8),
    (0, 1, LAST, 6),
    (0, 0x8000_0000, 0xffff_ffff_8000_0000, 6),
    (0, 0xffff_ffff, 0xffff_ffff_0000_0001, 6),
    (0, SIGN - 1, SIGN + 1, 6),
    (0, SIGN, SIGN, 7),
    (0, LAST, 1, 2),
    (1, 0, 1, 0),
    (1, 1, 0, 8),
    (1, 0x8000_0000, 0xffff_ffff_8000_0001, 6),
    (1, 0xffff_ffff, 0xffff_ffff_0000_0002, 6),
    (1, SIGN - 1, 0x8000_0000_0000_0002, 6),
    (1, SIGN, SIGN + 1, 7),
    (1, LAST, 2, 2),
    (0x8000_0000, 0, 0x8000_0000, 0),
    (0x8000_0000, 1, 0x7fff_ffff, 0),
    (0x8000_0000, 0x8000_0000, 0, 8),
    (0x8000_0000, 0xffff_ffff, 0xffff_ffff_8000_0001, 6),
    (0x8000_0000, SIGN - 1, 0x8000_0000_8000_0001, 6),
    (0x8000_0000, SIGN, 0x8000_0000_8000_0000, 7),
    (0x8000_0000, LAST, 0x8000_0001, 2),
    (0xffff_ffff, 0, 0xffff_ffff, 0),
    (0xffff_ffff, 1, 0xffff_fffe, 0),
    (0xffff_ffff, 0x8000_0000, 0x7fff_ffff, 0),
    (0xffff_ffff, 0xffff_ffff, 0, 8),
    (0xffff_ffff, SIGN - 1, 0x8000_0001_0000_0000, 6),
    (0xffff_ffff, SIGN, 0x8000_0000_ffff_ffff, 7),
    (0xffff_ffff, LAST, 0x1_0000_0000, 2),
    (SIGN - 1, 0, SIGN - 1, 0),
    (SIGN - 1, 1, 0x7fff_ffff_ffff_fffe, 0),
    (SIGN - 1, 0x8000_0000, 0x7fff_ffff_7fff_ffff, 0),
    (SIGN - 1, 0xffff_ffff, 0x7fff_ffff_0000_0000, 0),
    (SIGN - 1, SIGN - 1, 0, 8),
    (SIGN - 1, SIGN, LAST, 7),
    (SIGN - 1, LAST, SIGN, 7),
    (SIGN, 0, SIGN, 4),
    (SIGN, 1, SIGN - 1, 1),
    (SIGN, 0x8000_0000, 0x7fff_ffff_8000_0000, 1),
    (SIGN, 0xffff_ffff, 0x7fff_ffff_0000_0001, 1),
    (SIGN, SIGN - 1, 1, 1),
    (SIGN, SIGN, 0, 8),
    (SIGN, LAST, SIGN + 1, 6),
    (LAST, 0, LAST, 4),
    (LAST, 1, LAST - 1, 4),
    (LAST, 0x8000_0000, 0xffff_ffff_7fff_ffff, 4),
    (LAST, 0xffff_ffff, 0xffff_ffff_0000_0000, 4),
    (LAST, SIGN - 1, SIGN, 4),
    (LAST, SIGN, SIGN - 1, 0),
    (LAST, LAST, 0, 8),
];

static OR: [(u64, u64, u64, u8); 7] = [
    (0, 0, 0, 8),
    (1, 0x8000_0000, 0x8000_0001, 0),
    (0xffff_ffff, 0x8000_0000, 0xffff_ffff, 0),
    (SIGN - 1, SIGN, LAST, 4),
    (LAST, SIGN, LAST, 4),
    (LAST, 0xffff_ffff, LAST, 4),
    (LAST, LAST, LAST, 4),
];

static AND: [(u64, u64, u64, u8); 7] = [
    (0, 0, 0, 8),
    (1, 0x8000_0000, 0, 8),
    (0xffff_ffff, 0x8000_0000, 0x8000_0000, 0),
    (SIGN - 1, SIGN, 0, 8),
    (LAST, SIGN, SIGN, 4),
    (LAST, 0xffff_ffff, 0xffff_ffff, 0),
    (LAST, LAST, LAST, 4),
];

static XOR: [(u64, u64, u64, u8); 7] = [
    (0, 0, 0, 8),
    (1, 0x8000_0000, 0x8000_0001, 0),
    (0xffff_ffff, 0x8000_0000, 0x7fff_ffff, 0),
    (SIGN - 1, SIGN, LAST, 4),
    (LAST, SIGN, SIGN - 1, 0),
    (LAST, 0xffff_ffff, 0xffff_ffff_0000_0000, 4),
    (LAST, LAST, 0, 8),
];

/// Two factors and the low word of their product.
static PRODUCTS: [(u64, u64, u64); 28] = [
    (0, 0, 0),
    (0, 1, 0),
    (0, 0x8000_0000, 0),
    (0, 0xffff_ffff, 0),
    (0, SIGN - 1, 0),
    (0, SIGN, 0),
    (0, LAST, 0),
    (1, 1, 1),
    (1, 0x8000_0000, 0x8000_0000),
    (1, 0xffff_ffff, 0xffff_ffff),
    (1, SIGN - 1, SIGN - 1),
    (1, SIGN, SIGN),
    (1, LAST, LAST),
    (0x8000_0000, 0x8000_0000, 0x4000_0000_0000_0000),
    (0x8000_0000, 0xffff_ffff, 0x7fff_ffff_8000_0000),
    (0x8000_0000, SIGN - 1, 0xffff_ffff_8000_0000),
    (0x8000_0000, SIGN, 0),
    (0x8000_0000, LAST, 0xffff_ffff_8000_0000),
    (0xffff_ffff, 0xffff_ffff, 0xffff_fffe_0000_0001),
    (0xffff_ffff, SIGN - 1, 0x7fff_ffff_0000_0001),
    (0xffff_ffff, SIGN, SIGN),
    (0xffff_ffff, LAST, 0xffff_ffff_0000_0001),
    (SIGN - 1, SIGN - 1, 1),
    (SIGN - 1, SIGN, SIGN),
    (SIGN - 1, LAST, SIGN + 1),
    (SIGN, SIGN, 0),
    (SIGN, LAST, SIGN),
    (LAST, LAST, 1),
];

/// ZF, SF, CF and OF as the bits 3 to 0.
fn flag_bits(f: Flags) -> u8 {
    8 * f.zf as u8 + 4 * f.sf as u8 + 2 * f.cf as u8 + f.of as u8
}

fn flags(bits: u8) -> Flags {
    Flags {
        zf: bits / 8 % 2 == 1,
        sf: bits / 4 % 2 == 1,
        cf: bits / 2 % 2 == 1,
        of: bits % 2 == 1,
    }
}

fn check_alu(rt: &impl Abort, op: AluOp, table: &[(u64, u64, u64, u8)]) {
    for &(a, b, value, bits) in table {
        let (v, f) = alu(op, a, b);
        assert_eq!(rt; v, value, "at {a} and {b}");
        assert_eq!(rt; flag_bits(f), bits, "at {a} and {b}");
    }
}

#[test]
fn operations_and_flags(rt: HostRuntime) {
    check_alu(&rt, AluOp::Add, &ADD);
    check_alu(&rt, AluOp::Or, &OR);
    check_alu(&rt, AluOp::And, &AND);
    check_alu(&rt, AluOp::Sub, &SUB);
    check_alu(&rt, AluOp::Xor, &XOR);
    check_alu(&rt, AluOp::Cmp, &SUB);
}

#[test]
fn products(rt: HostRuntime) {
    for &(a, b, product) in &PRODUCTS {
        assert_eq!(rt; multiply(a, b), product);
        assert_eq!(rt; multiply(b, a), product);
    }
}

#[test]
fn negations(rt: HostRuntime) {
    for (a, value, table) in [
        (0, 0, 8),
        (1, LAST, 6),
        (0x8000_0000, 0xffff_ffff_8000_0000, 6),
        (0xffff_ffff, 0xffff_ffff_0000_0001, 6),
        (SIGN - 1, SIGN + 1, 6),
        (SIGN, SIGN, 7),
        (LAST, 1, 2),
    ] {
        let (v, f) = negate(a);
        assert_eq!(rt; v, value);
        assert_eq!(rt; flag_bits(f), table);
    }
}

/// A word, a count and the result.
static SHL: [(u64, u8, u64); 15] = [
    (0x8000_0000, 1, 0x1_0000_0000),
    (0x8000_0000, 63, 0),
    (0x8000_0000, 65, 0x1_0000_0000),
    (0xffff_ffff, 1, 0x1_ffff_fffe),
    (0xffff_ffff, 63, SIGN),
    (0xffff_ffff, 65, 0x1_ffff_fffe),
    (SIGN - 1, 1, LAST - 1),
    (SIGN - 1, 63, SIGN),
    (SIGN - 1, 65, LAST - 1),
    (SIGN, 1, 0),
    (SIGN, 63, 0),
    (SIGN, 65, 0),
    (LAST, 1, LAST - 1),
    (LAST, 63, SIGN),
    (LAST, 65, LAST - 1),
];

/// A word, a count and the result.
static SHR: [(u64, u8, u64); 15] = [
    (0x8000_0000, 1, 0x4000_0000),
    (0x8000_0000, 63, 0),
    (0x8000_0000, 65, 0x4000_0000),
    (0xffff_ffff, 1, 0x7fff_ffff),
    (0xffff_ffff, 63, 0),
    (0xffff_ffff, 65, 0x7fff_ffff),
    (SIGN - 1, 1, 0x3fff_ffff_ffff_ffff),
    (SIGN - 1, 63, 0),
    (SIGN - 1, 65, 0x3fff_ffff_ffff_ffff),
    (SIGN, 1, 0x4000_0000_0000_0000),
    (SIGN, 63, 1),
    (SIGN, 65, 0x4000_0000_0000_0000),
    (LAST, 1, SIGN - 1),
    (LAST, 63, 1),
    (LAST, 65, SIGN - 1),
];

/// A word, a count and the result.
static SAR: [(u64, u8, u64); 15] = [
    (0x8000_0000, 1, 0x4000_0000),
    (0x8000_0000, 63, 0),
    (0x8000_0000, 65, 0x4000_0000),
    (0xffff_ffff, 1, 0x7fff_ffff),
    (0xffff_ffff, 63, 0),
    (0xffff_ffff, 65, 0x7fff_ffff),
    (SIGN - 1, 1, 0x3fff_ffff_ffff_ffff),
    (SIGN - 1, 63, 0),
    (SIGN - 1, 65, 0x3fff_ffff_ffff_ffff),
    (SIGN, 1, 0xc000_0000_0000_0000),
    (SIGN, 63, LAST),
    (SIGN, 65, 0xc000_0000_0000_0000),
    (LAST, 1, LAST),
    (LAST, 63, LAST),
    (LAST, 65, LAST),
];

fn check_shift(rt: &impl Abort, op: ShiftOp, table: &[(u64, u8, u64)]) {
    for &(a, count, value) in table {
        assert_eq!(rt; shift(op, a, count), value, "at {a} and {count}");
    }
}

#[test]
fn shifts(rt: HostRuntime) {
    check_shift(&rt, ShiftOp::Shl, &SHL);
    check_shift(&rt, ShiftOp::Shr, &SHR);
    check_shift(&rt, ShiftOp::Sar, &SAR);
}

#[test]
fn divisions(rt: HostRuntime) {
    for (high, low, by, quotient_and_rest) in [
        (0, 7, 0, None),
        (0, 7, 2, Some((3, 1))),
        (LAST, LAST - 6, 2, Some((LAST - 2, LAST))),
        (0, 7, LAST - 1, Some((LAST - 2, 1))),
        (LAST, LAST - 6, LAST - 1, Some((3, LAST))),
        (0, SIGN - 1, 1, Some((SIGN - 1, 0))),
        (0, SIGN, 1, None),
        (LAST, SIGN, LAST, None),
        (LAST, SIGN, 1, Some((SIGN, 0))),
        (0, SIGN, LAST, Some((SIGN, 0))),
        (0, SIGN + 1, LAST, None),
        (SIGN, 0, LAST, None),
        (SIGN, 0, SIGN, None),
        (0x3fff_ffff_ffff_ffff, LAST, SIGN - 1, None),
        (
            0x3fff_ffff_ffff_ffff,
            LAST,
            SIGN,
            Some((SIGN + 1, SIGN - 1)),
        ),
        (1, 0, 4, Some((0x4000_0000_0000_0000, 0))),
        (1, 0, 3, Some((0x5555_5555_5555_5555, 1))),
        (1, 0, 2, None),
        (LAST - 1, 0, 4, Some((SIGN, 0))),
        (LAST - 1, 0, 2, None),
        (LAST - 1, 0, 3, None),
        (LAST - 1, 5, 7, Some((0xb6db_6db6_db6d_b6dd, LAST - 5))),
        (0, LAST, LAST, None),
        (
            0x1234_5678,
            0x9abc_def0,
            0x1f_ffff_ffff_ffff,
            Some((0x91_a2b3_c000, 0x92_3d70_9ef0)),
        ),
        (0, 0, 5, Some((0, 0))),
        (5, 0, 0, None),
        (SIGN - 1, LAST, LAST, None),
    ] {
        assert_eq!(rt; divide(high, low, by), quotient_and_rest);
    }
}

/// Bit k of a row: whether the condition holds at the flags with bits k.
#[test]
fn conditions(rt: HostRuntime) {
    for (condition, row) in [
        (Cond::O, 0xaaaau16),
        (Cond::No, 0x5555u16),
        (Cond::B, 0xccccu16),
        (Cond::Ae, 0x3333u16),
        (Cond::E, 0xff00u16),
        (Cond::Ne, 0x00ffu16),
        (Cond::Be, 0xffccu16),
        (Cond::A, 0x0033u16),
        (Cond::S, 0xf0f0u16),
        (Cond::Ns, 0x0f0fu16),
        (Cond::L, 0x5a5au16),
        (Cond::Ge, 0xa5a5u16),
        (Cond::Le, 0xff5au16),
        (Cond::G, 0x00a5u16),
    ] {
        for k in 0..16u8 {
            assert_eq!(rt;
                holds(condition, flags(k)),
                row / 2u16.pow(k as u32) % 2 == 1
            );
        }
    }
}

fn core(stack: u64) -> Registers {
    let mut regs = Registers {
        r: [0; 16],
        flags: flags(0),
        pc: 0x1_0000,
    };
    regs.r[4] = stack;
    regs
}

/// mov rax, 2^63; cqo; mov rcx, -1; idiv rcx: the quotient doesn't fit.
#[test]
fn a_division_that_faults(rt: HostRuntime) -> Result<(), Fail> {
    let code =
        b"\x48\xb8\x00\x00\x00\x00\x00\x00\x00\x80\x48\x99\x48\xc7\xc1\xff\xff\xff\xff\x48\xf7\xf9\x0f\x0b";
    let mut segs = Segments::new(rt.alloc(), 65536, code, b"", b"")?;
    let mut regs = core(0);
    for end in [
        None,
        None,
        None,
        Some(FaultKind::Divide),
        Some(FaultKind::Divide),
    ] {
        assert_eq!(rt; step(&mut regs, &mut segs), end);
    }
    assert_eq!(rt; regs.pc, 0x1_0013);
    Ok(())
}

/// call 0x10007, over ud2; there a load from the private segment, and a jump back to ud2.
#[test]
fn a_call_and_a_load(rt: HostRuntime) -> Result<(), Fail> {
    let code =
        b"\xe8\x02\x00\x00\x00\x0f\x0b\x65\x67\x49\x8b\x80\x00\x10\x00\x00\xe9\xf0\xff\xff\xff";
    let mut segs = Segments::new(rt.alloc(), 65536, code, b"", b"\x05")?;
    let mut regs = core(0x2_0001_0000);
    for (at, end) in [
        (0x1_0007, None),
        (0x1_0010, None),
        (0x1_0005, None),
        (0x1_0005, Some(FaultKind::Undefined)),
    ] {
        assert_eq!(rt; step(&mut regs, &mut segs), end);
        assert_eq!(rt; regs.pc, at);
    }
    assert_eq!(rt; regs.r[0], 5);
    assert_eq!(rt; regs.r[4], 0x2_0000_fff8);
    assert_eq!(rt; segs.flat_read(0x2_0000_fff8), Some(0x1_0005));
    regs.pc = 0x1_0015;
    assert_eq!(rt; step(&mut regs, &mut segs), Some(FaultKind::Memory));
    Ok(())
}

#[test]
fn an_instruction(rt: HostRuntime) -> Result<(), Fail> {
    let mut segs = Segments::new(rt.alloc(), 65536, b"", b"", b"")?;
    let mut regs = core(9);
    let i = Instr::MovImmS {
        dst: Reg::Gpr15,
        imm: -2,
    };
    assert_eq!(rt; execute(i, 0x1_0007, &mut regs, &mut segs), None);
    assert_eq!(rt; regs.r[15], 0xffff_ffff_ffff_fffe);
    assert_eq!(rt; regs.pc, 0x1_0007);
    Ok(())
}

#[test]
fn a_move_of_32_bits_clears_the_upper_half(rt: HostRuntime) -> Result<(), Fail> {
    let mut segs = Segments::new(rt.alloc(), 65536, b"", b"", b"")?;
    let mut regs = core(9);
    regs.r[1] = 0x1122_3344_5566_7788;
    regs.r[15] = LAST;
    let i = Instr::Mov {
        wide: false,
        dst: Reg::Gpr15,
        src: Reg::Rcx,
    };
    assert_eq!(rt; execute(i, 0x1_0003, &mut regs, &mut segs), None);
    assert_eq!(rt; regs.r[15], 0x5566_7788);
    assert_eq!(rt; regs.pc, 0x1_0003);
    Ok(())
}

//! The instruction table row by row, with low and high registers: GNU as wrote the bytes.

use super::*;
use std::process::Abort;
use x64_decode::Reg::{
    Gpr8, Gpr9, Gpr10, Gpr11, Gpr12, Gpr13, Gpr14, Gpr15, Rax, Rbp, Rbx, Rcx, Rdi, Rdx, Rsi, Rsp,
};
use x64_decode::{AluOp, Cond, Instr, Mem, Reg, Seg, ShiftOp, Width, decode};

/// MOV of registers: wide, dst, src.
static MOV: [(&[u8], bool, Reg, Reg); 4] = [
    (b"\x4c\x89\xc9", true, Rcx, Gpr9),
    (b"\x49\x89\xe4", true, Gpr12, Rsp),
    (b"\x40\x89\xfb", false, Rbx, Rdi),
    (b"\x45\x89\xc5", false, Gpr13, Gpr8),
];

/// Operations on two registers: dst, src.
static ALU: [(&[u8], AluOp, Reg, Reg); 6] = [
    (b"\x4c\x01\xda", AluOp::Add, Rdx, Gpr11),
    (b"\x49\x09\xc0", AluOp::Or, Gpr8, Rax),
    (b"\x48\x21\xec", AluOp::And, Rsp, Rbp),
    (b"\x4d\x29\xf7", AluOp::Sub, Gpr15, Gpr14),
    (b"\x4c\x31\xe6", AluOp::Xor, Rsi, Gpr12),
    (b"\x49\x39\xc9", AluOp::Cmp, Gpr9, Rcx),
];

/// Shifts by a count.
static SHIFT: [(&[u8], ShiftOp, Reg, u8); 3] = [
    (b"\x48\xc1\xe0\x3f", ShiftOp::Shl, Rax, 63),
    (b"\x49\xc1\xec\x02", ShiftOp::Shr, Gpr12, 2),
    (b"\x49\xc1\xff\x20", ShiftOp::Sar, Gpr15, 32),
];

/// Shifts by cl.
static SHIFT_CL: [(&[u8], ShiftOp, Reg); 3] = [
    (b"\x48\xd3\xe6", ShiftOp::Shl, Rsi),
    (b"\x49\xd3\xe8", ShiftOp::Shr, Gpr8),
    (b"\x49\xd3\xfc", ShiftOp::Sar, Gpr12),
];

/// SETcc.
static SETCC: [(&[u8], Cond, Reg); 6] = [
    (b"\x40\x0f\x90\xc0", Cond::O, Rax),
    (b"\x40\x0f\x91\xc1", Cond::No, Rcx),
    (b"\x40\x0f\x94\xc5", Cond::E, Rbp),
    (b"\x41\x0f\x99\xc2", Cond::Ns, Gpr10),
    (b"\x41\x0f\x9c\xc4", Cond::L, Gpr12),
    (b"\x41\x0f\x9f\xc7", Cond::G, Gpr15),
];

/// CMOVcc: dst, src.
static CMOVCC: [(&[u8], Cond, Reg, Reg); 4] = [
    (b"\x49\x0f\x40\xc0", Cond::O, Rax, Gpr8),
    (b"\x4c\x0f\x42\xca", Cond::B, Gpr9, Rdx),
    (b"\x48\x0f\x47\xe5", Cond::A, Rsp, Rbp),
    (b"\x4d\x0f\x4e\xe6", Cond::Le, Gpr12, Gpr14),
];

/// Jcc.
static JCC: [(&[u8], Cond, i32); 5] = [
    (b"\x0f\x80\x00\x00\x01\x00", Cond::O, 0x1_0000),
    (b"\x0f\x83\x88\xa9\xcb\xed", Cond::Ae, -0x1234_5678),
    (b"\x0f\x88\xff\xff\xff\x7f", Cond::S, i32::MAX),
    (b"\x0f\x8d\xff\xff\xff\xff", Cond::Ge, -1),
    (b"\x0f\x8f\x00\x00\x00\x00", Cond::G, 0),
];

/// MOV of a number, zero-extended.
static MOV_32: [(&[u8], Reg, u32); 2] = [
    (b"\x40\xba\x44\x33\x22\x11", Rdx, 0x1122_3344),
    (b"\x41\xba\x00\x00\x00\x80", Gpr10, 0x8000_0000),
];

/// MOV of a number of 64 bits.
static MOV_64: [(&[u8], Reg, u64); 2] = [
    (
        b"\x48\xbd\x11\x22\x33\x44\x55\x66\x77\x88",
        Rbp,
        0x8877_6655_4433_2211,
    ),
    (b"\x49\xbf\x01\x00\x00\x00\x00\x00\x00\x00", Gpr15, 1),
];

/// MOV of a number, sign-extended.
static MOV_SIGNED: [(&[u8], Reg, i32); 2] = [
    (b"\x48\xc7\xc4\xfe\xff\xff\xff", Rsp, -2),
    (b"\x49\xc7\xc5\x04\x03\x02\x01", Gpr13, 0x0102_0304),
];

/// Operations on a register and a number.
static ALU_NUMBER: [(&[u8], AluOp, Reg, i32); 6] = [
    (
        b"\x48\x81\xc1\x78\x56\x34\x12",
        AluOp::Add,
        Rcx,
        0x1234_5678,
    ),
    (
        b"\x49\x81\xc8\x88\xa9\xcb\xed",
        AluOp::Or,
        Gpr8,
        -0x1234_5678,
    ),
    (b"\x48\x81\xe4\xff\xff\xff\x7f", AluOp::And, Rsp, i32::MAX),
    (b"\x49\x81\xed\x00\x00\x00\x80", AluOp::Sub, Gpr13, i32::MIN),
    (b"\x48\x81\xf7\x00\x01\x00\x00", AluOp::Xor, Rdi, 0x100),
    (b"\x49\x81\xff\x00\xff\xff\xff", AluOp::Cmp, Gpr15, -0x100),
];

/// MOV from memory: wide, dst and the operand.
static LOAD: [(&[u8], bool, Reg, Seg, Reg, i32); 4] = [
    (
        b"\x64\x67\x49\x8b\x84\x24\xff\xff\xff\xff",
        true,
        Rax,
        Seg::Fs,
        Gpr12,
        -1,
    ),
    (
        b"\x65\x67\x4c\x8b\x8c\x24\x44\x33\x22\x11",
        true,
        Gpr9,
        Seg::Gs,
        Rsp,
        0x1122_3344,
    ),
    (
        b"\x64\x67\x40\x8b\x8d\x00\x00\x00\x00",
        false,
        Rcx,
        Seg::Fs,
        Rbp,
        0,
    ),
    (
        b"\x65\x67\x45\x8b\xa5\x00\x00\x00\x80",
        false,
        Gpr12,
        Seg::Gs,
        Gpr13,
        i32::MIN,
    ),
];

/// MOVZX from memory.
static LOAD_ZX8: [(&[u8], Reg, Seg, Reg, i32); 2] = [
    (
        b"\x65\x67\x48\x0f\xb6\x94\x24\x01\x00\x00\x00",
        Rdx,
        Seg::Gs,
        Rsp,
        1,
    ),
    (
        b"\x64\x67\x4d\x0f\xb6\x98\x80\xff\xff\xff",
        Gpr11,
        Seg::Fs,
        Gpr8,
        -128,
    ),
];

/// MOVSX from memory.
static LOAD_SX8: [(&[u8], Reg, Seg, Reg, i32); 2] = [
    (
        b"\x64\x67\x48\x0f\xbe\x98\x7f\x00\x00\x00",
        Rbx,
        Seg::Fs,
        Rax,
        127,
    ),
    (
        b"\x65\x67\x4d\x0f\xbe\xb4\x24\x00\x01\x00\x00",
        Gpr14,
        Seg::Gs,
        Gpr12,
        256,
    ),
];

/// MOVSXD from memory.
static LOAD_SX32: [(&[u8], Reg, Seg, Reg, i32); 2] = [
    (
        b"\x64\x67\x49\x63\xa1\x00\xff\xff\xff",
        Rsp,
        Seg::Fs,
        Gpr9,
        -256,
    ),
    (
        b"\x65\x67\x4c\x63\x84\x24\x00\x00\x00\x00",
        Gpr8,
        Seg::Gs,
        Rsp,
        0,
    ),
];

/// MOV to memory: width, the operand, src.
static STORE: [(&[u8], Width, Seg, Reg, i32, Reg); 6] = [
    (
        b"\x64\x67\x48\x89\x83\x05\x00\x00\x00",
        Width::B8,
        Seg::Fs,
        Rbx,
        5,
        Rax,
    ),
    (
        b"\x65\x67\x4d\x89\xac\x24\xf8\xff\xff\xff",
        Width::B8,
        Seg::Gs,
        Gpr12,
        -8,
        Gpr13,
    ),
    (
        b"\x65\x67\x40\x89\xb4\x24\x00\x10\x00\x00",
        Width::B4,
        Seg::Gs,
        Rsp,
        4096,
        Rsi,
    ),
    (
        b"\x64\x67\x45\x89\x97\x00\x00\x00\x00",
        Width::B4,
        Seg::Fs,
        Gpr15,
        0,
        Gpr10,
    ),
    (
        b"\x64\x67\x40\x88\x8f\xff\xff\xff\xff",
        Width::B1,
        Seg::Fs,
        Rdi,
        -1,
        Rcx,
    ),
    (
        b"\x65\x67\x45\x88\x8c\x24\x02\x00\x00\x00",
        Width::B1,
        Seg::Gs,
        Gpr12,
        2,
        Gpr9,
    ),
];

/// TEST of two registers.
static TEST: [(&[u8], Reg, Reg); 2] = [(b"\x4c\x85\xc0", Rax, Gpr8), (b"\x49\x85\xf5", Gpr13, Rsi)];

/// IMUL: dst, src.
static IMUL: [(&[u8], Reg, Reg); 2] = [
    (b"\x49\x0f\xaf\xd6", Rdx, Gpr14),
    (b"\x4c\x0f\xaf\xc3", Gpr8, Rbx),
];

/// MOVSXD: dst, src.
static MOVSXD: [(&[u8], Reg, Reg); 2] = [
    (b"\x4c\x63\xc8", Gpr9, Rax),
    (b"\x49\x63\xcd", Rcx, Gpr13),
];

/// MOVZX: dst, src.
static MOVZX8: [(&[u8], Reg, Reg); 2] = [
    (b"\x48\x0f\xb6\xc3", Rax, Rbx),
    (b"\x4d\x0f\xb6\xe1", Gpr12, Gpr9),
];

/// MOVSX: dst, src.
static MOVSX8: [(&[u8], Reg, Reg); 2] = [
    (b"\x48\x0f\xbe\xf7", Rsi, Rdi),
    (b"\x4d\x0f\xbe\xd0", Gpr10, Gpr8),
];

/// The other rows.
static OTHERS: [(&[u8], Instr); 14] = [
    (b"\x48\xf7\xd7", Instr::Not { r: Rdi }),
    (b"\x49\xf7\xd3", Instr::Not { r: Gpr11 }),
    (b"\x48\xf7\xdc", Instr::Neg { r: Rsp }),
    (b"\x49\xf7\xdc", Instr::Neg { r: Gpr12 }),
    (b"\x48\xf7\xf9", Instr::Idiv { r: Rcx }),
    (b"\x49\xf7\xfd", Instr::Idiv { r: Gpr13 }),
    (b"\x48\x99", Instr::Cqo),
    (b"\x67\x4d\x3b\x9a\x00\x00\x00\x00", Instr::CmpFlat),
    (b"\x41\xff\xe2", Instr::JmpR10),
    (b"\x41\xff\xd2", Instr::CallR10),
    (b"\xe8\xc0\x1d\xfe\xff", Instr::Call { rel: -0x1_e240 }),
    (b"\xe9\x00\x10\x00\x00", Instr::Jmp { rel: 0x1000 }),
    (b"\x0f\x0b", Instr::Ud2),
    (b"\x90", Instr::Nop),
];

/// Shifts by a count that has no spelling: the pattern with that count.
static NO_SPELLING: [(&[u8], ShiftOp, Reg, u8); 4] = [
    (b"\x48\xc1\xe0\x00", ShiftOp::Shl, Rax, 0),
    (b"\x48\xc1\xe0\x40", ShiftOp::Shl, Rax, 64),
    (b"\x49\xc1\xec\x80", ShiftOp::Shr, Gpr12, 128),
    (b"\x49\xc1\xff\xff", ShiftOp::Sar, Gpr15, 255),
];

/// These are its bytes, and they are read as it.
fn assert_encodes(rt: &impl Abort, bytes: &[u8], i: Instr) {
    let written = encode(&i);
    assert_eq!(rt; written.as_slice(), bytes, "{i:?}");
    assert_eq!(rt; length_of(&i) as usize, bytes.len(), "{i:?}");
    assert_eq!(rt; decode(written.as_slice(), 0), Some((i, length_of(&i))));
}

#[test]
fn registers(rt: HostRuntime) {
    for (bytes, wide, dst, src) in MOV {
        assert_encodes(&rt, bytes, Instr::Mov { wide, dst, src });
    }
    for (bytes, op, dst, src) in ALU {
        assert_encodes(&rt, bytes, Instr::Alu { op, dst, src });
    }
    for (bytes, a, b) in TEST {
        assert_encodes(&rt, bytes, Instr::Test { a, b });
    }
    for (bytes, dst, src) in IMUL {
        assert_encodes(&rt, bytes, Instr::Imul { dst, src });
    }
    for (bytes, dst, src) in MOVSXD {
        assert_encodes(&rt, bytes, Instr::Movsxd { dst, src });
    }
    for (bytes, dst, src) in MOVZX8 {
        assert_encodes(&rt, bytes, Instr::Movzx8 { dst, src });
    }
    for (bytes, dst, src) in MOVSX8 {
        assert_encodes(&rt, bytes, Instr::Movsx8 { dst, src });
    }
}

#[test]
fn shifts_and_conditions(rt: HostRuntime) {
    for (bytes, op, r, count) in SHIFT {
        assert_encodes(&rt, bytes, Instr::ShiftImm { op, r, count });
    }
    for (bytes, op, r) in SHIFT_CL {
        assert_encodes(&rt, bytes, Instr::ShiftCl { op, r });
    }
    for (bytes, cc, r) in SETCC {
        assert_encodes(&rt, bytes, Instr::Setcc { cc, r });
    }
    for (bytes, cc, dst, src) in CMOVCC {
        assert_encodes(&rt, bytes, Instr::Cmov { cc, dst, src });
    }
    for (bytes, cc, rel) in JCC {
        assert_encodes(&rt, bytes, Instr::Jcc { cc, rel });
    }
}

#[test]
fn numbers_and_others(rt: HostRuntime) {
    for (bytes, dst, imm) in MOV_32 {
        assert_encodes(&rt, bytes, Instr::MovImm32 { dst, imm });
    }
    for (bytes, dst, imm) in MOV_64 {
        assert_encodes(&rt, bytes, Instr::MovImm64 { dst, imm });
    }
    for (bytes, dst, imm) in MOV_SIGNED {
        assert_encodes(&rt, bytes, Instr::MovImmS { dst, imm });
    }
    for (bytes, op, dst, imm) in ALU_NUMBER {
        assert_encodes(&rt, bytes, Instr::AluImm { op, dst, imm });
    }
    for (bytes, i) in OTHERS {
        assert_encodes(&rt, bytes, i);
    }
}

#[test]
fn memory(rt: HostRuntime) {
    for (bytes, wide, dst, seg, base, disp) in LOAD {
        let mem = Mem { seg, base, disp };
        assert_encodes(&rt, bytes, Instr::Load { wide, dst, mem });
    }
    for (bytes, dst, seg, base, disp) in LOAD_ZX8 {
        let mem = Mem { seg, base, disp };
        assert_encodes(&rt, bytes, Instr::LoadZx8 { dst, mem });
    }
    for (bytes, dst, seg, base, disp) in LOAD_SX8 {
        let mem = Mem { seg, base, disp };
        assert_encodes(&rt, bytes, Instr::LoadSx8 { dst, mem });
    }
    for (bytes, dst, seg, base, disp) in LOAD_SX32 {
        let mem = Mem { seg, base, disp };
        assert_encodes(&rt, bytes, Instr::LoadSx32 { dst, mem });
    }
    for (bytes, width, seg, base, disp, src) in STORE {
        let mem = Mem { seg, base, disp };
        assert_encodes(&rt, bytes, Instr::Store { width, mem, src });
    }
}

#[test]
fn no_spelling(rt: HostRuntime) {
    for (bytes, op, r, count) in NO_SPELLING {
        let i = Instr::ShiftImm { op, r, count };
        let written = encode(&i);
        assert_eq!(rt; written.as_slice(), bytes, "{i:?}");
        assert_eq!(rt; length_of(&i), 4);
        assert_eq!(rt; decode(written.as_slice(), 0), None);
    }
    // Another order of the prefixes.
    let other = b"\x67\x64\x49\x8b\x84\x24\xff\xff\xff\xff";
    assert_eq!(rt; decode(other, 0), None);
}

//! The instruction table row by row: GNU as wrote the bytes where it has the spelling, and objdump read them all.

use super::*;
use crate::instr::Reg::{
    Gpr8, Gpr9, Gpr10, Gpr11, Gpr12, Gpr13, Gpr14, Gpr15, Rax, Rbp, Rbx, Rcx, Rdi, Rdx, Rsi, Rsp,
};
use std::process::Abort;

/// MOV of registers: wide, dst, src.
static MOV: [(&[u8], bool, Reg, Reg); 6] = [
    (b"\x4c\x89\xc0", true, Rax, Gpr8),
    (b"\x49\x89\xe5", true, Gpr13, Rsp),
    (b"\x4d\x89\xff", true, Gpr15, Gpr15),
    (b"\x40\x89\xc1", false, Rcx, Rax),
    (b"\x41\x89\xc2", false, Gpr10, Rax),
    (b"\x44\x89\xe3", false, Rbx, Gpr12),
];

/// Operations on two registers: dst, src.
static ALU: [(&[u8], AluOp, Reg, Reg); 6] = [
    (b"\x4c\x01\xf8", AluOp::Add, Rax, Gpr15),
    (b"\x49\x09\xc8", AluOp::Or, Gpr8, Rcx),
    (b"\x4d\x21\xec", AluOp::And, Gpr12, Gpr13),
    (b"\x48\x29\xec", AluOp::Sub, Rsp, Rbp),
    (b"\x49\x31\xc7", AluOp::Xor, Gpr15, Rax),
    (b"\x4c\x39\xdb", AluOp::Cmp, Rbx, Gpr11),
];

/// Shifts by a count.
static SHIFT: [(&[u8], ShiftOp, Reg, u8); 3] = [
    (b"\x48\xc1\xe0\x01", ShiftOp::Shl, Rax, 1),
    (b"\x49\xc1\xec\x3f", ShiftOp::Shr, Gpr12, 63),
    (b"\x48\xc1\xff\x20", ShiftOp::Sar, Rdi, 32),
];

/// Shifts by cl.
static SHIFT_CL: [(&[u8], ShiftOp, Reg); 3] = [
    (b"\x48\xd3\xe6", ShiftOp::Shl, Rsi),
    (b"\x49\xd3\xef", ShiftOp::Shr, Gpr15),
    (b"\x48\xd3\xfd", ShiftOp::Sar, Rbp),
];

/// SETcc.
static SETCC: [(&[u8], Cond, Reg); 14] = [
    (b"\x40\x0f\x90\xc0", Cond::O, Rax),
    (b"\x40\x0f\x91\xc4", Cond::No, Rsp),
    (b"\x40\x0f\x92\xc7", Cond::B, Rdi),
    (b"\x41\x0f\x93\xc0", Cond::Ae, Gpr8),
    (b"\x41\x0f\x94\xc4", Cond::E, Gpr12),
    (b"\x41\x0f\x95\xc5", Cond::Ne, Gpr13),
    (b"\x41\x0f\x96\xc7", Cond::Be, Gpr15),
    (b"\x40\x0f\x97\xc0", Cond::A, Rax),
    (b"\x40\x0f\x98\xc4", Cond::S, Rsp),
    (b"\x40\x0f\x99\xc7", Cond::Ns, Rdi),
    (b"\x41\x0f\x9c\xc0", Cond::L, Gpr8),
    (b"\x41\x0f\x9d\xc4", Cond::Ge, Gpr12),
    (b"\x41\x0f\x9e\xc5", Cond::Le, Gpr13),
    (b"\x41\x0f\x9f\xc7", Cond::G, Gpr15),
];

/// CMOVcc: dst, src.
static CMOVCC: [(&[u8], Cond, Reg, Reg); 14] = [
    (b"\x49\x0f\x40\xc8", Cond::O, Rcx, Gpr8),
    (b"\x49\x0f\x41\xd5", Cond::No, Rdx, Gpr13),
    (b"\x48\x0f\x42\xda", Cond::B, Rbx, Rdx),
    (b"\x48\x0f\x43\xe7", Cond::Ae, Rsp, Rdi),
    (b"\x49\x0f\x44\xec", Cond::E, Rbp, Gpr12),
    (b"\x48\x0f\x45\xf1", Cond::Ne, Rsi, Rcx),
    (b"\x48\x0f\x46\xfe", Cond::Be, Rdi, Rsi),
    (b"\x4d\x0f\x47\xc3", Cond::A, Gpr8, Gpr11),
    (b"\x4c\x0f\x48\xc8", Cond::S, Gpr9, Rax),
    (b"\x4c\x0f\x49\xd5", Cond::Ns, Gpr10, Rbp),
    (b"\x4d\x0f\x4c\xda", Cond::L, Gpr11, Gpr10),
    (b"\x4d\x0f\x4d\xe7", Cond::Ge, Gpr12, Gpr15),
    (b"\x4c\x0f\x4e\xec", Cond::Le, Gpr13, Rsp),
    (b"\x4d\x0f\x4f\xf1", Cond::G, Gpr14, Gpr9),
];

/// Jcc.
static JCC: [(&[u8], Cond, i32); 14] = [
    (b"\x0f\x80\x00\x00\x01\x00", Cond::O, 0x1_0000),
    (b"\x0f\x81\x00\x00\xff\xff", Cond::No, -0x1_0000),
    (b"\x0f\x82\x78\x56\x34\x12", Cond::B, 0x1234_5678),
    (b"\x0f\x83\x88\xa9\xcb\xed", Cond::Ae, -0x1234_5678),
    (b"\x0f\x84\x00\x00\x01\x00", Cond::E, 0x1_0000),
    (b"\x0f\x85\x00\x00\xff\xff", Cond::Ne, -0x1_0000),
    (b"\x0f\x86\x78\x56\x34\x12", Cond::Be, 0x1234_5678),
    (b"\x0f\x87\x88\xa9\xcb\xed", Cond::A, -0x1234_5678),
    (b"\x0f\x88\x00\x00\x01\x00", Cond::S, 0x1_0000),
    (b"\x0f\x89\x00\x00\xff\xff", Cond::Ns, -0x1_0000),
    (b"\x0f\x8c\x78\x56\x34\x12", Cond::L, 0x1234_5678),
    (b"\x0f\x8d\x88\xa9\xcb\xed", Cond::Ge, -0x1234_5678),
    (b"\x0f\x8e\x00\x00\x01\x00", Cond::Le, 0x1_0000),
    (b"\x0f\x8f\x00\x00\xff\xff", Cond::G, -0x1_0000),
];

/// MOV of a number, zero-extended.
static MOV_32: [(&[u8], Reg, u32); 3] = [
    (b"\x40\xb8\x01\x00\x00\x00", Rax, 1),
    (b"\x40\xbf\x00\x00\x00\x80", Rdi, 0x8000_0000),
    (b"\x41\xbf\xff\xff\xff\xff", Gpr15, 0xffff_ffff),
];

/// MOV of a number of 64 bits.
static MOV_64: [(&[u8], Reg, u64); 2] = [
    (
        b"\x48\xbb\x88\x77\x66\x55\x44\x33\x22\x11",
        Rbx,
        0x1122_3344_5566_7788,
    ),
    (
        b"\x49\xb8\xff\xff\xff\xff\xff\xff\xff\xff",
        Gpr8,
        0xffff_ffff_ffff_ffff,
    ),
];

/// MOV of a number, sign-extended.
static MOV_SIGNED: [(&[u8], Reg, i32); 3] = [
    (b"\x48\xc7\xc4\xff\xff\xff\xff", Rsp, -1),
    (b"\x49\xc7\xc5\xff\xff\xff\x7f", Gpr13, 0x7fff_ffff),
    (b"\x48\xc7\xc0\x00\x00\x00\x80", Rax, i32::MIN),
];

/// Operations on a register and a number.
static ALU_NUMBER: [(&[u8], AluOp, Reg, i32); 8] = [
    (
        b"\x48\x81\xc1\x78\x56\x34\x12",
        AluOp::Add,
        Rcx,
        0x1234_5678,
    ),
    (b"\x49\x81\xc8\x00\x00\x00\x80", AluOp::Or, Gpr8, i32::MIN),
    (b"\x49\x81\xe7\x80\x00\x00\x00", AluOp::And, Gpr15, 0x80),
    (
        b"\x48\x81\xec\xff\xff\xff\x7f",
        AluOp::Sub,
        Rsp,
        0x7fff_ffff,
    ),
    (b"\x49\x81\xf4\x7f\xff\xff\xff", AluOp::Xor, Gpr12, -0x81),
    (
        b"\x48\x81\xff\x00\x00\x00\xff",
        AluOp::Cmp,
        Rdi,
        -0x100_0000,
    ),
    (b"\x48\x81\xc0\x08\x00\x00\x00", AluOp::Add, Rax, 8),
    (b"\x49\x81\xfa\xff\xff\xff\xff", AluOp::Cmp, Gpr10, -1),
];

/// MOV from memory: wide, dst and the operand.
static LOAD: [(&[u8], bool, Reg, Seg, Reg, i32); 7] = [
    (
        b"\x64\x67\x49\x8b\x80\xfd\xff\xff\xff",
        true,
        Rax,
        Seg::Fs,
        Gpr8,
        -3,
    ),
    (
        b"\x65\x67\x4c\x8b\xa4\x24\x00\x00\x00\x00",
        true,
        Gpr12,
        Seg::Gs,
        Rsp,
        0,
    ),
    (
        b"\x64\x67\x4d\x8b\xbc\x24\xff\xff\xff\x7f",
        true,
        Gpr15,
        Seg::Fs,
        Gpr12,
        2_147_483_647,
    ),
    (
        b"\x65\x67\x49\x8b\xb5\x00\x00\x00\x80",
        true,
        Rsi,
        Seg::Gs,
        Gpr13,
        i32::MIN,
    ),
    (
        b"\x64\x67\x40\x8b\x81\x10\x00\x00\x00",
        false,
        Rax,
        Seg::Fs,
        Rcx,
        16,
    ),
    (
        b"\x64\x67\x44\x8b\x94\x24\x00\x00\x00\x00",
        false,
        Gpr10,
        Seg::Fs,
        Rsp,
        0,
    ),
    (
        b"\x65\x67\x41\x8b\xbf\xff\xff\xff\xff",
        false,
        Rdi,
        Seg::Gs,
        Gpr15,
        -1,
    ),
];

/// MOVZX from memory.
static LOAD_ZX8: [(&[u8], Reg, Seg, Reg, i32); 2] = [
    (
        b"\x65\x67\x49\x0f\xb6\x94\x24\x01\x00\x00\x00",
        Rdx,
        Seg::Gs,
        Gpr12,
        1,
    ),
    (
        b"\x64\x67\x4c\x0f\xb6\x8d\x80\xff\xff\xff",
        Gpr9,
        Seg::Fs,
        Rbp,
        -128,
    ),
];

/// MOVSX from memory.
static LOAD_SX8: [(&[u8], Reg, Seg, Reg, i32); 2] = [
    (
        b"\x64\x67\x48\x0f\xbe\x98\x7f\x00\x00\x00",
        Rbx,
        Seg::Fs,
        Rax,
        127,
    ),
    (
        b"\x65\x67\x4d\x0f\xbe\xb3\x00\x01\x00\x00",
        Gpr14,
        Seg::Gs,
        Gpr11,
        256,
    ),
];

/// MOVSXD from memory.
static LOAD_SX32: [(&[u8], Reg, Seg, Reg, i32); 2] = [
    (
        b"\x64\x67\x49\x63\xa1\x00\xff\xff\xff",
        Rsp,
        Seg::Fs,
        Gpr9,
        -256,
    ),
    (
        b"\x65\x67\x4c\x63\x86\x00\x00\x01\x00",
        Gpr8,
        Seg::Gs,
        Rsi,
        65_536,
    ),
];

/// MOV to memory: width, the operand, src.
static STORE: [(&[u8], Width, Seg, Reg, i32, Reg); 9] = [
    (
        b"\x64\x67\x48\x89\x83\x05\x00\x00\x00",
        Width::B8,
        Seg::Fs,
        Rbx,
        5,
        Rax,
    ),
    (
        b"\x65\x67\x4c\x89\xac\x24\xf8\xff\xff\xff",
        Width::B8,
        Seg::Gs,
        Rsp,
        -8,
        Gpr13,
    ),
    (
        b"\x64\x67\x49\x89\xb4\x24\x00\x10\x00\x00",
        Width::B8,
        Seg::Fs,
        Gpr12,
        4096,
        Rsi,
    ),
    (
        b"\x64\x67\x40\x89\x83\x05\x00\x00\x00",
        Width::B4,
        Seg::Fs,
        Rbx,
        5,
        Rax,
    ),
    (
        b"\x65\x67\x44\x89\xac\x24\xf8\xff\xff\xff",
        Width::B4,
        Seg::Gs,
        Rsp,
        -8,
        Gpr13,
    ),
    (
        b"\x64\x67\x41\x89\xb4\x24\x00\x10\x00\x00",
        Width::B4,
        Seg::Fs,
        Gpr12,
        4096,
        Rsi,
    ),
    (
        b"\x64\x67\x40\x88\x83\x05\x00\x00\x00",
        Width::B1,
        Seg::Fs,
        Rbx,
        5,
        Rax,
    ),
    (
        b"\x65\x67\x44\x88\xac\x24\xf8\xff\xff\xff",
        Width::B1,
        Seg::Gs,
        Rsp,
        -8,
        Gpr13,
    ),
    (
        b"\x64\x67\x41\x88\xb4\x24\x00\x10\x00\x00",
        Width::B1,
        Seg::Fs,
        Gpr12,
        4096,
        Rsi,
    ),
];

/// The other rows.
static OTHERS: [(&[u8], Instr); 22] = [
    (b"\x4c\x85\xc9", Instr::Test { a: Rcx, b: Gpr9 }),
    (
        b"\x49\x0f\xaf\xd6",
        Instr::Imul {
            dst: Rdx,
            src: Gpr14,
        },
    ),
    (b"\x48\xf7\xd4", Instr::Not { r: Rsp }),
    (b"\x49\xf7\xd4", Instr::Not { r: Gpr12 }),
    (b"\x48\xf7\xdb", Instr::Neg { r: Rbx }),
    (b"\x49\xf7\xd8", Instr::Neg { r: Gpr8 }),
    (b"\x48\xf7\xf9", Instr::Idiv { r: Rcx }),
    (b"\x49\xf7\xfd", Instr::Idiv { r: Gpr13 }),
    (b"\x48\x99", Instr::Cqo),
    (
        b"\x4c\x63\xc8",
        Instr::Movsxd {
            dst: Gpr9,
            src: Rax,
        },
    ),
    (
        b"\x49\x0f\xb6\xc3",
        Instr::Movzx8 {
            dst: Rax,
            src: Gpr11,
        },
    ),
    (
        b"\x4c\x0f\xbe\xd6",
        Instr::Movsx8 {
            dst: Gpr10,
            src: Rsi,
        },
    ),
    (b"\x67\x4d\x3b\x9a\x00\x00\x00\x00", Instr::CmpFlat),
    (b"\x41\xff\xe2", Instr::JmpR10),
    (b"\x41\xff\xd2", Instr::CallR10),
    (b"\xe8\x00\x00\x00\x00", Instr::Call { rel: 0 }),
    (b"\xe8\xc0\x1d\xfe\xff", Instr::Call { rel: -123_456 }),
    (b"\xe9\x00\x10\x00\x00", Instr::Jmp { rel: 0x1000 }),
    (b"\xe9\xff\xff\xff\xff", Instr::Jmp { rel: -1 }),
    (b"\xe9\x00\x00\x00\x80", Instr::Jmp { rel: i32::MIN }),
    (b"\x0f\x0b", Instr::Ud2),
    (b"\x90", Instr::Nop),
];

/// Bytes that no row begins with.
static NO_ROW: [&[u8]; 110] = [
    // A second order of prefixes, an unneeded prefix, or one missing.
    b"\x67\x64\x49\x8b\x84\x24\xff\xff\xff\xff",
    b"\x65\x67\x64\x48\x8b\x80\x00\x00\x00\x00",
    b"\x64\x48\x8b\x80\x00\x00\x00\x00",
    b"\x67\x48\x8b\x80\x00\x00\x00\x00",
    b"\x64\x67\x8b\x80\x00\x00\x00\x00",
    b"\x66\x90",
    b"\xf3\x90",
    b"\x40\x90",
    b"\x41\x90",
    b"\x89\xc8",
    b"\x40\x0f\x0b",
    b"\xf0\x0f\x0b",
    // A REX that the row has not.
    b"\x4a\x89\xc8",
    b"\x42\x99",
    b"\x49\x99",
    b"\x4c\x99",
    b"\x40\x99",
    b"\x99",
    b"\x4c\xf7\xd0",
    b"\x4a\xf7\xd0",
    b"\x48\x0f\x90\xc0",
    b"\x44\x0f\x90\xc0",
    b"\x0f\x90\xc0",
    b"\x40\x0f\x40\xc1",
    b"\x0f\xb6\xc1",
    b"\x40\x0f\xaf\xc1",
    b"\xb8\x01\x00\x00\x00",
    b"\x44\xb8\x01\x00\x00\x00",
    b"\x42\xb8\x01\x00\x00\x00",
    b"\x4c\xb8\x00\x00\x00\x00\x00\x00\x00\x00",
    b"\x45\xff\xe2",
    b"\x49\xff\xe2",
    b"\xff\xe2",
    b"\x64\x67\x4a\x8b\x80\x00\x00\x00\x00",
    b"\x64\x67\x48\x88\x80\x00\x00\x00\x00",
    b"\x64\x67\x40\x63\x80\x00\x00\x00\x00",
    b"\x64\x67\x40\x0f\xb6\x80\x00\x00\x00\x00",
    b"\x40\xe9\x00\x00\x00\x00",
    b"\x40\x0f\x80\x00\x00\x00\x00",
    // Another form of an instruction that has a row.
    b"\x48\x8b\xc1",
    b"\x48\x03\xc1",
    b"\x48\x33\xc1",
    b"\x48\x83\xc0\x01",
    b"\x48\x05\x08\x00\x00\x00",
    b"\x48\xd1\xe0",
    b"\x66\xb8\x01\x00",
    b"\xb0\x01",
    b"\xc6\x00\x01",
    b"\xeb\x00",
    b"\x70\x00",
    b"\x0f\x1f\x00",
    b"\xcc",
    b"\xc3",
    b"\x48\xff\xc0",
    b"\x48\x8d\x80\x00\x00\x00\x00",
    b"\x50",
    // An operand of memory in another form.
    b"\x64\x67\x48\x8b\x00",
    b"\x64\x67\x48\x8b\x40\x01",
    b"\x64\x67\x48\x8b\x04\x24",
    b"\x64\x67\x48\x8b\x44\x24\x01",
    b"\x64\x67\x48\x8b\x84\xe4\x00\x00\x00\x00",
    b"\x64\x67\x48\x8b\x84\x04\x00\x00\x00\x00",
    b"\x64\x67\x48\x8b\x84\x64\x00\x00\x00\x00",
    b"\x64\x67\x48\x8b\x05\x00\x00\x00\x00",
    b"\x64\x67\x48\x8b\xc0",
    b"\x48\x89\x40\x01",
    b"\x67\x4d\x3b\x9a\x01\x00\x00\x00",
    b"\x67\x4d\x3b\x5a\x00",
    b"\x67\x4d\x3b\x1a",
    b"\x67\x4d\x3b\x9b\x00\x00\x00\x00",
    // An extension of the opcode with no row.
    b"\x48\xc7\xc8\x01\x00\x00\x00",
    b"\x48\x81\xd0\x01\x00\x00\x00",
    b"\x48\x81\xd8\x01\x00\x00\x00",
    b"\x48\xf7\xe1",
    b"\x48\xf7\xf1",
    b"\x48\xf7\xc0\x01\x00\x00\x00",
    b"\x48\xc1\xf0\x01",
    b"\x48\xc1\xc0\x01",
    b"\x48\xd3\xc0",
    b"\x48\xd3\xf0",
    b"\x41\xff\xca",
    b"\x41\xff\xe3",
    b"\x41\xff\xf2",
    b"\x40\x0f\x90\xc8",
    // A shift by 0 or by 64, and by more.
    b"\x48\xc1\xe0\x00",
    b"\x48\xc1\xe0\x40",
    b"\x49\xc1\xff\xff",
    b"\x48\xc1\xe8\x80",
    // The conditions on parity.
    b"\x40\x0f\x9a\xc0",
    b"\x40\x0f\x9b\xc0",
    b"\x48\x0f\x4a\xc1",
    b"\x48\x0f\x4b\xc1",
    b"\x0f\x8a\x00\x00\x00\x00",
    b"\x0f\x8b\x00\x00\x00\x00",
    // Bytes of no row.
    b"",
    b"\x00",
    b"\xff",
    b"\x0f",
    b"\x0f\x05",
    b"\x0f\x11",
    b"\xf4",
    b"\x48\x0f\x0b",
    b"\xe7",
    b"\xea",
    b"\x66",
    b"\x64",
    b"\x65",
    b"\x67",
    b"\x40",
    b"\x48",
];

/// The instruction stands there whole, and in no part of its bytes.
fn assert_decodes(rt: &impl Abort, bytes: &[u8], i: Instr) {
    let (read, length) = decode(bytes, 0).expect(rt, "no instruction");
    assert_eq!(rt; read, i);
    assert_eq!(rt; length as usize, bytes.len());
    for length in 0..bytes.len() {
        assert_eq!(rt; decode(&bytes[..length], 0), None, "of {length}");
    }
}

#[test]
fn moves_and_operations(rt: HostRuntime) {
    for (bytes, wide, dst, src) in MOV {
        assert_decodes(&rt, bytes, Instr::Mov { wide, dst, src });
    }
    for (bytes, op, dst, src) in ALU {
        assert_decodes(&rt, bytes, Instr::Alu { op, dst, src });
    }
    for (bytes, op, r, count) in SHIFT {
        assert_decodes(&rt, bytes, Instr::ShiftImm { op, r, count });
    }
    for (bytes, op, r) in SHIFT_CL {
        assert_decodes(&rt, bytes, Instr::ShiftCl { op, r });
    }
}

#[test]
fn conditions(rt: HostRuntime) {
    for (bytes, cc, r) in SETCC {
        assert_decodes(&rt, bytes, Instr::Setcc { cc, r });
    }
    for (bytes, cc, dst, src) in CMOVCC {
        assert_decodes(&rt, bytes, Instr::Cmov { cc, dst, src });
    }
    for (bytes, cc, rel) in JCC {
        assert_decodes(&rt, bytes, Instr::Jcc { cc, rel });
    }
}

#[test]
fn numbers(rt: HostRuntime) {
    for (bytes, dst, imm) in MOV_32 {
        assert_decodes(&rt, bytes, Instr::MovImm32 { dst, imm });
    }
    for (bytes, dst, imm) in MOV_64 {
        assert_decodes(&rt, bytes, Instr::MovImm64 { dst, imm });
    }
    for (bytes, dst, imm) in MOV_SIGNED {
        assert_decodes(&rt, bytes, Instr::MovImmS { dst, imm });
    }
    for (bytes, op, dst, imm) in ALU_NUMBER {
        assert_decodes(&rt, bytes, Instr::AluImm { op, dst, imm });
    }
}

#[test]
fn loads(rt: HostRuntime) {
    for (bytes, wide, dst, seg, base, disp) in LOAD {
        assert_decodes(
            &rt,
            bytes,
            Instr::Load {
                wide,
                dst,
                mem: Mem { seg, base, disp },
            },
        );
    }
    for (bytes, dst, seg, base, disp) in LOAD_ZX8 {
        assert_decodes(
            &rt,
            bytes,
            Instr::LoadZx8 {
                dst,
                mem: Mem { seg, base, disp },
            },
        );
    }
    for (bytes, dst, seg, base, disp) in LOAD_SX8 {
        assert_decodes(
            &rt,
            bytes,
            Instr::LoadSx8 {
                dst,
                mem: Mem { seg, base, disp },
            },
        );
    }
    for (bytes, dst, seg, base, disp) in LOAD_SX32 {
        assert_decodes(
            &rt,
            bytes,
            Instr::LoadSx32 {
                dst,
                mem: Mem { seg, base, disp },
            },
        );
    }
}

#[test]
fn stores(rt: HostRuntime) {
    for (bytes, width, seg, base, disp, src) in STORE {
        assert_decodes(
            &rt,
            bytes,
            Instr::Store {
                width,
                mem: Mem { seg, base, disp },
                src,
            },
        );
    }
}

#[test]
fn other_rows(rt: HostRuntime) {
    for (bytes, i) in OTHERS {
        assert_decodes(&rt, bytes, i);
    }
}

#[test]
fn no_row(rt: HostRuntime) {
    for bytes in NO_ROW {
        assert_eq!(rt; decode(bytes, 0), None);
    }
}

/// nop, cqo, ud2 and the first four bytes of a jump.
#[test]
fn at_a_place(rt: HostRuntime) {
    let code = b"\x90\x48\x99\x0f\x0b\xe9\x00\x00\x00";
    for at in 0..12usize {
        let wanted = match at {
            0 => Some((Instr::Nop, 1)),
            1 => Some((Instr::Cqo, 2)),
            3 => Some((Instr::Ud2, 2)),
            _ => None,
        };
        assert_eq!(rt; decode(code, at), wanted, "at {at}");
    }
    assert_eq!(rt; decode(code, usize::MAX), None);
    table_law();
}

//! The parts of a spelling: numbers of names, REX, ModRM and prefixes.

ghost use Rattle.std.specs.Prelude.{◌≡◌, ◌<◌, ◌%◌, [], ◌∷◌, ◌==◌, if◌then◌else◌};
ghost use Rattle.x64_decode.specs.Spelling.{number, condition, alu_opcode, alu_extension, shift_extension, segment_prefix, rex, modrm};

use x64_decode::{AluOp, Cond, Reg, Seg, ShiftOp};

/// The number of a register.
pub(crate) fn number_of(r: Reg) -> u8
    ensures value { result ≡ number r }
    ensures below { result < 16 }
{
    match r {
        Reg::Rax => 0,
        Reg::Rcx => 1,
        Reg::Rdx => 2,
        Reg::Rbx => 3,
        Reg::Rsp => 4,
        Reg::Rbp => 5,
        Reg::Rsi => 6,
        Reg::Rdi => 7,
        Reg::Gpr8 => 8,
        Reg::Gpr9 => 9,
        Reg::Gpr10 => 10,
        Reg::Gpr11 => 11,
        Reg::Gpr12 => 12,
        Reg::Gpr13 => 13,
        Reg::Gpr14 => 14,
        Reg::Gpr15 => 15,
    }
}

/// The number of a condition; 10 and 11 are those on parity.
pub(crate) fn condition_of(cc: Cond) -> u8
    ensures value { result ≡ condition cc }
    ensures below { result < 16 }
{
    match cc {
        Cond::O => 0,
        Cond::No => 1,
        Cond::B => 2,
        Cond::Ae => 3,
        Cond::E => 4,
        Cond::Ne => 5,
        Cond::Be => 6,
        Cond::A => 7,
        Cond::S => 8,
        Cond::Ns => 9,
        Cond::L => 12,
        Cond::Ge => 13,
        Cond::Le => 14,
        Cond::G => 15,
    }
}

/// The opcode of an operation on two registers.
pub(crate) fn opcode_of(op: AluOp) -> u8
    ensures { result ≡ alu_opcode op }
{
    match op {
        AluOp::Add => 0x01,
        AluOp::Or => 0x09,
        AluOp::And => 0x21,
        AluOp::Sub => 0x29,
        AluOp::Xor => 0x31,
        AluOp::Cmp => 0x39,
    }
}

/// The opcode extension of an operation on a register and a number.
pub(crate) fn extension_of(op: AluOp) -> u8
    ensures value { result ≡ alu_extension op }
    ensures below { result < 8 }
{
    match op {
        AluOp::Add => 0,
        AluOp::Or => 1,
        AluOp::And => 4,
        AluOp::Sub => 5,
        AluOp::Xor => 6,
        AluOp::Cmp => 7,
    }
}

/// The opcode extension of a shift.
pub(crate) fn extension_of_shift(op: ShiftOp) -> u8
    ensures value { result ≡ shift_extension op }
    ensures below { result < 8 }
{
    match op {
        ShiftOp::Shl => 4,
        ShiftOp::Shr => 5,
        ShiftOp::Sar => 7,
    }
}

/// The prefix of a segment.
pub(crate) fn prefix_of(seg: Seg) -> u8
    ensures { result ≡ segment_prefix seg }
{
    match seg {
        Seg::Fs => 0x64,
        Seg::Gs => 0x65,
    }
}

/// REX, with the high bits of the numbers in the fields reg and rm.
pub(crate) fn rex_byte(wide: bool, x: u8, y: u8) -> u8
    requires reg { x < 16 }
    requires rm { y < 16 }
    ensures { result ≡ rex wide x y }
{
    let first = if wide { 0x48 } else { 0x40 };
    first + 4 * (x / 8) + y / 8
}

/// ModRM, with the low three bits of the numbers in the fields reg and rm. The mode is below 4.
pub(crate) fn modrm_byte(mode: u8, x: u8, y: u8) -> u8
    requires { mode < 4 }
    ensures { result ≡ modrm mode x y }
{
    64 * mode + 8 * (x % 8) + y % 8
}

/// The SIB byte behind ModRM, where the number of the base asks for one.
pub(crate) fn sib_bytes(base: u8) -> &'static [u8]
    ensures { result.now ≡ (if base % 8 == 4 then 0x24 ∷ [] else []) }
{
    if base % 8 == 4 { &[0x24] } else { &[] }
}

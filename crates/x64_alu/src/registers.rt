//! Reading and writing the registers of one core.

ghost use Rattle.std.specs.Prelude.{◌≡◌, ◌<◌, ◌%◌, ◌^◌, if◌then◌else◌};
ghost use Rattle.cv_word.specs.Words.{widened};
ghost use Rattle.x64_decode.specs.Spelling.{number};
ghost use Rattle.x64_alu.specs.CoreStep.{value, put, put_where, flagged, moved_to, offset_of, target_of, with_low_byte, is_written};

use cv_word::{Flags, Registers};
use x64_decode::{AluOp, Mem, Reg};

/// The number of a register.
pub(crate) fn number(r: Reg) -> usize
    ensures value { result ≡ number r }
    ensures below { result < 16 }
{
    r as usize
}

/// What a register holds.
pub(crate) fn get(regs: &Registers, r: Reg) -> u64
    ensures { result ≡ value regs.now r }
{
    regs.r[number(r)]
}

/// Writes a register, and goes on at `next`.
pub(crate) fn set(regs: &mut Registers, dst: Reg, v: u64, next: u64)
    ensures { regs.new ≡ moved_to next (put dst v regs.old) }
{
    regs.r[number(dst)] = v;
    regs.pc = next;
}

/// Writes a register and the flags, and goes on at `next`.
pub(crate) fn set_with_flags(regs: &mut Registers, dst: Reg, v: u64, f: Flags, next: u64)
    ensures { regs.new ≡ moved_to next (put dst v (flagged f regs.old)) }
{
    regs.flags = f;
    set(regs, dst, v, next);
}

/// Writes the result of an operation where it writes one, and the flags, and goes on at `next`.
pub(crate) fn set_result(
    regs: &mut Registers,
    op: AluOp,
    dst: Reg,
    outcome: (u64, Flags),
    next: u64,
)
    ensures { regs.new ≡ moved_to next (put_where (is_written op) dst outcome.0 (flagged outcome.1 regs.old)) }
{
    match op {
        AluOp::Cmp => set_flags(regs, outcome.1, next),
        AluOp::Add => set_with_flags(regs, dst, outcome.0, outcome.1, next),
        AluOp::Or => set_with_flags(regs, dst, outcome.0, outcome.1, next),
        AluOp::And => set_with_flags(regs, dst, outcome.0, outcome.1, next),
        AluOp::Sub => set_with_flags(regs, dst, outcome.0, outcome.1, next),
        AluOp::Xor => set_with_flags(regs, dst, outcome.0, outcome.1, next),
    }
}

/// Writes the flags, and goes on at `next`.
pub(crate) fn set_flags(regs: &mut Registers, f: Flags, next: u64)
    ensures { regs.new ≡ moved_to next (flagged f regs.old) }
{
    regs.flags = f;
    regs.pc = next;
}

/// The offset that a memory operand names.
pub(crate) fn offset(regs: &Registers, mem: Mem) -> u32
    ensures { result ≡ offset_of regs.now mem }
{
    (get(regs, mem.base).wrapping_add(widen(mem.disp)) % 0x1_0000_0000) as u32
}

/// The address that a jump or a call names.
pub(crate) fn target(next: u64, rel: i32) -> u64
    ensures { result ≡ target_of next rel }
{
    next.wrapping_add(widen(rel))
}

/// A signed number of 32 bits, in 64 bits.
pub(crate) fn widen(z: i32) -> u64
    ensures { result ≡ widened z }
{
    (z as i64).cast_unsigned()
}

/// The low 32 bits, or all of them.
pub(crate) fn low_half(wide: bool, v: u64) -> u64
    ensures { result ≡ (if wide then v else v % 2 ^ 32) }
{
    if wide { v } else { v % 0x1_0000_0000 }
}

/// The low 8 bits replaced by a bit.
pub(crate) fn low_byte(bit: bool, v: u64) -> u64
    ensures { result ≡ with_low_byte bit v }
{
    v / 256 * 256 + bit as u64
}

//! One core's step: what each instruction does to its registers and the memory.

ghost use Rattle.std.specs.Prelude.{◌≡◌, ◌%◌, ◌^◌, length};
ghost use Rattle.cv_word.specs.Words.{sign_extended};
ghost use Rattle.cv_word.specs.MemoryMap.{is_in_code};
ghost use Rattle.cv_word.specs.Arithmetic.{divided};
ghost use Rattle.x64_alu.specs.CoreStep.{StepsTo, core_step, executed, calls, load_into, after_store, after_comparison, after_division, shift_result, value, offset_of};
ghost use Rattle.cv_word.specs.Memory.{Memory};
ghost use Rattle.two_segments.specs.Access.{byte_count, stored, flat_loaded};

use crate::arithmetic::{alu, bits, holds, multiply, negate, shift, signs, subtract};
use crate::division::divide;
use crate::registers::{
    get, low_byte, low_half, offset, set, set_flags, set_result, set_with_flags, target, widen,
};
use cv_word::{CODE_BASE, FaultKind, Flags, Registers, sext};
use two_segments::Segments;
use x64_decode::{Instr, Mem, Reg, ShiftOp, Width, decode};

/// The flags after a multiplication, a division or a shift.
const NO_FLAGS: Flags = Flags {
    zf: false,
    sf: false,
    cf: false,
    of: false,
};

/// One step of a core: the instruction at its program counter takes effect. None where the core goes on. A fault
/// changes nothing: Memory where the program counter is not in the code, Undefined where no instruction stands there,
/// and else as the instruction says.
#[tactic(auto, unfolding(crate::specs::CoreStep::core_step))]
pub fn step(regs: &mut Registers, segs: &mut Segments<'_>) -> Option<FaultKind>
    ensures { StepsTo (core_step segs.old regs.old) result regs.old segs.old regs.new segs.new }
{
    let at = regs.pc;
    let code = segs.code();
    if !in_code(code, at) {
        return Some(FaultKind::Memory);
    }
    match decode(code, (at - CODE_BASE) as usize) {
        None => Some(FaultKind::Undefined),
        Some((i, length)) => execute(i, at + length as u64, regs, segs),
    }
}

/// Whether an address lies in the code.
fn in_code(code: &[u8], at: u64) -> bool
    ensures { result ≡ is_in_code (length code.now) at }
{
    CODE_BASE <= at && at - CODE_BASE < code.len() as u64
}

/// Lets an instruction take effect, where the next instruction stands at the flat address `next`. None where the core
/// goes on. A fault changes nothing.
#[tactic(auto, unfolding(crate::specs::CoreStep::executed))]
pub fn execute(
    i: Instr,
    next: u64,
    regs: &mut Registers,
    segs: &mut Segments<'_>,
) -> Option<FaultKind>
    ensures { StepsTo (executed i next segs.old regs.old) result regs.old segs.old regs.new segs.new }
{
    match i {
        Instr::Mov { wide, dst, src } => {
            set(regs, dst, low_half(wide, get(regs, src)), next);
            None
        }
        Instr::Alu { op, dst, src } => {
            set_result(regs, op, dst, alu(op, get(regs, dst), get(regs, src)), next);
            None
        }
        Instr::Test { a, b } => {
            set_flags(regs, bits(get(regs, a) & get(regs, b)).1, next);
            None
        }
        Instr::Imul { dst, src } => {
            let product = multiply(get(regs, dst), get(regs, src));
            set_with_flags(regs, dst, product, NO_FLAGS, next);
            None
        }
        Instr::Not { r } => {
            set(regs, r, u64::MAX - get(regs, r), next);
            None
        }
        Instr::Neg { r } => {
            let (v, f) = negate(get(regs, r));
            set_with_flags(regs, r, v, f, next);
            None
        }
        Instr::Idiv { r } => divide_registers(r, next, regs),
        Instr::Cqo => {
            set(regs, Reg::Rdx, signs(get(regs, Reg::Rax)), next);
            None
        }
        Instr::ShiftImm { op, r, count } => {
            set_with_flags(regs, r, shift(op, get(regs, r), count), NO_FLAGS, next);
            None
        }
        Instr::ShiftCl { op, r } => {
            let shifted = shift_by_word(op, get(regs, r), get(regs, Reg::Rcx));
            set_with_flags(regs, r, shifted, NO_FLAGS, next);
            None
        }
        Instr::Movsxd { dst, src } => {
            set(regs, dst, sext(get(regs, src), 4), next);
            None
        }
        Instr::Movzx8 { dst, src } => {
            set(regs, dst, get(regs, src) % 256, next);
            None
        }
        Instr::Movsx8 { dst, src } => {
            set(regs, dst, sext(get(regs, src), 1), next);
            None
        }
        Instr::Setcc { cc, r } => {
            set(regs, r, low_byte(holds(cc, regs.flags), get(regs, r)), next);
            None
        }
        Instr::Cmov { cc, dst, src } => {
            let from = if holds(cc, regs.flags) { src } else { dst };
            set(regs, dst, get(regs, from), next);
            None
        }
        Instr::MovImm32 { dst, imm } => {
            set(regs, dst, imm as u64, next);
            None
        }
        Instr::MovImm64 { dst, imm } => {
            set(regs, dst, imm, next);
            None
        }
        Instr::MovImmS { dst, imm } => {
            set(regs, dst, widen(imm), next);
            None
        }
        Instr::AluImm { op, dst, imm } => {
            set_result(regs, op, dst, alu(op, get(regs, dst), widen(imm)), next);
            None
        }
        Instr::Load { wide, dst, mem } => {
            let width = if wide { Width::B8 } else { Width::B4 };
            load(dst, mem, width, next, regs, segs)
        }
        Instr::LoadZx8 { dst, mem } => load(dst, mem, Width::B1, next, regs, segs),
        Instr::LoadSx8 { dst, mem } => load_byte_signed(dst, mem, next, regs, segs),
        Instr::LoadSx32 { dst, mem } => load_half_signed(dst, mem, next, regs, segs),
        Instr::Store { width, mem, src } => store(width, mem, src, next, regs, segs),
        Instr::CmpFlat => compare_flat(next, regs, segs),
        Instr::JmpR10 => {
            regs.pc = get(regs, Reg::Gpr10);
            None
        }
        Instr::CallR10 => call(get(regs, Reg::Gpr10), next, regs, segs),
        Instr::Call { rel } => call(target(next, rel), next, regs, segs),
        Instr::Jmp { rel } => {
            regs.pc = target(next, rel);
            None
        }
        Instr::Jcc { cc, rel } => {
            regs.pc = if holds(cc, regs.flags) {
                target(next, rel)
            } else {
                next
            };
            None
        }
        Instr::Ud2 => Some(FaultKind::Undefined),
        Instr::Nop => {
            regs.pc = next;
            None
        }
    }
}

/// SHL, SHR or SAR of a word by another modulo 64.
#[tactic(auto, unfolding(crate::specs::CoreStep::shift_result))]
fn shift_by_word(op: ShiftOp, a: u64, count: u64) -> u64
    ensures { result ≡ shift_result op a count }
{
    shift(op, a, (count % 64) as u8)
}

/// IDIV of rdx:rax.
fn divide_registers(r: Reg, next: u64, regs: &mut Registers) -> Option<FaultKind>
    ensures { (m : Memory) → StepsTo (after_division (divided (value regs.old Reg.Rdx) (value regs.old Reg.Rax) (value regs.old r)) next m regs.old) result regs.old m regs.new m }
{
    match divide(get(regs, Reg::Rdx), get(regs, Reg::Rax), get(regs, r)) {
        None => Some(FaultKind::Divide),
        Some((quotient, rest)) => {
            set_with_flags(regs, Reg::Rax, quotient, NO_FLAGS, next);
            set(regs, Reg::Rdx, rest, next);
            None
        }
    }
}

/// A load whose value is zero-extended.
fn load(
    dst: Reg,
    mem: Mem,
    width: Width,
    next: u64,
    regs: &mut Registers,
    segs: &Segments<'_>,
) -> Option<FaultKind>
    ensures { StepsTo (load_into dst mem (byte_count width) (λ v. v) next segs.now regs.old) result regs.old segs.now regs.new segs.now }
{
    match segs.read(mem.seg, offset(regs, mem), width) {
        None => Some(FaultKind::Memory),
        Some(v) => {
            set(regs, dst, v, next);
            None
        }
    }
}

/// A load of 1 byte that is sign-extended.
fn load_byte_signed(
    dst: Reg,
    mem: Mem,
    next: u64,
    regs: &mut Registers,
    segs: &Segments<'_>,
) -> Option<FaultKind>
    ensures { StepsTo (load_into dst mem 1 (sign_extended 1) next segs.now regs.old) result regs.old segs.now regs.new segs.now }
{
    match segs.read(mem.seg, offset(regs, mem), Width::B1) {
        None => Some(FaultKind::Memory),
        Some(v) => {
            set(regs, dst, sext(v, 1), next);
            None
        }
    }
}

/// A load of 4 bytes that is sign-extended.
fn load_half_signed(
    dst: Reg,
    mem: Mem,
    next: u64,
    regs: &mut Registers,
    segs: &Segments<'_>,
) -> Option<FaultKind>
    ensures { StepsTo (load_into dst mem 4 (sign_extended 4) next segs.now regs.old) result regs.old segs.now regs.new segs.now }
{
    match segs.read(mem.seg, offset(regs, mem), Width::B4) {
        None => Some(FaultKind::Memory),
        Some(v) => {
            set(regs, dst, sext(v, 4), next);
            None
        }
    }
}

/// A store of the low bytes of a register.
fn store(
    width: Width,
    mem: Mem,
    src: Reg,
    next: u64,
    regs: &mut Registers,
    segs: &mut Segments<'_>,
) -> Option<FaultKind>
    ensures { StepsTo (after_store (stored segs.old mem.seg (offset_of regs.old mem) (byte_count width) (value regs.old src)) next regs.old) result regs.old segs.old regs.new segs.new }
{
    if segs.write(mem.seg, offset(regs, mem), width, get(regs, src)) {
        regs.pc = next;
        None
    } else {
        Some(FaultKind::Memory)
    }
}

/// The flags of r11 less the 8 bytes at the flat address r10 modulo 2^32.
fn compare_flat(next: u64, regs: &mut Registers, segs: &Segments<'_>) -> Option<FaultKind>
    ensures { StepsTo (after_comparison (flat_loaded segs.now (value regs.old Reg.Gpr10 % 2 ^ 32)) next segs.now regs.old) result regs.old segs.now regs.new segs.now }
{
    match segs.flat_read(get(regs, Reg::Gpr10) % 0x1_0000_0000) {
        None => Some(FaultKind::Memory),
        Some(v) => {
            set_flags(regs, subtract(get(regs, Reg::Gpr11), v).1, next);
            None
        }
    }
}

/// A call: writes the next instruction's address at the flat address rsp - 8, and lowers rsp by 8.
fn call(target: u64, next: u64, regs: &mut Registers, segs: &mut Segments<'_>) -> Option<FaultKind>
    ensures { StepsTo (calls target next segs.old regs.old) result regs.old segs.old regs.new segs.new }
{
    let top = get(regs, Reg::Rsp).wrapping_sub(8);
    if segs.flat_write(top, next) {
        set(regs, Reg::Rsp, top, target);
        None
    } else {
        Some(FaultKind::Memory)
    }
}

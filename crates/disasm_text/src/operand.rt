//! The parts of an instruction's text.

ghost use Rattle.std.specs.Prelude.{◌≡◌, ◌++◌, OnOk};
ghost use Rattle.std.specs.String.{string_bytes};
ghost use Rattle.disasm_text.specs.Operands.{condition_letters, memory_text, operation_name, register_name, segment_name, shift_name, wide_suffix, width_suffix};

use cv_word::NoMemory;
use x64_decode::{AluOp, Cond, Mem, Reg, Seg, ShiftOp, Width};

/// The name of a register in 64-bit mode.
#[tactic(auto, unfolding(crate::specs::Operands::register_name))]
pub(crate) fn register_name(r: Reg) -> &'static str
    ensures { result.now ≡ register_name r }
{
    match r {
        Reg::Rax => "rax",
        Reg::Rcx => "rcx",
        Reg::Rdx => "rdx",
        Reg::Rbx => "rbx",
        Reg::Rsp => "rsp",
        Reg::Rbp => "rbp",
        Reg::Rsi => "rsi",
        Reg::Rdi => "rdi",
        Reg::Gpr8 => "r8",
        Reg::Gpr9 => "r9",
        Reg::Gpr10 => "r10",
        Reg::Gpr11 => "r11",
        Reg::Gpr12 => "r12",
        Reg::Gpr13 => "r13",
        Reg::Gpr14 => "r14",
        Reg::Gpr15 => "r15",
    }
}

/// The letters of a condition.
#[tactic(auto, unfolding(crate::specs::Operands::condition_letters))]
pub(crate) fn condition_letters(cc: Cond) -> &'static str
    ensures { result.now ≡ condition_letters cc }
{
    match cc {
        Cond::O => "o",
        Cond::No => "no",
        Cond::B => "b",
        Cond::Ae => "ae",
        Cond::E => "e",
        Cond::Ne => "ne",
        Cond::Be => "be",
        Cond::A => "a",
        Cond::S => "s",
        Cond::Ns => "ns",
        Cond::L => "l",
        Cond::Ge => "ge",
        Cond::Le => "le",
        Cond::G => "g",
    }
}

/// The name of an operation on two words.
#[tactic(auto, unfolding(crate::specs::Operands::operation_name))]
pub(crate) fn operation_name(op: AluOp) -> &'static str
    ensures { result.now ≡ operation_name op }
{
    match op {
        AluOp::Add => "add",
        AluOp::Or => "or",
        AluOp::And => "and",
        AluOp::Sub => "sub",
        AluOp::Xor => "xor",
        AluOp::Cmp => "cmp",
    }
}

/// The name of a shift.
#[tactic(auto, unfolding(crate::specs::Operands::shift_name))]
pub(crate) fn shift_name(op: ShiftOp) -> &'static str
    ensures { result.now ≡ shift_name op }
{
    match op {
        ShiftOp::Shl => "shl",
        ShiftOp::Shr => "shr",
        ShiftOp::Sar => "sar",
    }
}

/// The name of a segment's register.
#[tactic(auto, unfolding(crate::specs::Operands::segment_name))]
fn segment_name(seg: Seg) -> &'static str
    ensures { result.now ≡ segment_name seg }
{
    match seg {
        Seg::Fs => "fs",
        Seg::Gs => "gs",
    }
}

/// What the name of an instruction ends in that is wide or moves 32 bits.
#[tactic(auto, unfolding(crate::specs::Operands::wide_suffix))]
pub(crate) fn wide_suffix(wide: bool) -> &'static str
    ensures { result.now ≡ wide_suffix wide }
{
    if wide { "" } else { "32" }
}

/// What the name of a store ends in.
#[tactic(auto, unfolding(crate::specs::Operands::width_suffix))]
pub(crate) fn width_suffix(width: Width) -> &'static str
    ensures { result.now ≡ width_suffix width }
{
    match width {
        Width::B8 => "",
        Width::B4 => "32",
        Width::B1 => "8",
    }
}

/// Appends a memory operand, as `fs:[r8-3]`.
#[tactic(auto, unfolding(crate::specs::Operands::memory_text))]
pub(crate) fn push_memory(out: &mut String, mem: &Mem) -> Result<(), NoMemory>
    ensures { OnOk result (string_bytes out.new ≡ string_bytes out.old ++ memory_text mem.now) }
{
    let segment = segment_name(mem.seg);
    let base = register_name(mem.base);
    let disp = mem.disp;
    if disp < 0 {
        write!(out, "{segment}:[{base}{disp}]")?;
    } else {
        write!(out, "{segment}:[{base}+{disp}]")?;
    }
    Ok(())
}

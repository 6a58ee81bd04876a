//! The text of an instruction.

ghost use Rattle.std.specs.Prelude.{◌≡◌, ◌++◌, [], ◌∷◌, OnOk};
ghost use Rattle.std.specs.Fmt.{signed_decimal};
ghost use Rattle.std.specs.String.{string_bytes};
ghost use Rattle.disasm_text.specs.Operands.{memory_text, register_name, target_text, unsigned_text};
ghost use Rattle.disasm_text.specs.ListingText.{instruction_text, row};

use crate::operand::{
    condition_letters, operation_name, push_memory, register_name, shift_name, wide_suffix,
    width_suffix,
};
use cv_word::NoMemory;
use x64_decode::{Instr, Mem, Reg};

/// Appends a name and two registers.
fn push_pair(
    out: &mut String,
    name: &str,
    suffix: &str,
    first: Reg,
    second: Reg,
) -> Result<(), NoMemory>
    ensures { OnOk result (string_bytes out.new ≡ string_bytes out.old ++ row (name.now ++ suffix.now) (register_name first ∷ register_name second ∷ [])) }
{
    let first = register_name(first);
    let second = register_name(second);
    write!(out, "{name}{suffix} {first}, {second}")?;
    Ok(())
}

/// Appends a name and a register.
fn push_one(out: &mut String, name: &str, suffix: &str, r: Reg) -> Result<(), NoMemory>
    ensures { OnOk result (string_bytes out.new ≡ string_bytes out.old ++ row (name.now ++ suffix.now) (register_name r ∷ [])) }
{
    let register = register_name(r);
    write!(out, "{name}{suffix} {register}")?;
    Ok(())
}

/// Appends a name without fields.
fn push_name(out: &mut String, name: &str) -> Result<(), NoMemory>
    ensures { OnOk result (string_bytes out.new ≡ string_bytes out.old ++ row name.now []) }
{
    out.push_str(name)?;
    Ok(())
}

/// Appends a name, a register and a signed number.
fn push_signed(
    out: &mut String,
    name: &str,
    suffix: &str,
    r: Reg,
    number: i32,
) -> Result<(), NoMemory>
    ensures { OnOk result (string_bytes out.new ≡ string_bytes out.old ++ row (name.now ++ suffix.now) (register_name r ∷ signed_decimal number ∷ [])) }
{
    let register = register_name(r);
    write!(out, "{name}{suffix} {register}, {number}")?;
    Ok(())
}

/// Appends a name, a register and an unsigned number.
fn push_unsigned(out: &mut String, name: &str, r: Reg, number: u64) -> Result<(), NoMemory>
    ensures { OnOk result (string_bytes out.new ≡ string_bytes out.old ++ row name.now (register_name r ∷ unsigned_text number ∷ [])) }
{
    let register = register_name(r);
    write!(out, "{name} {register}, 0x{number:x}")?;
    Ok(())
}

/// Appends a name, a register and a memory operand.
fn push_load(
    out: &mut String,
    name: &str,
    suffix: &str,
    dst: Reg,
    mem: &Mem,
) -> Result<(), NoMemory>
    ensures { OnOk result (string_bytes out.new ≡ string_bytes out.old ++ row (name.now ++ suffix.now) (register_name dst ∷ memory_text mem.now ∷ [])) }
{
    let register = register_name(dst);
    write!(out, "{name}{suffix} {register}, ")?;
    push_memory(out, mem)
}

/// Appends a name, a memory operand and a register.
fn push_store(
    out: &mut String,
    name: &str,
    suffix: &str,
    mem: &Mem,
    src: Reg,
) -> Result<(), NoMemory>
    ensures { OnOk result (string_bytes out.new ≡ string_bytes out.old ++ row (name.now ++ suffix.now) (memory_text mem.now ∷ register_name src ∷ [])) }
{
    let register = register_name(src);
    write!(out, "{name}{suffix} ")?;
    push_memory(out, mem)?;
    write!(out, ", {register}")?;
    Ok(())
}

/// Appends a name and a target, from the flat address behind the instruction.
fn push_target(
    out: &mut String,
    name: &str,
    suffix: &str,
    next: u64,
    rel: i32,
) -> Result<(), NoMemory>
    ensures { OnOk result (string_bytes out.new ≡ string_bytes out.old ++ row (name.now ++ suffix.now) (target_text next rel ∷ [])) }
{
    let target = next.wrapping_add(i64::from(rel).cast_unsigned());
    write!(out, "{name}{suffix} 0x{target:x}")?;
    Ok(())
}

/// Appends the text of an instruction, from the flat address behind it.
#[tactic(auto, unfolding(crate::specs::ListingText::instruction_text))]
pub(crate) fn push_instruction(out: &mut String, next: u64, i: &Instr) -> Result<(), NoMemory>
    ensures { OnOk result (string_bytes out.new ≡ string_bytes out.old ++ instruction_text next i.now) }
{
    match *i {
        Instr::Mov { wide, dst, src } => push_pair(out, "mov", wide_suffix(wide), dst, src),
        Instr::Alu { op, dst, src } => push_pair(out, operation_name(op), "", dst, src),
        Instr::Test { a, b } => push_pair(out, "test", "", a, b),
        Instr::Imul { dst, src } => push_pair(out, "imul", "", dst, src),
        Instr::Not { r } => push_one(out, "not", "", r),
        Instr::Neg { r } => push_one(out, "neg", "", r),
        Instr::Idiv { r } => push_one(out, "idiv", "", r),
        Instr::Cqo => push_name(out, "cqo"),
        Instr::ShiftImm { op, r, count } => push_signed(out, shift_name(op), "i", r, count.into()),
        Instr::ShiftCl { op, r } => push_one(out, shift_name(op), "c", r),
        Instr::Movsxd { dst, src } => push_pair(out, "movsxd", "", dst, src),
        Instr::Movzx8 { dst, src } => push_pair(out, "movzx8", "", dst, src),
        Instr::Movsx8 { dst, src } => push_pair(out, "movsx8", "", dst, src),
        Instr::Setcc { cc, r } => push_one(out, "setcc", condition_letters(cc), r),
        Instr::Cmov { cc, dst, src } => push_pair(out, "cmov", condition_letters(cc), dst, src),
        Instr::MovImm32 { dst, imm } => push_unsigned(out, "movimm32", dst, imm.into()),
        Instr::MovImm64 { dst, imm } => push_unsigned(out, "movimm64", dst, imm),
        Instr::MovImmS { dst, imm } => push_signed(out, "movimms", "", dst, imm),
        Instr::AluImm { op, dst, imm } => push_signed(out, operation_name(op), "i", dst, imm),
        Instr::Load { wide, dst, mem } => push_load(out, "load", wide_suffix(wide), dst, &mem),
        Instr::LoadZx8 { dst, mem } => push_load(out, "loadzx8", "", dst, &mem),
        Instr::LoadSx8 { dst, mem } => push_load(out, "loadsx8", "", dst, &mem),
        Instr::LoadSx32 { dst, mem } => push_load(out, "loadsx32", "", dst, &mem),
        Instr::Store { width, mem, src } => push_store(
            out,
            "store",
            width_suffix(width),
            &mem,
            src,
        ),
        Instr::CmpFlat => push_name(out, "cmpflat"),
        Instr::JmpR10 => push_name(out, "jmpr10"),
        Instr::CallR10 => push_name(out, "callr10"),
        Instr::Call { rel } => push_target(out, "call", "", next, rel),
        Instr::Jmp { rel } => push_target(out, "jmp", "", next, rel),
        Instr::Jcc { cc, rel } => push_target(out, "jcc", condition_letters(cc), next, rel),
        Instr::Ud2 => push_name(out, "ud2"),
        Instr::Nop => push_name(out, "nop"),
    }
}

//! How many bytes the rows of the instruction table have.

ghost use Rattle.std.specs.Prelude.{◌≡◌, ◌%◌, ◌≤◌, ◌==◌, length, if◌then◌else◌};
ghost use Rattle.x64_decode.specs.Spelling.{number, spelling};

use crate::fields::{number_of, sib_bytes};
use x64_decode::{Instr, Reg};

/// The bytes of each row, without an SIB byte.
#[derive(Drop)]
struct Lengths {
    mov: u8,
    alu: u8,
    test: u8,
    imul: u8,
    not: u8,
    neg: u8,
    idiv: u8,
    cqo: u8,
    shift_imm: u8,
    shift_cl: u8,
    movsxd: u8,
    movzx_8: u8,
    movsx_8: u8,
    setcc: u8,
    cmov: u8,
    mov_imm_32: u8,
    mov_imm_64: u8,
    mov_imm_signed: u8,
    alu_imm: u8,
    load: u8,
    load_zx_8: u8,
    load_sx_8: u8,
    load_sx_32: u8,
    store: u8,
    cmp_flat: u8,
    jmp_r10: u8,
    call_r10: u8,
    call: u8,
    jmp: u8,
    jcc: u8,
    ud2: u8,
    nop: u8,
}

/// In the order of the instruction table. A row with an operand in memory has one more where the base asks for an SIB
/// byte.
const LENGTHS: Lengths = Lengths {
    mov: 3,
    alu: 3,
    test: 3,
    imul: 4,
    not: 3,
    neg: 3,
    idiv: 3,
    cqo: 2,
    shift_imm: 4,
    shift_cl: 3,
    movsxd: 3,
    movzx_8: 4,
    movsx_8: 4,
    setcc: 4,
    cmov: 4,
    mov_imm_32: 6,
    mov_imm_64: 10,
    mov_imm_signed: 7,
    alu_imm: 7,
    load: 9,
    load_zx_8: 10,
    load_sx_8: 10,
    load_sx_32: 9,
    store: 9,
    cmp_flat: 8,
    jmp_r10: 3,
    call_r10: 3,
    call: 5,
    jmp: 5,
    jcc: 6,
    ud2: 2,
    nop: 1,
};

/// The most bytes that an instruction has: a load of a byte, with an SIB byte.
pub const LONGEST: u8 = 11;

/// Whether each row has a byte, and room is left for an SIB byte.
macro_rules! all_fit {
    ($($row:ident)*) => { true $(&& 1 <= LENGTHS.$row && LENGTHS.$row < LONGEST)* };
}

const _: () = prove!(all_fit!(
    mov alu test imul not neg idiv cqo shift_imm shift_cl movsxd movzx_8 movsx_8 setcc cmov
    mov_imm_32 mov_imm_64 mov_imm_signed alu_imm load load_zx_8 load_sx_8 load_sx_32 store cmp_flat
    jmp_r10 call_r10 call jmp jcc ud2 nop
));

const _: () = prove!(LENGTHS.load_zx_8 + 1 == LONGEST);

const _: () = prove!(LONGEST <= 16);

/// How many bytes `encode` answers for an instruction, from 1 to `LONGEST`.
#[tactic(auto, unfolding(x64_decode::specs::Spelling::spelling))]
pub fn length_of(i: &Instr) -> u8
    // Those of its row.
    ensures row { result ≡ length (spelling i.now) }
    ensures some { 1 ≤ result }
    ensures few { result ≤ LONGEST }
{
    match i {
        Instr::Mov { .. } => LENGTHS.mov,
        Instr::Alu { .. } => LENGTHS.alu,
        Instr::Test { .. } => LENGTHS.test,
        Instr::Imul { .. } => LENGTHS.imul,
        Instr::Not { .. } => LENGTHS.not,
        Instr::Neg { .. } => LENGTHS.neg,
        Instr::Idiv { .. } => LENGTHS.idiv,
        Instr::Cqo => LENGTHS.cqo,
        Instr::ShiftImm { .. } => LENGTHS.shift_imm,
        Instr::ShiftCl { .. } => LENGTHS.shift_cl,
        Instr::Movsxd { .. } => LENGTHS.movsxd,
        Instr::Movzx8 { .. } => LENGTHS.movzx_8,
        Instr::Movsx8 { .. } => LENGTHS.movsx_8,
        Instr::Setcc { .. } => LENGTHS.setcc,
        Instr::Cmov { .. } => LENGTHS.cmov,
        Instr::MovImm32 { .. } => LENGTHS.mov_imm_32,
        Instr::MovImm64 { .. } => LENGTHS.mov_imm_64,
        Instr::MovImmS { .. } => LENGTHS.mov_imm_signed,
        Instr::AluImm { .. } => LENGTHS.alu_imm,
        Instr::Load { mem, .. } => LENGTHS.load + sib_length(mem.base),
        Instr::LoadZx8 { mem, .. } => LENGTHS.load_zx_8 + sib_length(mem.base),
        Instr::LoadSx8 { mem, .. } => LENGTHS.load_sx_8 + sib_length(mem.base),
        Instr::LoadSx32 { mem, .. } => LENGTHS.load_sx_32 + sib_length(mem.base),
        Instr::Store { mem, .. } => LENGTHS.store + sib_length(mem.base),
        Instr::CmpFlat => LENGTHS.cmp_flat,
        Instr::JmpR10 => LENGTHS.jmp_r10,
        Instr::CallR10 => LENGTHS.call_r10,
        Instr::Call { .. } => LENGTHS.call,
        Instr::Jmp { .. } => LENGTHS.jmp,
        Instr::Jcc { .. } => LENGTHS.jcc,
        Instr::Ud2 => LENGTHS.ud2,
        Instr::Nop => LENGTHS.nop,
    }
}

/// How many SIB bytes a base asks for.
fn sib_length(base: Reg) -> u8
    ensures { result ≡ (if number base % 8 == 4 then 1 else 0) }
{
    sib_bytes(number_of(base)).len() as u8
}

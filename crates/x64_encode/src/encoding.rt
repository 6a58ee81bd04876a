//! Encoding, row by row of the instruction table.

ghost use Rattle.std.specs.Prelude.{◌≡◌, ◌+◌, ◌%◌, ◌<◌, ◌≤◌, ℕ, true, false, List, [], ◌∷◌, ◌++◌, length, take, Some, None, FitsSigned};
ghost use Rattle.std.specs.Int.{w32};
ghost use Rattle.arrayvec.specs.ArrayVec.{array_vec_len};
ghost use Rattle.cv_word.specs.Words.{AreBytes, word_bytes};
ghost use Rattle.x64_decode.specs.Spelling.{spelling, HasSpelling, number, condition, shift_extension, store_wide, store_opcode, rex, between, access, operand, signed_bytes};
ghost use Rattle.x64_decode.specs.Reading.{instruction_at};
ghost use Rattle.x64_encode.specs.Counts.{HasCount};

use crate::fields::{
    condition_of, extension_of, extension_of_shift, modrm_byte, number_of, opcode_of, prefix_of,
    rex_byte, sib_bytes,
};
use arrayvec::ArrayVec;
use x64_decode::{Cond, Instr, Mem, Reg, ShiftOp, Width};

/// Room for any instruction: the longest has 11 bytes.
type Bytes = ArrayVec<u8, 16>;

/// The bytes of a row without a number behind it.
fn bytes_of(row: &[u8]) -> Bytes
    requires { length row.now ≤ 16 }
    ensures { result.items ≡ row.now }
{
    let mut bytes = ArrayVec::new();
    put(&mut bytes, row);
    bytes
}

/// Appends bytes, for which there is room.
fn put(bytes: &mut Bytes, more: &[u8])
    requires { array_vec_len bytes.old + length more.now ≤ 16 }
    ensures { bytes.new.items ≡ bytes.old.items ++ more.now }
{
    bytes.try_extend_from_slice(more).unwrap();
}

/// A row and a number of 1 byte behind it.
fn with_byte(row: &[u8], n: u8) -> Bytes
    requires { length row.now ≤ 8 }
    ensures { result.items ≡ row.now ++ n ∷ [] }
{
    let mut bytes = bytes_of(row);
    put(&mut bytes, &[n]);
    bytes
}

/// A row and a number of 4 bytes behind it.
fn with_number(row: &[u8], n: u32) -> Bytes
    requires { length row.now ≤ 8 }
    ensures { result.items ≡ row.now ++ word_bytes 4 n }
{
    let mut bytes = bytes_of(row);
    put(&mut bytes, &n.to_le_bytes());
    bytes
}

/// A row and a number of 8 bytes behind it.
fn with_wide_number(row: &[u8], n: u64) -> Bytes
    requires { length row.now ≤ 8 }
    ensures { result.items ≡ row.now ++ word_bytes 8 n }
{
    let mut bytes = bytes_of(row);
    put(&mut bytes, &n.to_le_bytes());
    bytes
}

/// A row and a signed number of 4 bytes behind it.
fn with_signed(row: &[u8], n: i32) -> Bytes
    requires { length row.now ≤ 8 }
    ensures { result.items ≡ row.now ++ signed_bytes n }
{
    with_number(row, n.cast_unsigned())
}

/// An opcode with two registers.
fn registers(wide: bool, opcode: u8, x: Reg, y: Reg) -> Bytes
    ensures { result.items ≡ rex wide (number x) (number y) ∷ opcode ∷ between (number x) (number y) ∷ [] }
{
    let (x, y) = (number_of(x), number_of(y));
    bytes_of(&[rex_byte(wide, x, y), opcode, modrm_byte(3, x, y)])
}

/// An opcode behind 0F with two registers.
fn escaped(opcode: u8, x: Reg, y: Reg) -> Bytes
    ensures { result.items ≡ rex true (number x) (number y) ∷ 0x0f ∷ opcode ∷ between (number x) (number y) ∷ [] }
{
    let (x, y) = (number_of(x), number_of(y));
    bytes_of(&[rex_byte(true, x, y), 0x0f, opcode, modrm_byte(3, x, y)])
}

/// An opcode with an extension and a register.
fn extended(opcode: u8, extension: u8, r: Reg) -> [u8; 3]
    requires { extension < 8 }
    ensures { result ≡ rex true 0 (number r) ∷ opcode ∷ between extension (number r) ∷ [] }
{
    let y = number_of(r);
    [rex_byte(true, 0, y), opcode, modrm_byte(3, extension, y)]
}

/// A shift of a register.
fn shift(opcode: u8, op: ShiftOp, r: Reg) -> [u8; 3]
    ensures { result ≡ rex true 0 (number r) ∷ opcode ∷ between (shift_extension op) (number r) ∷ [] }
{
    extended(opcode, extension_of_shift(op), r)
}

/// SETcc of a register's low byte.
fn set_byte(cc: Cond, r: Reg) -> Bytes
    ensures { result.items ≡ rex false 0 (number r) ∷ 0x0f ∷ (0x90 + condition cc) ∷ between 0 (number r) ∷ [] }
{
    let y = number_of(r);
    bytes_of(&[
        rex_byte(false, 0, y),
        0x0f,
        0x90 + condition_of(cc),
        modrm_byte(3, 0, y),
    ])
}

/// MOV of a number, whose opcode holds the register.
fn into_register(wide: bool, dst: Reg) -> [u8; 2]
    ensures { result ≡ rex wide 0 (number dst) ∷ (0xb8 + number dst % 8) ∷ [] }
{
    let y = number_of(dst);
    [rex_byte(wide, 0, y), 0xb8 + y % 8]
}

/// An opcode, of one byte or of two, with an operand in memory.
fn memory(wide: bool, opcode: &[u8], reg: Reg, mem: Mem) -> Bytes
    requires { length opcode.now ≤ 2 }
    ensures bytes { result.items ≡ access wide (number reg) mem ++ opcode.now ++ operand (number reg) mem }
    ensures fits { FitsSigned w32 mem.disp }
{
    let x = number_of(reg);
    let base = number_of(mem.base);
    let mut bytes = bytes_of(&[prefix_of(mem.seg), 0x67, rex_byte(wide, x, base)]);
    put(&mut bytes, opcode);
    put(&mut bytes, &[modrm_byte(2, x, base)]);
    put(&mut bytes, sib_bytes(base));
    put(&mut bytes, &mem.disp.cast_unsigned().to_le_bytes());
    bytes
}

/// MOV to memory.
fn store(width: Width, mem: Mem, src: Reg) -> Bytes
    ensures bytes { result.items ≡ access (store_wide width) (number src) mem ++ store_opcode width ∷ operand (number src) mem }
    ensures fits { FitsSigned w32 mem.disp }
{
    match width {
        Width::B8 => memory(true, &[0x89], src, mem),
        Width::B4 => memory(false, &[0x89], src, mem),
        Width::B1 => memory(false, &[0x88], src, mem),
    }
}

/// A row of the instruction table.
#[tactic(auto, unfolding(x64_decode::specs::Spelling::spelling))]
fn row(i: &Instr) -> Bytes
    ensures bytes { result.items ≡ spelling i.now }
    // Its numbers fit their fields, but for a shift's count.
    ensures proper { HasCount i.now → HasSpelling i.now }
{
    match *i {
        Instr::Mov { wide, dst, src } => registers(wide, 0x89, src, dst),
        Instr::Alu { op, dst, src } => registers(true, opcode_of(op), src, dst),
        Instr::Test { a, b } => registers(true, 0x85, b, a),
        Instr::Imul { dst, src } => escaped(0xaf, dst, src),
        Instr::Not { r } => bytes_of(&extended(0xf7, 2, r)),
        Instr::Neg { r } => bytes_of(&extended(0xf7, 3, r)),
        Instr::Idiv { r } => bytes_of(&extended(0xf7, 7, r)),
        Instr::Cqo => bytes_of(&[0x48, 0x99]),
        Instr::ShiftImm { op, r, count } => with_byte(&shift(0xc1, op, r), count),
        Instr::ShiftCl { op, r } => bytes_of(&shift(0xd3, op, r)),
        Instr::Movsxd { dst, src } => registers(true, 0x63, dst, src),
        Instr::Movzx8 { dst, src } => escaped(0xb6, dst, src),
        Instr::Movsx8 { dst, src } => escaped(0xbe, dst, src),
        Instr::Setcc { cc, r } => set_byte(cc, r),
        Instr::Cmov { cc, dst, src } => escaped(0x40 + condition_of(cc), dst, src),
        Instr::MovImm32 { dst, imm } => with_number(&into_register(false, dst), imm),
        Instr::MovImm64 { dst, imm } => with_wide_number(&into_register(true, dst), imm),
        Instr::MovImmS { dst, imm } => with_signed(&extended(0xc7, 0, dst), imm),
        Instr::AluImm { op, dst, imm } => with_signed(&extended(0x81, extension_of(op), dst), imm),
        Instr::Load { wide, dst, mem } => memory(wide, &[0x8b], dst, mem),
        Instr::LoadZx8 { dst, mem } => memory(true, &[0x0f, 0xb6], dst, mem),
        Instr::LoadSx8 { dst, mem } => memory(true, &[0x0f, 0xbe], dst, mem),
        Instr::LoadSx32 { dst, mem } => memory(true, &[0x63], dst, mem),
        Instr::Store { width, mem, src } => store(width, mem, src),
        Instr::CmpFlat => bytes_of(&[0x67, 0x4d, 0x3b, 0x9a, 0, 0, 0, 0]),
        Instr::JmpR10 => bytes_of(&[0x41, 0xff, 0xe2]),
        Instr::CallR10 => bytes_of(&[0x41, 0xff, 0xd2]),
        Instr::Call { rel } => with_signed(&[0xe8], rel),
        Instr::Jmp { rel } => with_signed(&[0xe9], rel),
        Instr::Jcc { cc, rel } => with_signed(&[0x0f, 0x80 + condition_of(cc)], rel),
        Instr::Ud2 => bytes_of(&[0x0f, 0x0b]),
        Instr::Nop => bytes_of(&[0x90]),
    }
}

/// The bytes that spell an instruction: the row of the instruction table with its fields. No refusal, and no memory. A
/// shift by another count than 1 to 63 has no spelling, and gives the pattern with that count.
pub fn encode(i: &Instr) -> ArrayVec<u8, 16>
    // The row, for each instruction that a value can hold.
    ensures bytes { result.items ≡ spelling i.now }
    // As many bytes as the row has, which `length_of` tells.
    ensures length { array_vec_len result ≡ length (spelling i.now) }
    // Read, whatever follows, they are the instruction again;
    ensures read_back { HasCount i.now → (rest : List ℕ) → instruction_at (result.items ++ rest) ≡ Some i.now }
    // for a shift by another count, no instruction stands there.
    ensures no_row { ¬ HasCount i.now → (rest : List ℕ) → instruction_at (result.items ++ rest) ≡ None }
    // Where the instruction was read, these are the bytes that it was read from.
    ensures written_again { (read : List ℕ) → AreBytes read → instruction_at read ≡ Some i.now → take (array_vec_len result) read ≡ result.items }
{
    row(i)
}

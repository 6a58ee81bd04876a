//! The instructions, by the names of the Intel manual's 64-bit mode.

/// A general register of 64 bits, in the order of its number.
#[derive(Clone, Copy, Debug, PartialEq, Eq)]
pub enum Reg {
    Rax,
    Rcx,
    Rdx,
    Rbx,
    Rsp,
    Rbp,
    Rsi,
    Rdi,
    Gpr8,
    Gpr9,
    Gpr10,
    Gpr11,
    Gpr12,
    Gpr13,
    Gpr14,
    Gpr15,
}

/// A condition of Jcc, SETcc and CMOVcc, by its letters. The two on parity are left out.
#[derive(Clone, Copy, Debug, PartialEq, Eq)]
pub enum Cond {
    O,
    No,
    B,
    Ae,
    E,
    Ne,
    Be,
    A,
    S,
    Ns,
    L,
    Ge,
    Le,
    G,
}

/// The segment of a memory operand.
#[derive(Clone, Copy, Debug, PartialEq, Eq)]
pub enum Seg {
    /// The public segment.
    Fs,
    /// The private segment.
    Gs,
}

/// How many bytes a store writes.
#[derive(Clone, Copy, Debug, PartialEq, Eq)]
pub enum Width {
    B1,
    B4,
    B8,
}

/// A memory operand: a segment, a base register and a displacement in bytes.
#[derive(Clone, Copy, Debug, PartialEq, Eq)]
pub struct Mem {
    pub seg: Seg,
    pub base: Reg,
    pub disp: i32,
}

/// An operation on two words. CMP writes the flags alone.
#[derive(Clone, Copy, Debug, PartialEq, Eq)]
pub enum AluOp {
    Add,
    Or,
    And,
    Sub,
    Xor,
    Cmp,
}

/// A shift. SAR keeps the sign.
#[derive(Clone, Copy, Debug, PartialEq, Eq)]
pub enum ShiftOp {
    Shl,
    Shr,
    Sar,
}

/// An instruction. A target is the next instruction's address plus `rel`.
#[derive(Clone, Copy, Debug, PartialEq, Eq)]
pub enum Instr {
    /// MOV between registers: 64 bits where `wide`, else the low 32 bits, zero-extended.
    Mov { wide: bool, dst: Reg, src: Reg },
    /// ADD, OR, AND, SUB, XOR or CMP of 64 bits.
    Alu { op: AluOp, dst: Reg, src: Reg },
    /// TEST of 64 bits.
    Test { a: Reg, b: Reg },
    /// IMUL, the low 64 bits.
    Imul { dst: Reg, src: Reg },
    /// NOT of 64 bits.
    Not { r: Reg },
    /// NEG of 64 bits.
    Neg { r: Reg },
    /// IDIV of rdx:rax: the quotient into rax, the remainder into rdx.
    Idiv { r: Reg },
    /// CQO: rdx becomes copies of rax's sign bit.
    Cqo,
    /// SHL, SHR or SAR by a count from 1 to 63. Another count has no spelling.
    ShiftImm { op: ShiftOp, r: Reg, count: u8 },
    /// SHL, SHR or SAR by rcx modulo 64.
    ShiftCl { op: ShiftOp, r: Reg },
    /// MOVSXD: the low 32 bits, sign-extended.
    Movsxd { dst: Reg, src: Reg },
    /// MOVZX: the low 8 bits, zero-extended.
    Movzx8 { dst: Reg, src: Reg },
    /// MOVSX: the low 8 bits, sign-extended.
    Movsx8 { dst: Reg, src: Reg },
    /// SETcc: the low 8 bits become 1 or 0, and the others stay.
    Setcc { cc: Cond, r: Reg },
    /// CMOVcc of 64 bits.
    Cmov { cc: Cond, dst: Reg, src: Reg },
    /// MOV of a number of 32 bits, zero-extended.
    MovImm32 { dst: Reg, imm: u32 },
    /// MOV of a number of 64 bits.
    MovImm64 { dst: Reg, imm: u64 },
    /// MOV of a number of 32 bits, sign-extended.
    MovImmS { dst: Reg, imm: i32 },
    /// ADD, OR, AND, SUB, XOR or CMP with a number of 32 bits, sign-extended.
    AluImm { op: AluOp, dst: Reg, imm: i32 },
    /// MOV from memory: 8 bytes where `wide`, else 4, zero-extended.
    Load { wide: bool, dst: Reg, mem: Mem },
    /// MOVZX of a byte from memory.
    LoadZx8 { dst: Reg, mem: Mem },
    /// MOVSX of a byte from memory.
    LoadSx8 { dst: Reg, mem: Mem },
    /// MOVSXD of 4 bytes from memory.
    LoadSx32 { dst: Reg, mem: Mem },
    /// MOV to memory: the low bytes of `src`.
    Store { width: Width, mem: Mem, src: Reg },
    /// CMP of r11 with the 8 bytes at the flat address r10 modulo 2^32. It stands in check units alone.
    CmpFlat,
    /// JMP to r10. It stands in return units alone.
    JmpR10,
    /// CALL of r10. It stands in call units alone.
    CallR10,
    /// CALL.
    Call { rel: i32 },
    /// JMP.
    Jmp { rel: i32 },
    /// Jcc.
    Jcc { cc: Cond, rel: i32 },
    /// UD2.
    Ud2,
    /// NOP.
    Nop,
}

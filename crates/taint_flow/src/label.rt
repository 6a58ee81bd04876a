//! Labels, what each instruction leaves private, and the rules on labels.

ghost use Rattle.std.specs.Prelude.{◌≡◌, ◌<◌, ◌||◌, true};
ghost use Rattle.x64_decode.specs.Spelling.{number};
ghost use Rattle.x64_decode.specs.declared.instr.Reg.TheVariants.{Rax, Rdx};
ghost use Rattle.taint_flow.specs.Label.{set, set_reg, set_where, taint, flags, segment_taint, left_by, entry_label, return_label};
ghost use Rattle.x64_decode.specs.Operations.{is_written};
ghost use Rattle.taint_flow.specs.Bits.{label_of};
ghost use Rattle.taint_flow.specs.Flow.{memory_of, base_is_private, shows_private, has_private_address, stores_private, branches_on_private, divides_private, leaves_rsp_private, passes_private, returns_private};

use code_sweep::Item;
use cv_word::may_pass_private;
use x64_decode::{AluOp, Instr, Mem, Reg, Seg};

/// What may be private: bit k stands for register k, for k from 0 to 15, and bit 16 for the flags.
#[derive(Clone, Copy, Debug, PartialEq, Eq)]
pub struct Label {
    /// A bit is set where its name may be private. Bits above bit 16 stand for nothing.
    pub bits: u32,
}

/// The bit of the flags.
const FLAGS: u32 = 16;

fn number_of(r: Reg) -> u32
    ensures value { result ≡ number r }
    ensures small { result < 16 }
{
    r as u32
}

impl Label {
    /// The bit of one name.
    fn has(self, name: u32) -> bool
        requires { name < 32 }
        ensures { result ≡ label_of self.bits name }
    {
        self.bits >> name & 1 == 1
    }

    /// The label with one name set.
    fn set(self, name: u32, private: bool) -> Label
        requires { name < 32 }
        ensures { label_of result.bits ≡ set name private (label_of self.bits) }
    {
        if self.has(name) == private {
            self
        } else {
            Label {
                bits: self.bits ^ 1 << name,
            }
        }
    }

    fn set_reg(self, r: Reg, private: bool) -> Label
        ensures { label_of result.bits ≡ set_reg r private (label_of self.bits) }
    {
        self.set(number_of(r), private)
    }

    fn set_flags(self, private: bool) -> Label
        ensures { label_of result.bits ≡ set flags private (label_of self.bits) }
    {
        self.set(FLAGS, private)
    }

    /// Whether a register may be private.
    fn taint(self, r: Reg) -> bool
        ensures { result ≡ taint (label_of self.bits) r }
    {
        self.has(number_of(r))
    }

    /// Whether the flags may be.
    fn flags(self) -> bool
        ensures { result ≡ label_of self.bits flags }
    {
        self.has(FLAGS)
    }

    /// Whether one of two registers may be.
    fn either(self, a: Reg, b: Reg) -> bool
        ensures { result ≡ (taint (label_of self.bits) a || taint (label_of self.bits) b) }
    {
        self.taint(a) | self.taint(b)
    }
}

/// What may be private behind an instruction, from what may be before it: a row for each instruction.
#[inline(always)]
#[tactic(auto, unfolding(crate::specs::Label::left_by))]
pub fn left_by(i: &Instr, l: Label) -> Label
    ensures { label_of result.bits ≡ left_by i.now (label_of l.bits) }
{
    match *i {
        Instr::Mov { wide: _, dst, src } => l.set_reg(dst, l.taint(src)),
        Instr::Alu { op, dst, src } => left_by_alu(l, op, dst, l.either(dst, src)),
        Instr::Test { a, b } => l.set_flags(l.either(a, b)),
        Instr::Imul { dst, src } => l.set_flags(true).set_reg(dst, l.either(dst, src)),
        Instr::Not { r: _ } => l,
        Instr::Neg { r } => l.set_flags(l.taint(r)),
        Instr::Idiv { r } => left_by_division(l, l.taint(Reg::Rax) | l.either(Reg::Rdx, r)),
        Instr::Cqo => l.set_reg(Reg::Rdx, l.taint(Reg::Rax)),
        Instr::ShiftImm {
            op: _,
            r: _,
            count: _,
        } => l.set_flags(true),
        Instr::ShiftCl { op: _, r } => l.set_flags(true).set_reg(r, l.either(r, Reg::Rcx)),
        Instr::Movsxd { dst, src } => l.set_reg(dst, l.taint(src)),
        Instr::Movzx8 { dst, src } => l.set_reg(dst, l.taint(src)),
        Instr::Movsx8 { dst, src } => l.set_reg(dst, l.taint(src)),
        Instr::Setcc { cc: _, r } => l.set_reg(r, l.taint(r) | l.flags()),
        Instr::Cmov { cc: _, dst, src } => l.set_reg(
            dst,
            l.taint(dst) | (l.taint(src) | l.flags()),
        ),
        Instr::MovImm32 { dst, imm: _ } => l.set_reg(dst, false),
        Instr::MovImm64 { dst, imm: _ } => l.set_reg(dst, false),
        Instr::MovImmS { dst, imm: _ } => l.set_reg(dst, false),
        Instr::AluImm { op: _, dst, imm: _ } => l.set_flags(l.taint(dst)),
        Instr::Load { wide: _, dst, mem } => l.set_reg(dst, brings_private(mem.seg)),
        Instr::LoadZx8 { dst, mem } => l.set_reg(dst, brings_private(mem.seg)),
        Instr::LoadSx8 { dst, mem } => l.set_reg(dst, brings_private(mem.seg)),
        Instr::LoadSx32 { dst, mem } => l.set_reg(dst, brings_private(mem.seg)),
        Instr::Store {
            width: _,
            mem: _,
            src: _,
        } => l,
        Instr::CmpFlat => l,
        Instr::JmpR10 => l,
        Instr::CallR10 => l,
        Instr::Call { rel: _ } => l,
        Instr::Jmp { rel: _ } => l,
        Instr::Jcc { cc: _, rel: _ } => l,
        Instr::Ud2 => l,
        Instr::Nop => l,
    }
}

/// The flags, and the target unless the operation is CMP, become as private as `private` says.
fn left_by_alu(l: Label, op: AluOp, dst: Reg, private: bool) -> Label
    ensures { label_of result.bits ≡ set_where (is_written op) dst private (set flags private (label_of l.bits)) }
{
    let flagged = l.set_flags(private);
    match op {
        AluOp::Cmp => flagged,
        _ => flagged.set_reg(dst, private),
    }
}

/// rax and rdx become as private as `private` says, and the flags private.
fn left_by_division(l: Label, private: bool) -> Label
    ensures { label_of result.bits ≡ set_reg Rdx private (set_reg Rax private (set flags true (label_of l.bits))) }
{
    l.set_flags(true)
        .set_reg(Reg::Rax, private)
        .set_reg(Reg::Rdx, private)
}

/// What a load from the segment brings.
fn brings_private(seg: Seg) -> bool
    ensures { result ≡ segment_taint seg }
{
    match seg {
        Seg::Fs => false,
        Seg::Gs => true,
    }
}

/// What may be private at least behind a call word: bits 0 to 3 of `bits` say it of the arguments rdi, rsi, rdx and rcx;
/// the flags may be, and all registers that are neither arguments nor rsp.
pub fn entry_label(bits: u8) -> Label
    ensures { label_of result.bits ≡ entry_label bits }
{
    Label { bits: 0x1_ffef }
        .set_reg(Reg::Rcx, may_pass_private(bits, 3))
        .set_reg(Reg::Rdx, may_pass_private(bits, 2))
        .set_reg(Reg::Rsi, may_pass_private(bits, 1))
        .set_reg(Reg::Rdi, may_pass_private(bits, 0))
}

/// What may be private at least behind a return word: the flags and all registers but rsp, and rax only
/// where the bit is 1.
pub fn return_label(bit: u8) -> Label
    ensures { label_of result.bits ≡ return_label bit }
{
    Label { bits: 0x1_ffef }.set_reg(Reg::Rax, bit == 1)
}

/// Whether the item accesses memory at an address that may be private. A return unit reads at rsp, and a call unit goes where
/// its register says.
pub fn has_private_address(item: &Item, l: Label) -> bool
    ensures { result ≡ has_private_address item.now (label_of l.bits) }
{
    match item {
        Item::Plain(i) => match memory_of(i) {
            Some(mem) => l.taint(mem.base),
            None => false,
        },
        Item::ReturnUnit(_) => l.taint(Reg::Rsp),
        Item::CallUnit(r, _) => l.taint(*r),
        _ => false,
    }
}

fn memory_of(i: &Instr) -> Option<Mem>
    ensures { result ≡ memory_of i.now }
{
    match *i {
        Instr::Load {
            wide: _,
            dst: _,
            mem,
        } => Some(mem),
        Instr::LoadZx8 { dst: _, mem } => Some(mem),
        Instr::LoadSx8 { dst: _, mem } => Some(mem),
        Instr::LoadSx32 { dst: _, mem } => Some(mem),
        Instr::Store {
            width: _,
            mem,
            src: _,
        } => Some(mem),
        _ => None,
    }
}

/// Whether it stores what may be private to the public segment.
pub fn stores_private(item: &Item, l: Label) -> bool
    ensures { result ≡ stores_private item.now (label_of l.bits) }
{
    match *item {
        Item::Plain(Instr::Store { width: _, mem, src }) => match mem.seg {
            Seg::Fs => l.taint(src),
            Seg::Gs => false,
        },
        _ => false,
    }
}

/// Whether it branches on flags that may be private.
pub fn branches_on_private(item: &Item, l: Label) -> bool
    ensures { result ≡ branches_on_private item.now (label_of l.bits) }
{
    match *item {
        Item::Plain(Instr::Jcc { cc: _, rel: _ }) => l.flags(),
        _ => false,
    }
}

/// Whether it divides and an operand may be private.
pub fn divides_private(item: &Item, l: Label) -> bool
    ensures { result ≡ divides_private item.now (label_of l.bits) }
{
    match *item {
        Item::Plain(Instr::Idiv { r }) => l.taint(Reg::Rax) | l.either(Reg::Rdx, r),
        _ => false,
    }
}

/// Whether it is an instruction behind which rsp may be private.
pub fn leaves_rsp_private(item: &Item, l: Label) -> bool
    ensures { result ≡ leaves_rsp_private item.now (label_of l.bits) }
{
    match item {
        Item::Plain(i) => left_by(i, l).taint(Reg::Rsp),
        _ => false,
    }
}

/// Whether an argument may be private whose bit is clear in the bits of what is called.
pub fn passes_private(called: Option<u8>, l: Label) -> bool
    ensures { result ≡ passes_private called (label_of l.bits) }
{
    let Some(bits) = called else {
        return false;
    };
    (l.taint(Reg::Rdi) && !may_pass_private(bits, 0))
        || (l.taint(Reg::Rsi) && !may_pass_private(bits, 1))
        || (l.taint(Reg::Rdx) && !may_pass_private(bits, 2))
        || (l.taint(Reg::Rcx) && !may_pass_private(bits, 3))
}

/// Whether it returns with a public result where rax may be private.
pub fn returns_private(item: &Item, l: Label) -> bool
    ensures { result ≡ returns_private item.now (label_of l.bits) }
{
    match *item {
        Item::ReturnUnit(bit) => bit == 0 && l.taint(Reg::Rax),
        _ => false,
    }
}

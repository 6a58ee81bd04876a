//! Decoding, group by group of the opcode map. Each function reads as the definition of its name does.

ghost use Rattle.std.specs.Prelude.{◌≡◌, ◌+◌, ◌<◌, ◌≤◌, List, ℕ, length, drop, MatchOption, IfSome, Option};
ghost use Rattle.std.specs.Option.{option_map};
ghost use Rattle.x64_decode.specs.Spelling.{spelling, Spells};
ghost use Rattle.x64_decode.specs.declared.instr.Instr.{Instr};
ghost use Rattle.x64_decode.specs.Reading.{
  reg_of,
  cond_of,
  alu_of_opcode,
  alu_of_extension,
  shift_of_extension,
  number_4,
  number_8,
  signed_at,
  shift_by_number,
  unary_form,
  move_signed_form,
  alu_by_number,
  wide_form,
  wide_two_byte_form,
  set_byte_form,
  jump_at,
  call_at,
  narrow_form,
  one_byte,
  two_byte,
  registers_at,
  number_form,
  escaped,
  after_rex,
  displaced,
  indexed,
  operand_at,
  access_form,
  byte_form,
  escaped_access,
  access_at,
  segment_at,
  comparison_at,
  control_at,
  read,
  instruction_at,
};

use crate::instr::{AluOp, Cond, Instr, Mem, Reg, Seg, ShiftOp, Width};

/// The register of a number below 16.
#[tactic(auto, unfolding(crate::specs::Reading::reg_of))]
pub fn register(n: u8) -> Reg
    ensures { result ≡ reg_of n }
{
    match n {
        0 => Reg::Rax,
        1 => Reg::Rcx,
        2 => Reg::Rdx,
        3 => Reg::Rbx,
        4 => Reg::Rsp,
        5 => Reg::Rbp,
        6 => Reg::Rsi,
        7 => Reg::Rdi,
        8 => Reg::Gpr8,
        9 => Reg::Gpr9,
        10 => Reg::Gpr10,
        11 => Reg::Gpr11,
        12 => Reg::Gpr12,
        13 => Reg::Gpr13,
        14 => Reg::Gpr14,
        _ => Reg::Gpr15,
    }
}

/// The condition of a number; those on parity, 10 and 11, are left out.
#[tactic(auto, unfolding(crate::specs::Reading::cond_of))]
fn condition(n: u8) -> Option<Cond>
    ensures { result ≡ cond_of n }
{
    match n {
        0 => Some(Cond::O),
        1 => Some(Cond::No),
        2 => Some(Cond::B),
        3 => Some(Cond::Ae),
        4 => Some(Cond::E),
        5 => Some(Cond::Ne),
        6 => Some(Cond::Be),
        7 => Some(Cond::A),
        8 => Some(Cond::S),
        9 => Some(Cond::Ns),
        12 => Some(Cond::L),
        13 => Some(Cond::Ge),
        14 => Some(Cond::Le),
        15 => Some(Cond::G),
        _ => None,
    }
}

#[tactic(auto, unfolding(crate::specs::Reading::alu_of_opcode))]
fn operation(opcode: u8) -> Option<AluOp>
    ensures { result ≡ alu_of_opcode opcode }
{
    match opcode {
        0x01 => Some(AluOp::Add),
        0x09 => Some(AluOp::Or),
        0x21 => Some(AluOp::And),
        0x29 => Some(AluOp::Sub),
        0x31 => Some(AluOp::Xor),
        0x39 => Some(AluOp::Cmp),
        _ => None,
    }
}

#[tactic(auto, unfolding(crate::specs::Reading::alu_of_extension))]
fn operation_by_extension(x: u8) -> Option<AluOp>
    ensures { result ≡ alu_of_extension x }
{
    match x {
        0 => Some(AluOp::Add),
        1 => Some(AluOp::Or),
        4 => Some(AluOp::And),
        5 => Some(AluOp::Sub),
        6 => Some(AluOp::Xor),
        7 => Some(AluOp::Cmp),
        _ => None,
    }
}

#[tactic(auto, unfolding(crate::specs::Reading::shift_of_extension))]
fn shift(x: u8) -> Option<ShiftOp>
    ensures { result ≡ shift_of_extension x }
{
    match x {
        4 => Some(ShiftOp::Shl),
        5 => Some(ShiftOp::Shr),
        7 => Some(ShiftOp::Sar),
        _ => None,
    }
}

#[tactic(auto, unfolding(crate::specs::Reading::number_4))]
fn number_of_4(bytes: &[u8]) -> Option<(u32, &[u8])>
    ensures { MatchOption result (number_4 bytes.now ≡ None) (λ r. number_4 bytes.now ≡ Some (r.0, r.1.now)) }
{
    match bytes {
        [a, b, c, d, rest @ ..] => Some((u32::from_le_bytes([*a, *b, *c, *d]), rest)),
        _ => None,
    }
}

#[tactic(auto, unfolding(crate::specs::Reading::number_8))]
fn number_of_8(bytes: &[u8]) -> Option<(u64, &[u8])>
    ensures { MatchOption result (number_8 bytes.now ≡ None) (λ r. number_8 bytes.now ≡ Some (r.0, r.1.now)) }
{
    match bytes {
        [a, b, c, d, e, f, g, h, rest @ ..] => {
            Some((u64::from_le_bytes([*a, *b, *c, *d, *e, *f, *g, *h]), rest))
        }
        _ => None,
    }
}

#[tactic(auto, unfolding(crate::specs::Reading::signed_at))]
fn signed(bytes: &[u8]) -> Option<(i32, &[u8])>
    ensures { MatchOption result (signed_at bytes.now ≡ None) (λ r. signed_at bytes.now ≡ Some (r.0, r.1.now)) }
{
    let Some((n, rest)) = number_of_4(bytes) else {
        return None;
    };
    Some((n.cast_signed(), rest))
}

#[tactic(auto, unfolding(crate::specs::Reading::shift_by_number))]
fn shift_by(x: u8, y: u8, bytes: &[u8]) -> Option<(Instr, &[u8])>
    ensures { MatchOption result (shift_by_number x y bytes.now ≡ None) (λ r. shift_by_number x y bytes.now ≡ Some (r.0, r.1.now)) }
{
    let [count, rest @ ..] = bytes else {
        return None;
    };
    let Some(op) = shift(x) else {
        return None;
    };
    if 1 <= *count && *count <= 63 {
        return Some((
            Instr::ShiftImm {
                op,
                r: register(y),
                count: *count,
            },
            rest,
        ));
    }
    None
}

#[tactic(auto, unfolding(crate::specs::Reading::unary_form))]
fn unary(x: u8, y: u8, rest: &[u8]) -> Option<(Instr, &[u8])>
    ensures { MatchOption result (unary_form x y rest.now ≡ None) (λ r. unary_form x y rest.now ≡ Some (r.0, r.1.now)) }
{
    let r = register(y);
    match x {
        2 => Some((Instr::Not { r }, rest)),
        3 => Some((Instr::Neg { r }, rest)),
        7 => Some((Instr::Idiv { r }, rest)),
        _ => None,
    }
}

/// An opcode of one byte with REX.W, its registers and what stands behind them.
#[tactic(auto, unfolding(crate::specs::Reading::wide_form))]
fn wide_instruction(opcode: u8, x: u8, y: u8, rest: &[u8]) -> Option<(Instr, &[u8])>
    ensures { MatchOption result (wide_form opcode x y rest.now ≡ None) (λ r. wide_form opcode x y rest.now ≡ Some (r.0, r.1.now)) }
{
    match opcode {
        0x85 => Some((
            Instr::Test {
                a: register(y),
                b: register(x),
            },
            rest,
        )),
        0x63 => Some((
            Instr::Movsxd {
                dst: register(x),
                src: register(y),
            },
            rest,
        )),
        0xf7 => unary(x, y, rest),
        0xc1 => shift_by(x, y, rest),
        0xd3 => {
            let Some(op) = shift(x) else {
                return None;
            };
            Some((Instr::ShiftCl { op, r: register(y) }, rest))
        }
        0xc7 => move_signed(x, y, rest),
        0x81 => operation_by_number(x, y, rest),
        _ => {
            let Some(op) = operation(opcode) else {
                return None;
            };
            Some((
                Instr::Alu {
                    op,
                    dst: register(y),
                    src: register(x),
                },
                rest,
            ))
        }
    }
}

#[tactic(auto, unfolding(crate::specs::Reading::move_signed_form))]
fn move_signed(x: u8, y: u8, bytes: &[u8]) -> Option<(Instr, &[u8])>
    ensures { MatchOption result (move_signed_form x y bytes.now ≡ None) (λ r. move_signed_form x y bytes.now ≡ Some (r.0, r.1.now)) }
{
    if x != 0 {
        return None;
    }
    let Some((imm, rest)) = signed(bytes) else {
        return None;
    };
    Some((
        Instr::MovImmS {
            dst: register(y),
            imm,
        },
        rest,
    ))
}

#[tactic(auto, unfolding(crate::specs::Reading::alu_by_number))]
fn operation_by_number(x: u8, y: u8, bytes: &[u8]) -> Option<(Instr, &[u8])>
    ensures { MatchOption result (alu_by_number x y bytes.now ≡ None) (λ r. alu_by_number x y bytes.now ≡ Some (r.0, r.1.now)) }
{
    let Some(op) = operation_by_extension(x) else {
        return None;
    };
    let Some((imm, rest)) = signed(bytes) else {
        return None;
    };
    Some((
        Instr::AluImm {
            op,
            dst: register(y),
            imm,
        },
        rest,
    ))
}

#[tactic(auto, unfolding(crate::specs::Reading::narrow_form))]
fn narrow_instruction(opcode: u8, x: u8, y: u8, rest: &[u8]) -> Option<(Instr, &[u8])>
    ensures { MatchOption result (narrow_form opcode x y rest.now ≡ None) (λ r. narrow_form opcode x y rest.now ≡ Some (r.0, r.1.now)) }
{
    if opcode == 0xff && y == 10 {
        if x == 4 {
            return Some((Instr::JmpR10, rest));
        }
        if x == 2 {
            return Some((Instr::CallR10, rest));
        }
    }
    None
}

#[tactic(auto, unfolding(crate::specs::Reading::one_byte))]
fn one_byte_instruction(wide: bool, opcode: u8, x: u8, y: u8, rest: &[u8]) -> Option<(Instr, &[u8])>
    ensures { MatchOption result (one_byte wide opcode x y rest.now ≡ None) (λ r. one_byte wide opcode x y rest.now ≡ Some (r.0, r.1.now)) }
{
    if opcode == 0x89 {
        return Some((
            Instr::Mov {
                wide,
                dst: register(y),
                src: register(x),
            },
            rest,
        ));
    }
    if wide {
        wide_instruction(opcode, x, y, rest)
    } else {
        narrow_instruction(opcode, x, y, rest)
    }
}

#[tactic(auto, unfolding(crate::specs::Reading::two_byte))]
fn two_byte_instruction(wide: bool, opcode: u8, x: u8, y: u8, rest: &[u8]) -> Option<(Instr, &[u8])>
    ensures { MatchOption result (two_byte wide opcode x y rest.now ≡ None) (λ r. two_byte wide opcode x y rest.now ≡ Some (r.0, r.1.now)) }
{
    if wide {
        wide_two_byte(opcode, x, y, rest)
    } else {
        set_byte(opcode, x, y, rest)
    }
}

#[tactic(auto, unfolding(crate::specs::Reading::wide_two_byte_form))]
fn wide_two_byte(opcode: u8, x: u8, y: u8, rest: &[u8]) -> Option<(Instr, &[u8])>
    ensures { MatchOption result (wide_two_byte_form opcode x y rest.now ≡ None) (λ r. wide_two_byte_form opcode x y rest.now ≡ Some (r.0, r.1.now)) }
{
    match opcode {
        0xaf => Some((
            Instr::Imul {
                dst: register(x),
                src: register(y),
            },
            rest,
        )),
        0xb6 => Some((
            Instr::Movzx8 {
                dst: register(x),
                src: register(y),
            },
            rest,
        )),
        0xbe => Some((
            Instr::Movsx8 {
                dst: register(x),
                src: register(y),
            },
            rest,
        )),
        _ => {
            if opcode / 16 != 4 {
                return None;
            }
            let Some(cc) = condition(opcode % 16) else {
                return None;
            };
            Some((
                Instr::Cmov {
                    cc,
                    dst: register(x),
                    src: register(y),
                },
                rest,
            ))
        }
    }
}

#[tactic(auto, unfolding(crate::specs::Reading::set_byte_form))]
fn set_byte(opcode: u8, x: u8, y: u8, rest: &[u8]) -> Option<(Instr, &[u8])>
    ensures { MatchOption result (set_byte_form opcode x y rest.now ≡ None) (λ r. set_byte_form opcode x y rest.now ≡ Some (r.0, r.1.now)) }
{
    if opcode / 16 != 9 || x != 0 {
        return None;
    }
    let Some(cc) = condition(opcode % 16) else {
        return None;
    };
    Some((Instr::Setcc { cc, r: register(y) }, rest))
}

/// ModRM of two registers, with the high bits that REX gives.
#[tactic(auto, unfolding(crate::specs::Reading::registers_at))]
fn registers(hx: u8, hy: u8, bytes: &[u8]) -> Option<(u8, u8, &[u8])>
    requires x { hx < 2 }
    requires y { hy < 2 }
    ensures { MatchOption result (registers_at hx hy bytes.now ≡ None) (λ r. registers_at hx hy bytes.now ≡ Some (r.0, r.1, r.2.now)) }
{
    let [modrm, rest @ ..] = bytes else {
        return None;
    };
    if *modrm / 64 != 3 {
        return None;
    }
    Some((8 * hx + *modrm / 8 % 8, 8 * hy + *modrm % 8, rest))
}

#[tactic(auto, unfolding(crate::specs::Reading::number_form))]
fn move_number(wide: bool, y: u8, bytes: &[u8]) -> Option<(Instr, &[u8])>
    ensures { MatchOption result (number_form wide y bytes.now ≡ None) (λ r. number_form wide y bytes.now ≡ Some (r.0, r.1.now)) }
{
    if wide {
        let Some((imm, rest)) = number_of_8(bytes) else {
            return None;
        };
        Some((
            Instr::MovImm64 {
                dst: register(y),
                imm,
            },
            rest,
        ))
    } else {
        let Some((imm, rest)) = number_of_4(bytes) else {
            return None;
        };
        Some((
            Instr::MovImm32 {
                dst: register(y),
                imm,
            },
            rest,
        ))
    }
}

/// Behind REX and 0F.
#[tactic(auto, unfolding(crate::specs::Reading::escaped))]
fn behind_escape(wide: bool, hx: u8, hy: u8, bytes: &[u8]) -> Option<(Instr, &[u8])>
    requires x { hx < 2 }
    requires y { hy < 2 }
    ensures { MatchOption result (escaped wide hx hy bytes.now ≡ None) (λ r. escaped wide hx hy bytes.now ≡ Some (r.0, r.1.now)) }
{
    let [opcode, rest @ ..] = bytes else {
        return None;
    };
    let Some((x, y, rest)) = registers(hx, hy, rest) else {
        return None;
    };
    two_byte_instruction(wide, *opcode, x, y, rest)
}

/// Behind REX.
#[inline(always)]
#[tactic(auto, unfolding(crate::specs::Reading::after_rex))]
fn behind_rex(wide: bool, hx: u8, hy: u8, bytes: &[u8]) -> Option<(Instr, &[u8])>
    requires x { hx < 2 }
    requires y { hy < 2 }
    ensures { MatchOption result (after_rex wide hx hy bytes.now ≡ None) (λ r. after_rex wide hx hy bytes.now ≡ Some (r.0, r.1.now)) }
{
    let [opcode, rest @ ..] = bytes else {
        return None;
    };
    let opcode = *opcode;
    if opcode == 0x0f {
        return behind_escape(wide, hx, hy, rest);
    }
    if opcode / 8 == 0x17 {
        if hx != 0 {
            return None;
        }
        return move_number(wide, 8 * hy + opcode % 8, rest);
    }
    if opcode == 0x99 {
        if wide && hx == 0 && hy == 0 {
            return Some((Instr::Cqo, rest));
        }
        return None;
    }
    let Some((x, y, rest)) = registers(hx, hy, rest) else {
        return None;
    };
    one_byte_instruction(wide, opcode, x, y, rest)
}

#[tactic(auto, unfolding(crate::specs::Reading::displaced))]
fn displacement(seg: Seg, x: u8, base: u8, bytes: &[u8]) -> Option<(u8, Mem, &[u8])>
    ensures { MatchOption result (displaced seg x base bytes.now ≡ None) (λ r. displaced seg x base bytes.now ≡ Some (r.0, r.1, r.2.now)) }
{
    let Some((disp, rest)) = signed(bytes) else {
        return None;
    };
    Some((
        x,
        Mem {
            seg,
            base: register(base),
            disp,
        },
        rest,
    ))
}

#[tactic(auto, unfolding(crate::specs::Reading::indexed))]
fn behind_sib(seg: Seg, x: u8, base: u8, bytes: &[u8]) -> Option<(u8, Mem, &[u8])>
    ensures { MatchOption result (indexed seg x base bytes.now ≡ None) (λ r. indexed seg x base bytes.now ≡ Some (r.0, r.1, r.2.now)) }
{
    let [sib, rest @ ..] = bytes else {
        return None;
    };
    if *sib != 0x24 {
        return None;
    }
    displacement(seg, x, base, rest)
}

/// A memory operand, and the number in the field reg.
#[tactic(auto, unfolding(crate::specs::Reading::operand_at))]
fn operand(seg: Seg, hx: u8, hy: u8, bytes: &[u8]) -> Option<(u8, Mem, &[u8])>
    requires x { hx < 2 }
    requires y { hy < 2 }
    ensures { MatchOption result (operand_at seg hx hy bytes.now ≡ None) (λ r. operand_at seg hx hy bytes.now ≡ Some (r.0, r.1, r.2.now)) }
{
    let [modrm, rest @ ..] = bytes else {
        return None;
    };
    let modrm = *modrm;
    if modrm / 64 != 2 {
        return None;
    }
    let x = 8 * hx + modrm / 8 % 8;
    let base = 8 * hy + modrm % 8;
    if modrm % 8 == 4 {
        behind_sib(seg, x, base, rest)
    } else {
        displacement(seg, x, base, rest)
    }
}

#[tactic(auto, unfolding(crate::specs::Reading::access_form))]
fn access_instruction(
    wide: bool,
    opcode: u8,
    x: u8,
    mem: Mem,
    rest: &[u8],
) -> Option<(Instr, &[u8])>
    ensures { MatchOption result (access_form wide opcode x mem rest.now ≡ None) (λ r. access_form wide opcode x mem rest.now ≡ Some (r.0, r.1.now)) }
{
    if opcode == 0x8b {
        return Some((
            Instr::Load {
                wide,
                dst: register(x),
                mem,
            },
            rest,
        ));
    }
    if opcode == 0x89 {
        let width = if wide { Width::B8 } else { Width::B4 };
        return Some((
            Instr::Store {
                width,
                mem,
                src: register(x),
            },
            rest,
        ));
    }
    if wide {
        if opcode == 0x63 {
            return Some((
                Instr::LoadSx32 {
                    dst: register(x),
                    mem,
                },
                rest,
            ));
        }
        return None;
    }
    if opcode == 0x88 {
        return Some((
            Instr::Store {
                width: Width::B1,
                mem,
                src: register(x),
            },
            rest,
        ));
    }
    None
}

#[tactic(auto, unfolding(crate::specs::Reading::byte_form))]
fn byte_load(wide: bool, opcode: u8, x: u8, mem: Mem, rest: &[u8]) -> Option<(Instr, &[u8])>
    ensures { MatchOption result (byte_form wide opcode x mem rest.now ≡ None) (λ r. byte_form wide opcode x mem rest.now ≡ Some (r.0, r.1.now)) }
{
    if wide {
        if opcode == 0xb6 {
            return Some((
                Instr::LoadZx8 {
                    dst: register(x),
                    mem,
                },
                rest,
            ));
        }
        if opcode == 0xbe {
            return Some((
                Instr::LoadSx8 {
                    dst: register(x),
                    mem,
                },
                rest,
            ));
        }
    }
    None
}

#[tactic(auto, unfolding(crate::specs::Reading::escaped_access))]
fn behind_access_escape(
    seg: Seg,
    wide: bool,
    hx: u8,
    hy: u8,
    bytes: &[u8],
) -> Option<(Instr, &[u8])>
    requires x { hx < 2 }
    requires y { hy < 2 }
    ensures { MatchOption result (escaped_access seg wide hx hy bytes.now ≡ None) (λ r. escaped_access seg wide hx hy bytes.now ≡ Some (r.0, r.1.now)) }
{
    let [opcode, rest @ ..] = bytes else {
        return None;
    };
    let Some((x, mem, rest)) = operand(seg, hx, hy, rest) else {
        return None;
    };
    byte_load(wide, *opcode, x, mem, rest)
}

/// An access to memory, behind its prefixes and REX.
#[inline(always)]
#[tactic(auto, unfolding(crate::specs::Reading::access_at))]
fn access(seg: Seg, wide: bool, hx: u8, hy: u8, bytes: &[u8]) -> Option<(Instr, &[u8])>
    requires x { hx < 2 }
    requires y { hy < 2 }
    ensures { MatchOption result (access_at seg wide hx hy bytes.now ≡ None) (λ r. access_at seg wide hx hy bytes.now ≡ Some (r.0, r.1.now)) }
{
    let [opcode, rest @ ..] = bytes else {
        return None;
    };
    if *opcode == 0x0f {
        return behind_access_escape(seg, wide, hx, hy, rest);
    }
    let Some((x, mem, rest)) = operand(seg, hx, hy, rest) else {
        return None;
    };
    access_instruction(wide, *opcode, x, mem, rest)
}

/// Behind the prefix of a segment.
#[inline(always)]
#[tactic(auto, unfolding(crate::specs::Reading::segment_at))]
fn behind_segment(seg: Seg, bytes: &[u8]) -> Option<(Instr, &[u8])>
    ensures { MatchOption result (segment_at seg bytes.now ≡ None) (λ r. segment_at seg bytes.now ≡ Some (r.0, r.1.now)) }
{
    let [prefix, rex, rest @ ..] = bytes else {
        return None;
    };
    let b = *rex;
    if *prefix == 0x67 && b / 16 == 4 && b / 2 % 2 == 0 {
        return access(seg, b / 8 % 2 == 1, b / 4 % 2, b % 2, rest);
    }
    None
}

/// The comparison of a check unit, behind its first byte.
#[tactic(auto, unfolding(crate::specs::Reading::comparison_at))]
fn comparison(bytes: &[u8]) -> Option<(Instr, &[u8])>
    ensures { MatchOption result (comparison_at bytes.now ≡ None) (λ r. comparison_at bytes.now ≡ Some (r.0, r.1.now)) }
{
    let [a, b, c, d, e, f, g, rest @ ..] = bytes else {
        return None;
    };
    if *a == 0x4d && *b == 0x3b && *c == 0x9a && *d == 0 && *e == 0 && *f == 0 && *g == 0 {
        return Some((Instr::CmpFlat, rest));
    }
    None
}

/// Behind 0F with no REX.
#[tactic(auto, unfolding(crate::specs::Reading::control_at))]
fn control(bytes: &[u8]) -> Option<(Instr, &[u8])>
    ensures { MatchOption result (control_at bytes.now ≡ None) (λ r. control_at bytes.now ≡ Some (r.0, r.1.now)) }
{
    let [opcode, rest @ ..] = bytes else {
        return None;
    };
    let opcode = *opcode;
    if opcode == 0x0b {
        return Some((Instr::Ud2, rest));
    }
    if opcode / 16 != 8 {
        return None;
    }
    let Some(cc) = condition(opcode % 16) else {
        return None;
    };
    let Some((rel, rest)) = signed(rest) else {
        return None;
    };
    Some((Instr::Jcc { cc, rel }, rest))
}

/// The instruction that the bytes begin with, and the bytes behind it.
#[inline(always)]
#[tactic(auto, unfolding(crate::specs::Reading::read))]
fn instruction(bytes: &[u8]) -> Option<(Instr, &[u8])>
    ensures { MatchOption result (read bytes.now ≡ None) (λ r. read bytes.now ≡ Some (r.0, r.1.now)) }
{
    let [b, rest @ ..] = bytes else {
        return None;
    };
    let b = *b;
    if b / 16 == 4 {
        if b / 2 % 2 != 0 {
            return None;
        }
        return behind_rex(b / 8 % 2 == 1, b / 4 % 2, b % 2, rest);
    }
    match b {
        0x64 => behind_segment(Seg::Fs, rest),
        0x65 => behind_segment(Seg::Gs, rest),
        0x0f => control(rest),
        0xe9 => jump(rest),
        0xe8 => call(rest),
        0x90 => Some((Instr::Nop, rest)),
        0x67 => comparison(rest),
        _ => None,
    }
}

#[tactic(auto, unfolding(crate::specs::Reading::jump_at))]
fn jump(bytes: &[u8]) -> Option<(Instr, &[u8])>
    ensures { MatchOption result (jump_at bytes.now ≡ None) (λ r. jump_at bytes.now ≡ Some (r.0, r.1.now)) }
{
    let Some((rel, rest)) = signed(bytes) else {
        return None;
    };
    Some((Instr::Jmp { rel }, rest))
}

#[tactic(auto, unfolding(crate::specs::Reading::call_at))]
fn call(bytes: &[u8]) -> Option<(Instr, &[u8])>
    ensures { MatchOption result (call_at bytes.now ≡ None) (λ r. call_at bytes.now ≡ Some (r.0, r.1.now)) }
{
    let Some((rel, rest)) = signed(bytes) else {
        return None;
    };
    Some((Instr::Call { rel }, rest))
}

/// The bytes from a place on; none past the end.
fn bytes_from(code: &[u8], at: usize) -> &[u8]
    ensures { result.now ≡ drop at code.now }
{
    if at < code.len() { &code[at..] } else { &[] }
}

/// The instruction that stands at a place of the code, and how many bytes it has. None exactly where no row of the
/// table fits there. Any place is fine; past the end there is no instruction.
#[inline(always)]
pub fn decode(code: &[u8], at: usize) -> Option<(Instr, u8)>
    // What the reading of the bytes there gives.
    ensures exact { result ≡ option_map (λ i. (i, length (spelling i))) (instruction_at (drop at code.now)) }
    // What is answered is spelled there,
    ensures found { IfSome result (λ r. Spells (drop at code.now) r.0) }
    // and what is spelled there is answered.
    ensures only { (i : Instr) → Spells (drop at code.now) i → result ≡ Some (i, length (spelling i)) }
    // It lies in the code.
    ensures inside { IfSome result (λ r. (0 < r.1) × (at + r.1 ≤ length code.now)) }
{
    let bytes = bytes_from(code, at);
    let Some((i, rest)) = instruction(bytes) else {
        return None;
    };
    Some((i, (bytes.len() - rest.len()) as u8))
}

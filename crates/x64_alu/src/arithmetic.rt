//! Results and flags of the arithmetic instructions, and the conditions.
//!
//! A word is a number below 2^64, and a signed word is one by two's complement.

ghost use Rattle.std.specs.Prelude.{◌≡◌, not, if◌then◌else◌};
ghost use Rattle.cv_word.specs.Arithmetic.{is_negative, same_sign, flags_of, added, flags_added, subtracted, flags_subtracted, flags_of_bits, negated, flags_negated, multiplied, shifted_signed, signs_of};
ghost use Rattle.x64_alu.specs.CoreStep.{holds, alu_result, alu_flags, shift_result};

use cv_word::Flags;
use x64_decode::{AluOp, Cond, ShiftOp};

/// The first word that is negative.
const SIGN: u64 = 0x8000_0000_0000_0000;

/// ADD, OR, AND, SUB, XOR or CMP of two words: its result, which CMP computes too, and its flags.
#[tactic(auto, unfolding(crate::specs::CoreStep::alu_result, crate::specs::CoreStep::alu_flags))]
pub fn alu(op: AluOp, a: u64, b: u64) -> (u64, Flags)
    ensures value { result.0 ≡ alu_result op a b }
    ensures flags { result.1 ≡ alu_flags op a b }
{
    match op {
        AluOp::Add => add(a, b),
        AluOp::Or => bits(a | b),
        AluOp::And => bits(a & b),
        AluOp::Sub => subtract(a, b),
        AluOp::Xor => bits(a ^ b),
        AluOp::Cmp => subtract(a, b),
    }
}

/// NEG of a word, and its flags.
pub fn negate(a: u64) -> (u64, Flags)
    ensures value { result.0 ≡ negated a }
    ensures flags { result.1 ≡ flags_negated a }
{
    let negative = 0u64.wrapping_sub(a);
    (negative, make_flags(negative, a != 0, a == SIGN))
}

/// SHL, SHR or SAR of a word by `count` modulo 64.
#[tactic(auto, unfolding(crate::specs::CoreStep::shift_result))]
pub fn shift(op: ShiftOp, a: u64, count: u8) -> u64
    ensures { result ≡ shift_result op a count }
{
    match op {
        ShiftOp::Shl => a.wrapping_shl(count as u32),
        ShiftOp::Shr => a.wrapping_shr(count as u32),
        ShiftOp::Sar => shift_signed(a, count),
    }
}

/// IMUL of two words: the low 64 bits of the product.
pub fn multiply(a: u64, b: u64) -> u64
    ensures { result ≡ multiplied a b }
{
    a.wrapping_mul(b)
}

/// Whether a condition holds.
#[tactic(auto, unfolding(crate::specs::CoreStep::holds))]
pub fn holds(c: Cond, f: Flags) -> bool
    ensures { result ≡ holds c f }
{
    match c {
        Cond::O => f.of,
        Cond::No => !f.of,
        Cond::B => f.cf,
        Cond::Ae => !f.cf,
        Cond::E => f.zf,
        Cond::Ne => !f.zf,
        Cond::Be => f.cf || f.zf,
        Cond::A => !(f.cf || f.zf),
        Cond::S => f.sf,
        Cond::Ns => !f.sf,
        Cond::L => differ(f),
        Cond::Ge => !differ(f),
        Cond::Le => f.zf || differ(f),
        Cond::G => !f.zf && !differ(f),
    }
}

/// CQO: all bits of the answer are the sign of `a`.
pub(crate) fn signs(a: u64) -> u64
    ensures { result ≡ signs_of a }
{
    if negative(a) { u64::MAX } else { 0 }
}

/// The flags of a result of AND, OR, XOR or TEST, beside that result.
pub(crate) fn bits(word: u64) -> (u64, Flags)
    ensures value { result.0 ≡ word }
    ensures flags { result.1 ≡ flags_of_bits word }
{
    (word, make_flags(word, false, false))
}

/// SUB and CMP.
pub(crate) fn subtract(a: u64, b: u64) -> (u64, Flags)
    ensures value { result.0 ≡ subtracted a b }
    ensures flags { result.1 ≡ flags_subtracted a b }
{
    let difference = a.wrapping_sub(b);
    let overflow = !equal_signs(a, b) && !equal_signs(a, difference);
    (difference, make_flags(difference, a < b, overflow))
}

/// ADD.
fn add(a: u64, b: u64) -> (u64, Flags)
    ensures value { result.0 ≡ added a b }
    ensures flags { result.1 ≡ flags_added a b }
{
    let sum = a.wrapping_add(b);
    let overflow = equal_signs(a, b) && !equal_signs(a, sum);
    (sum, make_flags(sum, sum < a, overflow))
}

/// SAR.
fn shift_signed(a: u64, count: u8) -> u64
    ensures { result ≡ shifted_signed a count }
{
    if negative(a) {
        u64::MAX - (u64::MAX - a).wrapping_shr(count as u32)
    } else {
        a.wrapping_shr(count as u32)
    }
}

/// Whether SF and OF differ: the smaller of two signed words was on the left of a comparison.
fn differ(f: Flags) -> bool
    ensures { result ≡ (if f.sf then not f.of else f.of) }
{
    if f.sf { !f.of } else { f.of }
}

fn negative(a: u64) -> bool
    ensures { result ≡ is_negative a }
{
    SIGN <= a
}

fn equal_signs(a: u64, b: u64) -> bool
    ensures { result ≡ same_sign a b }
{
    if negative(a) {
        negative(b)
    } else {
        !negative(b)
    }
}

fn make_flags(word: u64, carry: bool, overflow: bool) -> Flags
    ensures { result ≡ flags_of word carry overflow }
{
    Flags {
        zf: word == 0,
        sf: negative(word),
        cf: carry,
        of: overflow,
    }
}

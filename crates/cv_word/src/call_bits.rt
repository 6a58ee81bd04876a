//! The bits of a call word and of a gate.

ghost use Rattle.std.specs.Prelude.{◌≡◌, ◌<◌, ◌≤◌};
ghost use Rattle.cv_word.specs.CallBits.{may_pass_private, result_bit_of};

/// Whether a caller may leave the argument of a number private: 0 is rdi, 1 rsi, 2 rdx and 3 rcx.
pub fn may_pass_private(bits: u8, argument: u32) -> bool
    requires { argument < 4 }
    ensures { result ≡ may_pass_private bits argument }
{
    bits >> argument & 1 == 1
}

/// The bit of a result: 1 where the result in rax may be private, else 0.
pub fn result_bit(bits: u8) -> u8
    ensures bit { result ≡ result_bit_of bits }
    ensures small { result ≤ 1 }
{
    bits >> 4 & 1
}

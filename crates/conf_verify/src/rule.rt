//! The rules that an image may break.

/// A rule, by its name.
#[derive(Clone, Copy, Debug, PartialEq, Eq)]
pub enum Rule {
    /// The bytes have the form of an image.
    V1,
    /// The code is one chain of items.
    V2,
    /// The first item is a call word, and a procedure ends with JMP, UD2 or a return unit.
    V3,
    /// The prefix occurs in words alone.
    V4,
    /// A call stands before a return word of the callee's result bit, and a return word behind a call.
    V5,
    /// A jump stays in its procedure, and goes to no word.
    V6,
    /// A call goes to a procedure or a gate.
    V7,
    /// A return unit has the bit of its procedure.
    V8,
    /// Each entry stands behind a call word.
    V9,
    /// The address of an access to memory is public, and the register of a call unit.
    V10,
    /// A store to the public segment is of a public register.
    V11,
    /// A branch is on public flags.
    V12,
    /// The operands of a division are public.
    V13,
    /// The stack pointer stays public.
    V14,
    /// The arguments of a call are as public as the callee's bits say.
    V15,
    /// What a return unit of bit 0 returns is public.
    V16,
}

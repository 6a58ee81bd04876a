//! The gates: services at fixed addresses that code may call.

ghost use Rattle.std.specs.Prelude.{◌≡◌};
ghost use Rattle.cv_word.specs.Gates.{bits_of, gate_at, gate_bits, gate_of};

/// The flat address of the first gate. Gate k stands 16 k bytes further.
const FIRST_GATE: u64 = 0x1000;

/// A gate. Their numbers are 0 to 12 in this order.
#[derive(Clone, Copy, Debug, PartialEq, Eq)]
pub enum Gate {
    /// The run ends, with the low 32 bits of rdi as its status.
    Exit,
    /// This core ends.
    CoreEnd,
    /// The next bytes of the public input are copied to public memory.
    PubIn,
    /// Public bytes are appended to the public output.
    PubOut,
    /// The next bytes of the private input are copied to private memory.
    PrivIn,
    /// Private bytes are appended to the private output.
    PrivOut,
    /// The next 8 bytes of the private input are answered.
    PrivGet,
    /// 8 bytes are appended to the private output.
    PrivPut,
    /// A block of the public heap is taken.
    PubAlloc,
    /// A block of the private heap is taken.
    PrivAlloc,
    /// A block of the public heap is given back.
    PubFree,
    /// A block of the private heap is given back.
    PrivFree,
    /// Private bytes are handed to a releaser, whose answer is written to public memory and to the audit.
    Release,
}

/// What the caller of a gate passes.
#[derive(Clone, Copy, Debug, PartialEq, Eq)]
pub struct Arguments {
    /// rdi
    pub first: u64,
    /// rsi
    pub second: u64,
    /// rdx
    pub third: u64,
    /// rcx
    pub fourth: u64,
}

/// The gates by number.
const GATES: [Gate; 13] = [
    Gate::Exit,
    Gate::CoreEnd,
    Gate::PubIn,
    Gate::PubOut,
    Gate::PrivIn,
    Gate::PrivOut,
    Gate::PrivGet,
    Gate::PrivPut,
    Gate::PubAlloc,
    Gate::PrivAlloc,
    Gate::PubFree,
    Gate::PrivFree,
    Gate::Release,
];

impl Gate {
    /// The gate at a flat address, if one stands there.
    pub fn at(address: u64) -> Option<Gate>
        ensures { result ≡ gate_at address }
    {
        if FIRST_GATE <= address && (address - FIRST_GATE) % 16 == 0 {
            gate_of((address - FIRST_GATE) / 16)
        } else {
            None
        }
    }

    /// What a caller may leave private, as in a call word: bits 0 to 3 for rdi, rsi, rdx and rcx, bit 4 for
    /// the result in rax.
    pub fn bits(self) -> u8
        ensures { result ≡ bits_of self }
    {
        match self {
            Gate::Exit => 0x0e,
            Gate::CoreEnd => 0x0f,
            Gate::PubIn => 0x0c,
            Gate::PubOut => 0x0c,
            Gate::PrivIn => 0x0c,
            Gate::PrivOut => 0x0c,
            Gate::PrivGet => 0x1f,
            Gate::PrivPut => 0x0f,
            Gate::PubAlloc => 0x0e,
            Gate::PrivAlloc => 0x0e,
            Gate::PubFree => 0x0e,
            Gate::PrivFree => 0x0e,
            Gate::Release => 0x00,
        }
    }
}

/// The gate of a number.
fn gate_of(number: u64) -> Option<Gate>
    ensures { result ≡ gate_of number }
{
    GATES.get(number as usize).copied()
}

/// For each gate by its number its bits.
const BITS: [u8; 13] = [
    0x0e, 0x0f, 0x0c, 0x0c, 0x0c, 0x0c, 0x1f, 0x0f, 0x0e, 0x0e, 0x0e, 0x0e, 0x00,
];

/// What a caller of a gate may leave private, as in a call word: bits 0 to 3 for rdi, rsi, rdx and rcx,
/// bit 4 for the result in rax. `None` exactly above 12.
pub fn gate_bits(number: u8) -> Option<u8>
    ensures { result ≡ gate_bits number }
{
    BITS.get(number as usize).copied()
}

//! Check units, by their bytes.

ghost use Rattle.std.specs.Prelude.{◌≡◌, ◌+◌, ◌*◌, ◌/◌, ◌%◌, ◌-◌, ◌<◌, ◌≤◌, ◌↔◌, ◌∷◌, ◌++◌, ℕ, IsTrue, false, IfSome, IfNone, length, take, drop, map};
ghost use Rattle.x64_decode.specs.declared.instr.Reg.{Reg};
ghost use Rattle.x64_decode.specs.Spelling.{rex, between};
ghost use Rattle.code_sweep.specs.Units.{inverse, check_then, return_unit, call_unit};
ghost use Rattle.magic_words.specs.MagicWords.{call_word, return_word};

use magic_words::{call_word, return_word};
use x64_decode::{Reg, register};

/// Each byte of a word inverted.
fn inverted(word: [u8; 8]) -> [u8; 8]
    ensures { result ≡ inverse word }
{
    let [a, b, c, d, e, f, g, h] = word;
    [
        255 - a,
        255 - b,
        255 - c,
        255 - d,
        255 - e,
        255 - f,
        255 - g,
        255 - h,
    ]
}

/// The bytes of the return unit with this bit.
fn return_unit_bytes(prefix: [u8; 6], bit: u8) -> [u8; 56]
    requires { bit < 2 }
    ensures { result ≡ return_unit prefix bit }
{
    let [a, b, c, d, e, f, g, h] = inverted(return_word(bit, prefix));
    [
        0x64, 0x67, 0x44, 0x8b, 0x94, 0x24, 0, 0, 0, 0, 0x48, 0x81, 0xc4, 8, 0, 0, 0, 0x49, 0xbb,
        a, b, c, d, e, f, g, h, 0x49, 0xf7, 0xd3, 0x67, 0x4d, 0x3b, 0x9a, 0, 0, 0, 0, 0x0f, 0x84,
        2, 0, 0, 0, 0x0f, 0x0b, 0x49, 0x81, 0xc2, 8, 0, 0, 0, 0x41, 0xff, 0xe2,
    ]
}

/// The bytes of the call unit of the register with this number, with these bits.
fn call_unit_bytes(prefix: [u8; 6], register: u8, bits: u8) -> [u8; 42]
    requires register { register < 16 }
    requires bits { bits < 32 }
    ensures { result ≡ rex false register 10 ∷ 0x89 ∷ between register 10 ∷ (check_then (call_word bits prefix) 0xd2) }
{
    let [a, b, c, d, e, f, g, h] = inverted(call_word(bits, prefix));
    [
        0x41 + 4 * (register / 8),
        0x89,
        0xc2 + 8 * (register % 8),
        0x49,
        0xbb,
        a,
        b,
        c,
        d,
        e,
        f,
        g,
        h,
        0x49,
        0xf7,
        0xd3,
        0x67,
        0x4d,
        0x3b,
        0x9a,
        0,
        0,
        0,
        0,
        0x0f,
        0x84,
        2,
        0,
        0,
        0,
        0x0f,
        0x0b,
        0x49,
        0x81,
        0xc2,
        8,
        0,
        0,
        0,
        0x41,
        0xff,
        0xd2,
    ]
}

/// Whether the bytes begin with these.
fn starts(bytes: &[u8], front: &[u8]) -> bool
    ensures { IsTrue result ↔ (take (length front.now) bytes.now ≡ front.now) }
{
    bytes.len() >= front.len() && &bytes[..front.len()] == front
}

/// The bit of the return unit that begins here, if one does.
pub fn return_unit_bit(bytes: &[u8], prefix: [u8; 6]) -> Option<u8>
    ensures found { IfSome result (λ bit. (bit < 2) × (take 56 bytes.now ≡ return_unit prefix bit)) }
    ensures none { IfNone result ((bit : ℕ) → bit < 2 → take 56 bytes.now ≡ return_unit prefix bit → ⊥) }
{
    if bytes.is_empty() || bytes[0] != 0x64 {
        return None;
    }
    if starts(bytes, &return_unit_bytes(prefix, 0)) {
        return Some(0);
    }
    if starts(bytes, &return_unit_bytes(prefix, 1)) {
        return Some(1);
    }
    None
}

/// The register and the bits of the call unit that begins here, if one does.
pub fn call_unit_parts(bytes: &[u8], prefix: [u8; 6]) -> Option<(Reg, u8)>
    ensures found { IfSome result (λ p. (p.1 < 32) × (take 42 bytes.now ≡ call_unit prefix p.0 p.1)) }
    ensures none { IfNone result ((r : Reg) (bits : ℕ) → bits < 32 → take 42 bytes.now ≡ call_unit prefix r bits → ⊥) }
{
    let [b, opcode, modrm, c, d, inverse, ..] = bytes else {
        return None;
    };
    if *opcode != 0x89 || *c != 0x49 || *d != 0xbb || *inverse < 224 {
        return None;
    }
    let number = 8 * (*b / 4 % 2) + *modrm / 8 % 8;
    let bits = 255 - *inverse;
    if starts(bytes, &call_unit_bytes(prefix, number, bits)) {
        Some((register(number), bits))
    } else {
        None
    }
}

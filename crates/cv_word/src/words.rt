//! Numbers as bytes, lowest byte first.

ghost use Rattle.std.specs.Prelude.{◌≡◌, ◌+◌, ◌≤◌, ◌<◌, ◌^◌, ◌⊎◌, length, take, drop, nat_lt, if◌then◌else◌};
ghost use Rattle.cv_word.specs.Words.{IsWidth, little_endian, spliced, word_bytes, sign_extended};

/// The 4 bytes of `b` at place `at`, as a number.
pub fn le32(b: &[u8], at: usize) -> u32
    requires { at + 4 ≤ length b.now }
    ensures { result ≡ little_endian (take 4 (drop at b.now)) }
{
    u32::from_le_bytes([b[at], b[at + 1], b[at + 2], b[at + 3]])
}

/// The 8 bytes of `b` at place `at`, as a number.
pub fn le64(b: &[u8], at: usize) -> u64
    requires { at + 8 ≤ length b.now }
    ensures { result ≡ little_endian (take 8 (drop at b.now)) }
{
    u64::from_le_bytes([
        b[at],
        b[at + 1],
        b[at + 2],
        b[at + 3],
        b[at + 4],
        b[at + 5],
        b[at + 6],
        b[at + 7],
    ])
}

/// Writes the low `width` bytes of `v` at place `at` of `out`. The width is 1, 4 or 8.
pub fn put_le(out: &mut [u8], at: usize, width: u8, v: u64)
    requires width { IsWidth width }
    requires room { at + width ≤ length out.old }
    ensures { out.new ≡ spliced out.old at (word_bytes width v) }
{
    let bytes = v.to_le_bytes();
    let end = at + width as usize;
    out[at..end].copy_from_slice(&bytes[..width as usize]);
}

/// The low `width` bytes of `v` as a signed number, in 64 bits. The width is 1, 4 or 8.
pub fn sext(v: u64, width: u8) -> u64
    requires { IsWidth width }
    ensures { result ≡ sign_extended width v }
{
    match width {
        1 => extend(v % 256, 128, u64::MAX - 255),
        4 => extend(v % 0x1_0000_0000, 0x8000_0000, u64::MAX - 0xffff_ffff),
        _ => v,
    }
}

/// `low`, or, from `half` on, `low` with all bits above it set.
fn extend(low: u64, half: u64, above: u64) -> u64
    requires { low + above < 2 ^ 64 }
    ensures { result ≡ (if nat_lt low half then low else low + above) }
{
    if low < half { low } else { low + above }
}

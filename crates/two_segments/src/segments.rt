//! The memory that all cores share: the code, and two segments that never meet.
//!
//! A segment is a buffer of all its bytes, by offset. An access that leaves its segment's mapped offsets is refused.

ghost use Rattle.std.specs.Prelude.{◌≡◌, ◌+◌, ◌-◌, ◌^◌, ◌<◌, ◌≤◌, ◌&&◌, true, nat_le, length, take, drop, replicate, is_some, IfOk};
ghost use Rattle.std.specs.Option.{unwrap_or};
ghost use Rattle.cv_word.specs.Words.{IsWidth, little_endian, spliced};
ghost use Rattle.cv_word.specs.MemoryMap.{code_base, is_mapped};
ghost use Rattle.cv_word.specs.Memory.{is_good, items_at, padded, range_read, range_written, start_memory};
ghost use Rattle.two_segments.specs.Access.{byte_count, flat_loaded, flat_stored, loaded, range_of, stored};

use cv_word::{CODE_BASE, NoMemory, PRIVATE_BASE, PUBLIC_BASE, copy_items, le32, le64, put_le};
use std::alloc::Global;
use std::marker::Model;
use x64_decode::{Seg, Width};

/// The first mapped offset of a segment.
const FIRST: usize = 4096;

/// The code and both segments, which have one size, at least 4,096 bytes.
#[derive(Drop)]
pub struct Segments<'a> {
    size: usize,
    code: &'a [u8],
    public: Vec<u8>,
    private: Vec<u8>,
}

impl<'a> Model for Segments<'a> {
    ghost use Rattle.cv_word.specs.Memory.{Memory};

    ghost Value = { Memory };

    ghost use Rattle.two_segments.specs.Buffers.{memory_of, IsBuffers};

    ghost view = { memory_of };

    ghost invariant = { IsBuffers };
}

impl<'a> Segments<'a> {
    /// Segments of `seg_size` bytes that begin with the start bytes from offset 4096 and are 0 elsewhere. The start
    /// bytes fit, and the code has at most 4,194,304 bytes.
    pub fn new(
        alloc: Global,
        seg_size: u32,
        code: &'a [u8],
        public: &[u8],
        private: &[u8],
    ) -> Result<Segments<'a>, NoMemory>
        requires public { 4096 + length public.now ≤ seg_size }
        requires private { 4096 + length private.now ≤ seg_size }
        requires code { length code.now ≤ 4194304 }
        ensures { IfOk result (λ s. s ≡ start_memory seg_size code.now public.now private.now) }
    {
        let size = seg_size as usize;
        Ok(Segments {
            size,
            code,
            public: fill(alloc, size, public)?,
            private: fill(alloc, size, private)?,
        })
    }

    /// How many bytes each segment has. Offsets from 4096 on and below it are mapped.
    pub fn size(&self) -> u32
        ensures value { result ≡ self.now.size }
        ensures least { 4096 ≤ result }
    {
        self.size as u32
    }

    /// The code, which has at most 4,194,304 bytes.
    pub fn code(&self) -> &'a [u8]
        ensures bytes { result.now ≡ self.now.code }
        ensures short { length result.now ≤ 4194304 }
    {
        self.code
    }

    /// The number in the bytes from an offset of a segment, lowest byte first. None exactly where one is unmapped.
    #[tactic(auto, unfolding(crate::specs::Access::loaded))]
    pub fn read(&self, seg: Seg, off: u32, w: Width) -> Option<u64>
        ensures { result ≡ loaded self.now seg off (byte_count w) }
    {
        let at = off as u64;
        if mapped(self.size, at, count(w)) {
            Some(match seg {
                Seg::Fs => word_at(&self.public, at as usize, w),
                Seg::Gs => word_at(&self.private, at as usize, w),
            })
        } else {
            None
        }
    }

    /// Writes the low bytes of `v` from an offset of a segment, lowest byte first. False exactly where one is unmapped;
    /// then nothing changes.
    #[tactic(auto, unfolding(crate::specs::Access::stored))]
    pub fn write(&mut self, seg: Seg, off: u32, w: Width, v: u64) -> bool
        ensures mapped { result ≡ is_some (stored self.old seg off (byte_count w) v) }
        ensures after { self.new ≡ unwrap_or (stored self.old seg off (byte_count w) v) self.old }
    {
        let at = off as u64;
        if mapped(self.size, at, count(w)) {
            match seg {
                Seg::Fs => put_le(&mut self.public, at as usize, count(w), v),
                Seg::Gs => put_le(&mut self.private, at as usize, count(w), v),
            }
            true
        } else {
            false
        }
    }

    /// Whether so many bytes from an offset are all mapped, or there are none. That is the same in both segments.
    pub fn is_good(&self, at: u64, len: u64) -> bool
        ensures { (seg : Seg) → result ≡ is_good self.now.size (range_of seg at len) }
    {
        len == 0 || mapped_range(self.size as u64, at, len)
    }

    /// So many bytes of a segment from an offset on, which are all mapped, or none.
    pub fn range(&self, seg: Seg, at: u64, len: u64) -> &[u8]
        requires { is_good self.now.size (range_of seg at len) ≡ true }
        ensures { result.now ≡ range_read self.now (range_of seg at len) }
    {
        match seg {
            Seg::Fs => bytes_at(&self.public, at, len),
            Seg::Gs => bytes_at(&self.private, at, len),
        }
    }

    /// Writes bytes to a segment from an offset on, where they are all mapped, or none.
    pub fn put_range(&mut self, seg: Seg, at: u64, bytes: &[u8])
        requires { is_good self.old.size (range_of seg at (length bytes.now)) ≡ true }
        ensures { self.new ≡ range_written self.old (range_of seg at (length bytes.now)) bytes.now }
    {
        match seg {
            Seg::Fs => put_bytes(&mut self.public, at, bytes),
            Seg::Gs => put_bytes(&mut self.private, at, bytes),
        }
    }

    /// Writes so many items of `source` from place `from` on to a segment from an offset on, zeros where `source` has no more. They
    /// are all mapped, or there are none.
    pub fn put_items(&mut self, seg: Seg, at: u64, len: u64, source: &[u8], from: u64)
        requires { is_good self.old.size (range_of seg at len) ≡ true }
        ensures { self.new ≡ range_written self.old (range_of seg at len) (items_at source.now from len) }
    {
        match seg {
            Seg::Fs => put_items(&mut self.public, at, len, source, from),
            Seg::Gs => put_items(&mut self.private, at, len, source, from),
        }
    }

    /// The 8 bytes at a flat address, lowest byte first. None exactly where they don't lie in one region that can be
    /// read: the code or a segment.
    #[tactic(auto, unfolding(crate::specs::Access::loaded, crate::specs::Access::flat_loaded))]
    pub fn flat_read(&self, at: u64) -> Option<u64>
        ensures { result ≡ flat_loaded self.now at }
    {
        if in_code(self.code, at) {
            Some(le64(self.code, (at - CODE_BASE) as usize))
        } else if in_segment(self.size, PUBLIC_BASE, at) {
            Some(le64(&self.public, (at - PUBLIC_BASE) as usize))
        } else if in_segment(self.size, PRIVATE_BASE, at) {
            Some(le64(&self.private, (at - PRIVATE_BASE) as usize))
        } else {
            None
        }
    }

    /// Writes `v` as 8 bytes at a flat address, lowest byte first. False exactly where they don't lie in one segment;
    /// then nothing changes.
    #[tactic(auto, unfolding(crate::specs::Access::stored, crate::specs::Access::flat_stored))]
    pub fn flat_write(&mut self, at: u64, v: u64) -> bool
        ensures mapped { result ≡ is_some (flat_stored self.old at v) }
        ensures after { self.new ≡ unwrap_or (flat_stored self.old at v) self.old }
    {
        if in_segment(self.size, PUBLIC_BASE, at) {
            put_le(&mut self.public, (at - PUBLIC_BASE) as usize, 8, v);
            true
        } else if in_segment(self.size, PRIVATE_BASE, at) {
            put_le(&mut self.private, (at - PRIVATE_BASE) as usize, 8, v);
            true
        } else {
            false
        }
    }
}

/// The bytes of a segment at the start.
#[tactic(auto, using(crate::proofs::Padding::spliced_zeros))]
fn fill(alloc: Global, size: usize, start: &[u8]) -> Result<Vec<u8>, NoMemory>
    requires { 4096 + length start.now ≤ size }
    ensures bytes { IfOk result (λ v. v.items ≡ padded 4096 size start.now) }
    ensures length { IfOk result (λ v. length v.items ≡ size) }
{
    let mut bytes = zeros(alloc, size)?;
    place(&mut bytes, FIRST, start);
    Ok(bytes)
}

/// So many zeros.
fn zeros(alloc: Global, size: usize) -> Result<Vec<u8>, NoMemory>
    ensures { IfOk result (λ v. v.items ≡ replicate size 0) }
{
    Ok(vec![in alloc; 0u8; size]?)
}

/// Writes bytes from a place on.
fn place(out: &mut [u8], at: usize, bytes: &[u8])
    requires { at + length bytes.now ≤ length out.old }
    ensures { out.new ≡ spliced out.old at bytes.now }
{
    let end = at + bytes.len();
    out[at..end].copy_from_slice(bytes);
}

/// Whether so many bytes from an offset are all mapped in a segment of that size.
fn mapped_range(size: u64, at: u64, len: u64) -> bool
    ensures { result ≡ is_mapped size at len }
{
    FIRST as u64 <= at && at <= size && len <= size - at
}

/// So many bytes from a place on, or none.
fn bytes_at(bytes: &[u8], at: u64, len: u64) -> &[u8]
    requires { 0 < len → at + len ≤ length bytes.now }
    ensures { result.now ≡ items_at bytes.now at len }
{
    if len == 0 {
        return &bytes[..0];
    }
    &bytes[at as usize..(at + len) as usize]
}

/// Writes bytes from a place on, or none.
fn put_bytes(out: &mut [u8], at: u64, bytes: &[u8])
    requires { 0 < length bytes.now → at + length bytes.now ≤ length out.old }
    ensures { out.new ≡ spliced out.old at bytes.now }
{
    if !bytes.is_empty() {
        place(out, at as usize, bytes);
    }
}

/// Writes so many items of `source` from place `from` on, zeros where it has no more, to a place on, or none.
fn put_items(out: &mut [u8], at: u64, len: u64, source: &[u8], from: u64)
    requires { 0 < len → at + len ≤ length out.old }
    ensures { out.new ≡ spliced out.old at (items_at source.now from len) }
{
    if len > 0 {
        copy_items(&mut out[at as usize..(at + len) as usize], source, from);
    }
}

/// How many bytes an access of that width has.
fn count(w: Width) -> u8
    ensures value { result ≡ byte_count w }
    ensures width { IsWidth result }
    ensures small { result ≤ 8 }
{
    match w {
        Width::B1 => 1,
        Width::B4 => 4,
        Width::B8 => 8,
    }
}

/// Whether so many bytes from an offset are all mapped in a segment of that size.
fn mapped(size: usize, at: u64, count: u8) -> bool
    requires room { at + 8 < 2 ^ 64 }
    requires small { count ≤ 8 }
    ensures { result ≡ is_mapped size at count }
{
    FIRST as u64 <= at && at + count as u64 <= size as u64
}

/// Whether the 8 bytes at a flat address are all mapped in the segment with that base.
fn in_segment(size: usize, base: u64, at: u64) -> bool
    requires { 8 ≤ base }
    ensures { result ≡ (nat_le base at && is_mapped size (at - base) 8) }
{
    base <= at && mapped(size, at - base, 8)
}

/// Whether the 8 bytes at a flat address all lie in the code.
fn in_code(code: &[u8], at: u64) -> bool
    ensures { result ≡ (nat_le code_base at && nat_le (at + 8) (code_base + length code.now)) }
{
    CODE_BASE <= at && at - CODE_BASE + 8 <= code.len() as u64
}

/// The number in the bytes from a place.
fn word_at(bytes: &[u8], at: usize, w: Width) -> u64
    requires { at + byte_count w ≤ length bytes.now }
    ensures { result ≡ little_endian (take (byte_count w) (drop at bytes.now)) }
{
    match w {
        Width::B1 => bytes[at] as u64,
        Width::B4 => le32(bytes, at) as u64,
        Width::B8 => le64(bytes, at),
    }
}

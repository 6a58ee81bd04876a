//! From a file to the parts of an image.

ghost use Rattle.std.specs.Prelude.{◌≡◌, ◌+◌, ◌*◌, ◌≤◌, ◌<◌, ◌↔◌, ◌^◌, IsTrue, IfOk, IfErr, OnOk, IsOkAnd, SomeIff, length, drop};
ghost use Rattle.image_form.specs.Image.{Image, IsGood, IsSegmentSize, IsStackSize, IsEntryCount, IsCodeLength, spelling};
ghost use Rattle.image_form.specs.View.{view};
ghost use Rattle.image_form.specs.Table.{AreGood, IsFault, IsImageFile, bytes_at, number_at, count_in, segment_in, stack_in, fields, front_fields};
ghost use Rattle.image_form.specs.Reading.{IsFirstWrong, IsHeaderOf, numbers, image_in};

use crate::parts::{FormFault, Parts};
use arrayvec::ArrayVec;
use cv_word::le32;

/// The numbers of a header.
#[derive(Clone, Copy)]
struct Header {
    count: usize,
    seg_size: u32,
    stack_size: u32,
    code_len: usize,
    public_len: usize,
    private_len: usize,
}

/// The parts of the image that the bytes are, which borrow the code and the start bytes from them.
///
/// Numbers of several bytes have their lowest byte first. The fault comes exactly where a field of the
/// form isn't good; a field that the bytes don't hold whole is wrong at its first byte. No memory is
/// taken.
pub fn read_image(bytes: &[u8]) -> Result<Parts<'_>, FormFault>
    // What is answered is a good image, and each byte belongs to its one spelling.
    ensures found { IfOk result (λ parts. IsGood (view parts) × (bytes.now ≡ spelling (view parts))) }
    // A good image that is spelled so is the one that is answered.
    ensures only { (image : Image) → IsGood image → bytes.now ≡ spelling image → IsOkAnd result (λ parts. view parts ≡ image) }
    // There are parts only where each field of the table is good.
    ensures table { OnOk result (IsImageFile bytes.now) }
    // A fault is the least place of a wrong field.
    ensures fault { IfErr result (λ fault. IsFault bytes.now fault.place) }
{
    read_fields(bytes)
}

/// The parts, or the first wrong field.
fn read_fields(bytes: &[u8]) -> Result<Parts<'_>, FormFault>
    ensures good { OnOk result (AreGood bytes.now (fields bytes.now)) }
    ensures parts { IfOk result (λ parts. view parts ≡ image_in bytes.now) }
    ensures fault { IfErr result (λ fault. IsFirstWrong bytes.now (fields bytes.now) fault.place) }
{
    match read_header(bytes) {
        Ok(header) => Ok(parts_at(bytes, header)),
        Err(fault) => Err(fault),
    }
}

/// The parts at their places.
#[tactic(auto, unfolding(crate::specs::Reading::image_in))]
fn parts_at(bytes: &[u8], header: Header) -> Parts<'_>
    requires good { AreGood bytes.now (fields bytes.now) }
    requires header { IsHeaderOf bytes.now header }
    ensures { view result ≡ image_in bytes.now }
{
    let code_place = 40 + 4 * header.count;
    let public_place = code_place + header.code_len;
    let private_place = public_place + header.public_len;
    Parts {
        prefix: prefix(bytes),
        seg_size: header.seg_size,
        stack_size: header.stack_size,
        entries: entries(bytes, header.count),
        code: part(bytes, code_place, header.code_len),
        public: part(bytes, public_place, header.public_len),
        private: part(bytes, private_place, header.private_len),
    }
}

/// The six bytes of the prefix.
fn prefix(bytes: &[u8]) -> [u8; 6]
    requires { 14 ≤ length bytes.now }
    ensures { result ≡ bytes_at bytes.now 8 6 }
{
    [
        bytes[8], bytes[9], bytes[10], bytes[11], bytes[12], bytes[13],
    ]
}

/// The entries, which stand behind the header.
fn entries(bytes: &[u8], count: usize) -> ArrayVec<u32, 8>
    requires few { count ≤ 8 }
    requires whole { 40 + 4 * count ≤ length bytes.now }
    ensures { result.items ≡ numbers count (drop 40 bytes.now) }
{
    let mut entries = ArrayVec::new();
    for k in 0..count {
        entries.push(le32(bytes, 40 + 4 * k));
    }
    entries
}

/// So many bytes at a place.
fn part(bytes: &[u8], place: usize, width: usize) -> &[u8]
    requires { place + width ≤ length bytes.now }
    ensures { result.now ≡ bytes_at bytes.now place width }
{
    &bytes[place..place + width]
}

/// The numbers of a good header, whose file ends where they say.
fn read_header(bytes: &[u8]) -> Result<Header, FormFault>
    ensures good { OnOk result (AreGood bytes.now (fields bytes.now)) }
    ensures header { IfOk result (IsHeaderOf bytes.now) }
    ensures fault { IfErr result (λ fault. IsFirstWrong bytes.now (fields bytes.now) fault.place) }
{
    match read_front(bytes) {
        Ok((count, seg_size, stack_size)) => read_lengths(bytes, count, seg_size, stack_size),
        Err(fault) => Err(fault),
    }
}

/// The fields up to the stacks' size: the number of entries, and the two sizes.
fn read_front(bytes: &[u8]) -> Result<(u8, u32, u32), FormFault>
    ensures good { OnOk result (AreGood bytes.now (front_fields bytes.now)) }
    ensures count { IfOk result (λ found. found.0 ≡ count_in bytes.now) }
    ensures seg_size { IfOk result (λ found. found.1 ≡ segment_in bytes.now) }
    ensures stack_size { IfOk result (λ found. found.2 ≡ stack_in bytes.now) }
    ensures fault { IfErr result (λ fault. IsFirstWrong bytes.now (front_fields bytes.now) fault.place) }
{
    if !stands_at(bytes, 0, b"CFVI") {
        return Err(FormFault { place: 0 });
    }
    if !stands_at(bytes, 4, &[1]) {
        return Err(FormFault { place: 4 });
    }
    let Some(count) = entry_count(bytes) else {
        return Err(FormFault { place: 5 });
    };
    if !stands_at(bytes, 6, &[0, 0]) {
        return Err(FormFault { place: 6 });
    }
    if bytes.len() < 14 {
        return Err(FormFault { place: 8 });
    }
    if !stands_at(bytes, 14, &[0, 0]) {
        return Err(FormFault { place: 14 });
    }
    let Some(seg_size) = segment_size(bytes) else {
        return Err(FormFault { place: 16 });
    };
    let Some(stack_size) = stack_size(bytes, count, seg_size) else {
        return Err(FormFault { place: 20 });
    };
    Ok((count, seg_size, stack_size))
}

/// The lengths, and whether the file ends where they say.
fn read_lengths(
    bytes: &[u8],
    count: u8,
    seg_size: u32,
    stack_size: u32,
) -> Result<Header, FormFault>
    requires good { AreGood bytes.now (front_fields bytes.now) }
    requires count { count ≡ count_in bytes.now }
    requires seg_size { seg_size ≡ segment_in bytes.now }
    requires stack_size { stack_size ≡ stack_in bytes.now }
    ensures good { OnOk result (AreGood bytes.now (fields bytes.now)) }
    ensures header { IfOk result (IsHeaderOf bytes.now) }
    ensures fault { IfErr result (λ fault. IsFirstWrong bytes.now (fields bytes.now) fault.place) }
{
    let room = seg_size as usize - 4096 - count as usize * stack_size as usize;
    let code_place = 40 + 4 * count as usize;
    let Some(code_len) = code_length(bytes, code_place) else {
        return Err(FormFault { place: 24 });
    };
    let Some(public_len) = start_length(bytes, 28, room, code_place + code_len) else {
        return Err(FormFault { place: 28 });
    };
    let private_place = code_place + code_len + public_len;
    let Some(private_len) = start_length(bytes, 32, room, private_place) else {
        return Err(FormFault { place: 32 });
    };
    if !stands_at(bytes, 36, &[0, 0, 0, 0]) {
        return Err(FormFault { place: 36 });
    }
    let end = private_place + private_len;
    if end < bytes.len() {
        return Err(FormFault { place: end as u32 });
    }
    Ok(Header {
        count: count as usize,
        seg_size,
        stack_size,
        code_len,
        public_len,
        private_len,
    })
}

/// Whether the wanted bytes stand at the place.
fn stands_at(bytes: &[u8], place: usize, wanted: &[u8]) -> bool
    requires { place ≤ length bytes.now }
    ensures { IsTrue result ↔ ((place + length wanted.now ≤ length bytes.now) × (bytes_at bytes.now place (length wanted.now) ≡ wanted.now)) }
{
    wanted.len() <= bytes.len() - place && part(bytes, place, wanted.len()) == wanted
}

/// The number of entries, where it is good.
fn entry_count(bytes: &[u8]) -> Option<u8>
    ensures { SomeIff result ((5 + 1 ≤ length bytes.now) × IsEntryCount (count_in bytes.now)) (count_in bytes.now) }
{
    if bytes.len() < 6 {
        return None;
    }
    let count = bytes[5];
    if 1 <= count && count <= 8 {
        Some(count)
    } else {
        None
    }
}

/// The segments' size, where it is good.
fn segment_size(bytes: &[u8]) -> Option<u32>
    ensures { SomeIff result ((16 + 4 ≤ length bytes.now) × IsSegmentSize (segment_in bytes.now)) (segment_in bytes.now) }
{
    if bytes.len() < 20 {
        return None;
    }
    let size = le32(bytes, 16);
    if size % 4096 == 0 && 65_536 <= size && size <= 67_108_864 {
        Some(size)
    } else {
        None
    }
}

/// The stacks' size, where it is good.
fn stack_size(bytes: &[u8], count: u8, seg_size: u32) -> Option<u32>
    requires { count ≤ 8 }
    ensures { SomeIff result ((20 + 4 ≤ length bytes.now) × IsStackSize count seg_size (stack_in bytes.now)) (stack_in bytes.now) }
{
    if bytes.len() < 24 {
        return None;
    }
    let size = le32(bytes, 20);
    let stacks = u64::from(count) * u64::from(size);
    if size % 16 == 0 && 256 <= size && 4096 + stacks <= u64::from(seg_size) {
        Some(size)
    } else {
        None
    }
}

/// The code's length, where it is good.
fn code_length(bytes: &[u8], code_place: usize) -> Option<usize>
    requires { code_place ≤ 72 }
    ensures { SomeIff result ((24 + 4 ≤ length bytes.now) × (IsCodeLength (number_at bytes.now 24) × (code_place + number_at bytes.now 24 ≤ length bytes.now))) (number_at bytes.now 24) }
{
    if bytes.len() < 28 {
        return None;
    }
    let len = le32(bytes, 24) as usize;
    if 1 <= len && len <= 4_194_304 && code_place + len <= bytes.len() {
        Some(len)
    } else {
        None
    }
}

/// The number of a segment's start bytes, where they fit into the room for them and into the file.
fn start_length(bytes: &[u8], place: usize, room: usize, start: usize) -> Option<usize>
    requires place { place ≤ 32 }
    requires start { start < 2 ^ 32 }
    ensures { SomeIff result ((place + 4 ≤ length bytes.now) × ((number_at bytes.now place ≤ room) × (start + number_at bytes.now place ≤ length bytes.now))) (number_at bytes.now place) }
{
    if bytes.len() < place + 4 {
        return None;
    }
    let len = le32(bytes, place) as usize;
    if len <= room && start + len <= bytes.len() {
        Some(len)
    } else {
        None
    }
}

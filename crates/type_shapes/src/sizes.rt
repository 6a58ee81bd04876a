//! What types take. The structs are given by what each takes.

ghost use Rattle.type_shapes.specs.Sizes as def;
ghost use Rattle.std.specs.Prelude.{◌≡◌, ◌+◌, ◌*◌, IfOk};

use c_ast::Ty;
use cv_word::NoMemory;

/// The greatest size of an array or a struct, in bytes.
pub const GREATEST_SIZE: u64 = 67108864;
/// The greatest length of an array.
pub const GREATEST_LENGTH: u32 = 1048576;

/// A size in bytes, and what an offset is a multiple of.
#[derive(Clone, Copy)]
pub struct Extent {
    pub size: u64,
    pub align: u64,
}

/// What isn't an object takes nothing.
pub fn nothing() -> Extent
    ensures { result ≡ def.nothing }
{
    Extent { size: 0, align: 1 }
}

/// Aligned to its own size.
fn natural(n: u64) -> Extent
    ensures { result ≡ def.natural n }
{
    Extent { size: n, align: n }
}

fn extent_at(structs: &[Extent], id: u32) -> Extent
    ensures { result ≡ def.extent_at structs.now id }
{
    match structs.get(id as usize) {
        Some(extent) => *extent,
        None => nothing(),
    }
}

/// A product. No type takes 2^64 bytes.
fn product(a: u64, b: u64) -> Result<u64, NoMemory>
    ensures { IfOk result (λ n. n ≡ a * b) }
{
    match a.checked_mul(b) {
        Some(n) => Ok(n),
        None => Err(NoMemory),
    }
}

fn total(a: u64, b: u64) -> Result<u64, NoMemory>
    ensures { IfOk result (λ n. n ≡ a + b) }
{
    match a.checked_add(b) {
        Some(n) => Ok(n),
        None => Err(NoMemory),
    }
}

/// What an object of the type takes.
#[tactic(auto, unfolding(crate::specs::Sizes::extent_of))]
pub fn extent_of(structs: &[Extent], ty: &Ty) -> Result<Extent, NoMemory>
    ensures { IfOk result (λ e. e ≡ def.extent_of structs.now ty.now) }
{
    match ty {
        Ty::Int { width, .. } => Ok(natural(u64::from(*width))),
        Ty::Struct { id, .. } => Ok(extent_at(structs, *id)),
        Ty::Ptr { .. } => Ok(natural(8)),
        Ty::Array { elem, len } => {
            let elem = extent_of(structs, elem.get())?;
            let size = product(u64::from(*len), elem.size)?;
            let align = elem.align;
            Ok(Extent { size, align })
        }
        Ty::Void => Ok(nothing()),
        Ty::Fun { .. } => Ok(nothing()),
    }
}

/// The least multiple of `align` from `n` on.
#[tactic(auto, unfolding(crate::specs::Sizes::aligned))]
fn aligned(n: u64, align: u64) -> Result<u64, NoMemory>
    ensures { IfOk result (λ m. m ≡ def.aligned n align) }
{
    if align == 0 {
        return Err(NoMemory);
    }
    let above = total(n, align - 1)?;
    Ok(product(above / align, align)?)
}

/// A struct so far, and one more member.
#[tactic(auto, unfolding(crate::specs::Sizes::with_member))]
pub fn with_member(structs: &[Extent], so_far: Extent, ty: &Ty) -> Result<Extent, NoMemory>
    ensures { IfOk result (λ e. e ≡ def.with_member structs.now so_far ty.now) }
{
    let member = extent_of(structs, ty)?;
    let start = aligned(so_far.size, member.align)?;
    let size = total(start, member.size)?;
    let align = so_far.align.max(member.align);
    Ok(Extent { size, align })
}

/// The size rounded up.
#[tactic(auto, unfolding(crate::specs::Sizes::closed))]
pub fn closed(all: Extent) -> Result<Extent, NoMemory>
    ensures { IfOk result (λ e. e ≡ def.closed all) }
{
    let size = aligned(all.size, all.align)?;
    let align = all.align;
    Ok(Extent { size, align })
}

/// Neither void nor a struct that isn't defined yet.
#[tactic(auto, unfolding(crate::specs::Sizes::is_sized))]
pub fn is_sized(structs: &[Extent], ty: &Ty) -> bool
    ensures { result ≡ def.is_sized structs.now ty.now }
{
    match ty {
        Ty::Void => false,
        Ty::Struct { id, .. } => (*id as usize) < structs.len(),
        Ty::Fun { .. } => false,
        _ => true,
    }
}

/// Whether so many of these may be an array.
#[tactic(auto, unfolding(crate::specs::Sizes::is_array_of))]
pub fn is_array_of(structs: &[Extent], elem: &Ty, len: u64) -> Result<bool, NoMemory>
    ensures { IfOk result (λ b. b ≡ def.is_array_of structs.now elem.now len) }
{
    let size = extent_of(structs, elem)?.size;
    if (len > 0) & (len <= 1048576) {
        let all = product(len, size)?;
        return Ok(is_sized(structs, elem) & (all <= 67108864));
    }
    Ok(false)
}

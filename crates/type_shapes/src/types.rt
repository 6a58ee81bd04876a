//! Types: what sort of type one is, and when two are the same.

ghost use Rattle.type_shapes.specs.Types as def;
ghost use Rattle.std.specs.Option.{option_copied};
ghost use Rattle.std.specs.Prelude.{◌≡◌, None, Some, IfOk, map};

use c_ast::{Boxed, Items, Qual, Ty};
use cv_word::{NoMemory, Taint};
use std::alloc::Global;

/// A struct by its number, and the qualifier of an object of it.
#[derive(Clone, Copy)]
pub struct StructType {
    pub id: u32,
    pub q: Qual,
}

/// What a function gives and takes.
#[derive(Drop)]
pub struct Signature {
    pub ret: Ty,
    pub params: Items<Ty>,
}

#[tactic(auto, unfolding(crate::specs::Types::is_integer))]
pub fn is_integer(ty: &Ty) -> bool
    ensures { result ≡ def.is_integer ty.now }
{
    matches!(ty, Ty::Int { .. })
}

#[tactic(auto, unfolding(crate::specs::Types::is_pointer))]
pub fn is_pointer(ty: &Ty) -> bool
    ensures { result ≡ def.is_pointer ty.now }
{
    matches!(ty, Ty::Ptr { .. })
}

/// An integer or a pointer.
#[tactic(auto, unfolding(crate::specs::Types::is_scalar))]
pub fn is_scalar(ty: &Ty) -> bool
    ensures { result ≡ def.is_scalar ty.now }
{
    is_integer(ty) | is_pointer(ty)
}

#[tactic(auto, unfolding(crate::specs::Types::is_void))]
pub fn is_void(ty: &Ty) -> bool
    ensures { result ≡ def.is_void ty.now }
{
    matches!(ty, Ty::Void)
}

#[tactic(auto, unfolding(crate::specs::Types::is_array))]
pub fn is_array(ty: &Ty) -> bool
    ensures { result ≡ def.is_array ty.now }
{
    matches!(ty, Ty::Array { .. })
}

#[tactic(auto, unfolding(crate::specs::Types::is_struct, crate::specs::Types::struct_of))]
pub fn is_struct(ty: &Ty) -> bool
    ensures { result ≡ def.is_struct ty.now }
{
    matches!(ty, Ty::Struct { .. })
}

/// What is computed is computed in 64 bits, and has no qualifier of its own.
pub fn long() -> Ty
    ensures { result ≡ def.long }
{
    Ty::Int {
        width: 8,
        q: Qual::Fixed(Taint::Pub),
    }
}

/// What a pointer to an object or an array leads to.
#[tactic(auto, unfolding(crate::specs::Types::object_behind))]
pub fn object_behind(ty: &Ty) -> Option<&Ty>
    ensures { option_copied result ≡ def.object_behind ty.now }
{
    match ty {
        Ty::Ptr { to, .. } => match to.get() {
            Ty::Fun { .. } => None,
            object => Some(object),
        },
        Ty::Array { elem, .. } => Some(elem.get()),
        _ => None,
    }
}

/// What a call of a function or of a pointer to one gives and takes, as a copy.
#[tactic(auto, unfolding(crate::specs::Types::signature_of))]
pub fn signature_of(alloc: Global, ty: &Ty) -> Result<Option<Signature>, NoMemory>
    ensures { IfOk result (λ s. s ≡ def.signature_of ty.now) }
{
    match copy_type(alloc, called(ty))? {
        Ty::Fun { ret, params } => Ok(Some(Signature {
            ret: ret.into_inner(),
            params,
        })),
        _ => Ok(None),
    }
}

fn called(ty: &Ty) -> &Ty
    ensures { result.now ≡ def.called ty.now }
{
    match ty {
        Ty::Ptr { to, .. } => to.get(),
        other => other,
    }
}

#[tactic(auto, unfolding(crate::specs::Types::struct_of))]
pub fn struct_of(ty: &Ty) -> Option<StructType>
    ensures { result ≡ def.struct_of ty.now }
{
    match ty {
        Ty::Struct { id, q } => Some(StructType { id: *id, q: *q }),
        _ => None,
    }
}

/// A copy.
pub fn copy_type(alloc: Global, ty: &Ty) -> Result<Ty, NoMemory>
    ensures { IfOk result (λ t. t ≡ ty.now) }
{
    match ty {
        Ty::Int { width, q } => Ok(Ty::Int {
            width: *width,
            q: *q,
        }),
        Ty::Void => Ok(Ty::Void),
        Ty::Struct { id, q } => Ok(Ty::Struct { id: *id, q: *q }),
        Ty::Ptr { to, q } => {
            let to = Boxed::new(alloc, copy_type(alloc, to.get())?)?;
            Ok(Ty::Ptr { to, q: *q })
        }
        Ty::Array { elem, len } => {
            let elem = Boxed::new(alloc, copy_type(alloc, elem.get())?)?;
            Ok(Ty::Array { elem, len: *len })
        }
        Ty::Fun { ret, params } => {
            let ret = Boxed::new(alloc, copy_type(alloc, ret.get())?)?;
            let mut copies = Items::new(alloc);
            for param in params.as_slice() {
                copies.push(copy_type(alloc, param)?)?;
            }
            Ok(Ty::Fun {
                ret,
                params: copies,
            })
        }
    }
}

/// A copy of what may be missing.
pub fn copy_option(alloc: Global, ty: &Option<Ty>) -> Result<Option<Ty>, NoMemory>
    ensures { IfOk result (λ t. t ≡ ty.now) }
{
    match ty {
        None => Ok(None),
        Some(ty) => {
            let ty = copy_type(alloc, ty)?;
            Ok(Some(ty))
        }
    }
}

/// A public pointer to a type.
pub fn pointer_to(alloc: Global, ty: &Ty) -> Result<Ty, NoMemory>
    ensures { IfOk result (λ t. t ≡ def.pointer_to ty.now) }
{
    let to = Boxed::new(alloc, copy_type(alloc, ty)?)?;
    let q = Qual::Fixed(Taint::Pub);
    Ok(Ty::Ptr { to, q })
}

/// An array gives a pointer to its first element.
#[tactic(auto, unfolding(crate::specs::Types::value_type))]
pub fn value_type(alloc: Global, ty: &Ty) -> Result<Ty, NoMemory>
    ensures { IfOk result (λ t. t ≡ def.value_type ty.now) }
{
    match ty {
        Ty::Array { elem, .. } => Ok(pointer_to(alloc, elem.get())?),
        _ => Ok(copy_type(alloc, ty)?),
    }
}

/// Where a value is passed on, a function's name gives a pointer to the function too.
#[tactic(auto, unfolding(crate::specs::Types::passed_type))]
pub fn passed_type(alloc: Global, ty: &Ty) -> Result<Ty, NoMemory>
    ensures { IfOk result (λ t. t ≡ def.passed_type ty.now) }
{
    match ty {
        Ty::Array { elem, .. } => Ok(pointer_to(alloc, elem.get())?),
        Ty::Fun { .. } => Ok(pointer_to(alloc, ty)?),
        _ => Ok(copy_type(alloc, ty)?),
    }
}

fn own_under(alloc: Global, q: Qual, ty: &Ty) -> Result<Ty, NoMemory>
    ensures { IfOk result (λ t. t ≡ def.own_under q ty.now) }
{
    match ty {
        Ty::Int { width, .. } => Ok(Ty::Int { width: *width, q }),
        Ty::Struct { id, .. } => Ok(Ty::Struct { id: *id, q }),
        Ty::Ptr { to, .. } => {
            let to = Boxed::new(alloc, copy_type(alloc, to.get())?)?;
            Ok(Ty::Ptr { to, q })
        }
        _ => Ok(copy_type(alloc, ty)?),
    }
}

/// The type with this outermost qualifier.
#[tactic(auto, unfolding(crate::specs::Types::under))]
pub fn under(alloc: Global, q: Qual, ty: &Ty) -> Result<Ty, NoMemory>
    ensures { IfOk result (λ t. t ≡ def.under q ty.now) }
{
    match ty {
        Ty::Array { elem, len } => {
            let elem = Boxed::new(alloc, own_under(alloc, q, elem.get())?)?;
            Ok(Ty::Array { elem, len: *len })
        }
        _ => Ok(own_under(alloc, q, ty)?),
    }
}

fn same_taint(a: Taint, b: Taint) -> bool
    ensures { result ≡ def.same_taint a b }
{
    match a {
        Taint::Pub => matches!(b, Taint::Pub),
        Taint::Priv => matches!(b, Taint::Priv),
    }
}

fn same_qualifier(a: Qual, b: Qual) -> bool
    ensures { result ≡ def.same_qualifier a b }
{
    match a {
        Qual::Fixed(a) => match b {
            Qual::Fixed(b) => same_taint(a, b),
            Qual::Var(_) => false,
        },
        Qual::Var(m) => match b {
            Qual::Fixed(_) => false,
            Qual::Var(n) => m == n,
        },
    }
}

/// Whether two types are the same, or without `exact` the same but for qualifiers.
#[tactic(auto, unfolding(crate::specs::Types::same_type, crate::specs::Types::same_level))]
#[cycle(same)]
pub fn same_type(a: &Ty, b: &Ty, exact: bool) -> bool
    ensures { result ≡ def.same_type exact a.now b.now }
{
    match a {
        Ty::Int { width, q } => match b {
            Ty::Int { width: other, q: r } => {
                (*width == *other) & (!exact | same_qualifier(*q, *r))
            }
            _ => false,
        },
        Ty::Void => matches!(b, Ty::Void),
        Ty::Struct { id, q } => match b {
            Ty::Struct { id: other, q: r } => (*id == *other) & (!exact | same_qualifier(*q, *r)),
            _ => false,
        },
        Ty::Ptr { to, q } => match b {
            Ty::Ptr { to: other, q: r } => {
                same_type(to.get(), other.get(), exact) & (!exact | same_qualifier(*q, *r))
            }
            _ => false,
        },
        Ty::Array { elem, len } => match b {
            Ty::Array {
                elem: other,
                len: l,
            } => { same_type(elem.get(), other.get(), exact) & (*len == *l) }
            _ => false,
        },
        Ty::Fun { ret, params } => match b {
            Ty::Fun {
                ret: other,
                params: ps,
            } => {
                same_type(ret.get(), other.get(), exact)
                    & same_all(params.as_slice(), ps.as_slice(), exact)
            }
            _ => false,
        },
    }
}

#[cycle(same)]
fn same_all(a: &[Ty], b: &[Ty], exact: bool) -> bool
    ensures { result ≡ def.same_all (map (def.same_type exact) a.now) b.now }
{
    if a.len() != b.len() {
        return false;
    }
    for (i, left) in a.iter().enumerate() {
        if !same_type(left, &b[i], exact) {
            return false;
        }
    }
    true
}

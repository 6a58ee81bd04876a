//! Two types, level by level.

ghost use Rattle.qual_rules.specs.Flows.{both_ways, same_below};
ghost use Rattle.qual_rules.specs.Levels.{compare_all, compare, parameters_of, pointee_of, own_qualifier};
ghost use Rattle.std.specs.List.{flat_map};
ghost use Rattle.std.specs.Prelude.{◌≡◌, ◌++◌, [], length, map, IfSome, IfNone, OnOk, Some, None};

use c_ast::{Items, Qual, Ty};
use cv_word::NoMemory;
use qual_solve::Constraint;

/// The qualifier of a type's outermost level. Void, arrays and functions have none of their own.
pub fn own_qualifier(ty: &Ty) -> Option<Qual>
    ensures { result ≡ own_qualifier ty.now }
{
    match ty {
        Ty::Int { q, .. } | Ty::Struct { q, .. } | Ty::Ptr { q, .. } => Some(*q),
        _ => None,
    }
}

/// What a pointer points to. An array gives a pointer to its first element, and a function's name one to the
/// function.
fn pointee_of(ty: &Ty) -> Option<&Ty>
    ensures some { IfSome result (λ t. pointee_of ty.now ≡ Some t.now) }
    ensures none { IfNone result (pointee_of ty.now ≡ None) }
{
    match ty {
        Ty::Ptr { to, .. } => Some(to.get()),
        Ty::Array { elem, .. } => Some(elem.get()),
        Ty::Fun { .. } => Some(ty),
        _ => None,
    }
}

/// The types of the parameters of a function, and of one below a pointer.
pub fn parameters_of(ty: &Ty) -> Option<&Items<Ty>>
    ensures some { IfSome result (λ types. parameters_of ty.now ≡ types.now) }
    ensures none { IfNone result (parameters_of ty.now ≡ []) }
{
    let function = match ty {
        Ty::Ptr { to, .. } => to.get(),
        _ => ty,
    };
    match function {
        Ty::Fun { params, .. } => Some(params),
        _ => None,
    }
}

/// Whether two types have the same levels, qualifiers aside.
#[cycle(shapes)]
fn have_one_shape(a: &Ty, b: &Ty) -> bool
    ensures { result ≡ (compare a.now b.now).same_shape }
{
    match (a, b) {
        (Ty::Int { width: m, .. }, Ty::Int { width: n, .. }) => m == n,
        (Ty::Void, Ty::Void) => true,
        (Ty::Struct { id: m, .. }, Ty::Struct { id: n, .. }) => m == n,
        (Ty::Ptr { to: a, .. }, Ty::Ptr { to: b, .. }) => have_one_shape(a.get(), b.get()),
        (Ty::Array { elem: a, .. }, Ty::Array { elem: b, .. }) => have_one_shape(a.get(), b.get()),
        (
            Ty::Fun {
                ret: a,
                params: one,
            },
            Ty::Fun {
                ret: b,
                params: other,
            },
        ) => have_one_shape(a.get(), b.get()) && are_of_one_shape(one.as_slice(), other.as_slice()),
        _ => false,
    }
}

/// Whether the types of two lists have the same shapes, one by one.
#[cycle(shapes)]
fn are_of_one_shape(one: &[Ty], other: &[Ty]) -> bool
    ensures { result ≡ (compare_all (map compare one.now) other.now).same_shape }
{
    if one.len() != other.len() {
        return false;
    }
    for i in 0..one.len() {
        if !have_one_shape(&one[i], &other[i]) {
            return false;
        }
    }
    true
}

/// Two levels are the same.
fn push_both_ways(
    place: u32,
    first: Qual,
    second: Qual,
    out: &mut Vec<Constraint>,
) -> Result<(), NoMemory>
    ensures { OnOk result (out.new.items ≡ out.old.items ++ both_ways place (record { first = first; second = second })) }
{
    out.push(Constraint {
        from: first,
        to: second,
        place,
    })?;
    out.push(Constraint {
        from: second,
        to: first,
        place,
    })?;
    Ok(())
}

/// The levels of two types are the same, as far as they go together.
#[cycle(pairs)]
fn push_pairs(place: u32, a: &Ty, b: &Ty, out: &mut Vec<Constraint>) -> Result<(), NoMemory>
    ensures { OnOk result (out.new.items ≡ out.old.items ++ flat_map (both_ways place) (compare a.now b.now).pairs) }
{
    match (a, b) {
        (Ty::Ptr { to: a, q }, Ty::Ptr { to: b, q: r }) => {
            push_both_ways(place, *q, *r, out)?;
            push_pairs(place, a.get(), b.get(), out)
        }
        (Ty::Array { elem: a, .. }, Ty::Array { elem: b, .. }) => {
            push_pairs(place, a.get(), b.get(), out)
        }
        (
            Ty::Fun {
                ret: one,
                params: types,
            },
            Ty::Fun {
                ret: other,
                params: others,
            },
        ) => {
            if !have_one_shape(a, b) {
                return Ok(());
            }
            push_pairs(place, one.get(), other.get(), out)?;
            push_all_pairs(place, types.as_slice(), others.as_slice(), out)
        }
        _ => match (own_qualifier(a), own_qualifier(b)) {
            (Some(q), Some(r)) => push_both_ways(place, q, r, out),
            _ => Ok(()),
        },
    }
}

/// The same for the types of two lists of one length, one by one.
#[cycle(pairs)]
fn push_all_pairs(
    place: u32,
    one: &[Ty],
    other: &[Ty],
    out: &mut Vec<Constraint>,
) -> Result<(), NoMemory>
    requires { length one.now ≡ length other.now }
    ensures { OnOk result (out.new.items ≡ out.old.items ++ flat_map (both_ways place) (compare_all (map compare one.now) other.now).pairs) }
{
    for i in 0..one.len() {
        push_pairs(place, &one[i], &other[i], out)?;
    }
    Ok(())
}

/// Where a pointer flows, or joins another, each pair of levels below it is the same.
pub fn push_same_below(
    place: u32,
    from: &Ty,
    to: &Ty,
    out: &mut Vec<Constraint>,
) -> Result<(), NoMemory>
    ensures { OnOk result (out.new.items ≡ out.old.items ++ same_below place from.now to.now) }
{
    match (pointee_of(from), pointee_of(to)) {
        (Some(a), Some(b)) => push_pairs(place, a, b, out),
        _ => Ok(()),
    }
}

//! The gates: functions that are declared outside of the file's scope.

ghost use Rattle.type_rules.specs.Gates as def;
ghost use Rattle.cv_word.specs.declared.registers.Taint.TheVariants.{Priv, Pub};
ghost use Rattle.std.specs.Prelude.{◌≡◌, [], ◌∷◌, position, IfOk, OnOk};
ghost use Rattle.std.specs.Str.{bytes_eq};

use c_ast::{Boxed, Items, Qual, Text, Ty};
use cv_word::{NoMemory, Taint};
use name_scopes::{Meaning, Scope};
use std::alloc::Global;

fn int() -> Ty
    ensures { result ≡ def.int }
{
    Ty::Int {
        width: 4,
        q: Qual::Fixed(Taint::Pub),
    }
}

fn long_of(taint: Taint) -> Ty
    ensures { result ≡ def.long_of taint }
{
    Ty::Int {
        width: 8,
        q: Qual::Fixed(taint),
    }
}

/// A public pointer to characters.
fn chars(alloc: Global, taint: Taint) -> Result<Ty, NoMemory>
    ensures { IfOk result (λ t. t ≡ def.chars taint) }
{
    let to = Boxed::new(
        alloc,
        Ty::Int {
            width: 1,
            q: Qual::Fixed(taint),
        },
    )?;
    let q = Qual::Fixed(Taint::Pub);
    Ok(Ty::Ptr { to, q })
}

fn none(alloc: Global) -> Items<Ty>
    ensures { result ≡ [] }
{
    Items::new(alloc)
}

fn one(alloc: Global, a: Ty) -> Result<Items<Ty>, NoMemory>
    ensures { IfOk result (λ ts. ts ≡ a ∷ []) }
{
    let mut types = Items::new(alloc);
    types.push(a)?;
    Ok(types)
}

fn two(alloc: Global, a: Ty, b: Ty) -> Result<Items<Ty>, NoMemory>
    ensures { IfOk result (λ ts. ts ≡ a ∷ b ∷ []) }
{
    let mut types = Items::new(alloc);
    types.push(a)?;
    types.push(b)?;
    Ok(types)
}

/// A buffer of characters and its length.
fn buffer(alloc: Global, taint: Taint) -> Result<Items<Ty>, NoMemory>
    ensures { IfOk result (λ ts. ts ≡ def.buffer taint) }
{
    let start = chars(alloc, taint)?;
    two(alloc, start, long_of(Taint::Pub))
}

/// Private bytes, where they go, how many, and the class of the release.
fn released(alloc: Global) -> Result<Items<Ty>, NoMemory>
    ensures { IfOk result (λ ts. ts ≡ def.chars Priv ∷ def.chars Pub ∷ def.long_of Pub ∷ def.long_of Pub ∷ []) }
{
    let from = chars(alloc, Taint::Priv)?;
    let to = chars(alloc, Taint::Pub)?;
    let mut params = two(alloc, from, to)?;
    params.push(long_of(Taint::Pub))?;
    params.push(long_of(Taint::Pub))?;
    Ok(params)
}

/// A pointer to characters alone.
fn pointer(alloc: Global, taint: Taint) -> Result<Items<Ty>, NoMemory>
    ensures { IfOk result (λ ts. ts ≡ def.chars taint ∷ []) }
{
    let start = chars(alloc, taint)?;
    one(alloc, start)
}

fn position_of(names: &[Text], name: &[u8]) -> Option<usize>
    ensures { result ≡ position (λ n. bytes_eq n name.now) names.now }
{
    names.iter().position(|n| n.as_slice() == name)
}

/// A gate whose name stands in the list of names.
fn add_gate(
    alloc: Global,
    scope: &mut Scope,
    names: &[Text],
    name: &[u8],
    number: u8,
    ret: Ty,
    params: Items<Ty>,
) -> Result<(), NoMemory>
    ensures { OnOk result (scope.new ≡ def.with_gate names.now scope.old (def.prototype number name.now ret params)) }
{
    match position_of(names, name) {
        None => Ok(()),
        Some(at) => {
            if at >= 4294967296 {
                return Err(NoMemory);
            }
            let ret = Boxed::new(alloc, ret)?;
            scope.declare(
                at as u32,
                Meaning::Gate { number },
                Some(Ty::Fun { ret, params }),
            )
        }
    }
}

/// How a program and a core end.
fn add_endings(alloc: Global, names: &[Text], scope: &mut Scope) -> Result<(), NoMemory>
    ensures { OnOk result (scope.new ≡ def.with_gates names.now def.endings scope.old) }
{
    let params = one(alloc, int())?;
    add_gate(alloc, scope, names, b"exit", 0, Ty::Void, params)?;
    add_gate(alloc, scope, names, b"core_end", 1, Ty::Void, none(alloc))
}

/// Public input and output of bytes.
fn add_public_buffers(alloc: Global, names: &[Text], scope: &mut Scope) -> Result<(), NoMemory>
    ensures { OnOk result (scope.new ≡ def.with_gates names.now def.public_buffers scope.old) }
{
    let params = buffer(alloc, Taint::Pub)?;
    add_gate(
        alloc,
        scope,
        names,
        b"pub_in",
        2,
        long_of(Taint::Pub),
        params,
    )?;
    let params = buffer(alloc, Taint::Pub)?;
    add_gate(
        alloc,
        scope,
        names,
        b"pub_out",
        3,
        long_of(Taint::Pub),
        params,
    )
}

/// Private input and output of bytes.
fn add_private_buffers(alloc: Global, names: &[Text], scope: &mut Scope) -> Result<(), NoMemory>
    ensures { OnOk result (scope.new ≡ def.with_gates names.now def.private_buffers scope.old) }
{
    let params = buffer(alloc, Taint::Priv)?;
    add_gate(
        alloc,
        scope,
        names,
        b"priv_in",
        4,
        long_of(Taint::Pub),
        params,
    )?;
    let params = buffer(alloc, Taint::Priv)?;
    add_gate(
        alloc,
        scope,
        names,
        b"priv_out",
        5,
        long_of(Taint::Pub),
        params,
    )
}

/// Input and output of one private word.
fn add_words(alloc: Global, names: &[Text], scope: &mut Scope) -> Result<(), NoMemory>
    ensures { OnOk result (scope.new ≡ def.with_gates names.now def.words scope.old) }
{
    add_gate(
        alloc,
        scope,
        names,
        b"priv_get",
        6,
        long_of(Taint::Priv),
        none(alloc),
    )?;
    let params = one(alloc, long_of(Taint::Priv))?;
    add_gate(alloc, scope, names, b"priv_put", 7, Ty::Void, params)
}

/// Blocks of the two heaps.
fn add_allocations(alloc: Global, names: &[Text], scope: &mut Scope) -> Result<(), NoMemory>
    ensures { OnOk result (scope.new ≡ def.with_gates names.now def.allocations scope.old) }
{
    let start = chars(alloc, Taint::Pub)?;
    let params = one(alloc, long_of(Taint::Pub))?;
    add_gate(alloc, scope, names, b"pub_alloc", 8, start, params)?;
    let start = chars(alloc, Taint::Priv)?;
    let params = one(alloc, long_of(Taint::Pub))?;
    add_gate(alloc, scope, names, b"priv_alloc", 9, start, params)
}

/// Blocks that are given back.
fn add_frees(alloc: Global, names: &[Text], scope: &mut Scope) -> Result<(), NoMemory>
    ensures { OnOk result (scope.new ≡ def.with_gates names.now def.frees scope.old) }
{
    let params = pointer(alloc, Taint::Pub)?;
    add_gate(
        alloc,
        scope,
        names,
        b"pub_free",
        10,
        long_of(Taint::Pub),
        params,
    )?;
    let params = pointer(alloc, Taint::Priv)?;
    add_gate(
        alloc,
        scope,
        names,
        b"priv_free",
        11,
        long_of(Taint::Pub),
        params,
    )
}

/// The release of private bytes.
fn add_release(alloc: Global, names: &[Text], scope: &mut Scope) -> Result<(), NoMemory>
    ensures { OnOk result (scope.new ≡ def.with_gates names.now def.releases scope.old) }
{
    let params = released(alloc)?;
    add_gate(
        alloc,
        scope,
        names,
        b"release",
        12,
        long_of(Taint::Pub),
        params,
    )
}

/// Those gates whose names stand in the list of names.
pub fn gates_in(alloc: Global, names: &[Text]) -> Result<Scope, NoMemory>
    ensures { IfOk result (λ s. s ≡ def.gates_in names.now) }
{
    let mut scope = Scope::new(alloc);
    add_endings(alloc, names, &mut scope)?;
    add_public_buffers(alloc, names, &mut scope)?;
    add_private_buffers(alloc, names, &mut scope)?;
    add_words(alloc, names, &mut scope)?;
    add_allocations(alloc, names, &mut scope)?;
    add_frees(alloc, names, &mut scope)?;
    add_release(alloc, names, &mut scope)?;
    Ok(scope)
}

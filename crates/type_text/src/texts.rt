//! Types as text.

ghost use Rattle.qual_solve.specs.Assignments.{taint_of};
ghost use Rattle.std.specs.Fmt.{decimal};
ghost use Rattle.std.specs.List.{flat_map};
ghost use Rattle.std.specs.Prelude.{◌≡◌, ◌++◌, IfOk, List, ℕ, OnOk, codes, map};
ghost use Rattle.type_text.specs.Texts as def;

use c_ast::typed::{Function, Local, StructDef};
use c_ast::{Qual, Text, Ty, Typed};
use cv_word::{NoMemory, Taint};
use std::alloc::Global;

fn put(out: &mut Vec<u8>, text: &[u8]) -> Result<(), NoMemory>
    ensures { OnOk result (out.new.items ≡ out.old.items ++ text.now) }
{
    out.extend_from_slice(text)?;
    Ok(())
}

fn taint_under(assignment: &[Taint], q: Qual) -> Taint
    ensures { result ≡ taint_of assignment.now q }
{
    match q {
        Qual::Fixed(taint) => taint,
        Qual::Var(variable) => match assignment.get(variable as usize) {
            Some(taint) => *taint,
            None => Taint::Pub,
        },
    }
}

fn before_base(taint: Taint) -> &'static [u8]
    ensures { result.now ≡ def.before_base taint }
{
    match taint {
        Taint::Pub => b"",
        Taint::Priv => b"private ",
    }
}

fn behind_star(taint: Taint) -> &'static [u8]
    ensures { result.now ≡ def.behind_star taint }
{
    match taint {
        Taint::Pub => b"",
        Taint::Priv => b" private",
    }
}

fn width_word(width: u8) -> &'static [u8]
    ensures { result.now ≡ def.width_word width }
{
    if width == 1 {
        b"char"
    } else if width == 4 {
        b"int"
    } else {
        b"long"
    }
}

fn put_name(out: &mut Vec<u8>, names: &[Text], number: u32) -> Result<(), NoMemory>
    ensures { OnOk result (out.new.items ≡ out.old.items ++ def.name_at names.now number) }
{
    match names.get(number as usize) {
        Some(name) => put(out, name.as_slice()),
        None => Ok(()),
    }
}

fn put_struct_name(
    out: &mut Vec<u8>,
    names: &[Text],
    structs: &[StructDef],
    id: u32,
) -> Result<(), NoMemory>
    ensures { OnOk result ((asg : List Taint) → out.new.items ≡ out.old.items ++ def.struct_name (def.reading names.now structs.now asg) id) }
{
    match structs.get(id as usize) {
        Some(definition) => put_name(out, names, definition.name),
        None => Ok(()),
    }
}

fn put_integer(out: &mut Vec<u8>, assignment: &[Taint], width: u8, q: Qual) -> Result<(), NoMemory>
    ensures { OnOk result (out.new.items ≡ out.old.items ++ (def.before_base (taint_of assignment.now q) ++ def.width_word width)) }
{
    put(out, before_base(taint_under(assignment, q)))?;
    put(out, width_word(width))
}

fn put_struct(
    out: &mut Vec<u8>,
    names: &[Text],
    structs: &[StructDef],
    assignment: &[Taint],
    id: u32,
    q: Qual,
) -> Result<(), NoMemory>
    ensures { OnOk result (out.new.items ≡ out.old.items ++ (def.before_base (taint_of assignment.now q) ++ (codes "struct " ++ def.struct_name (def.reading names.now structs.now assignment.now) id))) }
{
    put(out, before_base(taint_under(assignment, q)))?;
    put(out, b"struct ")?;
    put_struct_name(out, names, structs, id)
}

fn put_length(alloc: Global, out: &mut Vec<u8>, len: u32) -> Result<(), NoMemory>
    ensures { OnOk result (out.new.items ≡ out.old.items ++ (codes " [" ++ (decimal len ++ codes "]"))) }
{
    let text = format!(in alloc; " [{len}]")?;
    put(out, text.as_bytes())
}

/// What stands before the star of a pointer.
#[tactic(auto, unfolding(crate::specs::Texts::said))]
#[cycle(types)]
fn put_before(
    alloc: Global,
    out: &mut Vec<u8>,
    names: &[Text],
    structs: &[StructDef],
    assignment: &[Taint],
    ty: &Ty,
) -> Result<(), NoMemory>
    ensures { OnOk result (out.new.items ≡ out.old.items ++ (def.said (def.reading names.now structs.now assignment.now) ty.now).before) }
{
    match ty {
        Ty::Fun { ret, .. } => {
            put_type(alloc, out, names, structs, assignment, ret.get())?;
            put(out, b" (*")
        }
        object => {
            put_type(alloc, out, names, structs, assignment, object)?;
            put(out, b" *")
        }
    }
}

/// What stands behind the star of a pointer.
#[tactic(auto, unfolding(crate::specs::Texts::said))]
#[cycle(types)]
fn put_behind(
    alloc: Global,
    out: &mut Vec<u8>,
    names: &[Text],
    structs: &[StructDef],
    assignment: &[Taint],
    ty: &Ty,
) -> Result<(), NoMemory>
    ensures { OnOk result (out.new.items ≡ out.old.items ++ (def.said (def.reading names.now structs.now assignment.now) ty.now).behind) }
{
    match ty {
        Ty::Fun { params, .. } => {
            put(out, b")")?;
            put_parameters(alloc, out, names, structs, assignment, params.as_slice())
        }
        _ => Ok(()),
    }
}

#[cycle(types)]
fn put_parameters(
    alloc: Global,
    out: &mut Vec<u8>,
    names: &[Text],
    structs: &[StructDef],
    assignment: &[Taint],
    params: &[Ty],
) -> Result<(), NoMemory>
    ensures { OnOk result (out.new.items ≡ out.old.items ++ def.parameters (map (def.said (def.reading names.now structs.now assignment.now)) params.now)) }
{
    put(out, b" (")?;
    put_listed(alloc, out, names, structs, assignment, params)?;
    put(out, b")")
}

/// With a comma between two.
#[cycle(types)]
fn put_listed(
    alloc: Global,
    out: &mut Vec<u8>,
    names: &[Text],
    structs: &[StructDef],
    assignment: &[Taint],
    params: &[Ty],
) -> Result<(), NoMemory>
    ensures { OnOk result (out.new.items ≡ out.old.items ++ def.listed (def.texts (map (def.said (def.reading names.now structs.now assignment.now)) params.now))) }
{
    match params {
        [] => Ok(()),
        [first, rest @ ..] => {
            put_type(alloc, out, names, structs, assignment, first)?;
            put_further(alloc, out, names, structs, assignment, rest)
        }
    }
}

/// With a comma before each.
#[cycle(types)]
fn put_further(
    alloc: Global,
    out: &mut Vec<u8>,
    names: &[Text],
    structs: &[StructDef],
    assignment: &[Taint],
    params: &[Ty],
) -> Result<(), NoMemory>
    ensures { OnOk result (out.new.items ≡ out.old.items ++ def.further (def.texts (map (def.said (def.reading names.now structs.now assignment.now)) params.now))) }
{
    for ty in params {
        put(out, b", ")?;
        put_type(alloc, out, names, structs, assignment, ty)?;
    }
    Ok(())
}

#[tactic(auto, unfolding(crate::specs::Texts::said))]
#[cycle(types)]
fn put_type(
    alloc: Global,
    out: &mut Vec<u8>,
    names: &[Text],
    structs: &[StructDef],
    assignment: &[Taint],
    ty: &Ty,
) -> Result<(), NoMemory>
    ensures { OnOk result (out.new.items ≡ out.old.items ++ (def.said (def.reading names.now structs.now assignment.now) ty.now).text) }
{
    match ty {
        Ty::Int { width, q } => put_integer(out, assignment, *width, *q),
        Ty::Void => put(out, b"void"),
        Ty::Struct { id, q } => put_struct(out, names, structs, assignment, *id, *q),
        Ty::Ptr { to, q } => {
            put_before(alloc, out, names, structs, assignment, to.get())?;
            put(out, behind_star(taint_under(assignment, *q)))?;
            put_behind(alloc, out, names, structs, assignment, to.get())
        }
        Ty::Array { elem, len } => {
            put_type(alloc, out, names, structs, assignment, elem.get())?;
            put_length(alloc, out, *len)
        }
        Ty::Fun { ret, params } => {
            put_type(alloc, out, names, structs, assignment, ret.get())?;
            put_parameters(alloc, out, names, structs, assignment, params.as_slice())
        }
    }
}

fn put_local(
    alloc: Global,
    out: &mut Vec<u8>,
    names: &[Text],
    structs: &[StructDef],
    assignment: &[Taint],
    function: u32,
    l: &Local,
) -> Result<(), NoMemory>
    ensures { OnOk result (out.new.items ≡ out.old.items ++ def.local_line (def.reading names.now structs.now assignment.now) function l.now) }
{
    put_name(out, names, function)?;
    put(out, b".")?;
    put_name(out, names, l.name)?;
    put(out, b": ")?;
    put_type(alloc, out, names, structs, assignment, &l.ty)?;
    put(out, b"\n")
}

fn put_locals(
    alloc: Global,
    out: &mut Vec<u8>,
    names: &[Text],
    structs: &[StructDef],
    assignment: &[Taint],
    f: &Function,
) -> Result<(), NoMemory>
    ensures { OnOk result (out.new.items ≡ out.old.items ++ def.function_lines (def.reading names.now structs.now assignment.now) f.now) }
{
    for l in f.locals.as_slice() {
        put_local(alloc, out, names, structs, assignment, f.name, l)?;
    }
    Ok(())
}

/// The line of each local, in the order of the source. A variable that the assignment lacks is public.
pub fn local_lines(
    alloc: Global,
    names: &[Text],
    typed: &Typed,
    assignment: &[Taint],
) -> Result<Vec<u8>, NoMemory>
    ensures { IfOk result (λ v. v.items ≡ def.local_lines names.now typed.now assignment.now) }
{
    let mut out = Vec::new(alloc);
    let structs = typed.structs.as_slice();
    for f in typed.functions.as_slice() {
        put_locals(alloc, &mut out, names, structs, assignment, f)?;
    }
    Ok(out)
}

//! Objects of a file, and what initialises them.

ghost use Rattle.cv_word.specs.Words as words;
ghost use Rattle.std.specs.Prelude.{◌≡◌, IfOk, OnOk};
ghost use Rattle.type_rules.specs.Declarations as def;

use c_ast::program::{Declaration, Expression, ExpressionKind, Initialised, PrefixOp, Specifier};
use c_ast::typed::Global as GlobalObject;
use c_ast::{Boxed, Items, Text, Ty};
use cv_word::NoMemory;
use name_scopes::Meaning;
use std::alloc::Global;
use type_expressions::{string_size, type_of};
use type_operators::fits;
use type_rules::declarations::Start;
use type_rules::files::File;
use type_rules::known::Known;
use type_rules::notes::{Notes, count};
use type_rules::parts::Form;
use type_rules::rules::{K1, K6, K12};
use type_rules::written::{Unwritten, object_type};
use type_shapes::sizes::extent_of;
use type_shapes::types::{copy_option, long};

/// Modulo 2^64.
fn negated(value: u64) -> u64
    ensures { result ≡ def.negated value }
{
    if value == 0 { 0 } else { u64::MAX - value + 1 }
}

fn negated_start(e: &Expression) -> Start
    ensures { result ≡ def.negated_start e.now }
{
    match &e.kind {
        ExpressionKind::Number { value } => Start::Amount {
            form: Form::Value,
            value: negated(*value),
        },
        ExpressionKind::Character { value } => Start::Amount {
            form: Form::Value,
            value: negated(u64::from(*value)),
        },
        _ => Start::Other,
    }
}

fn number_start(value: u64) -> Start
    ensures { result ≡ def.number_start value }
{
    let form = if value == 0 { Form::Zero } else { Form::Value };
    Start::Amount { form, value }
}

fn prefix_start(op: PrefixOp, e: &Expression) -> Start
    ensures { result ≡ def.prefix_start op e.now }
{
    match op {
        PrefixOp::Negate => negated_start(e),
        _ => Start::Other,
    }
}

fn start_of(e: &Expression) -> Start
    ensures { result ≡ def.start_of e.now }
{
    match &e.kind {
        ExpressionKind::Number { value } => number_start(*value),
        ExpressionKind::Character { value } => Start::Amount {
            form: Form::Value,
            value: u64::from(*value),
        },
        ExpressionKind::String { string } => Start::Characters { string: *string },
        ExpressionKind::Prefix { op, operand } => prefix_start(*op, operand.get()),
        _ => Start::Other,
    }
}

fn is_character(ty: &Ty) -> bool
    ensures { result ≡ def.is_character ty.now }
{
    match ty {
        Ty::Int { width, .. } => *width == 1,
        _ => false,
    }
}

/// An array of so many characters or more.
#[tactic(auto, unfolding(type_rules::specs::Declarations::holds_characters))]
fn holds_characters(size: u32, ty: &Ty) -> bool
    ensures { result ≡ def.holds_characters size ty.now }
{
    match ty {
        Ty::Array { elem, len } => is_character(elem.get()) & (size <= *len),
        _ => false,
    }
}

/// The low bytes of a number, so many of them, lowest first.
fn word_bytes(alloc: Global, count: u64, value: u64) -> Result<Vec<u8>, NoMemory>
    ensures { IfOk result (λ v. v.items ≡ words.word_bytes count value) }
{
    let mut bytes = Vec::new(alloc);
    let mut rest = value;
    for i in 0..count {
        bytes.push((rest % 256) as u8)?;
        rest /= 256;
    }
    Ok(bytes)
}

/// A string and its zero byte.
fn string_bytes(alloc: Global, strings: &[Text], string: u32) -> Result<Vec<u8>, NoMemory>
    ensures { IfOk result (λ v. v.items ≡ def.string_bytes strings.now string) }
{
    let mut bytes = Vec::new(alloc);
    if let Some(text) = strings.get(string as usize) {
        bytes.extend_from_slice(text.as_slice())?;
    }
    bytes.push(0)?;
    Ok(bytes)
}

/// K6 at a number that doesn't fit; K12 at the name of what a string doesn't fit, and of what has another initialiser.
#[tactic(auto, unfolding(type_rules::specs::Declarations::start_bytes))]
fn start_bytes(
    alloc: Global,
    strings: &[Text],
    known: &Known,
    place: u32,
    start: Start,
    e: &Expression,
    ty: &Ty,
    notes: &mut Notes,
) -> Result<Vec<u8>, NoMemory>
    ensures bytes { IfOk result (λ v. v.items ≡ (def.start_bytes strings.now known.now place start e.now ty.now notes.old).bytes) }
    ensures notes { OnOk result (notes.new ≡ (def.start_bytes strings.now known.now place start e.now ty.now notes.old).notes) }
{
    match start {
        Start::Amount { form, value } => {
            if fits(alloc, form, &long(), ty)? {
                let size = extent_of(known.extents.as_slice(), ty)?.size;
                return word_bytes(alloc, size, value);
            }
            notes.broken(K6, e.place)?;
            Ok(Vec::new(alloc))
        }
        Start::Characters { string } => {
            if holds_characters(string_size(known, string), ty) {
                return string_bytes(alloc, strings, string);
            }
            notes.broken(K12, place)?;
            Ok(Vec::new(alloc))
        }
        Start::Other => {
            notes.broken(K12, place)?;
            let _part = type_of(alloc, e, false, known, notes)?;
            Ok(Vec::new(alloc))
        }
    }
}

/// What may initialise no global is told whether or not the global has a type.
fn untyped_start(place: u32, start: Start, notes: &mut Notes) -> Result<(), NoMemory>
    ensures { OnOk result (notes.new ≡ def.untyped_start place start notes.old) }
{
    match start {
        Start::Other => notes.broken(K12, place),
        _ => Ok(()),
    }
}

#[tactic(auto, unfolding(type_rules::specs::Declarations::start_of_global))]
fn start_of_global(
    alloc: Global,
    strings: &[Text],
    known: &Known,
    place: u32,
    e: &Option<Boxed<Expression>>,
    ty: &Option<Ty>,
    notes: &mut Notes,
) -> Result<Vec<u8>, NoMemory>
    ensures bytes { IfOk result (λ v. v.items ≡ (def.start_of_global strings.now known.now place e.now ty.now notes.old).bytes) }
    ensures notes { OnOk result (notes.new ≡ (def.start_of_global strings.now known.now place e.now ty.now notes.old).notes) }
{
    match e {
        None => Ok(Vec::new(alloc)),
        Some(e) => match ty {
            None => {
                untyped_start(place, start_of(e.get()), notes)?;
                Ok(Vec::new(alloc))
            }
            Some(ty) => start_bytes(
                alloc,
                strings,
                known,
                place,
                start_of(e.get()),
                e.get(),
                ty,
                notes,
            ),
        },
    }
}

fn push_global(
    globals: &mut Items<GlobalObject>,
    name: u32,
    place: u32,
    ty: Option<Ty>,
    start: Vec<u8>,
) -> Result<(), NoMemory>
    ensures { OnOk result (globals.new ≡ def.with_global name place ty start.items globals.old) }
{
    if let Some(ty) = ty {
        let start = Text::from_vec(start);
        globals.push(GlobalObject {
            name,
            place,
            ty,
            start,
        })?;
    }
    Ok(())
}

/// K1 at a name that the file has already.
#[tactic(auto, unfolding(type_rules::specs::Declarations::declare_global))]
fn declare_global(
    alloc: Global,
    strings: &[Text],
    specifier: Specifier,
    file: &mut File,
    i: &Initialised,
) -> Result<(), NoMemory>
    ensures { OnOk result (file.new ≡ def.declare_global strings.now specifier file.old i.now) }
{
    let d = &i.declarator;
    let ty = object_type(
        alloc,
        &file.known,
        Unwritten::Public,
        specifier,
        d,
        &mut file.notes,
    )?;
    let twice = file.defined.declares(d.name) | file.prototypes.declares(d.name);
    file.notes.broken_if(twice, K1, d.place)?;
    let number = count(file.globals.len())?;
    let meaning = Meaning::Global { number };
    let copy = copy_option(alloc, &ty)?;
    file.known.scope.declare(d.name, meaning, copy)?;
    let copy = copy_option(alloc, &ty)?;
    file.defined.declare(d.name, meaning, copy)?;
    let start = start_of_global(
        alloc,
        strings,
        &file.known,
        d.place,
        &i.start,
        &ty,
        &mut file.notes,
    )?;
    push_global(&mut file.globals, d.name, d.place, ty, start)
}

/// The objects of a declaration.
pub fn declare_globals(
    alloc: Global,
    strings: &[Text],
    d: &Declaration,
    file: &mut File,
) -> Result<(), NoMemory>
    ensures { OnOk result (file.new ≡ def.declare_globals strings.now d.now file.old) }
{
    for i in d.declarators.as_slice() {
        declare_global(alloc, strings, d.specifier, file, i)?;
    }
    Ok(())
}

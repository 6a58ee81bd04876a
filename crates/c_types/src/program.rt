//! The types of a program.

ghost use Rattle.std.specs.Option.{option_copied};
ghost use Rattle.std.specs.Prelude.{◌≡◌, ◌++◌, None, Some, IfOk, MatchResult, OnOk, map, if◌then◌else◌};
ghost use Rattle.c_types.specs.Faults as faults;
ghost use Rattle.type_rules.specs.Programs as def;

use crate::globals::declare_globals;
use c_ast::program::{Block, Header, Item};
use c_ast::typed::{Function, Local, Stmt, StmtKind, StructDef};
use c_ast::{Items, Program, Text, Ty, Typed};
use cv_word::NoMemory;
use name_scopes::{Entry, Meaning, Scope};
use std::alloc::Global;
use type_declarations::{declare_struct, function_of, gates_in, header_type};
use type_rules::TypeError;
use type_rules::declarations::HeaderType;
use type_rules::files::{File, Functions};
use type_rules::frames::Frame;
use type_rules::known::Known;
use type_rules::notes::{Notes, count, counted};
use type_rules::rules::{Fault, K1, K11};
use type_shapes::types::{copy_option, copy_type, same_type};
use type_statements::block_items;

fn nothing_known(alloc: Global) -> Known
    ensures { result ≡ def.nothing_known }
{
    Known {
        string_sizes: Items::new(alloc),
        tags: Scope::new(alloc),
        structs: Items::new(alloc),
        fields: Items::new(alloc),
        extents: Items::new(alloc),
        scope: Scope::new(alloc),
    }
}

fn with_function(functions: &mut Scope, name: u32, ty: Option<Ty>) -> Result<(), NoMemory>
    ensures { OnOk result (functions.new ≡ def.with_function functions.old name ty) }
{
    let number = count(functions.len())?;
    functions.declare(name, Meaning::Function { number }, ty)
}

/// The type of a function, where no rule is broken in its header.
fn type_of_header(alloc: Global, known: &Known, h: &Header) -> Result<Option<Ty>, NoMemory>
    ensures { IfOk result (λ t. t ≡ def.type_of_header known.now h.now) }
{
    let mut unused = Notes::new(alloc);
    let t = header_type(alloc, known, h, &mut unused)?;
    let ty = function_of(alloc, &t)?;
    Ok(ty)
}

/// Of two definitions of a name the first counts.
fn take_function(alloc: Global, functions: &mut Functions, item: &Item) -> Result<(), NoMemory>
    ensures { OnOk result (functions.new ≡ def.take_function functions.old item.now) }
{
    match item {
        Item::Struct { definition } => {
            let mut unused = Notes::new(alloc);
            declare_struct(alloc, &mut functions.known, definition, &mut unused)
        }
        Item::Object { .. } => Ok(()),
        Item::Prototype { header } => {
            let ty = type_of_header(alloc, &functions.known, header)?;
            with_function(&mut functions.prototypes, header.name, ty)
        }
        Item::Function { header, .. } => {
            if functions.definitions.declares(header.name) {
                return Ok(());
            }
            let ty = type_of_header(alloc, &functions.known, header)?;
            with_function(&mut functions.definitions, header.name, ty)
        }
    }
}

/// What functions are known in the whole file.
fn functions_of(alloc: Global, items: &[Item]) -> Result<Functions, NoMemory>
    ensures { IfOk result (λ f. f ≡ def.functions_in items.now) }
{
    let mut functions = Functions {
        known: nothing_known(alloc),
        definitions: Scope::new(alloc),
        prototypes: Scope::new(alloc),
    };
    for item in items {
        take_function(alloc, &mut functions, item)?;
    }
    Ok(functions)
}

fn meaning_behind(count: u32, meaning: Meaning) -> Result<Meaning, NoMemory>
    ensures { IfOk result (λ m. m ≡ def.number_behind count meaning) }
{
    match meaning {
        Meaning::Function { number } => {
            let number = counted(count, number)?;
            Ok(Meaning::Function { number })
        }
        other => Ok(other),
    }
}

/// Declares all of these, with the numbers of functions behind so many.
fn declare_behind(
    alloc: Global,
    scope: &mut Scope,
    entries: &Scope,
    behind: u32,
) -> Result<(), NoMemory>
    ensures { OnOk result (scope.new ≡ scope.old ++ map (def.entry_behind behind) entries.now) }
{
    for at in 0..entries.len() {
        if let Some(entry) = entries.get(at) {
            let meaning = meaning_behind(behind, entry.meaning)?;
            let ty = copy_option(alloc, &entry.ty)?;
            scope.declare(entry.name, meaning, ty)?;
        }
    }
    Ok(())
}

/// Declares all of these.
fn declare_all(alloc: Global, scope: &mut Scope, entries: &Scope) -> Result<(), NoMemory>
    ensures { OnOk result (scope.new ≡ scope.old ++ entries.now) }
{
    for at in 0..entries.len() {
        if let Some(entry) = entries.get(at) {
            let ty = copy_option(alloc, &entry.ty)?;
            scope.declare(entry.name, entry.meaning, ty)?;
        }
    }
    Ok(())
}

fn same_or_unknown(a: &Option<Ty>, b: &Option<Ty>) -> bool
    ensures { result ≡ def.same_or_unknown a.now b.now }
{
    match a {
        None => true,
        Some(x) => match b {
            None => true,
            Some(y) => same_type(x, y, true),
        },
    }
}

fn agrees_with(ty: &Option<Ty>, entry: Option<&Entry>) -> bool
    ensures { result ≡ def.agrees_with ty.now (option_copied entry.entry) }
{
    match entry {
        None => false,
        Some(entry) => same_or_unknown(ty, &entry.ty),
    }
}

fn is_object(meaning: Meaning) -> bool
    ensures { result ≡ def.is_object meaning }
{
    matches!(meaning, Meaning::Global { .. })
}

fn names_object(defined: &Scope, name: u32) -> bool
    ensures { result ≡ def.names_object defined.now name }
{
    match defined.find(name) {
        None => false,
        Some(entry) => is_object(entry.meaning),
    }
}

/// K1 at a second prototype, or one of an object; K11 at one that differs from its definition or has none.
fn declare_prototype(
    alloc: Global,
    definitions: &Scope,
    h: &Header,
    file: &mut File,
) -> Result<(), NoMemory>
    ensures { OnOk result (file.new ≡ def.declare_prototype definitions.now h.now file.old) }
{
    let t = header_type(alloc, &file.known, h, &mut file.notes)?;
    let ty = function_of(alloc, &t)?;
    let twice = file.prototypes.declares(h.name) || names_object(&file.defined, h.name);
    file.notes.broken_if(twice, K1, h.place)?;
    let agrees = agrees_with(&ty, definitions.find(h.name));
    file.notes.unless(agrees, K11, h.place)?;
    with_function(&mut file.prototypes, h.name, ty)
}

/// A function without a type of its result is left out.
fn push_function(
    functions: &mut Items<Function>,
    h: &Header,
    ret: Option<Ty>,
    params: Items<Local>,
    locals: Items<Local>,
    body: Stmt,
) -> Result<(), NoMemory>
    ensures { OnOk result (functions.new ≡ def.with_node h.now ret params locals body functions.old) }
{
    if let Some(ret) = ret {
        functions.push(Function {
            name: h.name,
            place: h.place,
            ret,
            params,
            locals,
            body,
        })?;
    }
    Ok(())
}

/// The body of a function. Its parameters and its block are one scope.
fn body_of(
    alloc: Global,
    t: &HeaderType,
    body: &Block,
    known: &mut Known,
    notes: &mut Notes,
) -> Result<Stmt, NoMemory>
    ensures body { IfOk result (λ s. s ≡ def.body_node body.now (def.body_of t.now body.now known.old notes.old)) }
    ensures notes { OnOk result (notes.new ≡ (def.body_of t.now body.now known.old notes.old).notes) }
    ensures known { OnOk result (known.new ≡ known.old) }
{
    let frame = Frame {
        result: copy_option(alloc, &t.ret)?,
        parameters: count(t.scope.len())?,
    };
    let start = known.scope.len();
    declare_all(alloc, &mut known.scope, &t.scope)?;
    let items = block_items(
        alloc,
        body.items.as_slice(),
        &frame,
        false,
        start,
        known,
        notes,
    )?;
    known.scope.forget(start);
    let kind = StmtKind::Block { items };
    let place = body.place;
    Ok(Stmt { place, kind })
}

/// K1 at a second definition of a name.
fn declare_function(
    alloc: Global,
    h: &Header,
    body: &Block,
    file: &mut File,
) -> Result<(), NoMemory>
    ensures { OnOk result (file.new ≡ def.declare_function h.now body.now file.old) }
{
    let t = header_type(alloc, &file.known, h, &mut file.notes)?;
    let twice = file.defined.declares(h.name);
    file.notes.broken_if(twice, K1, h.place)?;
    let ty = function_of(alloc, &t)?;
    let node = body_of(alloc, &t, body, &mut file.known, &mut file.notes)?;
    let number = count(file.functions.len())?;
    file.defined
        .declare(h.name, Meaning::Function { number }, ty)?;
    let locals = std::mem::replace(&mut file.notes.locals, Items::new(alloc));
    push_function(&mut file.functions, h, t.ret, t.typed, locals, node)
}

fn declare_item(
    alloc: Global,
    strings: &[Text],
    definitions: &Scope,
    item: &Item,
    file: &mut File,
) -> Result<(), NoMemory>
    ensures { OnOk result (file.new ≡ def.item_step strings.now definitions.now file.old item.now) }
{
    match item {
        Item::Struct { definition } => declare_struct(
            alloc,
            &mut file.known,
            definition,
            &mut file.notes,
        ),
        Item::Object { declaration } => declare_globals(alloc, strings, declaration, file),
        Item::Prototype { header } => declare_prototype(alloc, definitions, header, file),
        Item::Function { header, body } => declare_function(alloc, header, body, file),
    }
}

fn declare_items(
    alloc: Global,
    strings: &[Text],
    definitions: &Scope,
    items: &[Item],
    file: &mut File,
) -> Result<(), NoMemory>
    ensures { OnOk result (file.new ≡ def.file_behind strings.now definitions.now items.now file.old) }
{
    for item in items {
        declare_item(alloc, strings, definitions, item, file)?;
    }
    Ok(())
}

/// The bytes of each string with its zero byte.
fn string_sizes(alloc: Global, strings: &[Text]) -> Result<Items<u32>, NoMemory>
    ensures { IfOk result (λ s. s ≡ def.string_sizes strings.now) }
{
    let mut sizes = Items::new(alloc);
    for text in strings {
        let bytes = count(text.as_slice().len())?;
        sizes.push(counted(bytes, 1)?)?;
    }
    Ok(sizes)
}

/// Declares the functions of a file, prototypes with the numbers behind all definitions.
fn declare_functions(
    alloc: Global,
    scope: &mut Scope,
    functions: &Functions,
) -> Result<(), NoMemory>
    ensures { OnOk result (scope.new ≡ scope.old ++ def.entries_of functions.now) }
{
    let behind = count(functions.definitions.len())?;
    declare_behind(alloc, scope, &functions.prototypes, behind)?;
    declare_all(alloc, scope, &functions.definitions)
}

/// What is known at the front of a file. Gates are declared outside of its scope.
fn first_known(alloc: Global, p: &Program, functions: &Functions) -> Result<Known, NoMemory>
    ensures { IfOk result (λ k. k ≡ def.first_known p.now functions.now) }
{
    let mut scope = gates_in(alloc, p.names.as_slice())?;
    declare_functions(alloc, &mut scope, functions)?;
    let string_sizes = string_sizes(alloc, p.strings.as_slice())?;
    Ok(Known {
        string_sizes,
        scope,
        ..nothing_known(alloc)
    })
}

fn file_of(alloc: Global, p: &Program) -> Result<File, NoMemory>
    ensures { IfOk result (λ f. f ≡ def.file_of p.now) }
{
    let functions = functions_of(alloc, p.items.as_slice())?;
    let known = first_known(alloc, p, &functions)?;
    let mut file = File {
        known,
        defined: Scope::new(alloc),
        prototypes: Scope::new(alloc),
        globals: Items::new(alloc),
        functions: Items::new(alloc),
        notes: Notes::new(alloc),
    };
    declare_items(
        alloc,
        p.strings.as_slice(),
        &functions.definitions,
        p.items.as_slice(),
        &mut file,
    )?;
    Ok(file)
}

/// Whether one comes before another: at a lesser place, or by a lower rule there.
fn is_before(a: Fault, b: Fault) -> bool
    ensures { result ≡ faults.is_before a b }
{
    (a.place < b.place) | ((a.place == b.place) & (a.rule < b.rule))
}

/// The lesser of what was found and one more fault.
fn lesser(found: Option<Fault>, fault: &Fault) -> Option<Fault>
    ensures { result ≡ elim found [ None ↦ Some fault.now | Some other ↦ if faults.is_before fault.now other then Some fault.now else Some other ] }
{
    match found {
        None => Some(*fault),
        Some(other) => {
            if is_before(*fault, other) {
                Some(*fault)
            } else {
                Some(other)
            }
        }
    }
}

/// The fault at the least place, and of the lowest rule there.
fn least(all: &[Fault]) -> Option<Fault>
    ensures { faults.IsFound result all.now }
{
    let mut found = None;
    for fault in all {
        found = lesser(found, fault);
    }
    found
}

/// The strings of expressions, by their numbers in the program.
fn strings_at(alloc: Global, strings: &[Text], numbers: &[u32]) -> Result<Items<Text>, NoMemory>
    ensures { IfOk result (λ t. t ≡ def.strings_at strings.now numbers.now) }
{
    let mut texts = Items::new(alloc);
    for number in numbers {
        let text = string_at(alloc, strings, *number)?;
        texts.push(text)?;
    }
    Ok(texts)
}

fn string_at(alloc: Global, strings: &[Text], number: u32) -> Result<Text, NoMemory>
    ensures { IfOk result (λ t. t ≡ def.string_at strings.now number) }
{
    let mut bytes = Vec::new(alloc);
    if let Some(text) = strings.get(number as usize) {
        bytes.extend_from_slice(text.as_slice())?;
    }
    Ok(Text::from_vec(bytes))
}

fn tree_of(alloc: Global, p: &Program, file: File) -> Result<Typed, NoMemory>
    ensures { IfOk result (λ t. t ≡ def.tree_of p.now file) }
{
    let File {
        known,
        globals,
        functions,
        notes,
        ..
    } = file;
    let Known { structs, .. } = known;
    let Notes { strings, vars, .. } = notes;
    let strings = strings_at(alloc, p.strings.as_slice(), strings.as_slice())?;
    Ok(Typed {
        structs,
        globals,
        strings,
        functions,
        vars,
    })
}

/// The typed tree of a program, or the least place where a rule is broken and the lowest rule there. Each place is
/// an offset in the source in bytes.
pub fn type_program(alloc: Global, p: &Program) -> Result<Typed, TypeError>
    ensures { MatchResult result (def.IsTyped p.now) (def.IsRefusal p.now) }
{
    let file = file_of(alloc, p)?;
    if let Some(fault) = least(file.notes.faults.as_slice()) {
        let Fault { rule, place } = fault;
        return Err(TypeError::TypeFault { rule, place });
    }
    let tree = tree_of(alloc, p, file)?;
    Ok(tree)
}

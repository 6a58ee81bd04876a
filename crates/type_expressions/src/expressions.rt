//! Expressions: what is known of one where it stands, and which rules are broken in it.

ghost use Rattle.c_ast.specs.declared.program.ExpressionKind.TheOpen as kind;
ghost use Rattle.type_rules.specs.Expressions as def;
ghost use Rattle.type_rules.specs.Operators as operators;
ghost use Rattle.name_scopes.specs.Scopes.{meaning_in};
ghost use Rattle.std.specs.Option.{option_copied};
ghost use Rattle.std.specs.Prelude.{◌≡◌, false, IfOk, OnOk, map};

use c_ast::program::{Expression, ExpressionKind, InfixOp, PrefixOp, TypeName};
use c_ast::typed::{Expr, ExprKind, UnaryOp};
use c_ast::{Boxed, Items, Qual, Ty};
use cv_word::{NoMemory, Taint};
use std::alloc::Global;
use type_operators::{
    address, arrowed, assign, between, call_of, cast, choice, computed, dotted, fitted_at,
    followed, index, name_form, name_node, signature_at, tested,
};
use type_rules::known::Known;
use type_rules::notes::{Notes, count};
use type_rules::parts::{Form, Part};
use type_rules::rules::K2;
use type_rules::written::{Unwritten, as_object, type_name};
use type_shapes::sizes::extent_of;
use type_shapes::types::{Signature, long};

#[tactic(auto, unfolding(type_rules::specs::Expressions::known_name))]
fn known_name(
    alloc: Global,
    place: u32,
    is_called: bool,
    known: &Known,
    name: u32,
    notes: &mut Notes,
) -> Result<Part, NoMemory>
    ensures part { IfOk result (λ p. p ≡ (def.known_name place is_called (meaning_in known.now.scope name) notes.old).part) }
    ensures notes { OnOk result (notes.new ≡ (def.known_name place is_called (meaning_in known.now.scope name) notes.old).notes) }
{
    match known.scope.find(name) {
        None => {
            notes.broken(K2, place)?;
            Ok(Part {
                place,
                form: Form::Value,
                node: None,
            })
        }
        Some(entry) => {
            let form = name_form(entry.meaning);
            let node = name_node(alloc, place, is_called, entry, notes)?;
            Ok(Part { place, form, node })
        }
    }
}

fn number_form(value: u64) -> Form
    ensures { result ≡ def.number_form value }
{
    if value == 0 { Form::Zero } else { Form::Value }
}

fn constant(place: u32, form: Form, value: u64) -> Part
    ensures { result ≡ def.constant place form value }
{
    let ty = long();
    let kind = ExprKind::Num { value };
    Part {
        place,
        form,
        node: Some(Expr { place, ty, kind }),
    }
}

pub fn string_size(known: &Known, number: u32) -> u32
    ensures { result ≡ def.string_size known.now number }
{
    match known.string_sizes.get(number as usize) {
        Some(size) => *size,
        None => 0,
    }
}

fn string_node(alloc: Global, place: u32, string: u32, len: u32) -> Result<Expr, NoMemory>
    ensures { IfOk result (λ n. n ≡ def.string_node place string len) }
{
    let q = Qual::Fixed(Taint::Pub);
    let elem = Boxed::new(alloc, Ty::Int { width: 1, q })?;
    let ty = Ty::Array { elem, len };
    let kind = ExprKind::Str { string };
    Ok(Expr { place, ty, kind })
}

/// An array of characters; its number counts the strings of expressions before it.
#[tactic(auto, unfolding(type_rules::specs::Expressions::string))]
fn string(
    alloc: Global,
    place: u32,
    number: u32,
    size: u32,
    notes: &mut Notes,
) -> Result<Part, NoMemory>
    ensures part { IfOk result (λ p. p ≡ (def.string place number size notes.old).part) }
    ensures notes { OnOk result (notes.new ≡ (def.string place number size notes.old).notes) }
{
    let before = count(notes.strings.len())?;
    let node = string_node(alloc, place, before, size)?;
    notes.with_string(number)?;
    Ok(Part {
        place,
        form: Form::Value,
        node: Some(node),
    })
}

fn size_node(place: u32, known: &Known, ty: Option<Ty>) -> Result<Option<Expr>, NoMemory>
    ensures { IfOk result (λ n. n ≡ def.size_node place known.now ty) }
{
    match ty {
        None => Ok(None),
        Some(ty) => {
            let value = extent_of(known.extents.as_slice(), &ty)?.size;
            let kind = ExprKind::Num { value };
            let ty = long();
            Ok(Some(Expr { place, ty, kind }))
        }
    }
}

/// The type of an object without a name.
#[tactic(auto, unfolding(type_rules::specs::Expressions::sized_type, type_rules::specs::WrittenTypes::type_reader))]
fn sized_type(
    alloc: Global,
    known: &Known,
    of: &TypeName,
    notes: &mut Notes,
) -> Result<Option<Ty>, NoMemory>
    ensures ty { IfOk result (λ t. t ≡ (def.sized_type known.now of.now notes.old).ty) }
    ensures notes { OnOk result (notes.new ≡ (def.sized_type known.now of.now notes.old).notes) }
{
    match type_name(alloc, known, Unwritten::Public, of, notes)? {
        None => Ok(None),
        Some(ty) => as_object(known, of.specifier.place, ty, notes),
    }
}

/// `-`, `~`, `!`, `*` or `&` before an operand.
#[tactic(auto, unfolding(type_rules::specs::Expressions::prefix))]
fn prefix(
    alloc: Global,
    place: u32,
    op: PrefixOp,
    p: Part,
    notes: &mut Notes,
) -> Result<Part, NoMemory>
    ensures part { IfOk result (λ t. t ≡ (def.prefix place op p notes.old).part) }
    ensures notes { OnOk result (notes.new ≡ (def.prefix place op p notes.old).notes) }
{
    match op {
        PrefixOp::Negate => {
            let node = on_integer(alloc, place, UnaryOp::Neg, p, notes)?;
            Ok(Part {
                place,
                form: Form::Value,
                node,
            })
        }
        PrefixOp::Complement => {
            let node = on_integer(alloc, place, UnaryOp::Not, p, notes)?;
            Ok(Part {
                place,
                form: Form::Value,
                node,
            })
        }
        PrefixOp::IsZero => {
            let node = match p.node {
                None => None,
                Some(e) => tested(alloc, place, e, notes)?,
            };
            Ok(Part {
                place,
                form: Form::Value,
                node,
            })
        }
        PrefixOp::Follow => {
            let node = match p.node {
                None => None,
                Some(e) => followed(alloc, place, e, notes)?,
            };
            Ok(Part {
                place,
                form: Form::Place,
                node,
            })
        }
        PrefixOp::Address => {
            let node = address(alloc, place, p, notes)?;
            Ok(Part {
                place,
                form: Form::Value,
                node,
            })
        }
    }
}

#[tactic(auto, unfolding(type_rules::specs::Expressions::on_integer))]
fn on_integer(
    alloc: Global,
    place: u32,
    op: UnaryOp,
    p: Part,
    notes: &mut Notes,
) -> Result<Option<Expr>, NoMemory>
    ensures node { IfOk result (λ n. n ≡ (def.on_integer place op p notes.old).node) }
    ensures notes { OnOk result (notes.new ≡ (def.on_integer place op p notes.old).notes) }
{
    match p.node {
        None => Ok(None),
        Some(e) => computed(alloc, place, op, e, notes),
    }
}

#[tactic(auto, unfolding(type_rules::specs::Expressions::member))]
fn member(
    alloc: Global,
    known: &Known,
    place: u32,
    name: u32,
    name_place: u32,
    p: Part,
    notes: &mut Notes,
) -> Result<Part, NoMemory>
    ensures part { IfOk result (λ t. t ≡ (def.member place name name_place p known.now notes.old).part) }
    ensures notes { OnOk result (notes.new ≡ (def.member place name name_place p known.now notes.old).notes) }
{
    match p.node {
        None => Ok(Part {
            place,
            form: Form::Place,
            node: None,
        }),
        Some(e) => {
            let node = dotted(
                alloc,
                known.fields.as_slice(),
                place,
                name,
                name_place,
                e,
                notes,
            )?;
            Ok(Part {
                place,
                form: Form::Place,
                node,
            })
        }
    }
}

#[tactic(auto, unfolding(type_rules::specs::Expressions::arrow))]
fn arrow(
    alloc: Global,
    known: &Known,
    place: u32,
    name: u32,
    name_place: u32,
    p: Part,
    notes: &mut Notes,
) -> Result<Part, NoMemory>
    ensures part { IfOk result (λ t. t ≡ (def.arrow place name name_place p known.now notes.old).part) }
    ensures notes { OnOk result (notes.new ≡ (def.arrow place name name_place p known.now notes.old).notes) }
{
    match p.node {
        None => Ok(Part {
            place,
            form: Form::Place,
            node: None,
        }),
        Some(e) => {
            let node = arrowed(
                alloc,
                known.fields.as_slice(),
                place,
                name,
                name_place,
                e,
                notes,
            )?;
            Ok(Part {
                place,
                form: Form::Place,
                node,
            })
        }
    }
}

/// One more argument.
#[tactic(auto, unfolding(type_rules::specs::Expressions::argument))]
#[cycle(expressions)]
fn argument(
    alloc: Global,
    known: &Known,
    ty: Option<&Ty>,
    arg: &Expression,
    notes: &mut Notes,
) -> Result<Option<Expr>, NoMemory>
    ensures node { IfOk result (λ n. n ≡ (def.argument known.now (option_copied ty.entry) (def.type_of arg.now) notes.old).node) }
    ensures notes { OnOk result (notes.new ≡ (def.argument known.now (option_copied ty.entry) (def.type_of arg.now) notes.old).notes) }
{
    let p = type_of(alloc, arg, false, known, notes)?;
    fitted_at(alloc, p, ty, notes)
}

fn put_node(nodes: &mut Items<Expr>, node: Option<Expr>) -> Result<(), NoMemory>
    ensures { OnOk result (nodes.new ≡ operators.with_node nodes.old node) }
{
    if let Some(e) = node {
        nodes.push(e)?;
    }
    Ok(())
}

/// The arguments that fit, and whether all do.
#[cycle(expressions)]
fn arguments(
    alloc: Global,
    known: &Known,
    types: &[Ty],
    args: &[Expression],
    notes: &mut Notes,
) -> Result<(Items<Expr>, bool), NoMemory>
    ensures nodes { IfOk result (λ r. r.0 ≡ (def.arguments known.now types.now (map def.type_of args.now) notes.old).nodes) }
    ensures whole { IfOk result (λ r. r.1 ≡ (def.arguments known.now types.now (map def.type_of args.now) notes.old).whole) }
    ensures notes { OnOk result (notes.new ≡ (def.arguments known.now types.now (map def.type_of args.now) notes.old).notes) }
{
    let mut nodes = Items::new(alloc);
    let mut whole = true;
    for (i, arg) in args.iter().enumerate() {
        let node = argument(alloc, known, types.get(i), arg, notes)?;
        whole = whole & node.is_some();
        put_node(&mut nodes, node)?;
    }
    Ok((nodes, whole))
}

/// The callee's rules come first, and then each argument with its parameter.
#[tactic(auto, unfolding(type_rules::specs::Expressions::call))]
#[cycle(expressions)]
fn call(
    alloc: Global,
    place: u32,
    f: Part,
    args: &[Expression],
    known: &Known,
    notes: &mut Notes,
) -> Result<Part, NoMemory>
    ensures part { IfOk result (λ t. t ≡ (def.call place f (map def.type_of args.now) known.now notes.old).part) }
    ensures notes { OnOk result (notes.new ≡ (def.call place f (map def.type_of args.now) known.now notes.old).notes) }
{
    let signature = signature_at(alloc, place, args.len(), &f, notes)?;
    let (nodes, whole) = arguments(alloc, known, expected(&signature), args, notes)?;
    let node = call_of(alloc, place, f.node, signature, whole, nodes)?;
    Ok(Part {
        place,
        form: Form::Value,
        node,
    })
}

/// An operator before its operand.
#[tactic(auto, unfolding(type_rules::specs::Expressions::kind_step))]
#[cycle(expressions)]
fn prefixed(
    alloc: Global,
    place: u32,
    op: PrefixOp,
    operand: &Expression,
    known: &Known,
    notes: &mut Notes,
) -> Result<Part, NoMemory>
    ensures part { IfOk result (λ t. t ≡ (def.kind_step (kind.Prefix op (def.type_of operand.now)) place false known.now notes.old).part) }
    ensures notes { OnOk result (notes.new ≡ (def.kind_step (kind.Prefix op (def.type_of operand.now)) place false known.now notes.old).notes) }
{
    let p = type_of(alloc, operand, false, known, notes)?;
    prefix(alloc, place, op, p, notes)
}

/// A cast.
#[tactic(auto, unfolding(type_rules::specs::Expressions::kind_step))]
#[cycle(expressions)]
fn converted(
    alloc: Global,
    place: u32,
    to: &TypeName,
    operand: &Expression,
    known: &Known,
    notes: &mut Notes,
) -> Result<Part, NoMemory>
    ensures part { IfOk result (λ t. t ≡ (def.kind_step (kind.Cast to.now (def.type_of operand.now)) place false known.now notes.old).part) }
    ensures notes { OnOk result (notes.new ≡ (def.kind_step (kind.Cast to.now (def.type_of operand.now)) place false known.now notes.old).notes) }
{
    let ty = type_name(alloc, known, Unwritten::Variable, to, notes)?;
    let p = type_of(alloc, operand, false, known, notes)?;
    let node = cast(alloc, place, ty, p, notes)?;
    Ok(Part {
        place,
        form: Form::Value,
        node,
    })
}

/// An operator between two operands.
#[tactic(auto, unfolding(type_rules::specs::Expressions::kind_step))]
#[cycle(expressions)]
fn infix(
    alloc: Global,
    place: u32,
    op: InfixOp,
    left: &Expression,
    right: &Expression,
    known: &Known,
    notes: &mut Notes,
) -> Result<Part, NoMemory>
    ensures part { IfOk result (λ t. t ≡ (def.kind_step (kind.Infix op (def.type_of left.now) (def.type_of right.now)) place false known.now notes.old).part) }
    ensures notes { OnOk result (notes.new ≡ (def.kind_step (kind.Infix op (def.type_of left.now) (def.type_of right.now)) place false known.now notes.old).notes) }
{
    let a = type_of(alloc, left, false, known, notes)?;
    let b = type_of(alloc, right, false, known, notes)?;
    let node = between(alloc, place, op, a, b, notes)?;
    Ok(Part {
        place,
        form: Form::Value,
        node,
    })
}

/// A choice.
#[tactic(auto, unfolding(type_rules::specs::Expressions::kind_step))]
#[cycle(expressions)]
fn chosen(
    alloc: Global,
    place: u32,
    on: &Expression,
    first: &Expression,
    second: &Expression,
    known: &Known,
    notes: &mut Notes,
) -> Result<Part, NoMemory>
    ensures part { IfOk result (λ t. t ≡ (def.kind_step (kind.Choice (def.type_of on.now) (def.type_of first.now) (def.type_of second.now)) place false known.now notes.old).part) }
    ensures notes { OnOk result (notes.new ≡ (def.kind_step (kind.Choice (def.type_of on.now) (def.type_of first.now) (def.type_of second.now)) place false known.now notes.old).notes) }
{
    let c = type_of(alloc, on, false, known, notes)?;
    let a = type_of(alloc, first, false, known, notes)?;
    let b = type_of(alloc, second, false, known, notes)?;
    let node = choice(alloc, place, c, a, b, notes)?;
    Ok(Part {
        place,
        form: Form::Value,
        node,
    })
}

/// An assignment.
#[tactic(auto, unfolding(type_rules::specs::Expressions::kind_step))]
#[cycle(expressions)]
fn assigned(
    alloc: Global,
    place: u32,
    to: &Expression,
    from: &Expression,
    known: &Known,
    notes: &mut Notes,
) -> Result<Part, NoMemory>
    ensures part { IfOk result (λ t. t ≡ (def.kind_step (kind.Assign (def.type_of to.now) (def.type_of from.now)) place false known.now notes.old).part) }
    ensures notes { OnOk result (notes.new ≡ (def.kind_step (kind.Assign (def.type_of to.now) (def.type_of from.now)) place false known.now notes.old).notes) }
{
    let a = type_of(alloc, to, false, known, notes)?;
    let b = type_of(alloc, from, false, known, notes)?;
    let node = assign(alloc, place, a, b, notes)?;
    Ok(Part {
        place,
        form: Form::Value,
        node,
    })
}

/// A call.
#[tactic(auto, unfolding(type_rules::specs::Expressions::kind_step))]
#[cycle(expressions)]
fn called(
    alloc: Global,
    place: u32,
    callee: &Expression,
    args: &[Expression],
    known: &Known,
    notes: &mut Notes,
) -> Result<Part, NoMemory>
    ensures part { IfOk result (λ t. t ≡ (def.kind_step (kind.Call (def.type_of callee.now) (map def.type_of args.now)) place false known.now notes.old).part) }
    ensures notes { OnOk result (notes.new ≡ (def.kind_step (kind.Call (def.type_of callee.now) (map def.type_of args.now)) place false known.now notes.old).notes) }
{
    let f = type_of(alloc, callee, true, known, notes)?;
    call(alloc, place, f, args, known, notes)
}

/// An element of an array.
#[tactic(auto, unfolding(type_rules::specs::Expressions::kind_step))]
#[cycle(expressions)]
fn element(
    alloc: Global,
    place: u32,
    of: &Expression,
    at: &Expression,
    known: &Known,
    notes: &mut Notes,
) -> Result<Part, NoMemory>
    ensures part { IfOk result (λ t. t ≡ (def.kind_step (kind.Index (def.type_of of.now) (def.type_of at.now)) place false known.now notes.old).part) }
    ensures notes { OnOk result (notes.new ≡ (def.kind_step (kind.Index (def.type_of of.now) (def.type_of at.now)) place false known.now notes.old).notes) }
{
    let a = type_of(alloc, of, false, known, notes)?;
    let b = type_of(alloc, at, false, known, notes)?;
    let node = index(alloc, place, a, b, notes)?;
    Ok(Part {
        place,
        form: Form::Place,
        node,
    })
}

/// A member of an object.
#[tactic(auto, unfolding(type_rules::specs::Expressions::kind_step))]
#[cycle(expressions)]
fn member_of(
    alloc: Global,
    place: u32,
    of: &Expression,
    name: u32,
    name_place: u32,
    known: &Known,
    notes: &mut Notes,
) -> Result<Part, NoMemory>
    ensures part { IfOk result (λ t. t ≡ (def.kind_step (kind.Member (def.type_of of.now) name name_place) place false known.now notes.old).part) }
    ensures notes { OnOk result (notes.new ≡ (def.kind_step (kind.Member (def.type_of of.now) name name_place) place false known.now notes.old).notes) }
{
    let p = type_of(alloc, of, false, known, notes)?;
    member(alloc, known, place, name, name_place, p, notes)
}

/// A member behind a pointer.
#[tactic(auto, unfolding(type_rules::specs::Expressions::kind_step))]
#[cycle(expressions)]
fn member_behind(
    alloc: Global,
    place: u32,
    of: &Expression,
    name: u32,
    name_place: u32,
    known: &Known,
    notes: &mut Notes,
) -> Result<Part, NoMemory>
    ensures part { IfOk result (λ t. t ≡ (def.kind_step (kind.Arrow (def.type_of of.now) name name_place) place false known.now notes.old).part) }
    ensures notes { OnOk result (notes.new ≡ (def.kind_step (kind.Arrow (def.type_of of.now) name name_place) place false known.now notes.old).notes) }
{
    let p = type_of(alloc, of, false, known, notes)?;
    arrow(alloc, known, place, name, name_place, p, notes)
}

/// The size of a type.
#[tactic(auto, unfolding(type_rules::specs::Expressions::kind_step))]
fn size_of(
    alloc: Global,
    place: u32,
    of: &TypeName,
    known: &Known,
    notes: &mut Notes,
) -> Result<Part, NoMemory>
    ensures part { IfOk result (λ t. t ≡ (def.kind_step (kind.Sizeof of.now) place false known.now notes.old).part) }
    ensures notes { OnOk result (notes.new ≡ (def.kind_step (kind.Sizeof of.now) place false known.now notes.old).notes) }
{
    let ty = sized_type(alloc, known, of, notes)?;
    let node = size_node(place, known, ty)?;
    Ok(Part {
        place,
        form: Form::Value,
        node,
    })
}

/// What is known of an expression where it stands. A part is told whether it is called.
#[tactic(auto, unfolding(type_rules::specs::Expressions::type_of, type_rules::specs::Expressions::kind_step))]
#[cycle(expressions)]
pub fn type_of(
    alloc: Global,
    e: &Expression,
    is_called: bool,
    known: &Known,
    notes: &mut Notes,
) -> Result<Part, NoMemory>
    ensures part { IfOk result (λ t. t ≡ (def.type_of e.now is_called known.now notes.old).part) }
    ensures notes { OnOk result (notes.new ≡ (def.type_of e.now is_called known.now notes.old).notes) }
{
    let place = e.place;
    match &e.kind {
        ExpressionKind::Name { name } => known_name(alloc, place, is_called, known, *name, notes),
        ExpressionKind::Number { value } => Ok(constant(place, number_form(*value), *value)),
        ExpressionKind::Character { value } => Ok(constant(place, Form::Value, u64::from(*value))),
        ExpressionKind::String { string: number } => {
            string(alloc, place, *number, string_size(known, *number), notes)
        }
        ExpressionKind::Bracket { inner } => type_of(alloc, inner.get(), is_called, known, notes),
        ExpressionKind::Prefix { op, operand } => prefixed(
            alloc,
            place,
            *op,
            operand.get(),
            known,
            notes,
        ),
        ExpressionKind::Sizeof { of } => size_of(alloc, place, of, known, notes),
        ExpressionKind::Cast { to, operand } => converted(
            alloc,
            place,
            to,
            operand.get(),
            known,
            notes,
        ),
        ExpressionKind::Infix { op, left, right } => infix(
            alloc,
            place,
            *op,
            left.get(),
            right.get(),
            known,
            notes,
        ),
        ExpressionKind::Choice {
            condition,
            then,
            otherwise,
        } => {
            chosen(
                alloc,
                place,
                condition.get(),
                then.get(),
                otherwise.get(),
                known,
                notes,
            )
        }
        ExpressionKind::Assign { to, from } => assigned(
            alloc,
            place,
            to.get(),
            from.get(),
            known,
            notes,
        ),
        ExpressionKind::Call { callee, arguments } => called(
            alloc,
            place,
            callee.get(),
            arguments.as_slice(),
            known,
            notes,
        ),
        ExpressionKind::Index { of, at } => element(alloc, place, of.get(), at.get(), known, notes),
        ExpressionKind::Member {
            of,
            name,
            name_place,
        } => { member_of(alloc, place, of.get(), *name, *name_place, known, notes) }
        ExpressionKind::Arrow {
            of,
            name,
            name_place,
        } => { member_behind(alloc, place, of.get(), *name, *name_place, known, notes) }
    }
}

fn expected(signature: &Option<Signature>) -> &[Ty]
    ensures { result.now ≡ operators.expected signature.now }
{
    match signature {
        None => &[],
        Some(s) => s.params.as_slice(),
    }
}

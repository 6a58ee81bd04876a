//! What may make a value private, and the constraints that say so.

ghost use Rattle.c_ast.specs.declared.qualifiers.Qual.TheVariants.{Fixed};
ghost use Rattle.cv_word.specs.declared.registers.Taint.TheVariants.{Priv, Pub};
ghost use Rattle.qual_rules.specs.Flows.{divided, if_private, into, own, passed, public};
ghost use Rattle.qual_rules.specs.Levels.{own_qualifier};
ghost use Rattle.std.specs.Prelude.{◌≡◌, ◌++◌, ◌∷◌, [], IfOk, OnOk};

use crate::levels::own_qualifier;
use c_ast::typed::BinaryOp;
use c_ast::{Items, Qual, Ty};
use cv_word::{NoMemory, Taint};
use qual_solve::Constraint;
use std::alloc::Global;

/// A qualifier that may make a value private, and the place of the node that it comes from.
#[derive(Clone, Copy, Debug, PartialEq, Eq)]
pub struct Source {
    pub q: Qual,
    pub place: u32,
}

/// The source that an object or a result of this type is, if any.
pub fn own(alloc: Global, place: u32, ty: &Ty) -> Result<Items<Source>, NoMemory>
    ensures { IfOk result (λ sources. sources ≡ own place ty.now) }
{
    let mut sources = Items::new(alloc);
    if let Some(q) = own_qualifier(ty) {
        sources.push(Source { q, place })?;
    }
    Ok(sources)
}

/// A cast to a type whose outermost level is written private is a source too.
pub fn push_if_private(sources: &mut Items<Source>, place: u32, ty: &Ty) -> Result<(), NoMemory>
    ensures { OnOk result (sources.new ≡ sources.old ++ if_private place (own_qualifier ty.now)) }
{
    if let Some(Qual::Fixed(Taint::Priv)) = own_qualifier(ty) {
        let q = Qual::Fixed(Taint::Priv);
        sources.push(Source { q, place })?;
    }
    Ok(())
}

/// Each source flows to this.
pub fn push_into(sources: &[Source], to: Qual, out: &mut Vec<Constraint>) -> Result<(), NoMemory>
    ensures { OnOk result (out.new.items ≡ out.old.items ++ into to sources.now) }
{
    for source in sources {
        out.push(Constraint {
            from: source.q,
            to,
            place: source.place,
        })?;
    }
    Ok(())
}

/// No source may be private.
pub fn push_public(sources: &[Source], out: &mut Vec<Constraint>) -> Result<(), NoMemory>
    ensures { OnOk result (out.new.items ≡ out.old.items ++ public sources.now) }
{
    push_into(sources, Qual::Fixed(Taint::Pub), out)
}

/// Each source flows to an object, a parameter or a result of this type.
pub fn push_passed(sources: &[Source], to: &Ty, out: &mut Vec<Constraint>) -> Result<(), NoMemory>
    ensures { OnOk result (out.new.items ≡ out.old.items ++ passed sources.now to.now) }
{
    match own_qualifier(to) {
        Some(q) => push_into(sources, q, out),
        None => Ok(()),
    }
}

/// Operands of a division and of a remainder are public.
pub fn push_divided(
    op: BinaryOp,
    sources: &[Source],
    out: &mut Vec<Constraint>,
) -> Result<(), NoMemory>
    ensures { OnOk result (out.new.items ≡ out.old.items ++ divided op sources.now) }
{
    match op {
        BinaryOp::Div | BinaryOp::Rem => push_public(sources, out),
        _ => Ok(()),
    }
}

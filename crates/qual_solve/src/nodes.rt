//! The ends of constraints as nodes of a graph.

ghost use Rattle.std.specs.Prelude.{◌≡◌, IfOk};
ghost use Rattle.qual_solve.specs.Ends.{node_of, is_constant_public, open_of, lefts_of, rights_of};

use crate::constraint::Constraint;
use c_ast::Qual;
use cv_word::{NoMemory, Taint};
use std::alloc::Global;

/// The node of the constant private.
pub const PRIVATE: usize = 0;

/// The node of the constant public.
const PUBLIC: usize = 1;

/// The nodes of the two constants, below those of the variables.
pub const CONSTANTS: usize = 2;

/// The node of an end.
pub fn node(end: Qual) -> usize
    ensures { result ≡ node_of end }
{
    match end {
        Qual::Fixed(Taint::Priv) => PRIVATE,
        Qual::Fixed(Taint::Pub) => PUBLIC,
        Qual::Var(variable) => variable as usize + CONSTANTS,
    }
}

/// Whether a constraint's right end is the constant public.
pub fn is_closing(constraint: &Constraint) -> bool
    ensures { result ≡ is_constant_public constraint.now.to }
{
    match constraint.to {
        Qual::Fixed(Taint::Pub) => true,
        Qual::Fixed(Taint::Priv) => false,
        Qual::Var(_) => false,
    }
}

/// The constraints that aren't closing.
pub fn open_constraints(alloc: Global, list: &[Constraint]) -> Result<Vec<Constraint>, NoMemory>
    ensures { IfOk result (λ kept. kept.items ≡ open_of list.now) }
{
    let kept = list
        .iter()
        .copied()
        .filter(|constraint| !is_closing(constraint))
        .collect(alloc)?;
    Ok(kept)
}

/// The nodes of the left ends.
pub fn lefts(alloc: Global, list: &[Constraint]) -> Result<Vec<usize>, NoMemory>
    ensures { IfOk result (λ nodes. nodes.items ≡ lefts_of list.now) }
{
    let nodes = list
        .iter()
        .map(|constraint| node(constraint.from))
        .collect(alloc)?;
    Ok(nodes)
}

/// The nodes of the right ends.
pub fn rights(alloc: Global, list: &[Constraint]) -> Result<Vec<usize>, NoMemory>
    ensures { IfOk result (λ nodes. nodes.items ≡ rights_of list.now) }
{
    let nodes = list
        .iter()
        .map(|constraint| node(constraint.to))
        .collect(alloc)?;
    Ok(nodes)
}

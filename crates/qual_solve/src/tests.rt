//! The solver beside a plain search, on long chains, and on a few lists by hand.

mod long_chains;
mod plain;
mod small_lists;

ghost use Rattle.std.specs.Prelude.{All, IsTrue, ◌↔◌};
ghost use Rattle.qual_solve.specs.Assignments.{IsOver, IsEnd};

use super::*;
use c_ast::Qual;
use cv_word::Taint;
use std::test::Fail;

const PUBLIC: Qual = Qual::Fixed(Taint::Pub);

const PRIVATE: Qual = Qual::Fixed(Taint::Priv);

/// Whether an end is a constant or one of so many variables.
fn is_end(vars: u32, end: Qual) -> bool
    ensures { IsTrue result ↔ IsEnd vars end }
{
    match end {
        Qual::Fixed(_) => true,
        Qual::Var(variable) => variable < vars,
    }
}

/// Whether both ends of a constraint are.
fn is_over(vars: u32, constraint: &Constraint) -> bool
    ensures { IsTrue result ↔ IsOver vars constraint.now }
{
    is_end(vars, constraint.from) && is_end(vars, constraint.to)
}

/// Whether each end in a list is.
fn are_over(vars: u32, list: &[Constraint]) -> bool
    ensures { IsTrue result ↔ All (IsOver vars) list.now }
{
    list.iter().all(|constraint| is_over(vars, constraint))
}

/// A constraint between two ends.
fn pair(from: Qual, to: Qual) -> Constraint {
    Constraint { from, to, place: 0 }
}

/// With ample memory a list that can be satisfied is answered.
#[test]
fn answers_the_least(rt: HostRuntime) -> Result<(), Fail> {
    let list = [
        pair(PRIVATE, Qual::Var(0)),
        pair(Qual::Var(0), Qual::Var(2)),
        pair(Qual::Var(1), PUBLIC),
        pair(PUBLIC, Qual::Var(1)),
    ];
    assert!(rt; are_over(3, &list));
    let taints = solve(rt.alloc(), 3, &list)?;
    assert_eq!(rt;
        taints.as_slice(),
        [Taint::Priv, Taint::Pub, Taint::Priv].as_slice()
    );
    Ok(())
}

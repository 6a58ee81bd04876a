//! Every list of up to 3 constraints over 2 variables, and every list of 5 over 3.

ghost use Rattle.std.specs.Prelude.{◌<◌};

use super::plain::{first_broken, is_always_private, is_best_chain, is_satisfiable};
use super::{Constraint, Fail, PRIVATE, PUBLIC, Qual, SolveError, Taint, are_over, pair, solve};
use std::alloc::Global;
use std::process::Abort;

/// The constants first, so that the first four are the ends over two variables.
const ENDS: [Qual; 5] = [PUBLIC, PRIVATE, Qual::Var(0), Qual::Var(1), Qual::Var(2)];

/// Whether the taints are those that a plain search finds to be the least.
fn is_least(list: &[Constraint], taints: &[Taint]) -> bool {
    for (variable, taint) in taints.iter().enumerate() {
        if variable > 2 || (*taint == Taint::Priv) != is_always_private(list, variable as u32) {
            return false;
        }
    }
    taints.len() == 3 && is_satisfiable(list)
}

/// Whether the answer to a list over three variables is the one that a plain search finds.
fn is_right(alloc: Global, list: &[Constraint]) -> bool {
    if !are_over(3, list) {
        return false;
    }
    match solve(alloc, 3, list) {
        Ok(taints) => is_least(list, taints.as_slice()),
        Err(SolveError::Leak { at, chain }) => {
            !is_satisfiable(list)
                && first_broken(list) == Some(at as usize)
                && is_best_chain(list, at, chain.as_slice())
        }
        Err(SolveError::NoMemory) => false,
    }
}

/// The constraint with this code over the first `count` of the ends.
fn constraint(code: usize, count: usize) -> Constraint
    requires { 0 < count }
{
    pair(ENDS[code / count % count % 5], ENDS[code % count % 5])
}

#[test]
fn solves_every_list_of_three(rt: HostRuntime) {
    assert!(rt; is_right(rt.alloc(), &[]), "none");
    for code in 0..4096usize {
        let list = [
            constraint(code, 4),
            constraint(code / 16, 4),
            constraint(code / 256, 4),
        ];
        assert!(rt; is_right(rt.alloc(), &list[..1]), "one of {code}");
        assert!(rt; is_right(rt.alloc(), &list[..2]), "two of {code}");
        assert!(rt; is_right(rt.alloc(), &list), "three of {code}");
    }
}

/// Every list of five constraints over three variables whose first has this left end.
fn solves_lists_from(rt: &impl Abort, alloc: Global, end: usize) {
    for code in 0..1_953_125usize {
        let list = [
            pair(ENDS[end % 5], ENDS[code % 5]),
            constraint(code / 5, 5),
            constraint(code / 125, 5),
            constraint(code / 3_125, 5),
            constraint(code / 78_125, 5),
        ];
        assert!(rt; is_right(alloc, &list), "list {code} from {end}");
    }
}

#[test]
fn solves_lists_of_five_from_public(rt: HostRuntime) {
    solves_lists_from(&rt, rt.alloc(), 0);
}

#[test]
fn solves_lists_of_five_from_private(rt: HostRuntime) {
    solves_lists_from(&rt, rt.alloc(), 1);
}

#[test]
fn solves_lists_of_five_from_the_first_variable(rt: HostRuntime) {
    solves_lists_from(&rt, rt.alloc(), 2);
}

#[test]
fn solves_lists_of_five_from_the_second_variable(rt: HostRuntime) {
    solves_lists_from(&rt, rt.alloc(), 3);
}

#[test]
fn solves_lists_of_five_from_the_third_variable(rt: HostRuntime) {
    solves_lists_from(&rt, rt.alloc(), 4);
}

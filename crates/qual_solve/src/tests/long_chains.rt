//! Chains of a million variables, in order and in reverse.

ghost use Rattle.std.specs.Prelude.{◌≤◌};

use super::{Constraint, Fail, PRIVATE, PUBLIC, Qual, SolveError, Taint, are_over, pair, solve};
use std::alloc::{AllocFailed, Global};

const VARIABLES: u32 = 1_000_000;

/// The constraint that leads from one end of a chain to the next: from private to each variable in turn, and to public.
fn link(number: u32) -> Constraint {
    let from = if number == 0 {
        PRIVATE
    } else {
        Qual::Var(number - 1)
    };
    let to = if number >= VARIABLES {
        PUBLIC
    } else {
        Qual::Var(number)
    };
    pair(from, to)
}

/// So many links, in order or from the last to the first.
fn chain(
    alloc: Global,
    links: u32,
    in_order: bool,
) -> Result<Vec<Constraint>, AllocFailed<Constraint>> {
    let mut list = Vec::new(alloc);
    for number in 0..links {
        let next = if in_order { number } else { links - 1 - number };
        list.push(link(next))?;
    }
    Ok(list)
}

fn are_private(taints: &[Taint]) -> bool {
    taints.iter().all(|taint| *taint == Taint::Priv)
}

/// Whether the numbers count up from 0, or down to 0.
fn are_in_turn(numbers: &[u64], in_order: bool) -> bool {
    for (place, number) in numbers.iter().enumerate() {
        let wanted = if in_order {
            place
        } else {
            numbers.len() - 1 - place
        };
        if *number != wanted as u64 {
            return false;
        }
    }
    true
}

#[test]
fn makes_all_private(rt: HostRuntime) -> Result<(), Fail> {
    for in_order in [true, false] {
        let list = chain(rt.alloc(), VARIABLES, in_order)?;
        assert!(rt; are_over(VARIABLES, &list));
        let taints = solve(rt.alloc(), VARIABLES, &list)?;
        assert_eq!(rt; taints.len(), 1_000_000);
        assert!(rt; are_private(&taints));
    }
    Ok(())
}

/// Whether the answer to a chain from private to public is the whole of it.
fn is_told(alloc: Global, list: &[Constraint], in_order: bool) -> bool {
    if !are_over(VARIABLES, list) {
        return false;
    }
    match solve(alloc, VARIABLES, list) {
        Err(SolveError::Leak { at, chain }) => {
            at == if in_order { VARIABLES as u64 } else { 0 }
                && chain.as_slice().len() == 1_000_001
                && are_in_turn(chain.as_slice(), in_order)
        }
        Err(SolveError::NoMemory) => false,
        Ok(_) => false,
    }
}

#[test]
fn tells_the_whole_chain(rt: HostRuntime) -> Result<(), Fail> {
    for in_order in [true, false] {
        let list = chain(rt.alloc(), VARIABLES + 1, in_order)?;
        assert!(rt; is_told(rt.alloc(), &list, in_order));
    }
    Ok(())
}

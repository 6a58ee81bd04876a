//! The least assignment, or a leak.

ghost use Rattle.std.specs.Prelude.{◌≡◌, ◌+◌, ◌<◌, ◌≤◌, length, drop, map, All, IfOk, IfErr, MatchOption};
ghost use Rattle.qual_solve.specs.Assignments.{IsOver, IsLeast};
ghost use Rattle.qual_solve.specs.Answers.{IsReason};
ghost use Rattle.qual_solve.specs.Ends.{taint_at, HasNodes, AreDistancesFrom, IsReachedClosing, NoneBelow};

use crate::chain::shortest_chain;
use crate::constraint::Constraint;
use crate::graph::Graph;
use crate::leak::SolveError;
use crate::nodes::{CONSTANTS, PRIVATE, is_closing, lefts, node, open_constraints, rights};
use crate::search::{UNREACHED, distances};
use cv_word::{NoMemory, Taint};
use std::alloc::Global;

/// How many constraints that aren't closing lead from the constant private to each node.
fn distances_from_private(
    alloc: Global,
    nodes: usize,
    list: &[Constraint],
) -> Result<Vec<usize>, NoMemory>
    requires nodes { All (HasNodes nodes) list.now }
    requires some { 0 < nodes }
    ensures nodes { IfOk result (λ distances. length distances.items ≡ nodes) }
    ensures distances { IfOk result (λ distances. AreDistancesFrom list.now UNREACHED distances.items) }
{
    let kept = open_constraints(alloc, list)?;
    let near = lefts(alloc, &kept)?;
    let far = rights(alloc, &kept)?;
    let graph = Graph::new(alloc, nodes, near, far)?;
    let found = distances(alloc, &graph, PRIVATE)?;
    Ok(found)
}

/// The number of the first closing constraint whose left end is reached.
fn first_broken(list: &[Constraint], distances: &[usize]) -> Option<usize>
    requires { All (HasNodes (length distances.now)) list.now }
    ensures { MatchOption result (NoneBelow list.now UNREACHED distances.now (length list.now))
        (λ at. IsReachedClosing list.now UNREACHED distances.now at × NoneBelow list.now UNREACHED distances.now at) }
{
    for (number, constraint) in list.iter().enumerate() {
        if is_closing(constraint) && distances[node(constraint.from)] < UNREACHED {
            return Some(number);
        }
    }
    None
}

/// Private where the node is reached.
fn taint_at(distance: usize) -> Taint
    ensures { result ≡ taint_at UNREACHED distance }
{
    if distance < UNREACHED {
        Taint::Priv
    } else {
        Taint::Pub
    }
}

/// The distances of the variables.
fn variable_distances(distances: &[usize]) -> &[usize]
    requires { 2 ≤ length distances.now }
    ensures { result.now ≡ drop 2 distances.now }
{
    &distances[CONSTANTS..]
}

/// The variables that are reached are private, and the others public.
fn assignment(alloc: Global, distances: &[usize]) -> Result<Vec<Taint>, NoMemory>
    requires { 2 ≤ length distances.now }
    ensures { IfOk result (λ taints. taints.items ≡ map (taint_at UNREACHED) (drop 2 distances.now)) }
{
    let taints = variable_distances(distances)
        .iter()
        .map(|distance| taint_at(*distance))
        .collect(alloc)?;
    Ok(taints)
}

/// The least assignment that satisfies the constraints, with a taint for each of `vars` variables. Each variable in the
/// list is below `vars`.
///
/// `Leak` comes exactly where no assignment satisfies the list; [`SolveError::Leak`] says which constraint and which
/// chain it names. No clause says when `NoMemory` comes; with ample memory it doesn't. The time is linear in the
/// variables and the constraints, which is tested and not proved.
pub fn solve(alloc: Global, vars: u32, list: &[Constraint]) -> Result<Vec<Taint>, SolveError>
    requires { All (IsOver vars) list.now }
    ensures least { IfOk result (λ assignment. IsLeast vars list.now assignment.items) }
    ensures reason { IfErr result (IsReason vars list.now) }
{
    let nodes = vars as usize + CONSTANTS;
    let distances = distances_from_private(alloc, nodes, list)?;
    match first_broken(list, &distances) {
        None => {
            let taints = assignment(alloc, &distances)?;
            Ok(taints)
        }
        Some(at) => {
            let chain = shortest_chain(alloc, nodes, list, at)?;
            Err(SolveError::Leak {
                at: at as u64,
                chain,
            })
        }
    }
}

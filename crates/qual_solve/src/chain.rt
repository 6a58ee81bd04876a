//! The shortest chain to a constraint that breaks.

ghost use Rattle.std.specs.Prelude.{◌≡◌, ◌<◌, ◌+◌, length, vec_len, slice_index, slice_set, All, IfOk, IsTrue, ◌↔◌};
ghost use Rattle.c_ast.specs.declared.qualifiers.Qual.TheVariants.{Fixed as Constant};
ghost use Rattle.cv_word.specs.declared.registers.Taint.TheVariants.{Priv as Private};
ghost use Rattle.qual_solve.specs.Distances.{AreDistances, AreNext};
ghost use Rattle.qual_solve.specs.Ends.{node_of, lefts_of, rights_of, HasNodes, AreDistancesTo, HasChain};
ghost use Rattle.qual_solve.specs.Leaks.{IsBestFrom};

use crate::constraint::Constraint;
use crate::graph::Graph;
use crate::leak::Chain;
use crate::nodes::{lefts, node, rights};
use crate::search::{UNREACHED, distances};
use c_ast::Qual;
use cv_word::{NoMemory, Taint};
use std::alloc::Global;

/// How many constraints lead from each node to the left end of the one with the number `at`.
fn distances_to(
    alloc: Global,
    nodes: usize,
    list: &[Constraint],
    at: usize,
) -> Result<Vec<usize>, NoMemory>
    requires nodes { All (HasNodes nodes) list.now }
    requires at { at < length list.now }
    ensures nodes { IfOk result (λ distances. length distances.items ≡ nodes) }
    ensures distances { IfOk result (λ distances. AreDistancesTo list.now at UNREACHED distances.items) }
{
    let near = rights(alloc, list)?;
    let far = lefts(alloc, list)?;
    let graph = Graph::new(alloc, nodes, near, far)?;
    let found = distances(alloc, &graph, node(list[at].from))?;
    Ok(found)
}

/// Whether a constraint leads a step nearer.
fn is_step(constraint: &Constraint, distances: &[usize]) -> bool
    requires { HasNodes (length distances.now) constraint.now }
    ensures { IsTrue result ↔ (slice_index distances.now (node_of constraint.now.to) + 1 ≡ slice_index distances.now (node_of constraint.now.from)) }
{
    let left = distances[node(constraint.from)];
    let right = distances[node(constraint.to)];
    left > 0 && left - 1 == right
}

/// Notes a constraint's number at the node of its left end, in place of what was noted there.
fn note_number(next: &mut Vec<usize>, constraint: &Constraint, number: usize)
    requires { node_of constraint.now.from < vec_len next.old }
    ensures { next.new.items ≡ slice_set next.old.items (node_of constraint.now.from) number }
{
    let left = node(constraint.from);
    next[left] = number;
}

/// At each node, the number of the first constraint that leads from it a step nearer, if one does.
fn next_numbers(
    alloc: Global,
    list: &[Constraint],
    distances: &[usize],
) -> Result<Vec<usize>, NoMemory>
    requires { All (HasNodes (length distances.now)) list.now }
    ensures nodes { IfOk result (λ next. length next.items ≡ length distances.now) }
    ensures next { IfOk result (λ next. AreNext (rights_of list.now) (lefts_of list.now) distances.now next.items) }
{
    let mut next = vec![in alloc; 0usize; distances.len()]?;
    let mut number = list.len();
    while number > 0 {
        number -= 1;
        let constraint = list[number];
        if is_step(&constraint, distances) {
            note_number(&mut next, &constraint, number);
        }
    }
    Ok(next)
}

/// Goes from the constant private, always by the first constraint that leads nearer.
fn walk(
    alloc: Global,
    list: &[Constraint],
    distances: &[usize],
    next: &[usize],
    at: usize,
) -> Result<Chain, NoMemory>
    requires nodes { All (HasNodes (length distances.now)) list.now }
    requires places { length next.now ≡ length distances.now }
    requires at { at < length list.now }
    requires distances { AreDistancesTo list.now at UNREACHED distances.now }
    requires next { AreNext (rights_of list.now) (lefts_of list.now) distances.now next.now }
    requires some { 0 < length distances.now }
    requires reached { HasChain list.now at }
    ensures { IfOk result (IsBestFrom list.now (Constant Private) at) }
{
    let mut numbers = Vec::new(alloc);
    let mut end = Qual::Fixed(Taint::Priv);
    while distances[node(end)] > 0 {
        let number = next[node(end)];
        numbers.push(number as u64)?;
        end = list[number].to;
    }
    numbers.push(at as u64)?;
    Ok(Chain::from_vec(numbers))
}

/// The shortest chain to the constraint with the number `at`, and of those the first in dictionary order. A chain leads
/// to it.
pub fn shortest_chain(
    alloc: Global,
    nodes: usize,
    list: &[Constraint],
    at: usize,
) -> Result<Chain, NoMemory>
    requires nodes { All (HasNodes nodes) list.now }
    requires at { at < length list.now }
    requires some { 0 < nodes }
    requires reached { HasChain list.now at }
    ensures { IfOk result (IsBestFrom list.now (Constant Private) at) }
{
    let distances = distances_to(alloc, nodes, list, at)?;
    let next = next_numbers(alloc, list, &distances)?;
    walk(alloc, list, &distances, &next, at)
}

//! How many arrows lead from a node to each other one.

ghost use Rattle.std.specs.Prelude.{◌≡◌, ◌<◌, ◌≤◌, ◌+◌, ◌++◌, ◌∷◌, ◌==◌, [], ℕ, List, length, slice_index, slice_set, if◌then◌else◌, IfOk, OnOk};
ghost use Rattle.qual_solve.specs.Distances.{AreDistances, IsSearch};
ghost use Rattle.qual_solve.specs.Graphs.{IsWhole, IsSearching};

use crate::graph::Graph;
use cv_word::NoMemory;
use std::alloc::Global;

/// The distance of a node that isn't reached.
pub const UNREACHED: usize = usize::MAX;

/// A breadth-first search in mid-way.
#[derive(Drop)]
pub struct Search {
    /// The node that it began at.
    pub start: usize,
    /// At each node, how many arrows lead to it, or `UNREACHED`.
    pub distances: Vec<usize>,
    /// The nodes that are reached, in the order in which they were.
    pub order: Vec<usize>,
}

/// The search that has reached its start alone.
fn fresh_search(alloc: Global, nodes: usize, start: usize) -> Result<Search, NoMemory>
    requires { start < nodes }
    ensures search { IfOk result (λ search. (near far : List ℕ) → IsSearch near far start UNREACHED search.distances.items search.order.items 0) }
    ensures start { IfOk result (λ search. search.start ≡ start) }
    ensures nodes { IfOk result (λ search. length search.distances.items ≡ nodes) }
{
    let mut distances = vec![in alloc; UNREACHED; nodes]?;
    distances[start] = 0;
    let mut order = Vec::new(alloc);
    order.push(start)?;
    Ok(Search {
        start,
        distances,
        order,
    })
}

/// Follows an arrow from a node that is reached to another node.
fn follow(search: &mut Search, from: usize, to: usize) -> Result<(), NoMemory>
    requires from { from < length search.old.distances.items }
    requires to { to < length search.old.distances.items }
    requires reached { slice_index search.old.distances.items from < UNREACHED }
    ensures start { search.new.start ≡ search.old.start }
    ensures distances { OnOk result (search.new.distances.items ≡
        (if slice_index search.old.distances.items to == UNREACHED
        then slice_set search.old.distances.items to (slice_index search.old.distances.items from + 1) else search.old.distances.items)) }
    ensures order { OnOk result (search.new.order.items ≡
        (if slice_index search.old.distances.items to == UNREACHED then search.old.order.items ++ to ∷ [] else search.old.order.items)) }
{
    if search.distances[to] == UNREACHED {
        search.distances[to] = search.distances[from] + 1;
        search.order.push(to)?;
    }
    Ok(())
}

/// Follows each arrow of the node at a place of the order.
fn follow_all(search: &mut Search, graph: &Graph, head: usize) -> Result<(), NoMemory>
    requires graph { IsWhole graph.now }
    requires search { IsSearching UNREACHED graph.now search.old head }
    requires head { head < length search.old.order.items }
    ensures start { search.new.start ≡ search.old.start }
    ensures search { OnOk result (IsSearching UNREACHED graph.now search.new (head + 1)) }
{
    let node = search.order[head];
    let mut bound = graph.index.last[node];
    while bound > 0 {
        let arrow = bound - 1;
        follow(search, node, graph.far[arrow])?;
        bound = graph.index.before[arrow];
    }
    Ok(())
}

/// The least number of arrows that lead from `start` to each node of a graph, or `UNREACHED` where none do. The time
/// is linear in the nodes and the arrows.
pub fn distances(alloc: Global, graph: &Graph, start: usize) -> Result<Vec<usize>, NoMemory>
    requires graph { IsWhole graph.now }
    requires start { start < length graph.now.index.last.items }
    ensures nodes { IfOk result (λ distances. length distances.items ≡ length graph.now.index.last.items) }
    ensures distances { IfOk result (λ distances. AreDistances graph.now.near.items graph.now.far.items start UNREACHED distances.items) }
{
    let mut search = fresh_search(alloc, graph.index.last.len(), start)?;
    let mut head = 0;
    while head < search.order.len() {
        follow_all(&mut search, graph, head)?;
        head += 1;
    }
    let Search {
        start: _,
        distances,
        order: _,
    } = search;
    Ok(distances)
}

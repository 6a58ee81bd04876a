//! A graph of nodes and arrows, with the arrows that leave each node.

ghost use Rattle.std.specs.Prelude.{◌≡◌, ◌<◌, length, All, IfOk};
ghost use Rattle.qual_solve.specs.Distances.{IsIndexed};
ghost use Rattle.qual_solve.specs.Graphs.{IsGraph};

use cv_word::NoMemory;
use std::alloc::Global;

/// The arrows of each node, from its last to its first. A bound is 0, or one above the number of an arrow.
#[derive(Drop)]
pub struct ArrowIndex {
    /// At each node, the bound of its last arrow.
    pub last: Vec<usize>,
    /// At each arrow, the bound of the arrow before it that leaves the same node.
    pub before: Vec<usize>,
}

/// Nodes and arrows. Arrow number i leads from the node `near[i]` to the node `far[i]`.
#[derive(Drop)]
pub struct Graph {
    pub near: Vec<usize>,
    pub far: Vec<usize>,
    pub index: ArrowIndex,
}

/// The index of the arrows that leave these nodes, each below `nodes`.
fn index_arrows(alloc: Global, nodes: usize, near: &[usize]) -> Result<ArrowIndex, NoMemory>
    requires { All (λ node. node < nodes) near.now }
    ensures index { IfOk result (λ index. IsIndexed near.now (length near.now) index.last.items index.before.items) }
    ensures nodes { IfOk result (λ index. length index.last.items ≡ nodes) }
{
    let mut last = vec![in alloc; 0usize; nodes]?;
    let mut before = Vec::new(alloc);
    for (arrow, node) in near.iter().enumerate() {
        before.push(last[*node])?;
        last[*node] = arrow + 1;
    }
    Ok(ArrowIndex { last, before })
}

impl Graph {
    /// The graph of so many nodes with these arrows.
    pub fn new(
        alloc: Global,
        nodes: usize,
        near: Vec<usize>,
        far: Vec<usize>,
    ) -> Result<Graph, NoMemory>
        requires near { All (λ node. node < nodes) near.items }
        requires far { All (λ node. node < nodes) far.items }
        requires pairs { length far.items ≡ length near.items }
        ensures { IfOk result (IsGraph nodes near.items far.items) }
    {
        let index = index_arrows(alloc, nodes, &near)?;
        Ok(Graph { near, far, index })
    }
}

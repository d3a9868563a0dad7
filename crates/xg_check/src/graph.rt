//! Nodes by their numbers, and to which nodes each leads.

ghost use Rattle.std.specs.Prelude.{◌≡◌, ◌<◌, map, length, slice_get, Some, IfOk};
ghost use Rattle.xg_check.specs.Graphs.{IsGraph, AreNodes, AreReversed};
ghost use Rattle.xg_check.specs.Searching.{AreBack};
ghost use Rattle.std.specs.Prelude.{replicate, ℕ, List, [], ◌++◌, ◌∷◌, slice_set, OnOk};
ghost use Rattle.std.specs.List.{AllByRecursion};

use std::alloc::{AllocError, Global};
use std::marker::Model;

/// To which nodes each node leads, in order.
#[derive(Drop)]
pub struct Graph {
    next: Vec<Vec<usize>>,
}

impl Model for Graph {
    ghost use Rattle.std.specs.Prelude.{ℕ, List, map};
    ghost use Rattle.xg_check.specs.Graphs.{IsGraph};

    ghost Value = { List (List ℕ) };

    ghost view = { λ g. map (λ v. v.items) g.next.items };

    ghost invariant = { λ g. IsGraph (map (λ v. v.items) g.next.items) };
}

impl Graph {
    /// The graph of these lists.
    pub fn of(next: Vec<Vec<usize>>) -> Graph
        requires { IsGraph (map (λ v. v.items) next.items) }
        ensures { result ≡ map (λ v. v.items) next.items }
    {
        Graph { next }
    }

    /// How many nodes there are.
    pub fn len(&self) -> usize
        ensures { result ≡ length self.now }
    {
        self.next.len()
    }

    /// Where the node leads.
    pub fn next(&self, node: usize) -> &[usize]
        requires { node < length self.now }
        ensures next { slice_get self.now node ≡ Some result.now }
        ensures nodes { AreNodes self.now result.now }
    {
        self.next[node].as_slice()
    }
}

/// A list for each of so many nodes, each empty.
pub fn empty_lists(alloc: Global, count: usize) -> Result<Vec<Vec<usize>>, AllocError>
    ensures { IfOk result (λ lists. map (λ v. v.items) lists.items ≡ replicate count []) }
{
    let mut lists = Vec::new(alloc);
    for _ in 0..count {
        lists.push(Vec::new(alloc))?;
    }
    Ok(lists)
}

/// The same ways the other way round.
pub fn reversed(alloc: Global, graph: &Graph) -> Result<Graph, AllocError>
    ensures { IfOk result (λ back. AreReversed graph.now back) }
{
    let mut back = empty_lists(alloc, graph.len())?;
    for node in 0..graph.len() {
        add_back(&mut back, node, graph.next(node))?;
    }
    Ok(Graph::of(back))
}

// The node stands behind the other.
fn push_back(back: &mut Vec<Vec<usize>>, node: usize, other: usize) -> Result<(), AllocError>
    requires { other < length back.old.items }
    ensures { OnOk result ((ws : List ℕ) → slice_get (map (λ v. v.items) back.old.items) other ≡ Some ws
        → map (λ v. v.items) back.new.items ≡ slice_set (map (λ v. v.items) back.old.items) other (ws ++ node ∷ [])) }
{
    back[other].push(node)?;
    Ok(())
}

// The node stands behind each of these.
fn add_back(back: &mut Vec<Vec<usize>>, node: usize, next: &[usize]) -> Result<(), AllocError>
    requires { AllByRecursion (λ i. i < length back.old.items) next.now }
    ensures { OnOk result (AreBack (map (λ v. v.items) back.old.items) (map (λ v. v.items) back.new.items)
        node next.now) }
{
    for other in next {
        push_back(back, node, *other)?;
    }
    Ok(())
}

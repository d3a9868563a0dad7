//! The nodes that others lead to.

ghost use Rattle.std.specs.Prelude.{◌≡◌, ◌≢◌, ◌<◌, ◌↔◌, ◌∷◌, ℕ, [], true, length, slice_get, Some, IfOk, OnOk, IsTrue};
ghost use Rattle.std.specs.List.{AllByRecursion};
ghost use Rattle.xg_check.specs.Graphs.{AreNodes, AreReached, Leads};
ghost use Rattle.xg_check.specs.Searching.{AreListed, AreAdded, IsReaching};

use crate::graph::Graph;
use std::alloc::{AllocError, Global};

// Nodes that are reached, in the order in which they were.
#[derive(Drop)]
struct Reached {
    marks: Vec<bool>,
    nodes: Vec<usize>,
}

impl Reached {
    // No node is reached, of so many.
    fn none(alloc: Global, count: usize) -> Result<Reached, AllocError>
        ensures size { IfOk result (λ r. length r.marks.items ≡ count) }
        ensures listed { IfOk result (λ r. AreListed r.marks.items r.nodes.items) }
        ensures unmarked { IfOk result (λ r. (i : ℕ) → slice_get r.marks.items i ≢ Some true) }
    {
        Ok(Reached {
            marks: vec![in alloc; false; count]?,
            nodes: Vec::new(alloc),
        })
    }

    // The node is reached.
    fn mark(&mut self, node: usize) -> Result<(), AllocError>
        requires there { node < length self.old.marks.items }
        requires listed { AreListed self.old.marks.items self.old.nodes.items }
        ensures { OnOk result (AreAdded self.old.marks.items self.new.marks.items self.old.nodes.items
            self.new.nodes.items (node ∷ [])) }
    {
        if self.marks[node] {
            return Ok(());
        }
        self.nodes.push(node)?;
        self.marks[node] = true;
        Ok(())
    }

    // These are reached.
    fn add(&mut self, nodes: &[usize]) -> Result<(), AllocError>
        requires there { AllByRecursion (λ i. i < length self.old.marks.items) nodes.now }
        requires listed { AreListed self.old.marks.items self.old.nodes.items }
        ensures { OnOk result (AreAdded self.old.marks.items self.new.marks.items self.old.nodes.items
            self.new.nodes.items nodes.now) }
    {
        for node in nodes {
            self.mark(*node)?;
        }
        Ok(())
    }

    // All that those reached lead to are reached.
    fn follow(&mut self, graph: &Graph, starts: &[usize]) -> Result<(), AllocError>
        requires { IsReaching graph.now starts.now self.old.marks.items self.old.nodes.items 0 }
        ensures { OnOk result (AreReached graph.now starts.now self.new.marks.items) }
    {
        for at in 0..graph.len() {
            if at >= self.nodes.len() {
                return Ok(());
            }
            let node = self.nodes[at];
            self.add(graph.next(node))?;
        }
        Ok(())
    }
}

/// For each node whether it is one of the starts or one leads to it, at once or through others.
pub fn reach(alloc: Global, graph: &Graph, starts: &[usize]) -> Result<Vec<bool>, AllocError>
    requires { AreNodes graph.now starts.now }
    ensures { IfOk result (λ marks. AreReached graph.now starts.now marks.items) }
{
    let mut reached = Reached::none(alloc, graph.len())?;
    reached.add(starts)?;
    reached.follow(graph, starts)?;
    Ok(reached.marks)
}

/// Whether the node leads to itself, at once or through others.
pub fn returns(alloc: Global, graph: &Graph, node: usize) -> Result<bool, AllocError>
    requires { node < length graph.now }
    ensures { IfOk result (λ b. IsTrue b ↔ Leads graph.now node node) }
{
    let reached = reach(alloc, graph, graph.next(node))?;
    Ok(reached[node])
}

//! The nodes whose ways all end.

ghost use Rattle.std.specs.Prelude.{◌≡◌, ◌<◌, ◌+◌, ◌++◌, ◌∷◌, ℕ, List, [], true, length, map, IfOk, OnOk, slice_get};
ghost use Rattle.std.specs.Prelude.{slice_set, Some};
ghost use Rattle.std.specs.List.{AllByRecursion};
ghost use Rattle.xg_check.specs.Graphs.{AreOrdered};
ghost use Rattle.xg_check.specs.Ordering.{IsNew, IsFirstOpen, IsOrdering, IsLooked, AllWait};

use crate::graph::{Graph, empty_lists};
use std::alloc::{AllocError, Global};

/// The nodes whose ways all end, each behind those that it leads to.
#[derive(Drop)]
pub struct Order {
    pub nodes: Vec<usize>,
    pub ended: Vec<bool>,
}

// A node that hasn't ended waits for the first that it leads to and that hasn't.
#[derive(Drop)]
struct Search {
    ended: Vec<bool>,
    nodes: Vec<usize>,
    waiting: Vec<Vec<usize>>,
    looked: Vec<usize>,
}

impl Search {
    // A search of so many nodes, none of which was looked at.
    fn make(alloc: Global, count: usize) -> Result<Search, AllocError>
        ensures { IfOk result (λ s. IsNew count s.ended.items s.nodes.items (map (λ v. v.items) s.waiting.items)
            s.looked.items) }
    {
        Ok(Search {
            ended: vec![in alloc; false; count]?,
            nodes: Vec::new(alloc),
            waiting: empty_lists(alloc, count)?,
            looked: vec![in alloc; 0; count]?,
        })
    }

    // The place of the first of these that hasn't ended, from a place on.
    fn first_open(&self, next: &[usize], from: usize) -> Option<usize>
        requires { AllByRecursion (λ i. i < length self.now.ended.items) next.now }
        ensures { IsFirstOpen self.now.ended.items next.now from result }
    {
        for at in from..next.len() {
            if !self.ended[next[at]] {
                return Some(at);
            }
        }
        None
    }

    // The node ends, or waits for one that hasn't. One that ended is passed over.
    fn look(&mut self, graph: &Graph, node: usize) -> Result<(), AllocError>
        requires there { node < length graph.now }
        requires is { IsOrdering graph.now self.old.ended.items self.old.nodes.items
            (map (λ v. v.items) self.old.waiting.items) self.old.looked.items }
        ensures { OnOk result (IsLooked graph.now node
            self.old.ended.items self.old.nodes.items (map (λ v. v.items) self.old.waiting.items)
            self.new.ended.items self.new.nodes.items (map (λ v. v.items) self.new.waiting.items)
            self.new.looked.items) }
    {
        if self.ended[node] {
            return Ok(());
        }
        let next = graph.next(node);
        match self.first_open(next, self.looked[node]) {
            Some(at) => {
                self.wait(node, next[at], at)?;
                Ok(())
            }
            None => {
                self.end(node)?;
                Ok(())
            }
        }
    }

    // The node waits for the other, which stands at the place of those that it leads to.
    fn wait(&mut self, node: usize, other: usize, at: usize) -> Result<(), AllocError>
        requires there { node < length self.old.looked.items }
        requires other_there { other < length self.old.waiting.items }
        ensures ended { OnOk result (self.new.ended.items ≡ self.old.ended.items) }
        ensures nodes { OnOk result (self.new.nodes.items ≡ self.old.nodes.items) }
        ensures waiting { OnOk result
            ((ws : List ℕ) → slice_get (map (λ v. v.items) self.old.waiting.items) other ≡ Some ws
            → map (λ v. v.items) self.new.waiting.items
            ≡ slice_set (map (λ v. v.items) self.old.waiting.items) other (ws ++ node ∷ [])) }
        ensures looked { OnOk result (self.new.looked.items ≡ slice_set self.old.looked.items node at) }
    {
        self.waiting[other].push(node)?;
        self.looked[node] = at;
        Ok(())
    }

    // The node ends.
    fn end(&mut self, node: usize) -> Result<(), AllocError>
        requires { node < length self.old.ended.items }
        ensures ended { OnOk result (self.new.ended.items ≡ slice_set self.old.ended.items node true) }
        ensures nodes { OnOk result (self.new.nodes.items ≡ self.old.nodes.items ++ node ∷ []) }
        ensures waiting { OnOk result
            (map (λ v. v.items) self.new.waiting.items ≡ map (λ v. v.items) self.old.waiting.items) }
        ensures looked { OnOk result (self.new.looked.items ≡ self.old.looked.items) }
    {
        self.nodes.push(node)?;
        self.ended[node] = true;
        Ok(())
    }

    // The node has ended: those that wait for it are looked at again.
    fn release(
        &mut self,
        alloc: Global,
        graph: &Graph,
        at: usize,
        node: usize,
    ) -> Result<(), AllocError>
        requires stands { slice_get self.old.nodes.items at ≡ Some node }
        requires is { AllWait graph.now at self.old.ended.items self.old.nodes.items
            (map (λ v. v.items) self.old.waiting.items) self.old.looked.items }
        ensures { OnOk result (AllWait graph.now (at + 1) self.new.ended.items self.new.nodes.items
            (map (λ v. v.items) self.new.waiting.items) self.new.looked.items) }
    {
        let waiting = take_list(alloc, &mut self.waiting, node);
        for other in &waiting {
            self.look(graph, *other)?;
        }
        Ok(())
    }

    // Each node is looked at once.
    fn look_at_all(&mut self, graph: &Graph) -> Result<(), AllocError>
        requires { IsNew (length graph.now) self.old.ended.items self.old.nodes.items
            (map (λ v. v.items) self.old.waiting.items) self.old.looked.items }
        ensures { OnOk result (AllWait graph.now 0 self.new.ended.items self.new.nodes.items
            (map (λ v. v.items) self.new.waiting.items) self.new.looked.items) }
    {
        for node in 0..graph.len() {
            self.look(graph, node)?;
        }
        Ok(())
    }

    // Those that wait for nodes that ended are looked at again, until none is left.
    fn release_all(&mut self, alloc: Global, graph: &Graph) -> Result<(), AllocError>
        requires { AllWait graph.now 0 self.old.ended.items self.old.nodes.items
            (map (λ v. v.items) self.old.waiting.items) self.old.looked.items }
        ensures { OnOk result (AreOrdered graph.now self.new.nodes.items self.new.ended.items) }
    {
        for at in 0..graph.len() {
            if at >= self.nodes.len() {
                return Ok(());
            }
            let node = self.nodes[at];
            self.release(alloc, graph, at, node)?;
        }
        Ok(())
    }
}

// Takes the list of the node, and leaves it an empty one.
fn take_list(alloc: Global, lists: &mut Vec<Vec<usize>>, node: usize) -> Vec<usize>
    requires { node < length lists.old.items }
    ensures taken { slice_get (map (λ v. v.items) lists.old.items) node ≡ Some result.items }
    ensures left { map (λ v. v.items) lists.new.items ≡ slice_set (map (λ v. v.items) lists.old.items) node [] }
{
    std::mem::replace(&mut lists[node], Vec::new(alloc))
}

/// The nodes whose ways all end, in order. The time grows with the nodes and the ways between them.
pub fn ordered(alloc: Global, graph: &Graph) -> Result<Order, AllocError>
    ensures { IfOk result (λ o. AreOrdered graph.now o.nodes.items o.ended.items) }
{
    let mut search = Search::make(alloc, graph.len())?;
    search.look_at_all(graph)?;
    search.release_all(alloc, graph)?;
    Ok(Order {
        nodes: search.nodes,
        ended: search.ended,
    })
}

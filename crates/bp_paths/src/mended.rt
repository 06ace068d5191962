//! Distances to a node that are guessed from kept ways, and tested. Where the test fails, a search finds them.
//!
//! The test is that of a potential: hops that lead on, each nearer by its cost, show a path of each node's length, and
//! that no hop leads nearer by more than its cost shows that none is shorter. A node at 0 needs no look at its hops.
ghost use Rattle.std.specs.Prelude.{◌≡◌, ℕ, ◌+◌, ◌^◌, ◌<◌, ◌≤◌, length, slice_index, IsTrue};
ghost use Rattle.bp_residual.specs.Network.{Priced, IsSlack, IsPriced, arcs, step_of, nodes};
ghost use Rattle.bp_paths.specs.Mended.{GrowsFrom, LeadsOn, IsRightAt};
ghost use Rattle.bp_paths.specs.Paths.{AreDistancesTo, far};

use crate::guess::guess;
use bp_residual::{Flow, Hop};

/// Whether no hop from a node leads to one that is nearer by more than its cost.
fn grows_from(flow: &Flow, kept: &[u128], node: u32) -> bool
    requires slack { IsSlack flow.now.flow (slice_index flow.now.potentials) }
    requires each { length kept.now ≡ nodes flow.now }
    requires node { node < nodes flow.now }
    ensures { IsTrue result → GrowsFrom flow.now kept.now node }
{
    let _nights = flow.nights();
    let reach = kept[node as usize];
    if reach == 0 {
        return true;
    }
    let hops = flow.hops_at(node);
    for place in 0..hops.len() {
        let hop = hops[place];
        if let Some(cost) = flow.reduced_cost(hop)
            && kept[flow.head(hop) as usize].saturating_add(cost) < reach
        {
            return false;
        }
    }
    true
}

/// Whether the kept hop of a node leads to one of a smaller rank that is nearer by its cost.
fn leads_on(flow: &Flow, kept: &[u128], ways: &[Hop], ranks: &[u32], node: u32) -> bool
    requires slack { IsSlack flow.now.flow (slice_index flow.now.potentials) }
    requires each { length kept.now ≡ nodes flow.now }
    requires node { node < nodes flow.now }
    requires near { slice_index kept.now node < far }
    ensures { IsTrue result → LeadsOn flow.now kept.now ranks.now node }
{
    let _nights = flow.nights();
    let place = node as usize;
    if ways.len() <= place || ranks.len() <= place || ways[place].arc >= flow.arcs() {
        return false;
    }
    let hop = ways[place];
    let Some(cost) = flow.reduced_cost(hop) else {
        return false;
    };
    let head = flow.head(hop) as usize;
    flow.tail(hop) == node
        && head < ranks.len()
        && ranks[head] < ranks[place]
        && kept[head].saturating_add(cost) == kept[place]
}

/// Whether the number kept for a node is right beside those of all others.
fn is_right_at(flow: &Flow, to: u32, kept: &[u128], ways: &[Hop], ranks: &[u32], node: u32) -> bool
    requires slack { IsSlack flow.now.flow (slice_index flow.now.potentials) }
    requires each { length kept.now ≡ nodes flow.now }
    requires node { node < nodes flow.now }
    ensures { IsTrue result → IsRightAt flow.now to kept.now ranks.now node }
{
    kept[node as usize] < u128::MAX
        && grows_from(flow, kept, node)
        && (node == to || leads_on(flow, kept, ways, ranks, node))
}

/// Whether the kept numbers are the distances to a node, as the ways show.
fn are_right(flow: &Flow, to: u32, kept: &[u128], ways: &[Hop], ranks: &[u32]) -> bool
    requires slack { IsSlack flow.now.flow (slice_index flow.now.potentials) }
    requires each { length kept.now ≡ nodes flow.now }
    requires to { to < nodes flow.now }
    ensures { IsTrue result → AreDistancesTo flow.now to kept.now }
{
    if kept[to as usize] != 0 {
        return false;
    }
    let nights = flow.nights();
    for node in 0..nights + 1 {
        if !is_right_at(flow, to, kept, ways, ranks, node) {
            return false;
        }
    }
    true
}

/// Guesses the distances to a node from kept ways, mends the ways, and tests both. Where it answers yes, the kept
/// numbers are the distances, in minor units of money; else they are anything.
pub(crate) fn mended(
    flow: &Flow,
    to: u32,
    kept: &mut [u128],
    ways: &mut [Hop],
    ranks: &mut [u32],
    marks: &mut [u32],
) -> bool
    requires slack { IsSlack flow.now.flow (slice_index flow.now.potentials) }
    requires each { length kept.old ≡ nodes flow.now }
    requires to { to < nodes flow.now }
    ensures { IsTrue result → AreDistancesTo flow.now to kept.new }
{
    guess(flow, to, kept, ways, ranks, marks) && are_right(flow, to, kept, ways, ranks)
}

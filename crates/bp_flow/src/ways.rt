//! Units sent along the kept ways of the nodes, hop by hop.
ghost use Rattle.std.specs.Prelude.{◌≡◌, ℕ, ◌+◌, ◌^◌, ◌<◌, ◌≤◌, length, slice_index, IsTrue};
ghost use Rattle.bp_residual.specs.Network.{Priced, IsSlack, IsBalanced, HasImbalance, nodes};
ghost use Rattle.bp_flow.specs.Settled.{IsSettledFlow};
ghost use Rattle.bp_flow.specs.Shift.{IsShifting, IsOpenWay, StandsAt};

use bp_paths::Scratch;
use bp_residual::{Flow, Hop};
use bp_types::limits::MOST_NODES;

/// Whether a hop has reduced cost 0, and room for so many units.
fn is_open(flow: &Flow, hop: Hop, units: u64) -> bool
    requires slack { IsSlack flow.now.flow (slice_index flow.now.potentials) }
    ensures { IsTrue result → IsOpenWay flow.now units hop }
{
    let _nights = flow.nights();
    if hop.arc >= flow.arcs() {
        return false;
    }
    let Some(cost) = flow.reduced_cost(hop) else {
        return false;
    };
    cost == 0 && units <= flow.room(hop)
}

/// Sends all units over a hop from where they start, if it is open; answers where they start then.
fn step_start(flow: &mut Flow, hop: Hop, start: u32, end: u32, units: u64) -> u32
    requires start { start < nodes flow.old }
    requires slack { IsSlack flow.old.flow (slice_index flow.old.potentials) }
    requires few { units ≤ 10 ^ 11 }
    requires imbalance { HasImbalance flow.old.flow start end units }
    ensures start { result < nodes flow.new }
    ensures shifting { IsShifting flow.old flow.new result end units }
{
    let _nights = flow.nights();
    if is_open(flow, hop, units) && flow.tail(hop) == start {
        let head = flow.head(hop);
        flow.push(&[hop], units);
        return head;
    }
    start
}

/// Sends all units over a hop to where they end, if it is open; answers where they end then.
fn step_end(flow: &mut Flow, hop: Hop, start: u32, end: u32, units: u64) -> u32
    requires end { end < nodes flow.old }
    requires slack { IsSlack flow.old.flow (slice_index flow.old.potentials) }
    requires few { units ≤ 10 ^ 11 }
    requires imbalance { HasImbalance flow.old.flow start end units }
    ensures end { result < nodes flow.new }
    ensures shifting { IsShifting flow.old flow.new start result units }
{
    let _nights = flow.nights();
    if is_open(flow, hop, units) && flow.head(hop) == end {
        let tail = flow.tail(hop);
        flow.push(&[hop], units);
        return tail;
    }
    end
}

/// The hop that is kept for a node.
fn way_of(scratch: &Scratch, node: u32) -> Hop {
    let ways = scratch.ways();
    let place = node as usize;
    if place < ways.len() {
        ways[place]
    } else {
        Hop {
            arc: u32::MAX,
            forward: false,
        }
    }
}

/// Where the hop that is kept for a node stands in the order of the hops: less at a node nearer to the last one.
fn rank_of(scratch: &Scratch, node: u32) -> u32 {
    let ranks = scratch.ranks();
    let place = node as usize;
    if place < ranks.len() { ranks[place] } else { 0 }
}

/// The hop back.
fn turned(hop: Hop) -> Hop {
    Hop {
        arc: hop.arc,
        forward: !hop.forward,
    }
}

/// Moves the ends of an imbalance along kept ways that cost nothing and have room for all units, as far as they do,
/// and answers where they stand then.
///
/// The ways are a tree towards the last node, so the two ends meet where their ways do, as in a network simplex that
/// sends units round a circle of its tree. It takes the time of the hops on both ways.
pub(crate) fn walk(flow: &mut Flow, scratch: &Scratch, from: u32, to: u32, units: u64) -> (u32, u32)
    requires from { from < nodes flow.old }
    requires to { to < nodes flow.old }
    requires slack { IsSlack flow.old.flow (slice_index flow.old.potentials) }
    requires few { units ≤ 10 ^ 11 }
    requires imbalance { HasImbalance flow.old.flow from to units }
    ensures from { result.0 < nodes flow.new }
    ensures to { result.1 < nodes flow.new }
    ensures shifting { IsShifting flow.old flow.new result.0 result.1 units }
{
    let mut start = from;
    let mut end = to;
    for _ in 0..2 * MOST_NODES {
        if start == end {
            break;
        }
        if rank_of(scratch, end) < rank_of(scratch, start) {
            let hop = way_of(scratch, start);
            let next = step_start(flow, hop, start, end, units);
            if next == start {
                break;
            }
            start = next;
        } else {
            let hop = turned(way_of(scratch, end));
            let next = step_end(flow, hop, start, end, units);
            if next == end {
                break;
            }
            end = next;
        }
    }
    (start, end)
}

/// Whether a hop of reduced cost 0 leaves the node, to one of a smaller rank.
fn stands_at(flow: &Flow, ways: &[Hop], ranks: &[u32], node: u32) -> bool
    requires slack { IsSlack flow.now.flow (slice_index flow.now.potentials) }
    ensures { IsTrue result → StandsAt flow.now ranks.now node }
{
    let place = node as usize;
    if ways.len() <= place || ranks.len() <= place {
        return false;
    }
    let hop = ways[place];
    let _nights = flow.nights();
    if hop.arc >= flow.arcs() {
        return false;
    }
    let Some((tail, head)) = flow.free_way(hop) else {
        return false;
    };
    let head = head as usize;
    head < ranks.len() && tail == node && ranks[head] < ranks[place]
}

/// Whether the kept ways still lead each node to the last one at no cost: then the prices are the least ones.
pub(crate) fn ways_stand(flow: &Flow, scratch: &Scratch) -> bool
    requires slack { IsSlack flow.now.flow (slice_index flow.now.potentials) }
    requires balanced { IsBalanced flow.now.flow }
    ensures { IsTrue result → IsSettledFlow flow.now }
{
    let ways = scratch.ways();
    let ranks = scratch.ranks();
    for node in 0..flow.nights() {
        if !stands_at(flow, ways, ranks, node) {
            return false;
        }
    }
    true
}

//! The searches for shortest residual paths, and the scratch that they share.
ghost use Rattle.std.specs.Prelude.{
  ◌≡◌,
  ℕ,
  ◌+◌,
  ◌-◌,
  ◌*◌,
  ◌^◌,
  ◌<◌,
  ◌≤◌,
  [],
  length,
  replicate,
  slice_index,
  All,
  drop,
  false,
  IfOk,
};
ghost use Rattle.bp_residual.specs.Network.{Priced, IsSlack, IsPriced, Admits, step_of, steps_of, arcs, nodes};
ghost use Rattle.bp_paths.specs.Labels.{AreLabelsSoFar, IsTracedPath};
ghost use Rattle.bp_paths.specs.Paths.{far, ScratchView, Serves, AreDistancesTo, distance_of, least_room, IsFound, IsReached};

use crate::labels::{Labels, Notes};
use crate::mended::mended;
use bp_residual::{Flow, Hop};
use bp_types::{Memory, Steps};
use std::alloc::Global;
use std::marker::Model;
use std::sync::ledger::Ledger;

/// What a search answers.
#[derive(Clone, Copy, Debug, PartialEq, Eq)]
pub enum Found {
    /// A shortest path is in the scratch, and each of its hops has room for so many units.
    Reached { units: u64 },
    /// There is no residual path.
    Unreached,
}

/// For each node a hop on its way to one node, and a rank that falls along the ways: what the last search to one node
/// kept. These are hints, and nothing is claimed of them: who uses them tests them.
#[derive(Drop)]
struct Ways {
    hops: Vec<Hop>,
    ranks: Vec<u32>,
}

impl Ways {
    /// Keeps other hops and ranks.
    fn keep(&mut self, hops: &[Hop], ranks: &[u32]) {
        for node in 0..hops.len().min(self.hops.len()) {
            self.hops[node] = hops[node];
        }
        for node in 0..ranks.len().min(self.ranks.len()) {
            self.ranks[node] = ranks[node];
        }
    }
}

/// The memory of searches: the distances that the last one found, and its path.
///
/// Contracts see a number for each node, where the greatest u128 stands for none, a list of hops, and how many
/// searches it served. That number tells a counter of steps that each search was counted.
#[derive(Drop)]
pub struct Scratch {
    labels: Labels,
    /// The path stands at the end of these places, from `start` on.
    slots: Vec<Hop>,
    start: usize,
    /// How many searches used this memory; it stays at the greatest number.
    served: u64,
    /// Hints, of which no contract speaks: the ways of the last search to one node.
    ways: Ways,
}

impl Model for Scratch {
    ghost use Rattle.std.specs.Prelude.{◌≡◌, ◌≤◌, length, drop};
    ghost use Rattle.bp_paths.specs.Paths.{ScratchView};

    ghost Value = { ScratchView };

    ghost view = { λ a. record { distances = a.labels.kept.items; path = drop a.start a.slots.items; served = a.served } };

    ghost invariant = { λ a. (length a.labels.rank.items ≡ length a.labels.kept.items) ×
        (length a.labels.via.items ≡ length a.labels.kept.items) ×
        (length a.slots.items ≡ length a.labels.kept.items) × (a.start ≤ length a.slots.items) };
}

impl Scratch {
    /// The memory for searches in a network of so many nodes, however many arcs it has: all that any search takes. The
    /// one error is `Memory`.
    pub fn new(alloc: Global, nodes: u32, _arcs: u32) -> Result<Scratch, Memory>
        ensures distances { IfOk result (λ k. k.distances ≡ replicate nodes far) }
        ensures path { IfOk result (λ k. k.path ≡ []) }
        ensures served { IfOk result (λ k. k.served ≡ 0) }
    {
        let size = nodes as usize;
        let none = Hop {
            arc: 0,
            forward: false,
        };
        let kept = vec![in alloc; u128::MAX; size]?;
        let rank = vec![in alloc; 0u32; size]?;
        let via = vec![in alloc; none; size]?;
        let notes = Notes::new(alloc, size)?;
        let slots = vec![in alloc; none; size]?;
        let ways = Ways {
            hops: vec![in alloc; none; size]?,
            ranks: vec![in alloc; 0u32; size]?,
        };
        Ok(Scratch {
            labels: Labels {
                from: 0,
                count: 0,
                kept,
                rank,
                via,
                notes,
            },
            slots,
            start: size,
            served: 0,
            ways,
        })
    }

    /// The distance that the last search kept for a node, in minor units of money; None where it kept none.
    pub fn distance(&self, node: u32) -> Option<u128>
        requires { node < length self.now.distances }
        ensures { result ≡ distance_of self.now node }
    {
        let distance = self.labels.kept[node as usize];
        if distance < u128::MAX {
            Some(distance)
        } else {
            None
        }
    }

    /// The hop of each node on its way to the last one, as the last search there kept it: a hint.
    pub fn ways(&self) -> &[Hop] {
        &self.ways.hops
    }

    /// Keeps another hop and another rank of a node: a hint.
    pub fn keep_way(&mut self, node: u32, hop: Hop, rank: u32)
        ensures { self.new ≡ self.old }
    {
        let place = node as usize;
        if place < self.ways.hops.len() && place < self.ways.ranks.len() {
            self.ways.hops[place] = hop;
            self.ways.ranks[place] = rank;
        }
    }

    /// Keeps the ways of another scratch: hints.
    pub fn keep_ways_of(&mut self, other: &Scratch)
        ensures { self.new ≡ self.old }
    {
        self.ways.keep(&other.ways.hops, &other.ways.ranks);
    }

    /// Keeps the ways of another scratch, and tells as many searches as it.
    pub fn go_on_as(&mut self, other: &Scratch)
        ensures distances { self.new.distances ≡ self.old.distances }
        ensures served { self.new.served ≡ other.now.served }
    {
        self.keep_ways_of(other);
        self.served = other.served;
    }

    /// A rank of each node that falls along these hops: a hint.
    pub fn ranks(&self) -> &[u32] {
        &self.ways.ranks
    }

    /// The path that the last search found, from its first hop on; empty where it found none.
    pub fn path(&self) -> &[Hop]
        ensures { result.now ≡ self.now.path }
    {
        &self.slots[self.start..]
    }
}

/// The count with one search more, which stays at its greatest number.
fn one_more(served: u64) -> u64
    ensures { Serves served result 1 }
{
    served.saturating_add(1)
}

/// The least room of the hops of a path.
fn bottleneck(flow: &Flow, path: &[Hop]) -> u64
    requires in_range { All (λ h. h.arc < arcs flow.now.flow.program) path.now }
    requires admits { All (λ h. Admits flow.now.flow (step_of flow.now.flow.program h) 1) path.now }
    ensures admits { All (λ h. Admits flow.now.flow (step_of flow.now.flow.program h) result) path.now }
    ensures some { 1 ≤ result }
    ensures least { result ≡ least_room flow.now.flow (steps_of flow.now.flow.program path.now) }
{
    let mut units = u64::MAX;
    for hop in path {
        units = units.min(flow.room(*hop));
    }
    units
}

/// Writes the path to a node that was reached at the end of the slots; answers where it begins, and its room.
fn path_to(flow: &Flow, to: u32, labels: &Labels, slots: &mut [Hop]) -> (usize, u64)
    requires priced { IsPriced flow.now }
    requires labels { AreLabelsSoFar false flow.now labels.now.from labels.now.count labels.now.kept.items
        labels.now.rank.items labels.now.via.items }
    requires to { to < nodes flow.now }
    requires near { slice_index labels.now.kept.items to < far }
    requires closed { 0 < slice_index labels.now.rank.items to }
    requires slots { length slots.old ≡ nodes flow.now }
    ensures start { result.0 ≤ length slots.new }
    ensures path { IsTracedPath flow.now labels.now.kept.items labels.now.rank.items labels.now.from to
        (drop result.0 slots.new) }
    ensures admits { All (λ h. Admits flow.now.flow (step_of flow.now.flow.program h) result.1)
        (drop result.0 slots.new) }
    ensures some { 1 ≤ result.1 }
    ensures least { result.1 ≡ least_room flow.now.flow (steps_of flow.now.flow.program (drop result.0 slots.new)) }
{
    let start = labels.trace(flow, to, slots);
    (start, bottleneck(flow, &slots[start..]))
}

/// Finds a shortest residual path by reduced cost, and all distances: Dijkstra's method under potentials. In the worst
/// case its time grows with the square of the nodes, and with the arcs. What an earlier search left in the scratch is
/// gone.
pub fn search<L: Ledger>(
    flow: &Flow,
    from: u32,
    to: u32,
    scratch: &mut Scratch,
    steps: &mut Steps<L>,
) -> Found
    requires slack { IsSlack flow.now.flow (slice_index flow.now.potentials) }
    requires from { from < nodes flow.now }
    requires to { to < nodes flow.now }
    requires size { length scratch.old.distances ≡ nodes flow.now }
    ensures found { IsFound flow.now from to scratch.new result }
    ensures size { length scratch.new.distances ≡ nodes flow.now }
    ensures counted { steps.new ≡ steps.old + 1 }
    ensures served { Serves scratch.old.served scratch.new.served 1 }
{
    steps.tick();
    scratch.served = one_more(scratch.served);
    let _nights = flow.nights();
    scratch.labels.begin(flow, false, from);
    scratch.labels.close_all(flow, false);
    scratch.start = scratch.slots.len();
    if scratch.labels.kept[to as usize] == u128::MAX {
        return Found::Unreached;
    }
    let (start, units) = path_to(flow, to, &scratch.labels, &mut scratch.slots);
    scratch.start = start;
    Found::Reached { units }
}

/// Finds a shortest residual path by the same method, and ends as soon as the target is closed. The distances are exact
/// below the target's, and no others are less. Nodes that are as near as the target stay open, so where many are, as
/// under equal rates, most of the network is never looked at. What an earlier search left in the scratch is gone.
pub fn reach<L: Ledger>(
    flow: &Flow,
    from: u32,
    to: u32,
    scratch: &mut Scratch,
    steps: &mut Steps<L>,
) -> Found
    requires slack { IsSlack flow.now.flow (slice_index flow.now.potentials) }
    requires from { from < nodes flow.now }
    requires to { to < nodes flow.now }
    requires size { length scratch.old.distances ≡ nodes flow.now }
    ensures found { IsReached flow.now from to scratch.new result }
    ensures size { length scratch.new.distances ≡ nodes flow.now }
    ensures counted { steps.new ≡ steps.old + 1 }
    ensures served { Serves scratch.old.served scratch.new.served 1 }
{
    steps.tick();
    scratch.served = one_more(scratch.served);
    let _nights = flow.nights();
    scratch.labels.begin(flow, false, from);
    scratch.labels.close_to(flow, to);
    scratch.start = scratch.slots.len();
    if scratch.labels.kept[to as usize] == u128::MAX {
        return Found::Unreached;
    }
    let (start, units) = path_to(flow, to, &scratch.labels, &mut scratch.slots);
    scratch.start = start;
    Found::Reached { units }
}

/// Finds the distances by reduced cost of all nodes to one node: by kept ways that are mended, where a test shows that
/// they are right; else by the same method against the direction of the hops, over all nodes. Either way it counts as
/// one search. Of an earlier search the scratch keeps nothing but the ways, and these are then the last hops.
pub fn search_to<L: Ledger>(flow: &Flow, to: u32, scratch: &mut Scratch, steps: &mut Steps<L>)
    requires slack { IsSlack flow.now.flow (slice_index flow.now.potentials) }
    requires to { to < nodes flow.now }
    requires size { length scratch.old.distances ≡ nodes flow.now }
    ensures distances { AreDistancesTo flow.now to scratch.new.distances }
    ensures counted { steps.new ≡ steps.old + 1 }
    ensures served { Serves scratch.old.served scratch.new.served 1 }
{
    steps.tick();
    scratch.served = one_more(scratch.served);
    let _nights = flow.nights();
    scratch.start = scratch.slots.len();
    if mended(
        flow,
        to,
        &mut scratch.labels.kept,
        &mut scratch.ways.hops,
        &mut scratch.ways.ranks,
        &mut scratch.labels.rank,
    ) {
        return;
    }
    scratch.labels.begin(flow, true, to);
    scratch.labels.close_all(flow, true);
    scratch.ways.keep(&scratch.labels.via, &scratch.labels.rank);
}

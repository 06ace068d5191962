//! The network simplex itself: what it begins with, its pivots, and what it tells.
use crate::arcs::{Arc, Load, MUCH, State, arc_at, load_at, send, set_state};
use crate::circle::{Circle, Leaves};
use crate::rates::by_rate;
use crate::thread::{Spot, level_at};
use crate::tree::{Exchange, Tree, violation};
use bp_types::limits::{MOST_FORECAST, MOST_NIGHTS, MOST_RATE, MOST_STAYS, MOST_UNITS};
use bp_types::{Instance, Memory};
use std::alloc::Global;

/// So many pivots for each arc are made at most. None was seen that took eight.
const PIVOTS: usize = 64;

/// No arc has a greater number.
const MOST_ARCS: usize = MOST_STAYS + MOST_NIGHTS;

/// No potential is greater, in minor units of money.
const MOST_LEVEL: i64 = 1_000_000_000_000;

/// A network simplex on the line of nights, by Cunningham's rule: arcs of the stays, and then a free arc for each
/// night. Its arcs and nodes have the numbers that they have in the interval network. Nothing is claimed of what it
/// tells; of an arc or a node that there is not it tells some number.
#[derive(Drop)]
pub struct Simplex {
    arcs: Vec<Arc>,
    loads: Vec<Load>,
    tree: Tree,
    stays: u32,
    /// The stays, in the order in which they enter at first.
    order: Vec<u32>,
}

/// The arcs of the stays, none of which is sold. A stay that nobody asks for never enters.
fn stay_arcs(alloc: Global, instance: &Instance) -> Result<(Vec<Arc>, Vec<Load>), Memory> {
    let mut arcs = Vec::new(alloc);
    let mut loads = Vec::new(alloc);
    for number in 0..instance.stays() {
        let stay = instance.stay(number);
        let room = stay.forecast.min(MOST_FORECAST) as i64;
        let state = if room == 0 { State::Tree } else { State::Lower };
        arcs.push(Arc {
            cost: (stay.rate.min(MOST_RATE) as i64).wrapping_neg(),
            tail: stay.span.from,
            head: stay.span.to,
            state,
        })?;
        loads.push(Load { flow: 0, room })?;
    }
    Ok((arcs, loads))
}

/// The arc of some that violates optimality most; None where none does.
fn worst(arcs: &[Arc], spots: &[Spot]) -> Option<usize> {
    let mut most = 0;
    let mut found = None;
    for place in 0..arcs.len() {
        let by = violation(spots, arcs[place]);
        if by > most {
            most = by;
            found = Some(place);
        }
    }
    found
}

/// Half the root of a count, 20 or more.
fn block_size(count: usize) -> usize {
    let mut size = 20;
    for root in 20..100usize {
        if root * root * 4 <= count {
            size = root;
        }
    }
    size
}

impl Simplex {
    /// A simplex that has not run: nothing is sold, all rooms are spare, and the tree is the line of nights. All its
    /// memory is taken here; the one error is `Memory`.
    pub fn new(alloc: Global, instance: &Instance) -> Result<Simplex, Memory> {
        let stays = instance.stays();
        let nights = instance.nights();
        let (mut arcs, mut loads) = stay_arcs(alloc, instance)?;
        for night in 0..nights {
            arcs.push(Arc {
                cost: 0,
                tail: night,
                head: night.wrapping_add(1),
                state: State::Tree,
            })?;
            let flow = instance.rooms(night).min(MOST_UNITS) as i64;
            loads.push(Load { flow, room: MUCH })?;
        }
        let tree = Tree::line(alloc, nights, stays)?;
        let order = by_rate(alloc, instance)?;
        Ok(Simplex {
            arcs,
            loads,
            tree,
            stays,
            order,
        })
    }

    /// Lets an arc enter the tree, or moves it to its other bound.
    fn pivot(&mut self, number: u32) {
        let arc = arc_at(&self.arcs, number);
        let rises = arc.state == State::Lower;
        let (first, second) = if rises {
            (arc.tail, arc.head)
        } else {
            (arc.head, arc.tail)
        };
        let room = load_at(&self.loads, number).left(rises);
        let circle = Circle::of(&self.tree, &self.loads, first, second, room);
        if circle.units != 0 {
            circle.send(&self.tree, &mut self.loads);
            send(&mut self.loads, number, rises, circle.units);
        }
        match circle.leaves {
            Leaves::Entering => {
                let state = if rises { State::Upper } else { State::Lower };
                set_state(&mut self.arcs, number, state);
            }
            Leaves::First { out } => self.exchange(number, first, second, out, circle.join),
            Leaves::Second { out } => self.exchange(number, second, first, out, circle.join),
        }
    }

    /// Takes the arc above `out` out of the tree, and hangs the piece below it on `parent` by the entering arc.
    fn exchange(&mut self, number: u32, inside: u32, parent: u32, out: u32, join: u32) {
        let leaving = self.tree.node(out).arc;
        let load = load_at(&self.loads, leaving);
        let state = if load.room == 0 {
            State::Tree
        } else if load.flow == 0 {
            State::Lower
        } else {
            State::Upper
        };
        set_state(&mut self.arcs, leaving, state);
        set_state(&mut self.arcs, number, State::Tree);
        let arc = arc_at(&self.arcs, number);
        let up = arc.tail == inside;
        let cost = if up {
            arc.cost.wrapping_neg()
        } else {
            arc.cost
        };
        let spots = self.tree.spots();
        let by = level_at(spots, parent)
            .wrapping_sub(level_at(spots, inside))
            .wrapping_add(cost);
        self.tree.exchange(Exchange {
            inside,
            parent,
            arc: number,
            up,
            out,
            join,
            by,
        });
    }

    /// Whether all nights of an arc stand in the tree by their free arcs.
    fn is_free(&self, arc: Arc) -> bool {
        for night in arc.tail..arc.head {
            if arc_at(&self.arcs, self.stays.wrapping_add(night)).state != State::Tree {
                return false;
            }
        }
        true
    }

    /// Whether each night of an arc has more spare rooms than so many.
    fn has_more(&self, arc: Arc, units: i64) -> bool {
        for night in arc.tail..arc.head {
            if load_at(&self.loads, self.stays.wrapping_add(night)).flow <= units {
                return false;
            }
        }
        true
    }

    /// Sells a stay whole, from spare rooms: the tree does not change.
    fn sell(&mut self, number: u32, arc: Arc, units: i64) {
        for night in arc.tail..arc.head {
            send(
                &mut self.loads,
                self.stays.wrapping_add(night),
                false,
                units,
            );
        }
        send(&mut self.loads, number, true, units);
        set_state(&mut self.arcs, number, State::Upper);
    }

    /// Lets a stay enter, if it should and no night of it has a price yet.
    fn enter(&mut self, number: u32) {
        let arc = arc_at(&self.arcs, number);
        if violation(self.tree.spots(), arc) <= 0 || !self.is_free(arc) {
            return;
        }
        let units = load_at(&self.loads, number).room;
        if self.has_more(arc, units) {
            self.sell(number, arc, units);
        } else {
            self.pivot(number);
        }
    }

    /// Lets so many stays enter once at most, by falling rate a night.
    fn enter_first(&mut self, stays: usize) {
        for place in 0..stays {
            if place < self.order.len() {
                let number = self.order[place];
                self.enter(number);
            }
        }
    }

    /// The arc that violates optimality most, of the first block from an arc on where one does. The next block begins
    /// behind the arc that entered, not where its block ended.
    fn next(&self, start: usize, size: usize) -> Option<usize> {
        let count = self.arcs.len();
        let mut at = start;
        let mut seen = 0usize;
        for _ in 0..count {
            let from = if at < count { at } else { 0 };
            let end = from.saturating_add(size).min(count);
            if let Some(place) = worst(&self.arcs[from..end], self.tree.spots()) {
                return Some(from.saturating_add(place));
            }
            seen = seen.saturating_add(size);
            if seen >= count {
                return None;
            }
            at = end;
        }
        None
    }

    /// Lets each stay enter once, and pivots then until no arc violates optimality, or too often: more than 64 pivots
    /// an arc are not made. It takes no memory.
    pub fn run(&mut self) {
        let pivots = self.arcs.len().saturating_mul(PIVOTS);
        self.run_for(pivots);
    }

    /// The same, with so many pivots at most, of which each stay that enters first counts as one. Where they do not
    /// suffice, it stands where it stands: another call begins with the stays anew.
    pub fn run_for(&mut self, pivots: usize) {
        let entering = pivots.min(self.stays as usize);
        self.enter_first(entering);
        let size = block_size(self.arcs.len());
        let mut start = 0;
        for _ in entering..pivots {
            let Some(place) = self.next(start, size) else {
                return;
            };
            self.pivot(place.min(MOST_ARCS) as u32);
            start = place.saturating_add(1);
        }
    }

    /// The potential of a node above the last one's, in minor units of money.
    pub fn level(&self, node: u32) -> u64 {
        level_at(self.tree.spots(), node).clamp(0, MOST_LEVEL) as u64
    }

    /// What an arc carries, in units: sold of a stay, spare on a night.
    pub fn carries(&self, arc: u32) -> u64 {
        load_at(&self.loads, arc).flow.clamp(0, MOST_UNITS as i64) as u64
    }

    /// The arc over which a node's way to the last one leads, and whether it is taken forward.
    pub fn way(&self, node: u32) -> (u32, bool) {
        let here = self.tree.node(node);
        (here.arc, here.up)
    }

    /// A number that falls along each way: the greatest u32, less the size of the piece of the tree below the node,
    /// itself counted.
    pub fn rank(&self, node: u32) -> u32 {
        u32::MAX.wrapping_sub(self.tree.node(node).size)
    }
}

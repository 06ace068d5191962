//! The ledger: two lists for its callers, and inside a segment (interval) tree with lazy amounts.
ghost use Rattle.std.specs.Prelude.{
  ◌≡◌,
  ℕ,
  ◌+◌,
  ◌<◌,
  ◌≤◌,
  ◌^◌,
  ◌↔◌,
  true,
  false,
  length,
  slice_index,
  EachIndex,
  IfOk,
  IfErr,
  IsErr,
  OnOk,
  OnErr,
};
ghost use Rattle.bp_types.specs.Spans.{IsSpanWithin, first_short};
ghost use Rattle.bp_ledger.specs.Inventory.{
  Inventory,
  IsInventory,
  HasLeft,
  HasSold,
  taken,
  released,
  resized,
  rooms_left_on,
};

use crate::tree::{
    bring_up, build, first_between, lay, least_between, release_between, shape, take_between, way,
};
use bp_types::{Memory, Span};
use std::alloc::Global;
use std::marker::Model;

/// More rooms of the night are sold than the number asked for.
#[derive(Clone, Copy, Debug, PartialEq, Eq)]
pub struct BelowSold {
    /// The sold rooms of the night.
    pub sold: u64,
}

/// Nights of a span that are looked at one by one: up to so many, a walk over the tree would cost more.
const FEW: u32 = 8;

/// The rooms of each night and how many of them are sold, never more than there are.
///
/// Contracts see these two lists, one number per night, in whole rooms. What its calls name units are whole rooms too,
/// whatever the unit of the house.
///
/// Inside stands a segment (interval) tree over the nights, a complete binary tree with lazy amounts: they stay at the
/// nodes where they were put, and only one case of `release` pushes them down. A node has the least number of rooms
/// left below it and an amount that is still to be taken from all below it, itself included. What is sold on a night is
/// the sum of the amounts from its leaf to the root. A call costs time in the levels of the tree, not in the nights of
/// a span, but for `new` and that case.
#[derive(Debug, Drop)]
pub struct Ledger {
    /// The rooms of each night.
    rooms: Vec<u64>,
    /// Of each node, the least number of rooms left below it, its own amount and those above not yet taken; of a leaf,
    /// the rooms of its night.
    leasts: Vec<u64>,
    /// Of each node, the amount that is still to be taken from all below it.
    amounts: Vec<u64>,
    /// How many levels are below the root.
    levels: u32,
    /// How many leaves there are, which is also the number of the first.
    width: usize,
}

impl Model for Ledger {
    ghost use Rattle.std.specs.Prelude.{length};
    ghost use Rattle.bp_ledger.specs.Inventory.{Inventory};
    ghost use Rattle.bp_ledger.specs.Tree.{IsTree, sold_in};

    ghost Value = { Inventory };

    ghost view = { λ l. record { rooms = l.rooms.items; sold = sold_in l.levels l.amounts.items (length l.rooms.items) } };

    ghost invariant = { λ l. IsTree l.levels l.width l.rooms.items l.leasts.items l.amounts.items };
}

impl Ledger {
    /// A ledger of these rooms and sold rooms, one number per night each. It takes the time of the nights, and all
    /// memory that it will take; the one error is `Memory`.
    pub fn new(alloc: Global, rooms: &[u64], sold: &[u64]) -> Result<Ledger, Memory>
        requires one_each { length sold.now ≡ length rooms.now }
        requires within { EachIndex rooms.now (λ n. slice_index sold.now n ≤ slice_index rooms.now n) }
        ensures { IfOk result (λ l. l ≡ record { rooms = rooms.now; sold = sold.now }) }
    {
        let (levels, width) = shape(rooms.len())?;
        let rooms = Vec::from_slice(alloc, rooms)?;
        let mut leasts = vec![in alloc; 0; 2 * width]?;
        let mut amounts = vec![in alloc; 0; 2 * width]?;
        lay(&mut leasts, &rooms, width + 1);
        lay(&mut amounts, sold, width + 1);
        build(&mut leasts, &amounts, levels, width);
        Ok(Ledger {
            rooms,
            leasts,
            amounts,
            levels,
            width,
        })
    }

    /// The first night of the span with fewer rooms left than `units`, if there is one.
    ///
    /// A short span is looked at night by night. A longer one is refused or passed as a whole by the least number that
    /// it has left, and where that is too small, the walk goes down to the first night, the left child first.
    pub fn first_full(&self, span: Span, units: u64) -> Option<u32>
        requires { IsSpanWithin (length self.now.rooms) span }
        ensures { result ≡ first_short (rooms_left_on self.now) span units }
    {
        if span.to - span.from > FEW {
            return self.first_below(span, units);
        }
        for night in span.from..span.to {
            if self.rooms(night) - self.sold(night) < units {
                return Some(night);
            }
        }
        None
    }

    /// The same, by a walk over the tree.
    fn first_below(&self, span: Span, units: u64) -> Option<u32>
        requires { IsSpanWithin (length self.now.rooms) span }
        ensures { result ≡ first_short (rooms_left_on self.now) span units }
    {
        let low = self.width + span.from as usize;
        let high = self.width + span.to as usize + 1;
        if least_between(&self.leasts, &self.amounts, self.levels, low, high) >= units {
            return None;
        }
        let leaf = first_between(&self.leasts, &self.amounts, self.levels, low, high, units);
        if leaf < high {
            Some((leaf - self.width - 1) as u32)
        } else {
            None
        }
    }

    /// Sells so many rooms on each night of the span: on the nodes that cover it, at most two on each level. It takes
    /// the time of the levels.
    pub fn take(&mut self, span: Span, units: u64)
        requires span { IsSpanWithin (length self.old.rooms) span }
        requires left { HasLeft self.old span units }
        ensures { self.new ≡ taken self.old span units }
    {
        let _ = &self.rooms;
        let low = self.width + span.from as usize;
        let end = self.width + span.to as usize + 1;
        take_between(
            &mut self.leasts,
            &mut self.amounts,
            self.levels,
            low,
            end,
            units,
        );
    }

    /// Gives so many sold rooms back on each night of the span: on the nodes where `take` of the same span left them.
    /// What was sold otherwise is pushed down to the nights and given back on each, in time that grows with the nights
    /// of the span times the levels.
    pub fn release(&mut self, span: Span, units: u64)
        requires span { IsSpanWithin (length self.old.rooms) span }
        requires sold { HasSold self.old span units }
        ensures { self.new ≡ released self.old span units }
    {
        let _ = &self.rooms;
        let low = self.width + span.from as usize;
        let past = self.width + span.to as usize + 1;
        release_between(
            &mut self.leasts,
            &mut self.amounts,
            self.levels,
            low,
            past,
            units,
        );
    }

    /// Sets the rooms of a night, unless more of them are sold: then nothing changes, and `BelowSold` says how many. It
    /// takes the time of the levels.
    pub fn resize(&mut self, night: u32, rooms: u64) -> Result<(), BelowSold>
        requires { night < length self.old.rooms }
        ensures below_sold { IsErr result ↔ (rooms < slice_index self.old.sold night) }
        ensures sold { IfErr result (λ e. e.sold ≡ slice_index self.old.sold night) }
        ensures unchanged { OnErr result (self.new ≡ self.old) }
        ensures resized { OnOk result (self.new ≡ resized self.old night rooms) }
    {
        let sold = self.sold(night);
        if rooms < sold {
            return Err(BelowSold { sold });
        }
        let leaf = self.width + night as usize + 1;
        self.rooms[night as usize] = rooms;
        self.leasts[leaf] = rooms;
        bring_up(&mut self.leasts, &self.amounts, self.levels, leaf);
        Ok(())
    }

    /// The rooms of a night.
    pub fn rooms(&self, night: u32) -> u64
        requires { night < length self.now.rooms }
        ensures value { result ≡ slice_index self.now.rooms night }
        ensures ledger { IsInventory self.now }
    {
        let _ = &self.amounts;
        self.rooms[night as usize]
    }

    /// The sold rooms of a night: the amounts from its leaf to the root. It takes the time of the levels.
    pub fn sold(&self, night: u32) -> u64
        requires { night < length self.now.rooms }
        ensures value { result ≡ slice_index self.now.sold night }
        ensures ledger { IsInventory self.now }
    {
        way(&self.amounts, self.levels, self.width + night as usize + 1)
    }
}

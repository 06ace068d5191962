//! The rule of the list shown, in a table of one word and no slot, and what each step tells. The list itself is in
//! proofs alone: no value of it is made.
ghost use Rattle.bp_show.specs.Order.{
  Keeps,
  first_sight,
  Prepared,
  Committed,
  Adopted,
  Settled,
  note,
  gift,
  heard,
  told_by,
  took,
  spent,
};

use crate::sums::Sums;
use atomic_table::{Join, Play, Seat, Split, Table, TableRule};
use std::alloc::Global;
use std::collections::LinkedList;
use std::snapshot::Snapshot;

/// What a seat knows of the list shown. No value of it is made.
pub(crate) struct Sight {
    /// The vectors that it has seen.
    pub seen: LinkedList<Sums>,
    /// What a seat that it met had seen.
    pub told: LinkedList<Sums>,
    /// A try to show a vector.
    pub stamp: u64,
    /// The vector of that try, or none.
    pub claim: LinkedList<Sums>,
    /// Whether it is the screen's.
    pub leads: bool,
}

/// The rule of the table. Its word is the last try that showed its vector.
pub(crate) struct Order;

impl TableRule<Sums, Sight, Snapshot<Sums>> for Order {
    ghost holds = { λ about. Keeps };

    ghost first = { λ about. first_sight about.value };
}

/// The table of one word whose rule keeps the list.
pub(crate) type Chronicle = Table<Sums, Sight, Snapshot<Sums>, Order, Global>;

/// A seat at the table: the screen's, a view's, or one that rests on a perch.
pub(crate) type Place = Seat<Sums, Sight>;

/// The screen tries to show a vector.
pub(crate) struct Prepare;

impl Play<Sums, Sight> for Prepare {
    ghost then = { Prepared };
}

/// The vector of the try is shown.
pub(crate) struct Commit;

impl Play<Sums, Sight> for Commit {
    ghost then = { Committed };
}

/// A view that heard of the last try sees the whole list.
pub(crate) struct Adopt;

impl Play<Sums, Sight> for Adopt {
    ghost then = { Adopted };
}

/// The screen learns that what it was told is a first part of its list.
pub(crate) struct Settle;

impl Play<Sums, Sight> for Settle {
    ghost then = { Settled };
}

/// A seat that has seen as much.
pub(crate) struct Note;

impl Split<Sight> for Note {
    ghost left = { λ v. v };

    ghost right = { note };
}

/// The screen is told what a view had seen.
impl Join<Sight> for Note {
    ghost both = { told_by };

    ghost spent = { spent };
}

/// A view takes what the screen has shown.
pub(crate) struct Take;

impl Join<Sight> for Take {
    ghost both = { took };

    ghost spent = { spent };
}

/// A seat that knows of the try alone.
pub(crate) struct Gift;

impl Split<Sight> for Gift {
    ghost left = { λ v. v };

    ghost right = { gift };
}

impl Join<Sight> for Gift {
    ghost both = { heard };

    ghost spent = { spent };
}

//! The table under the lock: three words, one slot with the value, and a view for each seat.
use crate::story::Story;
use atomic_table::{Seat, Table, TableRule};
use std::alloc::Global;
use std::collections::LinkedList;
use std::marker::PhantomData;
use std::snapshot::Snapshot;

/// What a seat knows. It is for proofs alone: no value of it is made when the program runs.
pub struct View<F, E> {
    /// The fixed part of the lock's value. A spent view, whose seat was joined into another, has none.
    pub fixed: Option<F>,
    /// The number that the seat logs under. From `CALLERS` on it has none.
    pub number: u64,
    /// What the seat has seen of the history.
    pub seen: LinkedList<E>,
    /// Of the seat that was joined into this one last: the shorter of the two lists seen.
    pub told: LinkedList<E>,
    /// Of the seat that was joined into this one last: its fixed part.
    pub told_fixed: Option<F>,
    /// The entries that the seat logged.
    pub own: LinkedList<E>,
    /// The numbers that it may hand out.
    pub free: LinkedList<u64>,
    /// The number that it hands out next.
    pub chosen: u64,
    /// The numbers of seats that ended in this one, each with its entries.
    pub ended: LinkedList<(u64, LinkedList<E>)>,
    /// Whether it has drawn a ticket that is not served yet, or is being served.
    pub has_ticket: bool,
    /// That ticket, counted without end.
    pub ticket: u64,
    /// Whether the value is out with it.
    pub has_turn: bool,
    /// The length of the history at each of its turns.
    pub turns: LinkedList<u64>,
    /// The length of the history at each of its looks.
    pub looks: LinkedList<u64>,
}

/// The rule of the table, which holds between any two steps of whatever threads.
pub struct InTurn;

impl<B: Story> TableRule<Option<B>, View<B::Fixed, B::Entry>, Snapshot<B>> for InTurn {
    ghost use Rattle.bp_turn.specs.Rule.{FollowsRule};
    ghost use Rattle.bp_turn.specs.Views.{first_view};

    ghost holds = { λ about. FollowsRule B.fixed B.story B.caller (B.fixed about.value) };

    ghost first = { λ about. first_view (B.fixed about.value) (B.story about.value) };
}

/// The table under a lock over values of a type.
pub type LockTable<B> = Table<
    Option<B>,
    View<<B as Story>::Fixed, <B as Story>::Entry>,
    Snapshot<B>,
    InTurn,
    Global,
>;

/// A seat's place at that table: its view, and the slot with the value while it has the turn.
pub type Place<B> = Seat<Option<B>, View<<B as Story>::Fixed, <B as Story>::Entry>>;

/// The word with the length of the history.
pub const LENGTH: usize = 0;

/// The word with the ticket that is drawn next, modulo 2^64.
pub const TICKET: usize = 1;

/// The word with the ticket that is served, modulo 2^64.
pub const SERVING: usize = 2;

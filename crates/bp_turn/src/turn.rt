//! The lock, and the calls that take a turn or look at the length.
ghost use Rattle.std.specs.Prelude.{◌≡◌, ◌%◌, ◌^◌, ◌<◌, ◌≤◌, true, false, [], ◌∷◌, ◌++◌, length, IfOk, Some, All, None};
ghost use Rattle.bp_types.specs.declared.limits.TheConstants.{CALLERS};
ghost use Rattle.bp_turn.specs.Plays.{Took};
ghost use Rattle.bp_turn.specs.Prefix.{IsPrefix};
ghost use Rattle.bp_turn.specs.Seat.{first_seat};
ghost use Rattle.bp_turn.specs.Views.{view_after_turn};

use crate::bell::Bell;
use crate::plays::{Call, Draw, Give, Log, Look};
use crate::seat::TurnSeat;
use crate::story::Story;
use crate::table::{LENGTH, LockTable, Place, SERVING, TICKET};
use atomic_table::Table;
use std::alloc::Global;
use std::marker::Model;
use std::snapshot::Snapshot;
use std::sync::Wait;

/// How often a thread sleeps before it draws its ticket.
const PATIENCE: u32 = 16;

/// How often a thread with a ticket looks for its turn before it sleeps: about as long as a turn takes.
const LOOKS: u32 = 20;

/// There was no memory.
#[derive(Clone, Copy, PartialEq, Eq, Debug)]
pub struct Memory;

/// A ticket lock over a value whose story only grows: who takes a turn draws a ticket, and tickets are served in the
/// order in which they were drawn. Contracts see which lock it is, and seats name it by that.
#[derive(Drop)]
pub struct Turn<B: Story> {
    /// The table with the value, the length of its history, and the two counters of tickets.
    pub(crate) table: LockTable<B>,
    /// Where threads sleep that have no ticket yet.
    door: Bell,
    /// Where those sleep that have one.
    line: Bell,
}

impl<B: Story> Model for Turn<B> {
    ghost use Rattle.std.specs.Prelude.{◌≡◌};
    ghost use Rattle.atomic_table.specs.Seated.{TableId, table_id_coded};

    ghost Value = { TableId };

    ghost coded = { table_id_coded };

    ghost view = { λ t. t.table.shared.table_id };

    ghost invariant = { λ t. (t.table.shared.table_id.words ≡ 3) × (t.table.shared.table_id.slots ≡ 1) };
}

impl<B: Story + Drop> Turn<B> {
    /// A lock over the value, and its first seat, which has the number 0 and may hand out the others below `CALLERS`.
    /// The entries that the value has already are of caller 0. The one error is `Memory`, and then the value is
    /// dropped.
    pub fn new(alloc: Global, value: B) -> Result<(Turn<B>, TurnSeat<B>), Memory>
        requires { All (λ (e : B.Entry). B.caller e ≡ 0) (B.story value) }
        ensures { IfOk result (λ r. r.1 ≡ first_seat r.0 (B.fixed value) (B.story value)) }
    {
        let length = value.length();
        let about = Snapshot::of(&value);
        let mut slots = Vec::new(alloc);
        let Ok(()) = slots.push(Some(value)) else {
            return Err(Memory);
        };
        match Table::new(alloc, &[length, 0, 0], slots, &about) {
            Ok((table, place)) => {
                let turn = Turn {
                    table,
                    door: Bell::new(),
                    line: Bell::new(),
                };
                Ok((turn, TurnSeat { place }))
            }
            Err(_) => Err(Memory),
        }
    }
}

impl<B: Story> Turn<B> {
    /// Waits for the seat's turn, and takes the value. A thread that waits sleeps, and is woken when a turn ends. It
    /// may wait for ever, as where a seat that has the turn is dropped.
    pub fn take<R: Wait>(&self, rt: &R, seat: &mut TurnSeat<B>) -> B
        requires lock { seat.old.lock ≡ self.now }
        requires idle { seat.old.has_turn ≡ false }
        ensures fixed { seat.old.fixed ≡ Some (B.fixed result) }
        ensures begins { IsPrefix seat.old.seen (B.story result) }
        ensures seat { seat.new ≡ record seat.old {
          seen = B.story result;
          has_turn = true;
          turns = seat.old.turns ++ length (B.story result) ∷ [];
        } }
    {
        self.approach(rt);
        let ticket = self
            .table
            .shared
            .fetch_add::<Draw>(&mut seat.place, TICKET, 1);
        self.look_out(ticket);
        self.wait(rt, &mut seat.place, ticket);
        match self.table.shared.exchange(&mut seat.place, 0, None) {
            Some(value) => value,
            None => unreachable!(),
        }
    }

    /// Gives the value back with the story that was taken, and ends the turn. It does not wait.
    pub fn give(&self, seat: &mut TurnSeat<B>, value: B)
        requires lock { seat.old.lock ≡ self.now }
        requires turn { seat.old.has_turn ≡ true }
        requires fixed { seat.old.fixed ≡ Some (B.fixed value) }
        requires story { B.story value ≡ seat.old.seen }
        ensures { seat.new ≡ record seat.old { has_turn = false } }
    {
        self.put_back(&mut seat.place, value);
        self.serve_next(&mut seat.place);
    }

    /// Gives the value back with one entry more, which the seat made, and ends the turn. The one atomic step that
    /// raises the length makes the entry part of the history: it is the linearization point. It does not wait.
    pub fn give_logged(&self, seat: &mut TurnSeat<B>, value: B)
        requires lock { seat.old.lock ≡ self.now }
        requires turn { seat.old.has_turn ≡ true }
        requires fixed { seat.old.fixed ≡ Some (B.fixed value) }
        requires story { (e : B.Entry)
            × (B.story value ≡ seat.old.seen ++ e ∷ [])
            × (B.caller e ≡ seat.old.number) }
        ensures { (e : B.Entry) → B.story value ≡ seat.old.seen ++ e ∷ []
            → seat.new ≡ record seat.old {
              seen = seat.old.seen ++ e ∷ [];
              own = seat.old.own ++ e ∷ [];
              has_turn = false;
            } }
    {
        let _length = value.length();
        // The value goes back into the slot before the step on the length, since that step reads the entry there. The
        // seat holds the slot until the next ticket is served, so no other thread can touch it in between.
        self.put_back(&mut seat.place, value);
        self.table
            .shared
            .fetch_add::<Log>(&mut seat.place, LENGTH, 1);
        self.serve_next(&mut seat.place);
    }

    /// The length of the history at this moment, found without a turn and without waiting.
    pub fn peek(&self, seat: &mut TurnSeat<B>) -> u64
        requires { seat.old.lock ≡ self.now }
        ensures seat { seat.new ≡ record seat.old { looks = seat.old.looks ++ result ∷ [] } }
        ensures least { length seat.old.seen ≤ result }
    {
        self.table.shared.load::<Look>(&mut seat.place, LENGTH)
    }

    /// Puts the value into the slot, which the seat holds.
    fn put_back(&self, place: &mut Place<B>, value: B)
        requires lock { place.old.table_id ≡ self.now }
        requires empty { place.old.me.1 ≡ (0, None) ∷ [] }
        ensures place { (place.new.table_id ≡ place.old.table_id) × (place.new.id ≡ place.old.id) }
        ensures slot { place.new.me ≡ (place.old.me.0, (0, Some value) ∷ []) }
    {
        let empty = self.table.shared.exchange(place, 0, Some(value));
        let None = empty else { unreachable!() };
    }

    /// Gives the slot back, serves the next ticket, and wakes those that it may concern.
    fn serve_next(&self, place: &mut Place<B>)
        requires lock { place.old.table_id ≡ self.now }
        requires turn { (place.old.me.0.number < CALLERS) × (place.old.me.0.has_turn ≡ true) }
        requires slot { (b : B)
            × (place.old.me.1 ≡ (0, Some b) ∷ [])
            × (B.story b ≡ place.old.me.0.seen)
            × (place.old.me.0.fixed ≡ Some (B.fixed b)) }
        ensures place { (place.new.table_id ≡ place.old.table_id) × (place.new.id ≡ place.old.id) }
        ensures turn { place.new.me ≡ (view_after_turn place.old.me.0, []) }
    {
        self.table.shared.fetch_add::<Give>(place, SERVING, 1);
        self.line.ring_for_all();
        self.door.ring_for_one();
    }

    /// Sleeps before it draws a ticket, until no ticket is out: else each turn would wait for the one thread that is
    /// next to wake up. After some sleeps it goes on all the same, so that threads that came later do not pass it for
    /// ever.
    fn approach<R: Wait>(&self, rt: &R) {
        for _ in 0..PATIENCE {
            if self.is_free() {
                return;
            }
            let asked = self.door.ask();
            if !self.is_free() {
                self.door.sleep(rt, asked);
                // Others may sleep here too, and are to be woken after its turn.
                self.door.ask();
            }
        }
    }

    /// Whether no ticket is out, as far as two looks can tell.
    fn is_free(&self) -> bool {
        let serving = self.table.shared.peek(SERVING);
        serving == self.table.shared.peek(TICKET)
    }

    /// Looks a while whether the ticket is served. Only two that drew their tickets at one moment meet here, and none
    /// that comes later can pass the second: to sleep and be woken would cost all of them more than a turn.
    fn look_out(&self, ticket: u64) {
        for _ in 0..LOOKS {
            if self.table.shared.peek(SERVING) == ticket {
                return;
            }
        }
    }

    /// Sleeps until the ticket is served, and has the slot with the value then.
    fn wait<R: Wait>(&self, rt: &R, place: &mut Place<B>, ticket: u64)
        requires lock { place.old.table_id ≡ self.now }
        requires ticket { (place.old.me.0.number < CALLERS)
            × (place.old.me.0.has_ticket ≡ true)
            × (place.old.me.0.has_turn ≡ false)
            × (ticket ≡ place.old.me.0.ticket % 2 ^ 64) }
        ensures place { (place.new.table_id ≡ place.old.table_id) × (place.new.id ≡ place.old.id) }
        ensures took { Took B.fixed B.story B.caller place.old.me place.new.me }
    {
        let mut asked = None;
        for _ in rt.forever() {
            let serving = self.table.shared.load::<Call>(place, SERVING);
            if serving == ticket {
                return;
            }
            if let Some(asked) = asked {
                self.line.sleep(rt, asked);
            }
            asked = Some(self.line.ask());
        }
        unreachable!()
    }
}

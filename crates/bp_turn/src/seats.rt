//! The calls that make a seat of another, end a seat in another, or let two tell each other what they have seen.
ghost use Rattle.std.specs.Prelude.{◌≡◌, ◌<◌, false, [], ◌∷◌, ◌++◌, Contains, IsOk, IsOkAnd, Some};
ghost use Rattle.bp_types.specs.declared.limits.TheConstants.{CALLERS};
ghost use Rattle.bp_turn.specs.Callers.{without};
ghost use Rattle.bp_turn.specs.Plays.{IsNote};
ghost use Rattle.bp_turn.specs.Prefix.{IsPrefix, longer};
ghost use Rattle.bp_turn.specs.Seat.{new_seat, IsSoundView};
ghost use Rattle.bp_turn.specs.Views.{view_told, view_joined};

use crate::plays::{Absorb, Choose, Learn, Newcomer, Note};
use crate::seat::TurnSeat;
use crate::story::Story;
use crate::table::{LENGTH, Place};
use crate::turn::{Memory, Turn};
use std::alloc::Global;

impl<B: Story> Turn<B> {
    /// A new seat with the number, which has seen as much; the number is no longer free. A seat has no bytes, so no
    /// memory is taken and the answer is never `Memory`.
    pub fn split(
        &self,
        _alloc: Global,
        seat: &mut TurnSeat<B>,
        number: u32,
    ) -> Result<TurnSeat<B>, Memory>
        requires lock { seat.old.lock ≡ self.now }
        requires number { Contains seat.old.free number }
        ensures seat { seat.new ≡ record seat.old { free = without number seat.old.free } }
        ensures new { IsOkAnd result (λ r. r ≡ new_seat seat.old number) }
    {
        let number = u64::from(number);
        self.table
            .shared
            .compare_exchange::<Choose>(&mut seat.place, LENGTH, number, number);
        let place = self.table.shared.split_seat::<Newcomer>(&mut seat.place);
        Ok(TurnSeat { place })
    }

    /// Ends the other seat in this one, which keeps its numbers and the entries under them, and has seen what either
    /// had. It neither waits nor takes memory.
    pub fn join(&self, seat: &mut TurnSeat<B>, other: TurnSeat<B>)
        requires lock { (seat.old.lock ≡ self.now) × (other.lock ≡ self.now) }
        requires idle { (seat.old.has_turn ≡ false) × (other.has_turn ≡ false) }
        ensures seat { seat.new ≡ record seat.old {
          seen = longer seat.old.seen other.seen;
          free = seat.old.free ++ other.free;
          ended = seat.old.ended ++ (other.number, other.own) ∷ other.ended;
        } }
        ensures begins { IsPrefix seat.old.seen seat.new.seen × IsPrefix other.seen seat.new.seen }
        ensures fixed { other.fixed ≡ seat.old.fixed }
    {
        let TurnSeat { place } = other;
        self.absorb(&mut seat.place, place);
    }

    /// Each of two seats learns what the other has seen. It does not wait; a seat has no bytes, so no memory is taken
    /// and the answer is never `Memory`.
    pub fn meet(
        &self,
        _alloc: Global,
        seat: &mut TurnSeat<B>,
        other: &mut TurnSeat<B>,
    ) -> Result<(), Memory>
        requires lock { (seat.old.lock ≡ self.now) × (other.old.lock ≡ self.now) }
        requires idle { (seat.old.has_turn ≡ false) × (other.old.has_turn ≡ false) }
        ensures ok { IsOk result }
        ensures seat { seat.new ≡ record seat.old { seen = longer seat.old.seen other.old.seen } }
        ensures other { other.new ≡ record other.old { seen = longer seat.old.seen other.old.seen } }
        ensures begins { IsPrefix seat.old.seen seat.new.seen × IsPrefix other.old.seen seat.new.seen }
        ensures fixed { other.old.fixed ≡ seat.old.fixed }
    {
        let of_seat = self.table.shared.split_seat::<Note>(&mut seat.place);
        let of_other = self.table.shared.split_seat::<Note>(&mut other.place);
        self.hear(&mut seat.place, of_other);
        self.hear(&mut other.place, of_seat);
        Ok(())
    }

    /// Tells the seat what the note's maker had seen.
    fn hear(&self, place: &mut Place<B>, told: Place<B>)
        requires lock { (place.old.table_id ≡ self.now) × (told.table_id ≡ self.now) }
        requires idle { place.old.me.0.has_turn ≡ false }
        requires note { IsNote told.me }
        ensures place { (place.new.table_id ≡ place.old.table_id) × (place.new.id ≡ place.old.id) }
        ensures me { place.new.me ≡ (view_told place.old.me.0 told.me.0, place.old.me.1) }
        ensures begins { IsPrefix place.old.me.0.seen (longer place.old.me.0.seen told.me.0.seen)
            × IsPrefix told.me.0.seen (longer place.old.me.0.seen told.me.0.seen) }
        ensures fixed { (f g : B.Fixed) → place.old.me.0.fixed ≡ Some f → told.me.0.fixed ≡ Some g
            → told.me.0.fixed ≡ place.old.me.0.fixed }
        ensures sound { IsSoundView B.caller place.old.me.0
            → IsSoundView B.caller (view_told place.old.me.0 told.me.0) }
    {
        self.table.shared.join_seat::<Note>(place, told);
        self.table.shared.load::<Learn>(place, LENGTH);
    }

    /// Ends the other seat in this one.
    fn absorb(&self, place: &mut Place<B>, other: Place<B>)
        requires lock { (place.old.table_id ≡ self.now) × (other.table_id ≡ self.now) }
        requires idle { (place.old.me.0.has_turn ≡ false) × (other.me.0.has_turn ≡ false) }
        requires ticket { (other.me.0.has_ticket ≡ false) × (other.me.1 ≡ []) }
        requires number { other.me.0.number < CALLERS }
        ensures place { (place.new.table_id ≡ place.old.table_id) × (place.new.id ≡ place.old.id) }
        ensures me { place.new.me ≡ (view_joined place.old.me.0 other.me.0, place.old.me.1) }
        ensures begins { IsPrefix place.old.me.0.seen (longer place.old.me.0.seen other.me.0.seen)
            × IsPrefix other.me.0.seen (longer place.old.me.0.seen other.me.0.seen) }
        ensures fixed { (f g : B.Fixed) → place.old.me.0.fixed ≡ Some f → other.me.0.fixed ≡ Some g
            → other.me.0.fixed ≡ place.old.me.0.fixed }
        ensures sound { IsSoundView B.caller place.old.me.0
            → IsSoundView B.caller (view_joined place.old.me.0 other.me.0) }
    {
        self.table.shared.join_seat::<Absorb>(place, other);
        self.table.shared.load::<Learn>(place, LENGTH);
    }
}

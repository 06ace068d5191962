//! A seat at the lock: the right to take turns under one number.
ghost use Rattle.bp_turn.specs.Seat.{IsSound};

use crate::story::Story;
use crate::table::Place;
use std::marker::Model;

/// The right to take turns at one lock, under one number. It has no bytes and no lifetime, and may move to another
/// thread. Contracts see which lock it is of, and what it has seen and done there.
#[derive(Drop)]
pub struct TurnSeat<B: Story> {
    /// Its place at the table.
    pub(crate) place: Place<B>,
}

impl<B: Story> Model for TurnSeat<B> {
    ghost use Rattle.bp_turn.specs.Seat.{SeatState, seat_of, IsAtRest};

    ghost Value = { SeatState B.Fixed B.Entry };

    ghost view = { λ s. seat_of s.place.table_id s.place.me.0 };

    ghost invariant = { λ s. IsAtRest B.caller s.place.me };
}

impl<B: Story> TurnSeat<B> {
    /// Tells a caller what holds of every seat. It does nothing when the program runs.
    pub fn facts(&self)
        ensures { IsSound B.caller self.now }
    {
        let _ = &self.place;
    }
}

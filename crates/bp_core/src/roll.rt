//! The callers of a book: whether each has enrolled or left, and its booking calls in order.
ghost use Rattle.std.specs.Prelude.{
  ◌≡◌,
  ◌+◌,
  ◌-◌,
  ◌<◌,
  ◌≤◌,
  ◌++◌,
  ◌∷◌,
  [],
  Some,
  length,
  slice_get,
  slice_set,
  IfOk,
  replicate,
};
ghost use Rattle.bp_core.specs.Roll.{
  RollView,
  standing_of,
  is_new,
  is_present,
  is_gone,
  bookings_of,
  with_standing,
  with_bookings,
};

use bp_types::Memory;
use bp_types::limits::CALLERS;
use std::alloc::Global;
use std::marker::Model;

/// What a caller has done of enrolling and leaving.
#[derive(Clone, Copy, Debug, PartialEq, Eq)]
pub(crate) enum Standing {
    /// It has not enrolled.
    New,
    /// It has enrolled and not left.
    Present,
    /// It has left.
    Gone,
}

/// What became of a booking call.
#[derive(Clone, Copy, Debug, PartialEq, Eq)]
pub(crate) enum Fate {
    /// It was accepted, and is not given up.
    Held,
    /// It was not accepted.
    Refused,
    /// It was accepted, and given up later.
    GivenUp,
}

/// A booking call of a caller. There are at most 4,000 stays, and room for many bookings of each caller.
#[derive(Clone, Copy, Debug, PartialEq, Eq)]
pub(crate) struct Booking {
    pub(crate) stay: u16,
    pub(crate) fate: Fate,
}

/// The standing of each of the callers, and its booking calls in order.
#[derive(Drop)]
pub(crate) struct Roll {
    standings: Vec<Standing>,
    bookings: Vec<Vec<Booking>>,
    room: usize,
}

impl Model for Roll {
    ghost use Rattle.std.specs.Prelude.{◌≡◌, ◌≤◌, map, length, All, vec_capacity};
    ghost use Rattle.std.specs.declared.alloc.Global.{Global};
    ghost use Rattle.std.specs.declared.vec.Vec.{Vec};
    ghost use Rattle.bp_core.specs.declared.roll.Booking.{Booking};
    ghost use Rattle.bp_types.specs.declared.limits.TheConstants.{CALLERS};
    ghost use Rattle.bp_core.specs.Roll.{RollView};

    ghost Value = { RollView };

    ghost view = { λ r. record { standings = r.standings.items; bookings = map (λ (v : Vec Booking Global). v.items) r.bookings.items; room = r.room } };

    ghost invariant = { λ r. (length r.standings.items ≡ CALLERS) × (length r.bookings.items ≡ CALLERS) ×
        All (λ (v : Vec Booking Global). r.room ≤ vec_capacity v) r.bookings.items };
}

impl Roll {
    /// The callers before any has an entry, with room for so many bookings of each.
    pub(crate) fn new(alloc: Global, room: usize) -> Result<Roll, Memory>
        ensures { IfOk result (λ r. r ≡
            record { standings = replicate CALLERS Standing.New; bookings = replicate CALLERS []; room = room }) }
    {
        let mut standings = Vec::new(alloc);
        let mut bookings = Vec::new(alloc);
        for _ in 0..CALLERS {
            standings.push(Standing::New)?;
            bookings.push(Vec::with_capacity(alloc, room)?)?;
        }
        Ok(Roll {
            standings,
            bookings,
            room,
        })
    }

    /// Whether a caller has no entry yet.
    pub(crate) fn is_new(&self, caller: u32) -> bool
        requires { caller < CALLERS }
        ensures { result ≡ is_new (standing_of self.now caller) }
    {
        matches!(self.standings[caller as usize], Standing::New)
    }

    /// Whether a caller has enrolled and not left.
    pub(crate) fn is_present(&self, caller: u32) -> bool
        requires { caller < CALLERS }
        ensures { result ≡ is_present (standing_of self.now caller) }
    {
        matches!(self.standings[caller as usize], Standing::Present)
    }

    /// Whether a caller has left.
    pub(crate) fn is_gone(&self, caller: u32) -> bool
        requires { caller < CALLERS }
        ensures { result ≡ is_gone (standing_of self.now caller) }
    {
        matches!(self.standings[caller as usize], Standing::Gone)
    }

    /// Changes the standing of a caller.
    pub(crate) fn set_standing(&mut self, caller: u32, standing: Standing)
        requires { caller < CALLERS }
        ensures { self.new ≡ with_standing self.old caller standing }
    {
        self.standings[caller as usize] = standing;
    }

    /// The nth booking of a caller, counted from 1, if there is one.
    pub(crate) fn booking(&self, caller: u32, nth: u64) -> Option<Booking>
        requires caller { caller < CALLERS }
        requires from_one { 1 ≤ nth }
        ensures { result ≡ slice_get (bookings_of self.now caller) (nth - 1) }
    {
        let bookings = &self.bookings[caller as usize];
        if nth <= bookings.len() as u64 {
            Some(bookings[nth as usize - 1])
        } else {
            None
        }
    }

    /// Adds a booking of a caller.
    pub(crate) fn add(&mut self, caller: u32, booking: Booking)
        requires caller { caller < CALLERS }
        requires room { length (bookings_of self.old caller) < self.old.room }
        ensures { self.new ≡ with_bookings self.old caller (bookings_of self.old caller ++ booking ∷ []) }
    {
        let bookings = &mut self.bookings[caller as usize];
        bookings.push_reserved(booking);
    }

    /// Changes the nth booking of a caller, counted from 1.
    pub(crate) fn set_booking(&mut self, caller: u32, nth: u64, booking: Booking)
        requires caller { caller < CALLERS }
        requires from_one { 1 ≤ nth }
        requires within { nth ≤ length (bookings_of self.old caller) }
        ensures { self.new ≡ with_bookings self.old caller (slice_set (bookings_of self.old caller) (nth - 1) booking) }
    {
        let bookings = &mut self.bookings[caller as usize];
        bookings[nth as usize - 1] = booking;
    }
}

//! Tests: worked cases, and a hundred thousand calls beside two plain arrays.
ghost use Rattle.std.specs.Prelude.{◌≡◌, ℕ, ◌+◌, ◌<◌, ◌≤◌, true, length};
ghost use Rattle.bp_types.specs.Spans.{IsSpanWithin};
ghost use Rattle.bp_ledger.specs.Inventory.{HasSold};

use crate::{BelowSold, Ledger};
use bp_types::Span;
use std::test::Fail;

#[test]
fn a_night_is_not_resized_below_its_sold_rooms(rt: HostRuntime) -> Result<(), Fail> {
    let mut ledger = Ledger::new(rt.alloc(), &[5, 4], &[3, 0])?;
    assert_eq!(rt; ledger.resize(0, 2), Err(BelowSold { sold: 3 }));
    assert_eq!(rt; ledger.rooms(0), 5);
    assert_eq!(rt; ledger.resize(0, 3), Ok(()));
    assert_eq!(rt; ledger.rooms(0), 3);
    assert_eq!(rt; ledger.sold(0), 3);
    Ok(())
}

#[test]
fn the_first_full_night_of_a_span(rt: HostRuntime) -> Result<(), Fail> {
    let mut ledger = Ledger::new(rt.alloc(), &[2, 1, 2], &[0, 0, 1])?;
    let all = Span { from: 0, to: 3 };
    assert_eq!(rt; ledger.first_full(all, 1), None);
    assert_eq!(rt; ledger.first_full(all, 2), Some(1));
    assert_eq!(rt; ledger.first_full(Span { from: 2, to: 3 }, 2), Some(2));
    ledger.take(all, 1);
    assert_eq!(rt; ledger.first_full(all, 1), Some(1));
    ledger.release(Span { from: 1, to: 3 }, 1);
    assert_eq!(rt; ledger.first_full(all, 1), None);
    assert_eq!(rt; ledger.sold(0), 1);
    assert_eq!(rt; ledger.sold(2), 1);
    Ok(())
}

const NIGHTS: u32 = 24;

/// Rooms and sold rooms by night as two arrays, looked at and written night by night.
#[derive(Drop)]
struct Plain {
    rooms: [u64; 24],
    sold: [u64; 24],
}

impl Plain {
    fn first_full(&self, span: Span, units: u64) -> Option<u32>
        requires { span.to ≤ 24 }
    {
        for night in span.from..span.to {
            let place = night as usize;
            if self.rooms[place].saturating_sub(self.sold[place]) < units {
                return Some(night);
            }
        }
        None
    }

    fn take(&mut self, span: Span, units: u64)
        requires { span.to ≤ 24 }
    {
        for night in span.from..span.to {
            let place = night as usize;
            self.sold[place] = self.sold[place].wrapping_add(units);
        }
    }

    fn is_seen(&self, ledger: &Ledger) -> bool
        requires { length ledger.now.rooms ≡ 24 }
    {
        for night in 0..NIGHTS {
            let place = night as usize;
            if ledger.rooms(night) != self.rooms[place] || ledger.sold(night) != self.sold[place] {
                return false;
            }
        }
        true
    }
}

/// The next of a row of numbers that looks random, below a bound: a linear congruential generator, Knuth's constants.
fn below(state: &mut u64, bound: u64) -> u64
    requires { 0 < bound }
    ensures { result < bound }
{
    *state = state
        .wrapping_mul(6_364_136_223_846_793_005)
        .wrapping_add(1_442_695_040_888_963_407);
    (*state >> 33) % bound
}

fn some_span(state: &mut u64) -> Span
    ensures { IsSpanWithin 24 result }
{
    let from = below(state, 24) as u32;
    let to = from + 1 + below(state, u64::from(NIGHTS - from)) as u32;
    Span { from, to }
}

fn has_sold(ledger: &Ledger, span: Span, units: u64) -> bool
    requires { IsSpanWithin (length ledger.now.rooms) span }
    ensures { result ≡ true → HasSold ledger.now span units }
{
    for night in span.from..span.to {
        if ledger.sold(night) < units {
            return false;
        }
    }
    true
}

/// Both are asked for the first full night, and where there is none, the units are taken.
fn take_of_both(ledger: &mut Ledger, plain: &mut Plain, span: Span, units: u64) -> bool
    requires nights { length ledger.old.rooms ≡ 24 }
    requires span { IsSpanWithin 24 span }
    ensures { length ledger.new.rooms ≡ 24 }
{
    let expected = plain.first_full(span, units);
    match ledger.first_full(span, units) {
        Some(night) => Some(night) == expected,
        None => {
            ledger.take(span, units);
            plain.take(span, units);
            expected.is_none()
        }
    }
}

fn release_of_both(ledger: &mut Ledger, plain: &mut Plain, span: Span, units: u64)
    requires nights { length ledger.old.rooms ≡ 24 }
    requires span { IsSpanWithin 24 span }
    ensures { length ledger.new.rooms ≡ 24 }
{
    if has_sold(ledger, span, units) {
        ledger.release(span, units);
        plain.take(span, units.wrapping_neg());
    }
}

fn resize_of_both(ledger: &mut Ledger, plain: &mut Plain, night: u32, rooms: u64)
    requires nights { length ledger.old.rooms ≡ 24 }
    requires night { night < 24 }
    ensures { length ledger.new.rooms ≡ 24 }
{
    match ledger.resize(night, rooms) {
        Ok(()) => plain.rooms[night as usize] = rooms,
        Err(_) => {}
    }
}

/// A call of both with numbers that look random, and whether they agree after it.
fn call_of_both(ledger: &mut Ledger, plain: &mut Plain, state: &mut u64) -> bool
    requires { length ledger.old.rooms ≡ 24 }
    ensures { length ledger.new.rooms ≡ 24 }
{
    let span = some_span(state);
    let units = below(state, 6);
    let agrees = match below(state, 5) {
        0 | 1 => take_of_both(ledger, plain, span, units),
        2 | 3 => {
            release_of_both(ledger, plain, span, units);
            true
        }
        _ => {
            let rooms = below(state, 30);
            resize_of_both(ledger, plain, span.from, rooms);
            true
        }
    };
    agrees && plain.is_seen(ledger)
}

#[test]
fn a_hundred_thousand_calls_beside_two_arrays(rt: HostRuntime) -> Result<(), Fail> {
    let mut plain = Plain {
        rooms: [20; 24],
        sold: [3; 24],
    };
    let mut ledger = Ledger::new(rt.alloc(), &plain.rooms, &plain.sold)?;
    let mut state = 1;
    for call in 0..100_000_u32 {
        assert!(rt;
            call_of_both(&mut ledger, &mut plain, &mut state),
            "call {call}"
        );
    }
    Ok(())
}

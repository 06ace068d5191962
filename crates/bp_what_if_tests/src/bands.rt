//! The bands of every small instance, against a plain search over all allocations.
//!
//! An instance is small that has three nights and stays at most, rates up to 3 and forecasts up to 2.
ghost use Rattle.std.specs.Prelude.{◌≡◌, ◌≤◌, All, IfOk};
ghost use Rattle.bp_types.specs.declared.limits.TheConstants.{MOST_ROOMS};

use bp_sheets::{Band, bands};
use bp_types::{Instance, Span, Stay};
use std::alloc::Global;
use std::process::Abort;
use std::test::Fail;

/// One of the 27 allocations of three stays, up to two units of each.
fn allocation(number: u64) -> [u64; 3] {
    [number % 3, number / 3 % 3, number / 9 % 3]
}

/// The rooms of a night that an allocation takes.
fn taken(stays: &[Stay], sell: [u64; 3], night: usize) -> u64 {
    let mut sum = 0u64;
    for (stay, units) in stays.iter().zip(sell.iter()) {
        if stay.span.from as usize <= night && night < stay.span.to as usize {
            sum = sum.saturating_add(*units);
        }
    }
    sum
}

/// Whether an allocation sells no stay above its forecast.
fn is_asked_for(stays: &[Stay], sell: [u64; 3]) -> bool {
    for (stay, units) in stays.iter().zip(sell.iter()) {
        if stay.forecast < *units {
            return false;
        }
    }
    true
}

/// The revenue of an allocation.
fn revenue(stays: &[Stay], sell: [u64; 3]) -> u64 {
    let mut sum = 0u64;
    for (stay, units) in stays.iter().zip(sell.iter()) {
        sum = sum.saturating_add(stay.rate.saturating_mul(*units));
    }
    sum
}

/// The rooms of each night, but that one night has so many.
#[derive(Clone, Copy)]
struct House<'a> {
    rooms: &'a [u64],
    night: usize,
    units: u64,
}

impl House<'_> {
    /// Whether an allocation takes no more rooms of a night than there are.
    fn holds(&self, stays: &[Stay], sell: [u64; 3]) -> bool {
        for (night, rooms) in self.rooms.iter().enumerate() {
            let rooms = if night == self.night {
                self.units
            } else {
                *rooms
            };
            if rooms < taken(stays, sell, night) {
                return false;
            }
        }
        true
    }

    /// The greatest revenue of an allocation that is asked for and that the house holds.
    fn optimum(&self, stays: &[Stay]) -> u64 {
        let mut best = 0;
        for number in 0..27u64 {
            let sell = allocation(number);
            if is_asked_for(stays, sell) && self.holds(stays, sell) {
                best = best.max(revenue(stays, sell));
            }
        }
        best
    }
}

/// The gain and the loss of a night that has so many rooms, from three searches.
fn margins(rooms: &[u64], stays: &[Stay], night: usize, units: u64) -> (u128, Option<u128>) {
    let house = House {
        rooms,
        night,
        units,
    };
    let optimum = u128::from(house.optimum(stays));
    let more = House {
        units: units.saturating_add(1),
        ..house
    };
    let gain = u128::from(more.optimum(stays)).saturating_sub(optimum);
    if units == 0 {
        return (gain, None);
    }
    let fewer = House {
        units: units - 1,
        ..house
    };
    let loss = optimum.saturating_sub(u128::from(fewer.optimum(stays)));
    (gain, Some(loss))
}

/// The instance of these rooms by night and these stays.
fn instance_of(alloc: Global, rooms: &[u64], stays: &[Stay]) -> Result<Instance, Fail>
    ensures { IfOk result (λ p. p.rooms ≡ rooms.now) }
{
    let rooms = Vec::from_slice(alloc, rooms)?;
    let stays = Vec::from_slice(alloc, stays)?;
    let instance = Instance::new(rooms, stays)?;
    Ok(instance)
}

/// Each night has the gain and the loss of the plain search, and a price between them.
fn expect_bands<R: Abort>(rt: &R, alloc: Global, rooms: &[u64], stays: &[Stay]) -> Result<(), Fail>
    requires { All (λ r. r ≤ MOST_ROOMS) rooms.now }
{
    let instance = instance_of(alloc, rooms, stays)?;
    let found = bands(alloc, &instance)?;
    assert_eq!(rt; found.len(), rooms.len());
    for (night, (units, band)) in rooms.iter().zip(found.iter()).enumerate() {
        let Band { price, gain, loss } = *band;
        let price = u128::from(price);
        let (least, most) = margins(rooms, stays, night, *units);
        assert_eq!(rt; gain, Some(least), "night {night} of {rooms:?} {stays:?}");
        assert_eq!(rt; loss, most, "night {night} of {rooms:?} {stays:?}");
        assert!(rt;
            least <= price && price <= most.unwrap_or(price),
            "night {night} of {rooms:?} {stays:?}"
        );
    }
    Ok(())
}

/// The rooms of a night that may have none.
fn up_to_two(number: usize) -> u64
    ensures { result ≤ MOST_ROOMS }
{
    (number % 3) as u64
}

/// The rooms of a night that has some.
fn one_or_two(number: usize) -> u64
    ensures { result ≤ MOST_ROOMS }
{
    (1 + number % 2) as u64
}

/// The rates of the stays.
const RATES: [u64; 2] = [1, 3];

/// One of the eighteen stays of two nights, whose forecast may be 0.
fn stay_of_two(number: usize) -> Stay {
    let (from, to) = [(0, 1), (1, 2), (0, 2)][number % 3];
    Stay {
        span: Span { from, to },
        rate: RATES[number / 3 % 2],
        forecast: (number / 6 % 3) as u64,
    }
}

#[test]
fn every_instance_of_two_nights_and_two_stays(rt: HostRuntime) -> Result<(), Fail> {
    for number in 0..9 * 18 * 18usize {
        let rooms = [up_to_two(number), up_to_two(number / 3)];
        let stays = [stay_of_two(number / 9 % 18), stay_of_two(number / 162)];
        expect_bands(&rt, rt.alloc(), &rooms, &stays)?;
    }
    Ok(())
}

/// One of the 24 stays of three nights.
fn stay_of_three(number: usize) -> Stay {
    let (from, to) = [(0, 1), (1, 2), (2, 3), (0, 2), (1, 3), (0, 3)][number % 6];
    Stay {
        span: Span { from, to },
        rate: RATES[number / 6 % 2],
        forecast: (1 + number / 12 % 2) as u64,
    }
}

/// Three nights with one room or two each, and each choice of three of the 24 stays, in one order.
#[test]
fn every_instance_of_three_nights_and_three_stays(rt: HostRuntime) -> Result<(), Fail> {
    for number in 0..8 * 24 * 24 * 24usize {
        let places = [number / 8 % 24, number / 192 % 24, number / 4608];
        if places[0] < places[1] || places[1] < places[2] {
            continue;
        }
        let rooms = [
            one_or_two(number),
            one_or_two(number / 2),
            one_or_two(number / 4),
        ];
        let stays = [
            stay_of_three(places[0]),
            stay_of_three(places[1]),
            stay_of_three(places[2]),
        ];
        expect_bands(&rt, rt.alloc(), &rooms, &stays)?;
    }
    Ok(())
}

//! Tests: every limit at and one past it, the sums of the program beside their definitions, changes and copies.
ghost use Rattle.std.specs.Prelude.{◌≡◌, length, IfOk};

use super::*;
use std::alloc::Global;
use std::process::Abort;
use std::test::Fail;

/// From and to, rate and forecast.
type Row = (u32, u32, u64, u64);

fn stay(row: Row) -> Stay {
    Stay {
        span: Span {
            from: row.0,
            to: row.1,
        },
        rate: row.2,
        forecast: row.3,
    }
}

fn stays(alloc: Global, rows: &[Row]) -> Result<Vec<Stay>, Memory> {
    let mut stays = Vec::new(alloc);
    for row in rows {
        stays.push(stay(*row))?;
    }
    Ok(stays)
}

fn instance(
    alloc: Global,
    rooms: &[u64],
    rows: &[Row],
) -> Result<Result<Instance, InstanceError>, Memory> {
    let stays = stays(alloc, rows)?;
    Ok(Instance::new(Vec::from_slice(alloc, rooms)?, stays))
}

const ROOMS: [u64; 3] = [2, 1, 2];

const STAYS: [Row; 4] = [(0, 2, 100, 3), (1, 3, 150, 1), (0, 1, 60, 1), (2, 3, 40, 5)];

fn three_nights(rt: &impl Abort, alloc: Global) -> Result<Instance, Fail>
    ensures nights { IfOk result (λ p. length p.rooms ≡ 3) }
    ensures stays { IfOk result (λ p. length p.stays ≡ 4) }
{
    let instance = instance(alloc, &ROOMS, &STAYS)??;
    assert!(rt; instance.nights() == 3);
    assert!(rt; instance.stays() == 4);
    Ok(instance)
}

/// What is refused of these rooms and stays.
fn refused(alloc: Global, rooms: &[u64], rows: &[Row]) -> Result<Option<InstanceError>, Memory> {
    Ok(instance(alloc, rooms, rows)?.err())
}

const WITHIN: Row = (0, 2, 1, 0);

const REFUSALS: [(&str, &[u64], &[Row], Option<InstanceError>); 13] = [
    ("no night", &[], &[], Some(InstanceError::NoNights)),
    ("most rooms", &[1_000_000], &[], None),
    (
        "rooms",
        &[0, 1_000_001, 1_000_001],
        &[],
        Some(InstanceError::Rooms { night: 1 }),
    ),
    ("last night", &[1, 1], &[WITHIN], None),
    (
        "past the last",
        &[1, 1],
        &[WITHIN, (1, 3, 1, 0)],
        Some(InstanceError::SpanOut { stay: 1 }),
    ),
    (
        "empty",
        &[1, 1],
        &[(1, 1, 1, 0)],
        Some(InstanceError::SpanOut { stay: 0 }),
    ),
    (
        "backward",
        &[1, 1],
        &[(1, 0, 1, 0)],
        Some(InstanceError::SpanOut { stay: 0 }),
    ),
    (
        "least and most",
        &[1],
        &[(0, 1, 1, 0), (0, 1, 1_000_000_000, 1_000_000)],
        None,
    ),
    (
        "no rate",
        &[1, 1],
        &[WITHIN, WITHIN, (0, 1, 0, 1)],
        Some(InstanceError::Rate { stay: 2 }),
    ),
    (
        "great rate",
        &[1],
        &[(0, 1, 1_000_000_001, 1)],
        Some(InstanceError::Rate { stay: 0 }),
    ),
    (
        "great forecast",
        &[1],
        &[(0, 1, 1, 1_000_001)],
        Some(InstanceError::Forecast { stay: 0 }),
    ),
    (
        "rooms before spans",
        &[1_000_001],
        &[(0, 9, 0, 0)],
        Some(InstanceError::Rooms { night: 0 }),
    ),
    (
        "spans before rates",
        &[1],
        &[(0, 1, 0, 0), (0, 2, 1, 0)],
        Some(InstanceError::SpanOut { stay: 1 }),
    ),
];

#[test]
fn each_limit_is_refused_at_its_first_place(rt: HostRuntime) -> Result<(), Fail> {
    for (name, rooms, stays, want) in &REFUSALS {
        let got = refused(rt.alloc(), rooms, stays)?;
        assert!(rt; got == *want, "{name}");
    }
    Ok(())
}

#[test]
fn there_are_400_nights_and_4000_stays_at_most(rt: HostRuntime) -> Result<(), Fail> {
    let alloc = rt.alloc();
    assert!(rt; refused(alloc, &[1; 400], &[WITHIN; 4000])?.is_none());
    assert!(rt; refused(alloc, &[1; 401], &[])? == Some(InstanceError::TooManyNights));
    assert!(rt; refused(alloc, &[1, 1], &[WITHIN; 4001])? == Some(InstanceError::TooManyStays));
    Ok(())
}

/// Changes to wait for, entries, publications and unit.
type Bounds = (u64, u64, u64, u64);

const LEAST: Bounds = (1, 1, 1, 1);

const MOST: Bounds = (100_000, 200_000, 1_000, 100);

const NO_BOUNDS: Bounds = (0, 0, 0, 0);

fn house(
    alloc: Global,
    rooms: &[u64],
    sold: &[u64],
    rows: &[Row],
    bounds: Bounds,
) -> Result<Result<House, HouseError>, Memory> {
    let limits = Limits {
        stale_after: bounds.0,
        entries: bounds.1,
        publications: bounds.2,
        unit: bounds.3,
    };
    let stays = stays(alloc, rows)?;
    let rooms = Vec::from_slice(alloc, rooms)?;
    Ok(House::new(rooms, Vec::from_slice(alloc, sold)?, stays, limits))
}

/// Rooms and rooms sold of houses whose bounds are broken too.
const ROOMS_SOLD: [(&[u64], &[u64], HouseError); 7] = [
    (&[], &[1], HouseError::Instance(InstanceError::NoNights)),
    (
        &[1, 10_001, 10_001],
        &[],
        HouseError::Instance(InstanceError::Rooms { night: 1 }),
    ),
    (&[10_000, 1], &[10_001], HouseError::SoldLength),
    (&[10_000, 1], &[0, 0, 0], HouseError::SoldLength),
    (&[2, 1, 1], &[2, 2, 3], HouseError::Sold { night: 1 }),
    (&[2, 1, 0], &[2, 1, 1], HouseError::Sold { night: 2 }),
    (&[10_000, 0], &[10_000, 0], HouseError::StaleAfter),
];

const BOUNDS: [(Bounds, Option<HouseError>); 13] = [
    (LEAST, None),
    (MOST, None),
    (NO_BOUNDS, Some(HouseError::StaleAfter)),
    ((100_001, 0, 0, 0), Some(HouseError::StaleAfter)),
    ((1, 0, 0, 0), Some(HouseError::Entries)),
    ((1, 200_001, 0, 0), Some(HouseError::Entries)),
    ((1, 1, 0, 0), Some(HouseError::Publications)),
    ((1, 1, 1_001, 0), Some(HouseError::Publications)),
    ((1, 1, 1, 0), Some(HouseError::Unit)),
    ((1, 1, 1, 2), Some(HouseError::Unit)),
    ((1, 1, 1, 10), Some(HouseError::Unit)),
    ((1, 1, 1, 99), Some(HouseError::Unit)),
    ((1, 1, 1, 101), Some(HouseError::Unit)),
];

#[test]
fn each_limit_of_a_house_is_refused_in_its_order(rt: HostRuntime) -> Result<(), Fail> {
    let alloc = rt.alloc();
    let past = house(alloc, &[1], &[2, 2], &[(0, 2, 1, 0)], NO_BOUNDS)?.err();
    let want = InstanceError::SpanOut { stay: 0 };
    assert!(rt; past == Some(HouseError::Instance(want)));
    for (rooms, sold, want) in &ROOMS_SOLD {
        let got = house(alloc, rooms, sold, &[], NO_BOUNDS)?.err();
        assert!(rt; got == Some(*want), "{want}");
    }
    for (bounds, want) in &BOUNDS {
        let got = house(alloc, &[1], &[1], &[], *bounds)?.err();
        assert!(rt; got == *want, "{bounds:?}");
    }
    Ok(())
}

#[test]
fn a_house_opens_in_hundredths_with_the_rooms_left(rt: HostRuntime) -> Result<(), Fail> {
    let alloc = rt.alloc();
    let house = house(alloc, &ROOMS, &[1, 1, 0], &STAYS, MOST)??;
    let instance = house.instance(alloc)?;
    assert!(rt; instance.nights() == 3);
    assert!(rt; instance.stays() == 4);
    assert_eq!(rt; instance.rooms(0), 100);
    assert_eq!(rt; instance.rooms(1), 0);
    assert_eq!(rt; instance.rooms(2), 200);
    assert!(rt; instance.stay(0) == stay(STAYS[0]));
    assert!(rt; instance.stay(1) == stay(STAYS[1]));
    assert!(rt; instance.stay(2) == stay(STAYS[2]));
    assert!(rt; instance.stay(3) == stay(STAYS[3]));
    Ok(())
}

/// The price of a stay as it is defined: every night is asked.
fn price_night_by_night(prices: &[u64; 3], span: Span) -> u128 {
    let mut sum: u128 = 0;
    for (night, price) in (0..3).zip(prices.iter()) {
        if span.covers(night) {
            sum = sum.saturating_add(u128::from(*price));
        }
    }
    sum
}

/// The dual value as it is defined.
fn bound_as_defined(prices: &[u64; 3]) -> u128 {
    let mut sum: u128 = 0;
    for (rooms, price) in ROOMS.iter().zip(prices.iter()) {
        sum = sum.saturating_add(u128::from(*rooms).saturating_mul(u128::from(*price)));
    }
    for row in &STAYS {
        let stay = stay(*row);
        let over = u128::from(stay.rate).saturating_sub(price_night_by_night(prices, stay.span));
        sum = sum.saturating_add(u128::from(stay.forecast).saturating_mul(over));
    }
    sum
}

const PRICES: [([u64; 3], u128); 4] = [
    ([0, 100, 40], 250),
    ([0, 100, 60], 280),
    ([0, 0, 0], 710),
    ([u64::MAX, 0, 0], 36893488147419103580),
];

#[test]
fn the_dual_value_is_the_sum_that_defines_it(rt: HostRuntime) -> Result<(), Fail> {
    let instance = three_nights(&rt, rt.alloc())?;
    for (prices, want) in &PRICES {
        assert_eq!(rt; instance.bound_of(prices), *want);
        assert_eq!(rt; bound_as_defined(prices), *want);
    }
    Ok(())
}

#[test]
fn an_allocation_loads_its_nights_and_is_worth_its_rates(rt: HostRuntime) -> Result<(), Fail> {
    let instance = three_nights(&rt, rt.alloc())?;
    let sell = [1, 1, 0, 3];
    assert_eq!(rt; instance.worth(&sell), 370);
    assert_eq!(rt; instance.load(&sell, 0), 1);
    assert_eq!(rt; instance.load(&sell, 1), 2);
    assert_eq!(rt; instance.load(&sell, 2), 4);
    Ok(())
}

#[test]
fn a_change_is_made_in_the_copy_alone(rt: HostRuntime) -> Result<(), Fail> {
    let instance = three_nights(&rt, rt.alloc())?;
    let mut cut = instance.copy(rt.alloc())?;
    cut.apply(Change::Demand { stay: 1, value: 0 });
    let mut dearer = instance.copy(rt.alloc())?;
    dearer.apply(Change::Rate {
        stay: 0,
        value: 200,
    });
    assert!(rt; cut.stay(1) == stay((1, 3, 150, 0)));
    assert!(rt; cut.stay(0) == stay(STAYS[0]));
    assert!(rt; dearer.stay(0) == stay((0, 2, 200, 3)));
    assert!(rt; instance.stay(0) == stay(STAYS[0]));
    assert!(rt; instance.stay(1) == stay(STAYS[1]));
    Ok(())
}

#[test]
fn rooms_are_put_on_each_night_of_a_span(rt: HostRuntime) -> Result<(), Fail> {
    let mut instance = three_nights(&rt, rt.alloc())?;
    assert!(rt; instance.rooms(1) == 1);
    assert!(rt; instance.rooms(2) == 2);
    instance.apply(Change::Rooms {
        span: Span { from: 1, to: 3 },
        up: true,
        units: 5,
    });
    assert_eq!(rt; instance.rooms(0), 2);
    assert_eq!(rt; instance.rooms(1), 6);
    assert_eq!(rt; instance.rooms(2), 7);
    Ok(())
}

#[test]
fn a_certificate_is_copied_whole(rt: HostRuntime) -> Result<(), Fail> {
    let certificate = Certificate {
        value: 250,
        sell: Vec::from_slice(rt.alloc(), &[0, 1, 1, 1])?,
        prices: Vec::from_slice(rt.alloc(), &[0, 100, 40])?,
    };
    let copy = certificate.copy(rt.alloc())?;
    assert_eq!(rt; copy.value, 250);
    assert!(rt; copy.sell.as_slice() == [0, 1, 1, 1].as_slice());
    assert!(rt; copy.prices.as_slice() == [0, 100, 40].as_slice());
    Ok(())
}

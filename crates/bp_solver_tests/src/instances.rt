//! The instances of the tests, and what is expected of them.
use bp_flow::Solver;
use bp_types::{Certificate, Change, Instance, Memory, Span, Stay, Steps};
use std::alloc::Global;
use std::process::Abort;
use std::sync::ledger::Ledger;
use std::test::Fail;

/// Arrival, departure, rate and forecast of a stay.
pub type Row = (u32, u32, u64, u64);

/// Four stays on three nights, of which the first two both want the second night.
pub const FOUR_STAYS: [Row; 4] = [(0, 2, 100, 3), (1, 3, 150, 1), (0, 1, 60, 1), (2, 3, 40, 5)];

/// A change of the instance with four stays, and the value, sales and prices after it, with the searches that a restart
/// may count.
pub const RESTARTS: [(Change, u128, [u64; 4], [u64; 3], u128); 3] = [
    (
        Change::Rooms {
            span: Span { from: 1, to: 2 },
            up: false,
            units: 1,
        },
        140,
        [0, 0, 1, 2],
        [0, 110, 40],
        2,
    ),
    (
        Change::Demand { stay: 1, value: 0 },
        240,
        [1, 0, 1, 2],
        [60, 40, 40],
        2,
    ),
    (
        Change::Rate {
            stay: 0,
            value: 200,
        },
        340,
        [1, 0, 1, 2],
        [60, 140, 40],
        7,
    ),
];

/// The stays of these rows.
fn stays_of(alloc: Global, rows: &[Row]) -> Result<Vec<Stay>, Memory> {
    let mut stays = Vec::new(alloc);
    for (from, to, rate, forecast) in rows {
        stays.push(Stay {
            span: Span {
                from: *from,
                to: *to,
            },
            rate: *rate,
            forecast: *forecast,
        })?;
    }
    Ok(stays)
}

/// The instance of these rooms by night and these stays.
pub fn instance_of(alloc: Global, rooms: &[u64], rows: &[Row]) -> Result<Instance, Fail> {
    let rooms = Vec::from_slice(alloc, rooms)?;
    let stays = stays_of(alloc, rows)?;
    let instance = Instance::new(rooms, stays)?;
    Ok(instance)
}

/// Three nights with two rooms, one room and two rooms, and the four stays.
pub fn three_nights(alloc: Global) -> Result<Instance, Fail> {
    instance_of(alloc, &[2, 1, 2], &FOUR_STAYS)
}

/// The certificate of a cold solve.
pub fn cold_certificate<L: Ledger>(
    alloc: Global,
    instance: &Instance,
    steps: &mut Steps<L>,
) -> Result<Certificate, Memory> {
    let solver = Solver::cold(alloc, instance, steps)?;
    solver.certificate(alloc)
}

/// A certificate is this one, in value, allocation and prices.
pub fn expect_certificate<R: Abort>(
    rt: &R,
    found: &Certificate,
    value: u128,
    sell: &[u64],
    prices: &[u64],
) {
    assert_eq!(rt; found.value, value);
    assert!(rt; found.sell.as_slice() == sell);
    assert!(rt; found.prices.as_slice() == prices);
}

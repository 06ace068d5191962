//! A day at the Lindenhof.
use crate::day::a_day;
use bp_core::Act::{self, Do, Enrol, Leave, Publish};
use bp_core::Entry;
use bp_core::Reply::{self, Accepted, Cancelled, Done, Vector};
use bp_fixtures::{Claimed, certificate};
use bp_hotelfile::read_hotel;
use bp_stayfile::{read_bookings, read_forecast, read_stays};
use bp_types::Command::{Book, Cancel};
use bp_types::House;
use std::alloc::Global;
use std::test::Fail;

/// The hotel file of the example.
const HOTEL: &str =
    "# Hotel Lindenhof, July 2025: 24 rooms, of which six are being painted in the first week.
name = \"Hotel Lindenhof\"
first_night = \"2025-07-01\"
nights = 31
rooms = 24
stale_after = 20
unit = 100

[[night]]
date = \"2025-07-01\"
rooms = 18

[[night]]
date = \"2025-07-02\"
rooms = 18

[[night]]
date = \"2025-07-03\"
rooms = 18

# The house is closed on the evening of the town's fire drill.
[[night]]
date = \"2025-07-16\"
rooms = 0
";

/// Its stays file.
const STAYS: &str = "code,arrival,nights,rate,remark
JUL01-1,2025-07-01,1,8900,
JUL01-3,2025-07-01,3,24900,
JUL04-2,2025-07-04,2,21800,first weekend
JUL07-5,2025-07-07,5,41500,trade fair
JUL11-2,2025-07-11,2,22900,\"wedding, hall booked\"
JUL12-1,2025-07-12,1,12900,\"wedding, hall booked\"
JUL14-2,2025-07-14,2,17000,
JUL17-4,2025-07-17,4,35600,
JUL18-2,2025-07-18,2,21800,
JUL21-7,2025-07-21,7,55300,holiday week
JUL25-3,2025-07-25,3,31500,
JUL30-2,2025-07-30,2,18400,
";

/// Its forecast file.
const FORECAST: &str = "code,count
JUL01-1,650
JUL01-3,275
JUL04-2,1120
JUL07-5,1480
JUL11-2,900
JUL12-1,1400
JUL14-2,325
JUL17-4,810
JUL18-2,1050
JUL21-7,1225
JUL25-3,760
JUL30-2,410
";

/// Its bookings file.
const BOOKINGS: &str = "code,count
JUL04-2,3
JUL07-5,9
JUL11-2,6
JUL12-1,4
JUL21-7,5
";

/// The 31 prices: the trade fair is worth its rate on its last night, the holiday week on its fifth night.
const PRICES: [u64; 31] = [
    0, 0, 0, 0, 0, 0, 0, 0, 0, 0, 41_500, 0, 0, 0, 0, 0, 0, 0, 0, 0, 0, 0, 0, 0, 31_500, 0, 0, 0,
    0, 0, 0,
];

/// In hundredths of a stay, as the forecast: all that is asked for, but for three stays.
const MORNING: Claimed<'static> = (
    246_258_500,
    &[650, 275, 1120, 900, 0, 1400, 325, 810, 1050, 1225, 675, 410],
    &PRICES,
);

/// One wedding guest fewer is to come.
const EVENING: Claimed<'static> = (
    244_968_500,
    &[650, 275, 1120, 900, 0, 1300, 325, 810, 1050, 1225, 675, 410],
    &PRICES,
);

/// The house of the four files.
fn lindenhof(alloc: Global) -> Result<House, Fail> {
    let hotel = read_hotel(alloc, HOTEL.as_bytes())?;
    let mut stays = read_stays(alloc, &hotel, STAYS.as_bytes())?;
    read_forecast(alloc, &mut stays, FORECAST.as_bytes())?;
    let sold = read_bookings(alloc, &hotel, &stays, BOOKINGS.as_bytes())?;
    let rooms = Vec::from_slice(alloc, hotel.rooms_by_night())?;
    let list = Vec::from_slice(alloc, stays.as_slice())?;
    Ok(House::new(rooms, sold.into_vec(), list, hotel.limits())?)
}

/// What the closed book has: caller, act and reply at each place.
const ENTRIES: [(u32, Act, Reply); 9] = [
    (0, Publish { position: 0 }, Vector { number: 0 }),
    (1, Enrol, Done),
    (2, Enrol, Done),
    // A tie: the rate is the price of the night that the fair is short of.
    (
        1,
        Do(Book { stay: 3 }),
        Accepted {
            vector: 0,
            sum: 41_500,
        },
    ),
    (2, Do(Book { stay: 5 }), Accepted { vector: 0, sum: 0 }),
    (1, Do(Cancel { nth: 1 }), Cancelled),
    (2, Publish { position: 6 }, Vector { number: 1 }),
    (1, Leave, Done),
    (2, Leave, Done),
];

#[test]
fn two_callers_at_the_lindenhof(rt: HostRuntime) -> Result<(), Fail> {
    let alloc = rt.alloc();
    let house = lindenhof(alloc)?;
    let morning = certificate(alloc, MORNING)?;
    let evening = certificate(alloc, EVENING)?;
    let book = a_day(&rt, alloc, house, morning, evening)?;
    assert_eq!(rt; book.length(), 9);
    for place in 0..ENTRIES.len() {
        let (caller, act, reply) = ENTRIES[place];
        let entry = Some(Entry { caller, act, reply });
        assert_eq!(rt; book.entry(place as u64), entry, "at place {place}");
    }
    Ok(())
}

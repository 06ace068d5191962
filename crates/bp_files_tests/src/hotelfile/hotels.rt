//! Hotels that are read: their nights, dates, rooms and limits.
use bp_hotelfile::{DateError, Hotel, read_hotel};
use bp_types::Limits;
use std::process::Abort;
use std::test::Fail;

#[test]
fn a_hotel_of_three_nights(rt: HostRuntime) -> Result<(), Fail> {
    let text =
        "name = \"A\"\nfirst_night = \"2025-02-27\"\nnights = 3\nrooms = 2\nstale_after = 2\n\
        town = \"Ulm\"\n[[night]]\ndate = \"2025-02-28\"\nrooms = 0\nremark = \"painting\"\n";
    let hotel = read_hotel(rt.alloc(), text.as_bytes())?;
    assert_eq!(rt; hotel.nights(), 3);
    for (night, rooms, date) in [
        (0, 2, b"2025-02-27"),
        (1, 0, b"2025-02-28"),
        (2, 2, b"2025-03-01"),
    ] {
        assert_eq!(rt; hotel.rooms(night), rooms);
        assert_eq!(rt; hotel.date_of(night), *date);
    }
    has_limits(&rt, &hotel, [2, 200_000, 1_000, 1]);
    names_its_nights(&rt, &hotel);
    Ok(())
}

/// Wants these limits.
fn has_limits(rt: &impl Abort, hotel: &Hotel, limits: [u64; 4]) {
    let [stale_after, entries, publications, unit] = limits;
    let expected = Limits {
        stale_after,
        entries,
        publications,
        unit,
    };
    assert_eq!(rt; hotel.limits(), expected);
}

/// Wants the nights of dates within the hotel, beside it, and of no dates.
fn names_its_nights(rt: &impl Abort, hotel: &Hotel) {
    let cases = [
        ("2025-02-27", Ok(0)),
        ("2025-03-01", Ok(2)),
        ("2025-02-26", Err(DateError::Outside)),
        ("2025-03-02", Err(DateError::Outside)),
        ("2025-02-29", Err(DateError::NotADate)),
        (" 2025-02-27", Err(DateError::NotADate)),
        ("", Err(DateError::NotADate)),
    ];
    for (text, night) in cases {
        assert_eq!(rt; hotel.night_of(text), night, "{text}");
    }
}

#[test]
fn the_least_hotel_and_the_greatest(rt: HostRuntime) -> Result<(), Fail> {
    for (text, last, night, limits) in [
        (
            "name = \"\"\r\nfirst_night = \"0001-01-01\"\r\nnights = 1\r\nrooms = 0\r\nstale_after = 1\r\n\
            entries = 1\r\npublications = 1\r\nunit = 1\r\n",
            "0001-01-01",
            0_u32,
            [1, 1, 1, 1],
        ),
        (
            "name = \"\"\nfirst_night = \"9998-11-26\"\nnights = 400\nrooms = 10000\nstale_after = 100000\n\
            entries = 200000\npublications = 1000\nunit = 100\nnight = []\n",
            "9999-12-30",
            399,
            [100_000, 200_000, 1_000, 100],
        ),
    ] {
        let hotel = read_hotel(rt.alloc(), text.as_bytes())?;
        assert_eq!(rt; hotel.nights(), night.wrapping_add(1));
        assert_eq!(rt; hotel.night_of(last), Ok(night));
        has_limits(&rt, &hotel, limits);
    }
    Ok(())
}

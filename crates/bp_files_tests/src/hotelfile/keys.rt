//! Keys that are absent, of another kind, or out of range.
use super::{refusal, refused};
use crate::three_nights::TWO_ROOMS;
use bp_hotelfile::{HotelRefusal, Key, read_hotel};
use std::test::Fail;

/// The first two keys.
const NAME_AND_NIGHT: &str = "name = \"A\"\nfirst_night = \"2025-07-01\"\n";

#[test]
fn bytes_that_are_no_toml(rt: HostRuntime) {
    for bytes in [
        b"\x1f\x8b\x08".as_slice(),
        b"\xff".as_slice(),
        b"name = \"\xc3\x28\"\n".as_slice(),
        b"name = \n".as_slice(),
        b"name = \"A\"\nname = \"B\"\n".as_slice(),
    ] {
        assert_eq!(rt;
            refused(read_hotel(rt.alloc(), bytes)),
            Some(HotelRefusal::NotToml)
        );
    }
}

#[test]
fn keys_that_must_be_there(rt: HostRuntime) -> Result<(), Fail> {
    for (lines, more, key) in [
        ("", "", Key::Name),
        ("name = \"A\"\n", "nights = 0\n", Key::FirstNight),
        (NAME_AND_NIGHT, "rooms = 2\n", Key::Nights),
        (NAME_AND_NIGHT, "nights = 3\nunit = 7\n", Key::Rooms),
        (
            "name = \"A\"\nfirst_night = \"9999-12-29\"\n",
            "nights = 2\n",
            Key::Rooms,
        ),
    ] {
        assert_eq!(rt;
            refusal(rt.alloc(), lines, more)?,
            Some(HotelRefusal::Missing { key }),
            "{more}"
        );
    }
    Ok(())
}

#[test]
fn needed_keys_of_another_kind(rt: HostRuntime) -> Result<(), Fail> {
    for (lines, more, key) in [
        ("", "name = 3\n", Key::Name),
        (
            "name = \"A\"\n",
            "first_night = 2025-07-01\n",
            Key::FirstNight,
        ),
        (NAME_AND_NIGHT, "nights = 3.0\n", Key::Nights),
        (NAME_AND_NIGHT, "nights = 3\nrooms = \"2\"\n", Key::Rooms),
    ] {
        assert_eq!(rt;
            refusal(rt.alloc(), lines, more)?,
            Some(HotelRefusal::Kind { key }),
            "{more}"
        );
    }
    Ok(())
}

#[test]
fn needed_keys_out_of_range(rt: HostRuntime) -> Result<(), Fail> {
    for (lines, more, key) in [
        (NAME_AND_NIGHT, "nights = 0\n", Key::Nights),
        (NAME_AND_NIGHT, "nights = 401\n", Key::Nights),
        (
            "name = \"A\"\nfirst_night = \"9999-12-31\"\n",
            "nights = 401\n",
            Key::Nights,
        ),
        (
            "name = \"A\"\nfirst_night = \"9999-12-29\"\n",
            "nights = 3\n",
            Key::FirstNight,
        ),
        (NAME_AND_NIGHT, "nights = 3\nrooms = -1\n", Key::Rooms),
        (NAME_AND_NIGHT, "nights = 3\nrooms = 10001\n", Key::Rooms),
    ] {
        assert_eq!(rt;
            refusal(rt.alloc(), lines, more)?,
            Some(HotelRefusal::Range { key }),
            "{more}"
        );
    }
    Ok(())
}

#[test]
fn dates_that_are_none(rt: HostRuntime) -> Result<(), Fail> {
    let key = Key::FirstNight;
    for date in [
        "first_night = \"2025-7-01\"\n",
        "first_night = \"2025-02-29\"\n",
        "first_night = \"0000-01-01\"\n",
        "first_night = \"2025-07-01 \"\n",
        "first_night = \"2025/07/01\"\n",
        "first_night = \"\"\n",
    ] {
        assert_eq!(rt;
            refusal(rt.alloc(), "name = \"A\"\n", date)?,
            Some(HotelRefusal::Date { key }),
            "{date}"
        );
    }
    Ok(())
}

#[test]
fn keys_that_may_be_absent(rt: HostRuntime) -> Result<(), Fail> {
    for (more, key) in [
        ("stale_after = \"20\"\n", Key::StaleAfter),
        ("entries = 1.0\n", Key::Entries),
        ("publications = true\n", Key::Publications),
        ("night = 3\nunit = [1]\n", Key::Unit),
        ("[night]\ndate = \"2025-07-01\"\nrooms = 1\n", Key::Night),
    ] {
        assert_eq!(rt;
            refusal(rt.alloc(), TWO_ROOMS, more)?,
            Some(HotelRefusal::Kind { key }),
            "{more}"
        );
    }
    for (more, key) in [
        ("entries = 0\nstale_after = 0\n", Key::StaleAfter),
        ("stale_after = 100001\n", Key::StaleAfter),
        ("unit = 7\nentries = 0\n", Key::Entries),
        ("unit = 7\nentries = 200001\n", Key::Entries),
        ("publications = 0\n", Key::Publications),
        ("publications = 1001\n", Key::Publications),
        ("unit = 0\n", Key::Unit),
        ("night = 3\nunit = 50\n", Key::Unit),
    ] {
        assert_eq!(rt;
            refusal(rt.alloc(), TWO_ROOMS, more)?,
            Some(HotelRefusal::Range { key }),
            "{more}"
        );
    }
    Ok(())
}

//! The tables of single nights.
use super::refusal;
use crate::three_nights::{TWO_ROOMS, joined};
use bp_hotelfile::HotelRefusal;
use std::test::Fail;

#[test]
fn tables_of_nights_in_their_order(rt: HostRuntime) -> Result<(), Fail> {
    for (more, error) in [
        ("night = [3]\n", HotelRefusal::NightShape { index: 0 }),
        (
            "[[night]]\nrooms = 1\n",
            HotelRefusal::NightShape { index: 0 },
        ),
        (
            "[[night]]\ndate = \"2025-07-01\"\n",
            HotelRefusal::NightShape { index: 0 },
        ),
        (
            "[[night]]\ndate = 2025-07-01\nrooms = 1\n",
            HotelRefusal::NightShape { index: 0 },
        ),
        (
            "[[night]]\ndate = \"2025-06-31\"\nrooms = 1\n",
            HotelRefusal::NightShape { index: 0 },
        ),
        (
            "[[night]]\ndate = \"2025-07-04\"\nrooms = 10001\n",
            HotelRefusal::NightShape { index: 0 },
        ),
        (
            "[[night]]\ndate = \"2025-07-01\"\nrooms = -1\n",
            HotelRefusal::NightShape { index: 0 },
        ),
        (
            "[[night]]\ndate = \"2025-06-30\"\nrooms = 1\n",
            HotelRefusal::NightOutside { index: 0 },
        ),
        (
            "[[night]]\ndate = \"2025-07-04\"\nrooms = 1\n[[night]]\n",
            HotelRefusal::NightOutside { index: 0 },
        ),
    ] {
        assert_eq!(rt;
            refusal(rt.alloc(), TWO_ROOMS, more)?,
            Some(error),
            "{more}"
        );
    }
    Ok(())
}

#[test]
fn nights_with_two_tables(rt: HostRuntime) -> Result<(), Fail> {
    let first = "[[night]]\ndate = \"2025-07-01\"\nrooms = 10000\n";
    for (more, error) in [
        ("\n", None),
        (
            "[[night]]\ndate = \"2025-07-01\"\nrooms = 1\n",
            Some(HotelRefusal::TwiceNight { index: 1 }),
        ),
        (
            "[[night]]\ndate = \"2025-07-03\"\nrooms = 0\n[[night]]\ndate = \"2025-07-01\"\nrooms = 10000\n",
            Some(HotelRefusal::TwiceNight { index: 2 }),
        ),
    ] {
        let lines = joined(rt.alloc(), TWO_ROOMS, first)?;
        assert_eq!(rt; refusal(rt.alloc(), lines.as_str(), more)?, error, "{more}");
    }
    Ok(())
}

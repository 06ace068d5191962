//! Lines of words, and what each gives over the shared files.
use crate::files::{CERTIFICATE, ONE_CALL, THREE_CALLS};

/// The usage text.
const USAGE: &str = "usage:
bidprice check PROBLEM CERTIFICATE
bidprice solve PROBLEM
bidprice group PROBLEM FROM TO ROOMS
bidprice judge PROBLEM JOURNAL
bidprice desk HOTEL STAYS FORECAST BOOKINGS SCRIPT [--workers W]
bidprice replay HOTEL STAYS FORECAST BOOKINGS JOURNAL
bidprice report HOTEL STAYS FORECAST BOOKINGS JOURNAL
bidprice demo SEED NIGHTS ROOMS STAYS
bidprice scenarios PROBLEM CHANGES
bidprice sheet PROBLEM
bidprice portfolio LIST [--workers W]
";

/// A line, its status and what it writes.
pub(crate) type Line = (&'static str, u8, &'static str);

/// Lines where nothing fails.
pub(crate) fn served() -> &'static [Line] {
    &[
        // Each verdict has its line.
        ("check A C", 0, "optimal 250\n"),
        ("check A short-sell", 1, "wronglength\n"),
        ("check A great-price", 1, "pricetoogreat 1\n"),
        ("check A above", 1, "aboveforecast 1\n"),
        ("check A overfull", 1, "overfull 1 2\n"),
        ("check A gap", 1, "gap 250 280\n"),
        ("check A misvalued", 1, "misvalued 250\n"),
        // Each optimum is written with its least prices.
        ("solve A", 0, CERTIFICATE),
        (
            "solve full",
            0,
            "certificate 1\nvalue 0\nsell 0\nprices 100\nend\n",
        ),
        (
            "solve empty",
            0,
            "certificate 1\nvalue 0\nsell\nprices 0 0 0\nend\n",
        ),
        (
            "solve tie",
            0,
            "certificate 1\nvalue 90\nsell 1\nprices 90 0\nend\n",
        ),
        // A group has its displacement, or is refused.
        (
            "group A 1 3 1",
            0,
            "displacement 150\ncertificate 1\nvalue 250\nsell 0 1 1 1\nprices 0 100 40\nend\ncertificate 1\nvalue 100\nsell 0 0 1 1\nprices 0 110 40\nend\n",
        ),
        (
            "group A 0 2 1",
            0,
            "displacement 110\ncertificate 1\nvalue 250\nsell 0 1 1 1\nprices 0 100 40\nend\ncertificate 1\nvalue 140\nsell 0 0 1 2\nprices 0 110 40\nend\n",
        ),
        (
            "group A 0 1 1",
            0,
            "displacement 0\ncertificate 1\nvalue 250\nsell 0 1 1 1\nprices 0 100 40\nend\ncertificate 1\nvalue 250\nsell 0 1 1 1\nprices 60 40 40\nend\n",
        ),
        ("group A 1 2 2", 3, "noroom 1\n"),
        ("group A 0 000000003 10000", 3, "noroom 0\n"),
        ("group A 2 4 1", 3, "refused span\n"),
        ("group A 0 4 1", 3, "refused span\n"),
        ("group A 2 2 1", 3, "refused span\n"),
        ("group A 999999999 0 1", 3, "refused span\n"),
        // A journal is judged by the problem's house, or by the hotel's.
        ("judge A J", 0, "legal 4\n"),
        ("judge A no-vector", 1, "illegal 0 opening\n"),
        ("judge A other-value", 1, "illegal 0 certificate\n"),
        ("judge A no-enrol", 1, "illegal 1 caller\n"),
        ("judge A other-reply", 1, "illegal 2 reply\n"),
        ("judge A resized", 1, "illegal 0 certificate\n"),
        ("replay H S F B J", 0, "legal 4\n"),
        ("replay H2 S F B no-vector", 1, "illegal 0 opening\n"),
        ("replay H S F one-sold resized", 0, "legal 4\n"),
        ("replay H S F one-sold J", 1, "illegal 0 certificate\n"),
        // A desk's journal is legal on the files that it ran on.
        ("desk H2 S F B three-calls --workers 0", 0, THREE_CALLS),
        ("replay H2 S F B T", 0, "legal 8\n"),
        ("desk H1 S F B three-calls --workers 0", 7, ONE_CALL),
        // The first file that is refused has its line.
        ("desk H2 S F B free-rate", 3, "refused 5 limit 2\n"),
        ("desk H2 S F B K", 4, "fault 5\n"),
        ("judge A zero-in-journal", 3, "refused 2 badline 7\n"),
        ("judge later no-vector", 3, "refused 1 badline 1\n"),
        ("replay no-toml S F B J", 3, "refused 1 nottoml\n"),
        (
            "replay no-night S F B J",
            3,
            "refused 1 missing first_night\n",
        ),
        ("replay H no-nights F B J", 3, "refused 2 column nights\n"),
        ("replay H past-the-last C B J", 3, "refused 2 outside 2\n"),
        ("replay H S no-code B J", 3, "refused 3 nocode 2\n"),
        ("replay H S F two-sold J", 3, "refused 4 overbooked 1\n"),
        ("replay H S F B zero-in-journal", 3, "refused 5 badline 7\n"),
        ("replay H S F B A", 3, "refused 5 badline 1\n"),
        ("replay H S F B K", 4, "fault 5\n"),
        ("solve no-end", 3, "refused 1 tooshort\n"),
        ("solve two-problems", 3, "refused 1 trailing 6\n"),
        ("solve later", 3, "refused 1 badline 1\n"),
        ("solve long", 3, "refused 1 limit 2\n"),
        ("check later zero-in-front", 3, "refused 1 badline 1\n"),
        ("check C A", 3, "refused 1 badline 1\n"),
        ("check A zero-in-front", 3, "refused 2 badline 2\n"),
        ("check A great-value", 3, "refused 2 limit 2\n"),
        ("check A goes-on", 3, "refused 2 trailing 6\n"),
        // No file has the name.
        ("check K C", 4, "fault 1\n"),
        ("check A K", 4, "fault 2\n"),
        ("group K 0 1 1", 4, "fault 1\n"),
    ]
}

/// Lines that are not plain.
pub(crate) fn not_served() -> &'static [&'static str] {
    &[
        "",
        "check A",
        "check A C C",
        "check -A C",
        "check A ",
        "Check A C",
        "A C",
        "--help",
        "solve",
        "group A 1 3",
        "group A +1 3 1",
        "group A 1 1234567890 1",
        "group A 1 3 0",
        "group A 1 3 10001",
        "desk H S F B X --workers=2",
        "desk H S F B",
        "scenarios A",
        "sheet",
        "portfolio",
    ]
}

/// What each of those writes.
pub(crate) fn usage() -> &'static str {
    USAGE
}

/// Lines with the fetch and the put that fail, the status, and what is written.
pub(crate) fn failing() -> &'static [(&'static str, u64, u64, u8, &'static str)] {
    &[
        ("check A C", 1, 0, 4, "fault 1\n"),
        ("check A C", 2, 0, 4, "fault 2\n"),
        ("solve A", 1, 0, 4, "fault 1\n"),
        ("replay H S F B J", 3, 0, 4, "fault 3\n"),
        ("replay H S F B J", 4, 0, 4, "fault 4\n"),
        ("replay H S F B J", 5, 0, 4, "fault 5\n"),
        ("replay H S F B J", 0, 1, 5, ""),
        ("desk H2 S F B three-calls --workers 0", 0, 1, 5, ""),
        ("check A C", 0, 1, 5, ""),
        ("check A misvalued", 0, 1, 5, ""),
        ("check A", 0, 1, 5, ""),
        ("check C A", 0, 1, 5, ""),
        ("check A C", 2, 1, 5, ""),
    ]
}

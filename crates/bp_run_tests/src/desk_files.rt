//! Files of desks beside the shared ones, where H, S, F and B are a hotel's and `three-calls` is a script.

/// What a hotel's file says before its nights.
pub(crate) const THREE_NIGHTS: &str = "name = \"A\"
first_night = \"2025-07-01\"
nights = 3
rooms = 2
";

/// The night of that hotel that has rooms of its own.
pub(crate) const SECOND_NIGHT: &str = "
[[night]]
date = \"2025-07-02\"
rooms = 1
";

/// Hotels of three nights, each with its name and the settings between the two.
pub(crate) fn settings() -> &'static [(&'static str, &'static str)] {
    &[
        ("two", "stale_after = 2\n"),
        ("ten", "stale_after = 10\n"),
        ("two-entries", "stale_after = 10\nentries = 2\n"),
        ("one-vector", "stale_after = 2\npublications = 1\n"),
        ("one-vector-of-ten", "stale_after = 10\npublications = 1\n"),
        ("ten-vectors", "stale_after = 2\npublications = 10\n"),
        ("hundredths", "stale_after = 10\nunit = 100\n"),
        ("tenths", "stale_after = 10\nunit = 10\n"),
    ]
}

/// A hotel of one night with one room, and tables, each with its name and its text.
pub(crate) fn texts() -> &'static [(&'static str, &'static str)] {
    &[
        (
            "room",
            "name = \"B\"\nfirst_night = \"2025-07-01\"\nnights = 1\nrooms = 1\nstale_after = 10\n",
        ),
        ("stay", "code,arrival,nights,rate\nS,2025-07-01,1,50\n"),
        ("two-guests", "code,count\nS,2\n"),
        ("three-guests", "code,count\nS,3\n"),
        ("halves", "code,count\nP0,300\nP1,50\nP2,100\nP3,500\n"),
        (
            "from-a-spreadsheet",
            "\u{feff}rate,code,nights,arrival,remark\r\n100,P0,2,2025-07-01,\r\n\
            0150,P1,2,2025-07-02,\"two, or three\"\r\n60,P2,1,2025-07-01,\r\n40,P3,1,2025-07-03,late\r\n",
        ),
        (
            "a-night-too-long",
            "\u{feff}rate,code,nights,arrival,remark\r\n100,P0,2,2025-07-01,\r\n\
            0150,P1,2,2025-07-02,\"two, or three\"\r\n60,P2,1,2025-07-01,\r\n40,P3,2,2025-07-03,late\r\n",
        ),
    ]
}

/// The header of a script.
pub(crate) const HEADER: &str = "session,verb,item,nights,rooms,amount\n";

/// Scripts, each with its name and its records.
pub(crate) fn scripts() -> &'static [(&'static str, &'static str)] {
    &[
        ("nothing", ""),
        (
            "cancels",
            "1,book,P0,,,\n1,cancel,1,,,\n1,cancel,1,,,\n1,cancel,2,,,\n",
        ),
        ("resize", "1,resize,2025-07-02,,0,\n"),
        (
            "groups",
            "1,group,2025-07-02,2,1,149\n1,group,2025-07-02,2,1,150\n1,group,2025-07-02,1,1,0\n",
        ),
        (
            "groups-in-hundredths",
            "1,group,2025-07-02,2,1,144\n1,group,2025-07-02,2,1,145\n1,group,2025-07-02,1,1,0\n",
        ),
        ("one-call", "1,book,P1,,,\n"),
        ("two-calls", "1,book,P0,,,\n1,book,P1,,,\n"),
        ("reprice", "1,book,P0,,,\n1,reprice,P0,,,99\n1,book,P0,,,\n"),
        ("two-guests-ask", "1,book,S,,,\n2,book,S,,,\n"),
        (
            "in-turns",
            "1,book,S,,,\n1,cancel,1,,,\n1,cancel,2,,,\n2,book,S,,,\n2,book,S,,,\n2,cancel,1,,,\n",
        ),
    ]
}

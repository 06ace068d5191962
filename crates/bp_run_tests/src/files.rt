//! The files that the tests share.

/// Three nights and four stays.
pub(crate) const PROBLEM: &str = "problem 1
nights 3
rooms 2 1 2
stays 4
stay 0 2 100 3
stay 1 3 150 1
stay 0 1 60 1
stay 2 3 40 5
end
";

/// The optimum of the problem, with its least prices.
pub(crate) const CERTIFICATE: &str = "certificate 1
value 250
sell 0 1 1 1
prices 0 100 40
end
";

/// One session books the first stay of the problem, and leaves.
pub(crate) const JOURNAL: &str = "journal 1
0 0 publish 0 vector 0
value 250
sell 0 1 1 1
prices 0 100 40
1 1 enrol done
2 1 book 0 accepted 0 100
3 1 leave done
end
";

/// One night fewer rooms than are sold, as the bookings of one more stay have it.
pub(crate) const RESIZED: &str = "journal 1
0 0 publish 0 vector 0
value 100
sell 0 0 1 1
prices 0 110 40
1 1 enrol done
2 1 resize 1 0 belowsold 1
3 1 leave done
end
";

/// A hotel whose opening problem is that problem.
const HOTEL: &str = "name = \"A\"
first_night = \"2025-07-01\"
nights = 3
rooms = 2
[[night]]
date = \"2025-07-02\"
rooms = 1
";

/// Its stays file.
const STAYS: &str = "code,arrival,nights,rate
P0,2025-07-01,2,100
P1,2025-07-02,2,150
P2,2025-07-01,1,60
P3,2025-07-03,1,40
";

/// Its forecast file.
const FORECAST: &str = "code,count
P0,3
P1,1
P2,1
P3,5
";

/// That hotel, whose bookings wait for a vector after two changes.
const STALE_AFTER_TWO: &str = "name = \"A\"
first_night = \"2025-07-01\"
nights = 3
rooms = 2
stale_after = 2
[[night]]
date = \"2025-07-02\"
rooms = 1
";

/// What one session makes of the script `three-calls`: before its last call it publishes, and so does the opener at the
/// end.
pub(crate) const THREE_CALLS: &str = "journal 2
0 0 publish 0 vector 0
value 250
sell 0 1 1 1
prices 0 100 40
1 1 enrol done
2 1 book 0 accepted 0 100
3 1 book 1 noroom 0 140 1
4 1 publish 4 vector 1
value 140
sell 0 0 1 2
prices 60 40 40
5 1 book 3 accepted 1 40
6 1 leave done
7 0 publish 7 vector 2
value 100
sell 0 0 1 1
prices 60 40 40
end
";

/// What is made of it where the house allows one entry of a command.
pub(crate) const ONE_CALL: &str = "journal 2
0 0 publish 0 vector 0
value 250
sell 0 1 1 1
prices 0 100 40
1 1 enrol done
2 1 book 0 accepted 0 100
3 1 leave done
4 0 publish 4 vector 1
value 140
sell 0 0 1 2
prices 0 110 40
end
";

/// Each file's name and text. Those of one letter are the problem, its certificate and its journal, and the files of a
/// hotel.
pub(crate) fn files() -> &'static [(&'static str, &'static str)] {
    &[
        ("A", PROBLEM),
        ("C", CERTIFICATE),
        ("J", JOURNAL),
        ("H", HOTEL),
        ("S", STAYS),
        ("F", FORECAST),
        ("B", "code,count\n"),
        // Bookings, and files of a hotel that are refused.
        ("one-sold", "code,count\nP1,1\n"),
        ("two-sold", "code,count\nP0,1\nP1,1\n"),
        ("no-toml", "nights = "),
        ("no-night", "name = \"A\"\n"),
        ("no-nights", "code,arrival,rate\n"),
        (
            "past-the-last",
            "code,arrival,nights,rate\nP0,2025-07-03,2,100\n",
        ),
        ("no-code", "code,count\nP4,3\n"),
        // A script, what is made of it, and scripts that are refused.
        ("H2", STALE_AFTER_TWO),
        (
            "three-calls",
            "session,verb,item,nights,rooms,amount\n1,book,P0,,,\n1,book,P1,,,\n1,book,P3,,,\n",
        ),
        ("T", THREE_CALLS),
        (
            "free-rate",
            "session,verb,item,nights,rooms,amount\n1,reprice,P0,,,0\n",
        ),
        (
            "H1",
            "name = \"A\"\nfirst_night = \"2025-07-01\"\nnights = 3\nrooms = 2\nstale_after = 2\nentries = 1\n[[night]]\ndate = \"2025-07-02\"\nrooms = 1\n",
        ),
        // Journals.
        ("resized", RESIZED),
        ("no-vector", "journal 1\nend\n"),
        (
            "other-value",
            "journal 1\n0 0 publish 0 vector 0\nvalue 251\nsell 0 1 1 1\nprices 0 100 40\nend\n",
        ),
        (
            "no-enrol",
            "journal 1\n0 0 publish 0 vector 0\nvalue 250\nsell 0 1 1 1\nprices 0 100 40\n1 1 book 0 accepted 0 100\nend\n",
        ),
        (
            "other-reply",
            "journal 1\n0 0 publish 0 vector 0\nvalue 250\nsell 0 1 1 1\nprices 0 100 40\n1 1 enrol done\n2 1 book 0 accepted 0 99\nend\n",
        ),
        (
            "zero-in-journal",
            "journal 1\n0 0 publish 0 vector 0\nvalue 250\nsell 0 1 1 1\nprices 0 100 40\n1 1 enrol done\n2 1 book 00 accepted 0 100\nend\n",
        ),
        // Certificates of the problem that are not optimal.
        (
            "short-sell",
            "certificate 1\nvalue 250\nsell 0 1 1\nprices 0 100 40\nend\n",
        ),
        (
            "great-price",
            "certificate 1\nvalue 250\nsell 0 1 1 1\nprices 0 1000000001 40\nend\n",
        ),
        (
            "above",
            "certificate 1\nvalue 250\nsell 0 2 1 1\nprices 0 100 40\nend\n",
        ),
        (
            "overfull",
            "certificate 1\nvalue 250\nsell 1 1 0 0\nprices 0 100 40\nend\n",
        ),
        (
            "gap",
            "certificate 1\nvalue 250\nsell 0 1 1 1\nprices 0 100 60\nend\n",
        ),
        (
            "misvalued",
            "certificate 1\nvalue 251\nsell 0 1 1 1\nprices 0 100 40\nend\n",
        ),
        // Texts that are no certificate.
        ("zero-in-front", "certificate 1\nvalue 0250\n"),
        (
            "great-value",
            "certificate 1\nvalue 1000000000000000000000000000001\n",
        ),
        ("goes-on", "certificate 1\nvalue 0\nsell\nprices\nend\n "),
        // Texts that are no problem.
        ("no-end", "problem 1\nnights 1\nrooms 2\nstays 0\n"),
        ("later", "problem 2\n"),
        ("long", "problem 1\nnights 401\n"),
        (
            "two-problems",
            "problem 1\nnights 1\nrooms 2\nstays 0\nend\n ",
        ),
        // Problems whose optima are known.
        (
            "full",
            "problem 1\nnights 1\nrooms 0\nstays 1\nstay 0 1 100 1\nend\n",
        ),
        ("empty", "problem 1\nnights 3\nrooms 1 1 1\nstays 0\nend\n"),
        (
            "tie",
            "problem 1\nnights 2\nrooms 1 1\nstays 1\nstay 0 2 90 2\nend\n",
        ),
    ]
}

//! Desks, and the journals that they write.
use crate::files::{ONE_CALL, THREE_CALLS};

/// The files of a hotel and a script, the status, and the journal.
pub(crate) type Run = (&'static str, &'static str, u8, &'static str);

/// Desks without workers.
pub(crate) fn alone() -> &'static [Run] {
    &[
        // The last call of three finds two changes after the vector, so the session publishes.
        ("H2 S F B", "three-calls", 0, THREE_CALLS),
        ("two from-a-spreadsheet F B", "three-calls", 0, THREE_CALLS),
        // The house allows one entry of a command.
        ("H1 S F B", "three-calls", 7, ONE_CALL),
        ("two-entries S F B", "three-calls", 7, TWO_ENTRIES),
        ("one-vector S F B", "three-calls", 7, ONE_VECTOR),
        // All calls are made, and no vector is left for the changes behind the first.
        (
            "one-vector-of-ten S F B",
            "three-calls",
            7,
            NO_CLOSING_VECTOR,
        ),
        ("ten S F B", "nothing", 0, NOTHING),
        ("ten S F B", "cancels", 0, CANCELS),
        // The rooms of a night can be no fewer than are sold.
        ("two S F one-sold", "resize", 0, RESIZE),
        // Two nights cost what they displace, and the second of them has no room then.
        ("ten S F B", "groups", 0, GROUPS),
        // The stays are forecast by halves.
        ("hundredths S halves B", "one-call", 0, HALVES),
        (
            "hundredths S halves B",
            "groups-in-hundredths",
            0,
            GROUPS_IN_HUNDREDTHS,
        ),
        // The second booking of a stay pays another rate.
        ("ten S F B", "reprice", 0, REPRICE),
    ]
}

/// A desk with two workers: the status, and its journal up to the Leave of its session, and behind those of the
/// workers.
pub(crate) type RunBeside = (&'static str, u8, &'static str, &'static str);

/// Desks where no worker may publish. The script is `three-calls`.
pub(crate) fn beside_two_workers() -> &'static [RunBeside] {
    &[
        (
            "two-entries S F B",
            7,
            BESIDE_TWO_WORKERS,
            "9 0 publish 9 vector 1\nvalue 140\nsell 0 0 1 2\nprices 60 40 40\nend\n",
        ),
        ("one-vector S F B", 7, BESIDE_TWO_WORKERS, "end\n"),
    ]
}

/// What one session makes of the script `three-calls` where the house allows two entries of commands.
pub(crate) const TWO_ENTRIES: &str = "journal 2
0 0 publish 0 vector 0
value 250
sell 0 1 1 1
prices 0 100 40
1 1 enrol done
2 1 book 0 accepted 0 100
3 1 book 1 noroom 0 140 1
4 1 leave done
5 0 publish 5 vector 1
value 140
sell 0 0 1 2
prices 60 40 40
end
";

/// Where the house allows one vector: the third booking is not made.
const ONE_VECTOR: &str = "journal 2
0 0 publish 0 vector 0
value 250
sell 0 1 1 1
prices 0 100 40
1 1 enrol done
2 1 book 0 accepted 0 100
3 1 book 1 noroom 0 140 1
4 1 leave done
end
";

/// Where no vector is left for the end.
const NO_CLOSING_VECTOR: &str = "journal 2
0 0 publish 0 vector 0
value 250
sell 0 1 1 1
prices 0 100 40
1 1 enrol done
2 1 book 0 accepted 0 100
3 1 book 1 noroom 0 140 1
4 1 book 3 accepted 0 40
5 1 leave done
end
";

/// The vector of the opener, and nothing else.
const NOTHING: &str = "journal 2
0 0 publish 0 vector 0
value 250
sell 0 1 1 1
prices 0 100 40
end
";

/// A booking that is given up twice, and one that there is not.
const CANCELS: &str = "journal 2
0 0 publish 0 vector 0
value 250
sell 0 1 1 1
prices 0 100 40
1 1 enrol done
2 1 book 0 accepted 0 100
3 1 cancel 1 cancelled
4 1 cancel 1 alreadycancelled
5 1 cancel 2 notbooked
6 1 leave done
7 0 publish 7 vector 1
value 250
sell 0 1 1 1
prices 0 100 40
end
";

/// Fewer rooms than are sold.
const RESIZE: &str = "journal 2
0 0 publish 0 vector 0
value 100
sell 0 0 1 1
prices 0 110 40
1 1 enrol done
2 1 resize 1 0 belowsold 1
3 1 leave done
end
";

/// A group that pays too little, one that ties, and one for which there is no room.
const GROUPS: &str = "journal 2
0 0 publish 0 vector 0
value 250
sell 0 1 1 1
prices 0 100 40
1 1 enrol done
2 1 group 1 3 1 149 toolow 150
3 1 group 1 3 1 150 accepted 150
4 1 group 1 2 1 0 noroom 1
5 1 leave done
6 0 publish 6 vector 1
value 100
sell 0 0 1 1
prices 0 110 40
end
";

/// A booking where the house counts in hundredths.
const HALVES: &str = "journal 2
0 0 publish 0 vector 0
value 24500
sell 50 50 100 150
prices 0 100 40
1 1 enrol done
2 1 book 1 accepted 0 140
3 1 leave done
4 0 publish 4 vector 1
value 10000
sell 0 0 100 100
prices 0 100 40
end
";

/// The three groups where the house counts in hundredths.
const GROUPS_IN_HUNDREDTHS: &str = "journal 2
0 0 publish 0 vector 0
value 24500
sell 50 50 100 150
prices 0 100 40
1 1 enrol done
2 1 group 1 3 1 144 toolow 14500
3 1 group 1 3 1 145 accepted 14500
4 1 group 1 2 1 0 noroom 1
5 1 leave done
6 0 publish 6 vector 1
value 10000
sell 0 0 100 100
prices 0 110 40
end
";

/// A booking after its stay has a lower rate.
pub(crate) const REPRICE: &str = "journal 2
0 0 publish 0 vector 0
value 250
sell 0 1 1 1
prices 0 100 40
1 1 enrol done
2 1 book 0 accepted 0 100
3 1 reprice 0 99 done
4 1 book 0 toolow 0 100 99
5 1 leave done
6 0 publish 6 vector 1
value 140
sell 0 0 1 2
prices 0 110 40
end
";

/// One session beside two workers.
const BESIDE_TWO_WORKERS: &str = "journal 2
0 0 publish 0 vector 0
value 250
sell 0 1 1 1
prices 0 100 40
1 1 enrol done
2 2 enrol done
3 3 enrol done
4 1 book 0 accepted 0 100
5 1 book 1 noroom 0 140 1
6 1 leave done
";

/// What the desk of the last room writes before two sessions ask for it and after they have left.
pub(crate) const LAST_ROOM: (&str, &str) = (
    "journal 2
0 0 publish 0 vector 0
value 50
sell 1
prices 50
1 1 enrol done
2 2 enrol done
",
    "7 0 publish 7 vector 1
value 0
sell 0
prices 0
end
",
);

/// What a desk writes up to the second call of its session, where its worker makes a round before.
pub(crate) const ONE_ROUND_BETWEEN: &str = "journal 2
0 0 publish 0 vector 0
value 250
sell 0 1 1 1
prices 0 100 40
1 1 enrol done
2 2 enrol done
3 1 book 0 accepted 0 100
4 2 publish 4 vector 1
value 140
sell 0 0 1 2
prices 0 110 40
5 1 book 1 noroom 1 150 1
";

/// What a desk writes while the gate holds its two sessions, and after they have left.
pub(crate) const HELD_IN_TURNS: (&str, &str) = (
    "journal 2
0 0 publish 0 vector 0
value 50
sell 1
prices 50
1 1 enrol done
2 2 enrol done
3 1 book 0 accepted 0 50
4 2 book 0 noroom 0 50 0
5 1 cancel 1 cancelled
6 2 book 0 accepted 0 50
",
    "11 0 publish 11 vector 1
value 0
sell 0
prices 0
end
",
);

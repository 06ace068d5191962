//! Files that are damaged, and what is said of each.

/// Records of a script and its refusal. The hotel is that of the shared files.
pub(crate) fn records() -> &'static [(&'static str, &'static str)] {
    &[
        // A record is read from left to right, after its fields are counted.
        ("33,book,P0,,\n", "refused 5 notcsv 2\n"),
        ("33,book,P0,,,\n", "refused 5 session 2\n"),
        ("0,walk,P0,,,\n", "refused 5 session 2\n"),
        ("one,book,P0,,,\n", "refused 5 session 2\n"),
        ("1,Book,P 0,,,\n", "refused 5 verb 2\n"),
        ("1,,P0,,,\n", "refused 5 verb 2\n"),
        // Each verb has cells of its own.
        ("1,book,P 0,,,\n", "refused 5 code 2\n"),
        ("1,book,P4,,,\n", "refused 5 nocode 2\n"),
        ("1,cancel,P0,,,\n", "refused 5 number 2\n"),
        ("1,cancel,0,,,\n", "refused 5 limit 2\n"),
        ("1,cancel,200001,,,\n", "refused 5 limit 2\n"),
        ("1,reforecast,P?,,,x\n", "refused 5 code 2\n"),
        ("1,reforecast,P4,,,x\n", "refused 5 nocode 2\n"),
        ("1,reforecast,P0,,,-1\n", "refused 5 number 2\n"),
        ("1,reforecast,P0,,,1000001\n", "refused 5 limit 2\n"),
        ("1,reprice,P?,,,0\n", "refused 5 code 2\n"),
        ("1,reprice,P4,,,0\n", "refused 5 nocode 2\n"),
        ("1,reprice,P0,,,89.00\n", "refused 5 number 2\n"),
        ("1,reprice,P0,,,0\n", "refused 5 limit 2\n"),
        ("1,reprice,P0,,,1000000001\n", "refused 5 limit 2\n"),
        ("1,resize,2025-07-32,,x,\n", "refused 5 date 2\n"),
        ("1,resize,2025-07-04,,x,\n", "refused 5 number 2\n"),
        ("1,resize,2025-07-04,,10001,\n", "refused 5 limit 2\n"),
        ("1,resize,2025-07-04,,0,\n", "refused 5 outside 2\n"),
        ("1,group,P0,x,0,x\n", "refused 5 date 2\n"),
        ("1,group,2025-06-30,x,0,x\n", "refused 5 number 2\n"),
        ("1,group,2025-06-30,0,x,x\n", "refused 5 limit 2\n"),
        ("1,group,2025-06-30,1,x,x\n", "refused 5 number 2\n"),
        ("1,group,2025-06-30,1,0,x\n", "refused 5 limit 2\n"),
        ("1,group,2025-06-30,1,10001,x\n", "refused 5 limit 2\n"),
        ("1,group,2025-06-30,1,1,x\n", "refused 5 number 2\n"),
        (
            "1,group,2025-06-30,1,1,1000000000000001\n",
            "refused 5 limit 2\n",
        ),
        ("1,group,2025-06-30,1,1,1\n", "refused 5 outside 2\n"),
        ("1,group,2025-07-02,3,1,1\n", "refused 5 outside 2\n"),
        // The first record that is refused has its number. Lines without a field are no records.
        (
            "1,book,P0,,,\r\n\r\n2,book,P1,,,\r\n1,book,P4,,,\r\n33,,,,,\r\n",
            "refused 5 nocode 4\n",
        ),
        (
            "1,book,P0,,,\n1,book\n33,book,P0,,,\n",
            "refused 5 notcsv 3\n",
        ),
    ]
}

/// Scripts whose header lacks a column, each with its refusal.
pub(crate) fn headers() -> &'static [(&'static str, &'static str)] {
    &[
        ("", "refused 5 column session\n"),
        (
            "verb,item,nights,rooms,amount\n",
            "refused 5 column session\n",
        ),
        (
            "session,item,nights,rooms,amount\n",
            "refused 5 column verb\n",
        ),
        (
            "session,verb,nights,rooms,amount\n",
            "refused 5 column item\n",
        ),
        (
            "session,verb,item,rooms,amount\n",
            "refused 5 column nights\n",
        ),
        (
            "session,verb,item,nights,amount\n",
            "refused 5 column rooms\n",
        ),
        (
            "session,verb,item,nights,rooms\n",
            "refused 5 column amount\n",
        ),
    ]
}

/// A line in which X is a file of these bytes, and its refusal.
pub(crate) type Damage = (&'static str, &'static [u8], &'static str);

/// The damaged files. A comment above some says what is wrong.
pub(crate) fn damages() -> &'static [Damage] {
    &[
        // Bytes that a packed file begins with.
        (
            "desk X S F B three-calls",
            b"\x1f\x8b\x08",
            "refused 1 nottoml\n",
        ),
        (
            "desk two X F B three-calls",
            b"\x1f\x8b\x08",
            "refused 2 notcsv 1\n",
        ),
        (
            "desk two S X B three-calls",
            b"\x1f\x8b\x08",
            "refused 3 notcsv 1\n",
        ),
        (
            "desk two S F X three-calls",
            b"\x1f\x8b\x08",
            "refused 4 notcsv 1\n",
        ),
        ("desk two S F B X", b"\x1f\x8b\x08", "refused 5 notcsv 1\n"),
        // Files that do not go with those before them.
        (
            "desk tenths S F B three-calls",
            b"",
            "refused 1 range unit\n",
        ),
        (
            "desk two a-night-too-long F B three-calls",
            b"",
            "refused 2 outside 5\n",
        ),
        (
            "replay two a-night-too-long F B T",
            b"",
            "refused 2 outside 5\n",
        ),
        (
            "desk two S X B three-calls",
            b"code,count\nP0,3\nP0,1\nP1,1\n",
            "refused 3 twicecode 3\n",
        ),
        (
            "desk two S F X three-calls",
            b"code,count\nP0,2\n",
            "refused 4 overbooked 1\n",
        ),
        // One byte behind a text.
        (
            "check X C",
            b"problem 1\nnights 3\nrooms 2 1 2\nstays 4\nstay 0 2 100 3\nstay 1 3 150 1\nstay 0 1 60 1\nstay 2 3 40 5\nend\n ",
            "refused 1 trailing 10\n",
        ),
        // A journal of the first version has no Reprice.
        (
            "replay ten S F B X",
            b"journal 1\n0 0 publish 0 vector 0\nvalue 250\nsell 0 1 1 1\nprices 0 100 40\n1 1 enrol done\n2 1 book 0 accepted 0 100\n3 1 reprice 0 99 done\n",
            "refused 5 badline 8\n",
        ),
    ]
}

/// Lines in which X has one byte more than may be read, and the refusal of each.
pub(crate) fn too_long() -> &'static [(&'static str, &'static str)] {
    &[
        ("desk X S F B three-calls", "refused 1 toolong\n"),
        ("desk two S F B X", "refused 5 toolong\n"),
        ("check A X", "refused 2 toolong\n"),
    ]
}

//! Scenarios of three nights: what is answered, and each refusal at its line.
use crate::hotel::three_nights;
use bp_edges::MemorySink;
use bp_scenarios::{TextError, read_scenarios, scenarios, scenarios_alone, write_outcomes};
use std::alloc::Global;
use std::test::Fail;
use std::thread::Threads;

/// What is written of the scenarios of a text, on three nights with these rooms.
fn answered(
    rt: &(impl Threads + Sync),
    alloc: Global,
    rooms: &[u64],
    text: &[u8],
) -> Result<MemorySink, Fail> {
    let base = three_nights(alloc, rooms)?;
    let lists = read_scenarios(alloc, &base, text)?;
    let outcomes = scenarios(rt, alloc, &base, &lists)?;
    let mut out = MemorySink::new(Vec::new(alloc));
    write_outcomes(alloc, &outcomes, &mut out)?;
    Ok(out)
}

/// Nothing changed, one room fewer, two rooms fewer than one, and a new rate.
const FOUR: &[u8] = b"scenarios 1
scenario
scenario
rooms 1 2 down 1
scenario
rooms 1 2 down 2
scenario
rate 0 200
end
";

/// What is answered to them.
const FOUR_ANSWERS: &[u8] = b"scenario 1 value 250 prices 0 100 40
scenario 2 value 140 prices 0 110 40
scenario 3 refused 1
scenario 4 value 340 prices 60 140 40
";

#[test]
fn four_scenarios(rt: HostRuntime) -> Result<(), Fail> {
    let out = answered(&rt, rt.alloc(), &[2, 1, 2], FOUR)?;
    assert!(rt; out.written() == FOUR_ANSWERS);
    Ok(())
}

#[test]
fn four_scenarios_in_one_thread(rt: HostRuntime) -> Result<(), Fail> {
    let alloc = rt.alloc();
    let base = three_nights(alloc, &[2, 1, 2])?;
    let lists = read_scenarios(alloc, &base, FOUR)?;
    let outcomes = scenarios_alone(alloc, &base, &lists)?;
    let mut out = MemorySink::new(Vec::new(alloc));
    write_outcomes(alloc, &outcomes, &mut out)?;
    assert!(rt; out.written() == FOUR_ANSWERS);
    Ok(())
}

/// Texts of scenarios of three nights, and what is written of them.
const ANSWERS: [(&[u8], &[u8]); 7] = [
    (b"scenarios 1\nend\n", b""),
    // Two changes that undo one another.
    (
        b"scenarios 1\nscenario\nrooms 0 3 up 4\nrooms 0 3 down 4\nend\n",
        b"scenario 1 value 250 prices 0 100 40\n",
    ),
    // A scenario stands on the problem, and not on the one before it.
    (
        b"scenarios 1\nscenario\nrooms 1 2 down 1\nscenario\ndemand 1 0\nend\n",
        b"scenario 1 value 140 prices 0 110 40\nscenario 2 value 240 prices 60 40 40\n",
    ),
    // The second change of four is the first one that there are no rooms for, and the fourth is not the first.
    (
        b"scenarios 1\nscenario\nrooms 1 2 down 1\nrooms 0 3 down 1\nrooms 1 2 up 1\nrooms 0 1 down 3\nend\n",
        b"scenario 1 refused 2\n",
    ),
    // A night may end without rooms, and with 10,000.
    (
        b"scenarios 1\nscenario\nrooms 1 2 down 1\nrooms 1 2 up 10000\nend\n",
        b"scenario 1 value 390 prices 100 0 40\n",
    ),
    (
        b"scenarios 1\nscenario\nrooms 1 2 up 9999\nscenario\nrooms 1 2 up 10000\nend\n",
        b"scenario 1 value 390 prices 100 0 40\nscenario 2 refused 1\n",
    ),
    // The forecast of a stay stays with its new rate, and the last of two changes of one number holds.
    (
        b"scenarios 1\nscenario\nrate 0 1\nrate 0 200\ndemand 2 0\ndemand 2 1\nend\n",
        b"scenario 1 value 340 prices 60 140 40\n",
    ),
];

#[test]
fn each_scenario_stands_on_the_problem(rt: HostRuntime) -> Result<(), Fail> {
    for (text, written) in &ANSWERS {
        let out = answered(&rt, rt.alloc(), &[2, 1, 2], text)?;
        assert!(rt; out.written() == *written, "{}", text.len());
    }
    Ok(())
}

#[test]
fn a_night_with_too_many_rooms_refuses_every_first_change(rt: HostRuntime) -> Result<(), Fail> {
    let text = b"scenarios 1\nscenario\nscenario\ndemand 0 1\nend\n";
    let out = answered(&rt, rt.alloc(), &[2, 1, 10_001], text)?;
    assert!(rt;
        out.written() == b"scenario 1 value 410 prices 0 100 0\nscenario 2 refused 1\n".as_slice()
    );
    Ok(())
}

/// Texts that are no scenarios of three nights and four stays, and why.
const REFUSED: [(&[u8], TextError); 24] = [
    (b"", TextError::TooShort),
    (b"scenarios 1", TextError::TooShort),
    (b"scenarios 1\n", TextError::TooShort),
    (b"scenarios 1\nscenario\nend", TextError::TooShort),
    (b"scenarios 2\nend\n", TextError::BadLine { line: 1 }),
    (b"scenarios 1\nend\n\n", TextError::Trailing { line: 3 }),
    (
        b"scenarios 1\nscenario 1\nend\n",
        TextError::BadLine { line: 2 },
    ),
    // A change before the first scenario, whatever its numbers.
    (
        b"scenarios 1\nrate 0 200\nend\n",
        TextError::BadLine { line: 2 },
    ),
    (
        b"scenarios 1\nrate 9 0\nend\n",
        TextError::BadLine { line: 2 },
    ),
    // A stay that is not there.
    (
        b"scenarios 1\nscenario\ndemand 4 1\nend\n",
        TextError::Limit { line: 3 },
    ),
    (
        b"scenarios 1\nscenario\nrate 4 1\nend\n",
        TextError::Limit { line: 3 },
    ),
    (
        b"scenarios 1\nscenario\ndemand 0 1000001\nend\n",
        TextError::Limit { line: 3 },
    ),
    (
        b"scenarios 1\nscenario\nrate 0 0\nend\n",
        TextError::Limit { line: 3 },
    ),
    (
        b"scenarios 1\nscenario\nrate 0 1000000001\nend\n",
        TextError::Limit { line: 3 },
    ),
    (
        b"scenarios 1\nscenario\nrooms 1 1 up 1\nend\n",
        TextError::Limit { line: 3 },
    ),
    (
        b"scenarios 1\nscenario\nrooms 2 1 up 1\nend\n",
        TextError::Limit { line: 3 },
    ),
    (
        b"scenarios 1\nscenario\nrooms 0 4 up 1\nend\n",
        TextError::Limit { line: 3 },
    ),
    (
        b"scenarios 1\nscenario\nrooms 0 3 up 0\nend\n",
        TextError::Limit { line: 3 },
    ),
    (
        b"scenarios 1\nscenario\nrooms 0 3 up 10001\nend\n",
        TextError::Limit { line: 3 },
    ),
    (
        b"scenarios 1\nscenario\nrooms 0 3 over 1\nend\n",
        TextError::BadLine { line: 3 },
    ),
    // The form of a line goes before its limits.
    (
        b"scenarios 1\nscenario\nrooms 9 3 up\nend\n",
        TextError::BadLine { line: 3 },
    ),
    (
        b"scenarios 1\nscenario\nrooms 9 3 up 1 1\nend\n",
        TextError::BadLine { line: 3 },
    ),
    (
        b"scenarios 1\nscenario\nrate 0 01\nend\n",
        TextError::BadLine { line: 3 },
    ),
    (
        b"scenarios 1\nscenario\nrate 0  1\nend\n",
        TextError::BadLine { line: 3 },
    ),
];

#[test]
fn a_text_is_refused_at_its_first_wrong_line(rt: HostRuntime) -> Result<(), Fail> {
    let alloc = rt.alloc();
    let base = three_nights(alloc, &[2, 1, 2])?;
    for (number, (text, error)) in REFUSED.iter().enumerate() {
        match read_scenarios(alloc, &base, text) {
            Ok(_) => assert!(rt; false, "text {number} was read"),
            Err(other) => assert!(rt; other == *error, "text {number}: {other:?}"),
        }
    }
    Ok(())
}

/// A text of so many scenarios, each with so many lines of this change.
fn many(alloc: Global, scenarios: u32, changes: u32, change: &[u8]) -> Result<Vec<u8>, Fail> {
    let mut text = Vec::new(alloc);
    text.extend_from_slice(b"scenarios 1\n")?;
    for _ in 0..scenarios {
        text.extend_from_slice(b"scenario\n")?;
        for _ in 0..changes {
            text.extend_from_slice(change)?;
        }
    }
    text.extend_from_slice(b"end\n")?;
    Ok(text)
}

/// How many scenarios and lines, and at which line their text is refused.
const MANY: [(u32, u32, Option<u64>); 5] = [
    (20_000, 5, None),
    (20_001, 0, Some(20_002)),
    (2, 50_000, None),
    (3, 40_000, Some(100_005)),
    (1, 100_001, Some(100_003)),
];

#[test]
fn scenarios_and_changes_are_counted_over_the_whole_text(rt: HostRuntime) -> Result<(), Fail> {
    let alloc = rt.alloc();
    let base = three_nights(alloc, &[2, 1, 2])?;
    for (scenarios, changes, refused) in &MANY {
        let text = many(alloc, *scenarios, *changes, b"rate 0 200\n")?;
        match (read_scenarios(alloc, &base, &text), *refused) {
            (Ok(lists), None) => {
                assert!(rt; lists.len() == *scenarios as usize);
                for list in &lists {
                    assert!(rt; list.list().len() == *changes as usize);
                }
            }
            (Err(TextError::Limit { line }), Some(place)) => assert_eq!(rt; line, place),
            (_, _) => assert!(rt; false, "{scenarios} scenarios of {changes} changes"),
        }
    }
    Ok(())
}

#[test]
fn two_thousand_one_hundred_scenarios(rt: HostRuntime) -> Result<(), Fail> {
    let alloc = rt.alloc();
    let text = many(alloc, 2_100, 1, b"rooms 1 2 down 1\n")?;
    let out = answered(&rt, alloc, &[2, 1, 2], &text)?;
    let mut wanted = Vec::new(alloc);
    for number in 1..2_101u32 {
        let line = format!(in alloc; "scenario {number} value 140 prices 0 110 40\n")?;
        wanted.extend_from_slice(line.as_bytes())?;
    }
    assert!(rt; out.written() == wanted.as_slice());
    Ok(())
}

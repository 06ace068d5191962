//! Lines that are plain and lines that are not.
use crate::{Name, Task, WordsError, parse};
use std::alloc::{AllocError, Global};
use std::process::Abort;
use std::test::Fail;

/// The words of a line, where one space parts two words: two spaces stand around an empty word.
fn words_of(alloc: Global, line: &str) -> Result<Vec<String>, AllocError> {
    let mut words = Vec::new(alloc);
    for word in line.split(' ') {
        words.push(String::from_str(alloc, word)?)?;
    }
    Ok(words)
}

/// A command and the file that it reads, under its word.
fn one_file(alloc: Global, words: &str, file: &Name<'_>) -> Result<String, AllocError> {
    [words, file.text()].join(alloc, " ")
}

/// A command and the two files that it reads, each under its word.
fn two_files(
    alloc: Global,
    words: &str,
    file: &Name<'_>,
    word: &str,
    other: &Name<'_>,
) -> Result<String, AllocError> {
    [words, file.text(), word, other.text()].join(alloc, " ")
}

/// A command, the four files of a hotel and one more, each under its word.
fn files_of_a_hotel(
    alloc: Global,
    command: &str,
    files: [&Name<'_>; 4],
    word: &str,
    other: &Name<'_>,
) -> Result<String, AllocError> {
    let [hotel, stays, forecast, bookings] = files;
    let pieces = [
        command,
        "hotel",
        hotel.text(),
        "stays",
        stays.text(),
        "forecast",
        forecast.text(),
        "bookings",
        bookings.text(),
        word,
        other.text(),
    ];
    pieces.join(alloc, " ")
}

/// What is said of the files, and of the optimisers beside the sessions.
fn with_workers(alloc: Global, files: &str, workers: u32) -> Result<String, AllocError> {
    format!(in alloc; "{files} workers {workers}")
}

/// What a group's task says.
fn group(
    alloc: Global,
    problem: &Name<'_>,
    from: u32,
    to: u32,
    rooms: u64,
) -> Result<String, AllocError> {
    let problem = problem.text();
    format!(in alloc; "group problem {problem} from {from} to {to} rooms {rooms}")
}

/// What a demo's task says.
fn demo(
    alloc: Global,
    seed: u64,
    nights: u32,
    rooms: u64,
    stays: u32,
) -> Result<String, AllocError> {
    format!(in alloc; "demo seed {seed} nights {nights} rooms {rooms} stays {stays}")
}

/// What a task says, each name and number under its own word.
fn shown(alloc: Global, task: &Task<'_>) -> Result<String, AllocError> {
    match task {
        Task::Check {
            problem,
            certificate,
        } => two_files(alloc, "check problem", problem, "certificate", certificate),
        Task::Solve { problem } => one_file(alloc, "solve problem", problem),
        Task::Group {
            problem,
            from,
            to,
            rooms,
        } => group(alloc, problem, *from, *to, *rooms),
        Task::Judge { problem, journal } => two_files(
            alloc,
            "judge problem",
            problem,
            "journal",
            journal,
        ),
        Task::Desk {
            hotel,
            stays,
            forecast,
            bookings,
            script,
            workers,
        } => {
            let files = files_of_a_hotel(
                alloc,
                "desk",
                [hotel, stays, forecast, bookings],
                "script",
                script,
            )?;
            with_workers(alloc, files.as_str(), *workers)
        }
        Task::Replay {
            hotel,
            stays,
            forecast,
            bookings,
            journal,
        } => files_of_a_hotel(
            alloc,
            "replay",
            [hotel, stays, forecast, bookings],
            "journal",
            journal,
        ),
        Task::Report {
            hotel,
            stays,
            forecast,
            bookings,
            journal,
        } => files_of_a_hotel(
            alloc,
            "report",
            [hotel, stays, forecast, bookings],
            "journal",
            journal,
        ),
        Task::Demo {
            seed,
            nights,
            rooms,
            stays,
        } => demo(alloc, *seed, *nights, *rooms, *stays),
        Task::Scenarios { problem, changes } => two_files(
            alloc,
            "scenarios problem",
            problem,
            "changes",
            changes,
        ),
        Task::Sheet { problem } => one_file(alloc, "sheet problem", problem),
        Task::Portfolio { list, workers } => {
            let file = one_file(alloc, "portfolio list", list)?;
            with_workers(alloc, file.as_str(), *workers)
        }
    }
}

/// What is said of a line that is not plain. No task says this.
const USAGE: &str = "(usage)";

/// What is said where no memory was left. No task says this.
const MEMORY: &str = "(memory)";

/// What a line asks for.
fn answered(alloc: Global, line: &str) -> Result<String, AllocError> {
    let words = words_of(alloc, line)?;
    match parse(alloc, &words) {
        Ok(task) => shown(alloc, &task),
        Err(WordsError::Usage) => String::from_str(alloc, USAGE),
        Err(WordsError::Memory) => String::from_str(alloc, MEMORY),
    }
}

/// Asserts that a line asks for this.
fn asks(rt: &impl Abort, alloc: Global, line: &str, expected: &str) -> Result<(), AllocError> {
    let text = answered(alloc, line)?;
    assert_eq!(rt; text.as_str(), expected, "{line}");
    Ok(())
}

/// Plain lines, and what each asks for.
const PLAIN: [(&str, &str); 26] = [
    ("check A C", "check problem A certificate C"),
    ("check a/b.txt ..", "check problem a/b.txt certificate .."),
    ("check check check", "check problem check certificate check"),
    ("solve A", "solve problem A"),
    ("solve x-", "solve problem x-"),
    ("solve ä", "solve problem ä"),
    ("group A 1 3 1", "group problem A from 1 to 3 rooms 1"),
    (
        "group A 0 0 10000",
        "group problem A from 0 to 0 rooms 10000",
    ),
    (
        "group A 999999999 000000000 000000007",
        "group problem A from 999999999 to 0 rooms 7",
    ),
    ("judge A J", "judge problem A journal J"),
    (
        "desk H S F B X",
        "desk hotel H stays S forecast F bookings B script X workers 2",
    ),
    (
        "desk H S F B X --workers 0",
        "desk hotel H stays S forecast F bookings B script X workers 0",
    ),
    (
        "desk H S F B X --workers 2",
        "desk hotel H stays S forecast F bookings B script X workers 2",
    ),
    (
        "desk H S F B X --workers 007",
        "desk hotel H stays S forecast F bookings B script X workers 7",
    ),
    (
        "desk H S F B X --workers 16",
        "desk hotel H stays S forecast F bookings B script X workers 16",
    ),
    (
        "desk help version a=b hotel desk",
        "desk hotel help stays version forecast a=b bookings hotel script desk workers 2",
    ),
    (
        "replay H S F B J",
        "replay hotel H stays S forecast F bookings B journal J",
    ),
    (
        "report H S F B J",
        "report hotel H stays S forecast F bookings B journal J",
    ),
    ("demo 0 1 1 1", "demo seed 0 nights 1 rooms 1 stays 1"),
    (
        "demo 999999999 400 10000 4000",
        "demo seed 999999999 nights 400 rooms 10000 stays 4000",
    ),
    ("demo 07 010 0 0", "demo seed 7 nights 10 rooms 0 stays 0"),
    ("scenarios A C", "scenarios problem A changes C"),
    ("sheet A", "sheet problem A"),
    ("portfolio L", "portfolio list L workers 2"),
    ("portfolio L --workers 0", "portfolio list L workers 0"),
    (
        "portfolio L --workers 000000016",
        "portfolio list L workers 16",
    ),
];

#[test]
fn plain_lines(rt: HostRuntime) -> Result<(), Fail> {
    for (line, expected) in &PLAIN {
        asks(&rt, rt.alloc(), line, expected)?;
    }
    Ok(())
}

/// Lines that are not plain.
const NOT_PLAIN: [&str; 89] = [
    "",
    "help",
    "--help",
    "--version",
    "-h",
    "Check A C",
    "check",
    "check A",
    "check A C C",
    "check A ",
    "check  C",
    "check -A C",
    "check A -",
    "check A C --workers 2",
    "checks A C",
    "solve",
    "solve A B",
    "solve ",
    "solve -",
    "solve --help",
    "group A 1 3",
    "group A 1 3 1 1",
    "group A 1 3 0",
    "group A 1 3 10001",
    "group A 1 3 0000010000",
    "group A 1 3 +1",
    "group A -1 3 1",
    "group A 1 1234567890 1",
    "group A 0000000001 3 1",
    "group A 1  1",
    "group A 1 x 1",
    "group A 1 3 1.0",
    "group A ٣ 3 1",
    "group -A 1 3 1",
    "judge A",
    "judge A J J",
    "judge A -J",
    "desk",
    "desk H S F B",
    "desk H S F B X X",
    "desk H S F B X --workers",
    "desk H S F B X --workers=2",
    "desk H S F B X --workers 17",
    "desk H S F B X --workers -1",
    "desk H S F B X --workers +2",
    "desk H S F B X --workers two",
    "desk H S F B X --workers ",
    "desk H S F B X --workers 0000000002",
    "desk H S F B X --worker 2",
    "desk H S F B X -w 2",
    "desk H S F B X --workers 2 --workers 2",
    "desk H S F B --workers 2 X",
    "desk --workers 2 H S F B X",
    "desk -- H S F B X",
    "desk -H S F B X",
    "desk H S F B -X",
    "desk H S  B X",
    "desk H S F B X --",
    "desk --help",
    "replay H S F B",
    "replay H S F B J --workers 2",
    "replay H S F B -J",
    "replay H -S F B J",
    "report H S F B",
    "report H S F B J J",
    "report  S F B J",
    "demo 0 1 1",
    "demo 0 1 1 1 1",
    "demo 0 0 1 1",
    "demo 0 401 1 1",
    "demo 0 1 10001 1",
    "demo 0 1 1 4001",
    "demo 1000000000 1 1 1",
    "demo -1 1 1 1",
    "demo x 1 1 1",
    "scenarios A",
    "scenarios A C C",
    "scenarios A -C",
    "sheet",
    "sheet A A",
    "sheet -A",
    "portfolio",
    "portfolio L 2",
    "portfolio L --workers",
    "portfolio L --workers 17",
    "portfolio --workers 2 L",
    "portfolio L --workers=2",
    "portfolio L --workers 2 2",
    "portfolio -L",
];

#[test]
fn words_that_are_not_plain(rt: HostRuntime) -> Result<(), Fail> {
    for line in &NOT_PLAIN {
        asks(&rt, rt.alloc(), line, USAGE)?;
    }
    let none: [String; 0] = [];
    let read = parse(rt.alloc(), &none);
    assert!(rt; matches!(read, Err(WordsError::Usage)));
    Ok(())
}

//! Lines of scenarios through the whole program.
use crate::files::PROBLEM;
use bp_edges::{HeldFile, MemoryShelf, MemorySink, NoGate};
use bp_run::run;
use std::alloc::{AllocError, Global};
use std::sync::Wait;
use std::test::Fail;
use std::thread::Threads;

/// Four scenarios of the problem: nothing, a room fewer, two fewer, and another rate.
const FOUR: &str = "scenarios 1
scenario
scenario
rooms 1 2 down 1
scenario
rooms 1 2 down 2
scenario
rate 0 200
end
";

/// Their answers.
const FOUR_ANSWERS: &str = "scenario 1 value 250 prices 0 100 40
scenario 2 value 140 prices 0 110 40
scenario 3 refused 1
scenario 4 value 340 prices 60 140 40
";

/// The files of the lines, each with its name.
const FILES: [(&str, &str); 7] = [
    ("A", PROBLEM),
    ("four", FOUR),
    ("none", "scenarios 1\nend\n"),
    ("no-stay", "scenarios 1\nscenario\ndemand 4 1\nend\n"),
    ("too-early", "scenarios 1\nrate 0 200\nend\n"),
    ("cut", "scenarios 1\nscenario\nend"),
    ("more", "scenarios 1\nend\n\n"),
];

/// A line, the fetch and the put that fail, where one does, the status and what is written.
const LINES: [(&str, u64, u64, u8, &str); 11] = [
    ("scenarios A four", 0, 0, 0, FOUR_ANSWERS),
    ("scenarios A none", 0, 0, 0, ""),
    ("scenarios A no-stay", 0, 0, 3, "refused 2 limit 3\n"),
    ("scenarios A too-early", 0, 0, 3, "refused 2 badline 2\n"),
    ("scenarios A cut", 0, 0, 3, "refused 2 tooshort\n"),
    ("scenarios A more", 0, 0, 3, "refused 2 trailing 3\n"),
    ("scenarios four A", 0, 0, 3, "refused 1 badline 1\n"),
    ("scenarios A absent", 0, 0, 4, "fault 2\n"),
    ("scenarios A four", 1, 0, 4, "fault 1\n"),
    ("scenarios A four", 2, 0, 4, "fault 2\n"),
    ("scenarios A four", 0, 1, 5, ""),
];

/// The words of a line, where one space parts two words.
fn words_of(alloc: Global, line: &str) -> Result<Vec<String>, AllocError> {
    let mut words = Vec::new(alloc);
    for word in line.split(' ') {
        words.push(String::from_str(alloc, word)?)?;
    }
    Ok(words)
}

/// The files, on a shelf that fails at one fetch.
fn shelf(alloc: Global, failing: u64) -> Result<MemoryShelf, AllocError> {
    let mut shelf = Vec::new(alloc);
    for (name, text) in &FILES {
        let name = String::from_str(alloc, name)?;
        let bytes = Vec::from_slice(alloc, text.as_bytes())?;
        shelf.push(HeldFile::new(name, bytes))?;
    }
    Ok(MemoryShelf::new(shelf, [failing].to_vec(alloc)?))
}

/// Whether the line has this status and writes this text, where one fetch and one put fail.
fn gives<R: Wait + Threads + Sync>(
    rt: &R,
    alloc: Global,
    line: &str,
    fetch: u64,
    put: u64,
    status: u8,
    text: &str,
) -> Result<bool, AllocError> {
    let words = words_of(alloc, line)?;
    let mut shelf = shelf(alloc, fetch)?;
    let mut sink = MemorySink::new([put].to_vec(alloc)?);
    let got = run(rt, alloc, &words, &mut shelf, &mut sink, &NoGate);
    Ok(got == status && sink.written() == text.as_bytes())
}

#[test]
fn each_line_of_scenarios_has_its_status_and_its_text(rt: HostRuntime) -> Result<(), Fail> {
    let alloc = rt.alloc();
    for (line, fetch, put, status, text) in &LINES {
        assert!(rt;
            gives(&rt, alloc, line, *fetch, *put, *status, text)?,
            "{line} {fetch} {put}"
        );
    }
    Ok(())
}

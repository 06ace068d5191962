//! Lines that one thread serves.
use crate::files::{CERTIFICATE, PROBLEM, files};
use crate::lines::{failing, not_served, served, usage};
use bp_edges::{HeldFile, MemoryShelf, MemorySink, NoGate};
use bp_run::run;
use std::alloc::{AllocError, Global};
use std::sync::Wait;
use std::test::Fail;
use std::thread::Threads;

/// The words of a line, where one space parts two words: two spaces stand around an empty word.
pub(crate) fn words_of(alloc: Global, line: &str) -> Result<Vec<String>, AllocError> {
    let mut words = Vec::new(alloc);
    if line.is_empty() {
        return Ok(words);
    }
    for word in line.split(' ') {
        words.push(String::from_str(alloc, word)?)?;
    }
    Ok(words)
}

/// A file in memory.
pub(crate) fn held(alloc: Global, name: &str, bytes: &[u8]) -> Result<HeldFile, AllocError> {
    let name = String::from_str(alloc, name)?;
    let bytes = Vec::from_slice(alloc, bytes)?;
    Ok(HeldFile::new(name, bytes))
}

/// The shared files, on a shelf that fails at one fetch.
fn shared(alloc: Global, failing: u64) -> Result<MemoryShelf, AllocError> {
    let mut shelf = Vec::new(alloc);
    for (name, text) in files() {
        shelf.push(held(alloc, name, text.as_bytes())?)?;
    }
    Ok(MemoryShelf::new(shelf, [failing].to_vec(alloc)?))
}

/// A problem under A and a certificate under C.
fn shelf(alloc: Global, problem: &[u8], certificate: &[u8]) -> Result<MemoryShelf, AllocError> {
    let mut shelf = Vec::new(alloc);
    shelf.push(held(alloc, "A", problem)?)?;
    shelf.push(held(alloc, "C", certificate)?)?;
    Ok(MemoryShelf::new(shelf, Vec::new(alloc)))
}

/// Whether the line has this status over the shelf and writes this text, where one put fails.
fn gives<R: Wait + Threads + Sync>(
    rt: &R,
    alloc: Global,
    line: &str,
    shelf: &mut MemoryShelf,
    failing: u64,
    status: u8,
    text: &str,
) -> Result<bool, AllocError> {
    let words = words_of(alloc, line)?;
    let mut sink = MemorySink::new([failing].to_vec(alloc)?);
    let got = run(rt, alloc, &words, shelf, &mut sink, &NoGate);
    Ok(got == status && sink.written() == text.as_bytes())
}

#[test]
fn each_line_has_its_status_and_its_text(rt: HostRuntime) -> Result<(), Fail> {
    let alloc = rt.alloc();
    for (line, status, text) in served() {
        let mut shelf = shared(alloc, 0)?;
        assert!(rt;
            gives(&rt, alloc, line, &mut shelf, 0, *status, text)?,
            "{line}"
        );
    }
    Ok(())
}

#[test]
fn other_lines_get_the_usage_text(rt: HostRuntime) -> Result<(), Fail> {
    let alloc = rt.alloc();
    for line in not_served() {
        let mut shelf = shared(alloc, 0)?;
        assert!(rt;
            gives(&rt, alloc, line, &mut shelf, 0, 2, usage())?,
            "{line}"
        );
    }
    Ok(())
}

#[test]
fn one_failing_fetch_or_write(rt: HostRuntime) -> Result<(), Fail> {
    let alloc = rt.alloc();
    for (line, fetch, put, status, text) in failing() {
        let mut shelf = shared(alloc, *fetch)?;
        assert!(rt;
            gives(&rt, alloc, line, &mut shelf, *put, *status, text)?,
            "{line}"
        );
    }
    Ok(())
}

#[test]
fn a_text_cut_after_any_byte_is_too_short(rt: HostRuntime) -> Result<(), Fail> {
    let alloc = rt.alloc();
    let problem = PROBLEM.as_bytes();
    let certificate = CERTIFICATE.as_bytes();
    for k in 0..problem.len() {
        let mut shelf = shelf(alloc, &problem[..k], certificate)?;
        assert!(rt;
            gives(
                &rt,
                alloc,
                "check A C",
                &mut shelf,
                0,
                3,
                "refused 1 tooshort\n"
            )?
        );
    }
    for k in 0..certificate.len() {
        let mut shelf = shelf(alloc, problem, &certificate[..k])?;
        assert!(rt;
            gives(
                &rt,
                alloc,
                "check A C",
                &mut shelf,
                0,
                3,
                "refused 2 tooshort\n"
            )?
        );
    }
    Ok(())
}

#[test]
fn a_file_of_16_mib_and_of_one_byte_more(rt: HostRuntime) -> Result<(), Fail> {
    let alloc = rt.alloc();
    let mut text = vec![in alloc; b'1'; 1 << 24]?;
    for line in ["refused 1 tooshort\n", "refused 1 toolong\n"] {
        let mut shelf = shelf(alloc, &text, b"")?;
        assert!(rt;
            gives(&rt, alloc, "check A C", &mut shelf, 0, 3, line)?,
            "{line}"
        );
        text.push(b'1')?;
    }
    Ok(())
}

/// A word between two texts, again and again.
fn filled(
    alloc: Global,
    front: &str,
    word: &str,
    times: u64,
    end: &str,
) -> Result<String, AllocError> {
    let mut text = String::from_str(alloc, front)?;
    for _ in 0..times {
        text.push_str(word)?;
    }
    text.push_str(end)?;
    Ok(text)
}

#[test]
fn the_longest_and_dearest_stay(rt: HostRuntime) -> Result<(), Fail> {
    let alloc = rt.alloc();
    let front = "problem 1\nnights 400\nrooms";
    let stay = "\nstays 1\nstay 0 400 1000000000 1000000\nend\n";
    let problem = filled(alloc, front, " 10000", 400, stay)?;
    let front = "certificate 1\nvalue 10000000000000\nsell 10000\nprices 1000000000";
    let optimum = filled(alloc, front, " 0", 399, "\nend\n")?;
    let mut shelf = shelf(alloc, problem.as_bytes(), b"")?;
    assert!(rt; gives(&rt, alloc, "solve A", &mut shelf, 0, 0, &optimum)?);
    Ok(())
}

//! Desks that run over files in memory, and the judge of their journals.
use crate::desk_files::{HEADER, SECOND_NIGHT, THREE_NIGHTS, scripts, settings, texts};
use crate::files::files;
use crate::tests::{held, words_of};
use bp_edges::{Gate, HeldFile, MemoryShelf, MemorySink, NoGate};
use bp_run::run;
use std::alloc::{AllocError, Global};
use std::sync::Wait;
use std::thread::Threads;

/// A text in three pieces.
fn joined(alloc: Global, front: &str, middle: &str, end: &str) -> Result<String, AllocError> {
    let mut text = String::from_str(alloc, front)?;
    text.push_str(middle)?;
    text.push_str(end)?;
    Ok(text)
}

/// The files of all hotels, with one more before them.
pub(crate) fn all_files(
    alloc: Global,
    name: &str,
    bytes: &[u8],
) -> Result<Vec<HeldFile>, AllocError> {
    let mut list = Vec::new(alloc);
    list.push(held(alloc, name, bytes)?)?;
    for (name, text) in files() {
        list.push(held(alloc, name, text.as_bytes())?)?;
    }
    for (name, text) in texts() {
        list.push(held(alloc, name, text.as_bytes())?)?;
    }
    for (name, middle) in settings() {
        let text = joined(alloc, THREE_NIGHTS, middle, SECOND_NIGHT)?;
        list.push(held(alloc, name, text.as_bytes())?)?;
    }
    for (name, records) in scripts() {
        let text = joined(alloc, HEADER, records, "")?;
        list.push(held(alloc, name, text.as_bytes())?)?;
    }
    Ok(list)
}

/// The status of a line and what it writes, where one fetch and one put fail.
pub(crate) fn served_over<R: Wait + Threads + Sync, G: Gate>(
    rt: &R,
    alloc: Global,
    line: &str,
    files: Vec<HeldFile>,
    fetch: u64,
    put: u64,
    gate: &G,
) -> Result<(u8, String), AllocError> {
    let words = words_of(alloc, line)?;
    let mut shelf = MemoryShelf::new(files, [fetch].to_vec(alloc)?);
    let mut sink = MemorySink::new([put].to_vec(alloc)?);
    let status = run(rt, alloc, &words, &mut shelf, &mut sink, gate);
    match str::from_utf8(sink.written()) {
        Ok(text) => Ok((status, String::from_str(alloc, text)?)),
        Err(_) => Ok((status, String::new(alloc))),
    }
}

/// The status and the journal of a desk with these files, script and workers.
pub(crate) fn desk<R: Wait + Threads + Sync, G: Gate>(
    rt: &R,
    alloc: Global,
    hotel: &str,
    script: &str,
    workers: u64,
    gate: &G,
) -> Result<(u8, String), AllocError> {
    let line = format!(in alloc; "desk {hotel} {script} --workers {workers}")?;
    let files = all_files(alloc, "", b"")?;
    served_over(rt, alloc, line.as_str(), files, 0, 0, gate)
}

/// Whether a journal is legal on the files of a hotel, with as many entries as it has.
pub(crate) fn is_legal<R: Wait + Threads + Sync>(
    rt: &R,
    alloc: Global,
    hotel: &str,
    journal: &str,
) -> Result<bool, AllocError> {
    let line = format!(in alloc; "replay {hotel} written")?;
    let files = all_files(alloc, "written", journal.as_bytes())?;
    let (status, text) = served_over(rt, alloc, line.as_str(), files, 0, 0, &NoGate)?;
    Ok(status == 0 && text.as_str() == legal_line(alloc, journal)?.as_str())
}

/// What `replay` says of a legal journal.
pub(crate) fn legal_line(alloc: Global, journal: &str) -> Result<String, AllocError> {
    let entries = entries_of(journal);
    format!(in alloc; "legal {entries}\n")
}

/// Whether a line of a journal begins an entry: with its place.
fn is_entry(line: &str) -> bool {
    matches!(line.as_bytes(), [b'0'..=b'9', ..])
}

/// How many entries a journal has.
fn entries_of(journal: &str) -> u64 {
    let mut entries: u64 = 0;
    for line in journal.lines() {
        if is_entry(line) {
            entries = entries.saturating_add(1);
        }
    }
    entries
}

/// What a caller's entries say behind its number, a line each.
pub(crate) fn acts_of(alloc: Global, journal: &str, caller: &str) -> Result<String, AllocError> {
    let mut acts = String::new(alloc);
    for line in journal.lines() {
        let mut words = line.splitn(3, ' ');
        let (Some(_), Some(by), Some(act)) = (words.next(), words.next(), words.next()) else {
            continue;
        };
        if is_entry(line) && by == caller {
            acts.push_str(act)?;
            acts.push('\n')?;
        }
    }
    Ok(acts)
}

//! Damaged files, and edges that fail.
use crate::damaged::{damages, headers, records, too_long};
use crate::desk_files::HEADER;
use crate::desks::{all_files, served_over};
use crate::files::THREE_CALLS;
use bp_edges::NoGate;
use std::alloc::{AllocError, Global};
use std::sync::Wait;
use std::test::Fail;
use std::thread::Threads;

/// Whether a line has this status and writes this text, where X is a file of these bytes.
pub(crate) fn gives<R: Wait + Threads + Sync>(
    rt: &R,
    alloc: Global,
    line: &str,
    bytes: &[u8],
    status: u8,
    text: &str,
) -> Result<bool, AllocError> {
    let files = all_files(alloc, "X", bytes)?;
    let (got, said) = served_over(rt, alloc, line, files, 0, 0, &NoGate)?;
    Ok(got == status && said.as_str() == text)
}

#[test]
fn each_record_of_a_script_is_refused_at_its_line(rt: HostRuntime) -> Result<(), Fail> {
    let alloc = rt.alloc();
    for (records, text) in records() {
        let mut script = String::from_str(alloc, HEADER)?;
        script.push_str(records)?;
        assert!(rt;
            gives(&rt, alloc, "desk two S F B X", script.as_bytes(), 3, text)?,
            "{records}"
        );
    }
    for (script, text) in headers() {
        assert!(rt;
            gives(&rt, alloc, "desk two S F B X", script.as_bytes(), 3, text)?,
            "{text}"
        );
    }
    Ok(())
}

#[test]
fn each_damaged_file_is_refused(rt: HostRuntime) -> Result<(), Fail> {
    let alloc = rt.alloc();
    for (line, bytes, text) in damages() {
        assert!(rt; gives(&rt, alloc, line, bytes, 3, text)?, "{line}: {text}");
    }
    let long = vec![in alloc; b'1'; (1 << 24) + 1]?;
    for (line, text) in too_long() {
        assert!(rt; gives(&rt, alloc, line, &long, 3, text)?, "{line}");
    }
    Ok(())
}

#[test]
fn a_journal_cut_after_any_byte_is_too_short(rt: HostRuntime) -> Result<(), Fail> {
    let alloc = rt.alloc();
    let Some(lines) = THREE_CALLS.strip_prefix("journal 2") else {
        return Err("the journal is of another version".into());
    };
    for version in ["journal 1", "journal 2"] {
        let mut journal = String::from_str(alloc, version)?;
        journal.push_str(lines)?;
        let journal = journal.as_bytes();
        for k in 0..journal.len() {
            assert!(rt;
                gives(
                    &rt,
                    alloc,
                    "replay two S F B X",
                    &journal[..k],
                    3,
                    "refused 5 tooshort\n"
                )?
            );
        }
        assert!(rt; gives(&rt, alloc, "replay two S F B X", journal, 0, "legal 8\n")?);
    }
    Ok(())
}

#[test]
fn each_fetch_of_a_desk_fails_in_turn(rt: HostRuntime) -> Result<(), Fail> {
    let alloc = rt.alloc();
    for fetch in 1..6u64 {
        let line = "desk two S F B three-calls --workers 0";
        let files = all_files(alloc, "", b"")?;
        let (status, said) = served_over(&rt, alloc, line, files, fetch, 0, &NoGate)?;
        assert_eq!(rt; status, 4);
        let fault = format!(in alloc; "fault {fetch}\n")?;
        assert_eq!(rt; said.as_str(), fault.as_str());
    }
    Ok(())
}

/// Up to the first put that the run does not make.
#[test]
fn each_write_of_a_desk_fails_in_turn(rt: HostRuntime) -> Result<(), Fail> {
    let alloc = rt.alloc();
    for put in 1..100u64 {
        let line = "desk two S F B three-calls --workers 0";
        let files = all_files(alloc, "", b"")?;
        let (status, said) = served_over(&rt, alloc, line, files, 0, put, &NoGate)?;
        if status == 0 {
            assert!(rt; put > 1);
            assert_eq!(rt; said.as_str(), THREE_CALLS);
            return Ok(());
        }
        assert_eq!(rt; status, 5);
        assert!(rt; THREE_CALLS.starts_with(said.as_str()), "{said}");
    }
    Err("the run makes a hundred puts".into())
}

//! Tests: each edge once with ample memory, readers and writers that move a byte at a time, and where they fail.
ghost use Rattle.std.specs.Prelude.{◌≤◌, IfOk};

use super::*;
use crate::out_sink::write_out;
use crate::reading::read_up_to;
use std::alloc::Global;
use std::io::{ErrorKind, Read, Write};
use std::test::Fail;
use std::{fs, io};

const MIB_16: usize = 1 << 24;

fn held(alloc: Global, name: &str, text: &str) -> Result<HeldFile, ShelfError> {
    let name = String::from_str(alloc, name)?;
    let bytes = Vec::from_slice(alloc, text.as_bytes())?;
    Ok(HeldFile::new(name, bytes))
}

const FAILED: &str = "(failed)";

const TOO_LONG: &str = "(too long)";

/// Whether a fetch through the bound gives this text, or the refusal that it names.
fn gives<S: Shelf>(shelf: &mut S, alloc: Global, name: &str, limit: u64, want: &[u8]) -> bool {
    match shelf.fetch(alloc, name, limit) {
        Ok(bytes) => bytes.as_slice() == want,
        Err(ShelfError::Failed) => want == FAILED.as_bytes(),
        Err(ShelfError::TooLong) => want == TOO_LONG.as_bytes(),
        Err(ShelfError::Memory) => false,
    }
}

const FILES: [(&str, &str); 3] = [("a", "one"), ("b", "two two"), ("a", "another")];

/// The name and the limit of each fetch, and what it gives. The second and the fifth are to fail.
const FETCHES: [(&str, u64, &str); 8] = [
    ("a", 100, "one"),
    ("a", 100, FAILED),
    ("a", 3, "one"),
    ("a", 2, TOO_LONG),
    ("b", 100, FAILED),
    ("c", 100, FAILED),
    ("b", 6, TOO_LONG),
    ("b", 7, "two two"),
];

#[test]
fn a_shelf_in_memory_fails_where_it_is_told_to(rt: HostRuntime) -> Result<(), Fail> {
    let alloc = rt.alloc();
    let mut files = Vec::new(alloc);
    for (name, text) in &FILES {
        files.push(held(alloc, name, text)?)?;
    }
    let mut shelf = MemoryShelf::new(files, [2, 5].to_vec(alloc)?);
    for (name, limit, want) in &FETCHES {
        assert!(rt;
            gives(&mut shelf, alloc, name, *limit, want.as_bytes()),
            "{name} up to {limit}"
        );
    }
    Ok(())
}

/// Each piece, and whether it is taken. The second and the fourth put are to fail.
const PUTS: [(&str, bool); 5] = [
    ("ab", true),
    ("cd", false),
    ("", true),
    ("ef", false),
    ("gh", true),
];

#[test]
fn a_sink_in_memory_fails_where_it_is_told_to(rt: HostRuntime) -> Result<(), Fail> {
    let alloc = rt.alloc();
    let mut sink = MemorySink::new([2, 4].to_vec(alloc)?);
    for (piece, taken) in &PUTS {
        assert!(rt;
            sink.put(alloc, piece.as_bytes()).is_ok() == *taken,
            "{piece}"
        );
    }
    assert!(rt; sink.written() == b"abgh".as_slice());
    Ok(())
}

#[test]
fn a_real_file_of_the_limit_and_of_one_byte_more(rt: HostRuntime) -> Result<(), Fail> {
    let alloc = rt.alloc();
    let mut text = vec![in alloc; 7u8; MIB_16 - 1]?;
    text.push(9)?;
    fs::write(&rt, "long-text", text.as_slice())?;
    let mut shelf = FileShelf::new(&rt);
    let limit = 1 << 24;
    assert!(rt;
        gives(&mut shelf, alloc, "long-text", limit, &text),
        "a file of the limit"
    );
    assert!(rt;
        gives(
            &mut shelf,
            alloc,
            "long-text",
            limit - 1,
            TOO_LONG.as_bytes()
        ),
        "one byte more"
    );
    assert!(rt;
        gives(&mut shelf, alloc, "no-such-file", limit, FAILED.as_bytes()),
        "an absent file"
    );
    assert!(rt;
        gives(&mut shelf, alloc, "long-text", u64::MAX, &text),
        "no limit"
    );
    fs::remove_file(&rt, "long-text")?;
    Ok(())
}

#[test]
fn standard_output_takes_a_piece(rt: HostRuntime) {
    let mut sink = OutSink::new(&rt);
    assert!(rt; sink.put(rt.alloc(), b"a piece\n").is_ok());
}

/// Moves a byte at a time, and then fails or ends.
#[derive(Drop)]
struct ByteByByte {
    left: u8,
    fails: bool,
}

impl ByteByByte {
    fn step(&mut self) -> io::Result<usize>
        ensures { IfOk result (λ n. n ≤ 1) }
    {
        if self.left > 0 {
            self.left -= 1;
            return Ok(1);
        }
        if self.fails {
            return Err(io::Error::from(ErrorKind::Other));
        }
        Ok(0)
    }
}

impl Read for ByteByByte {
    fn read(&mut self, buf: &mut [u8]) -> io::Result<usize> {
        if buf.is_empty() {
            return Ok(0);
        }
        let moved = self.step()?;
        buf[0] = self.left;
        Ok(moved)
    }
}

impl Write for ByteByByte {
    fn write(&mut self, buf: &[u8]) -> io::Result<usize> {
        if buf.is_empty() {
            return Ok(0);
        }
        self.step()
    }

    fn flush(&mut self) -> io::Result<()> {
        Ok(())
    }
}

/// How many bytes are left, whether an error follows, the limit, what is read, and whether reading went wrong.
const READS: [(u8, bool, u64, &[u8], bool); 4] = [
    (3, false, 9, b"\x02\x01\x00", false),
    (3, true, 9, b"\x02\x01\x00", true),
    (9, true, 1, b"\x08\x07", false),
    (0, true, 9, b"", true),
];

#[test]
fn reading_byte_by_byte(rt: HostRuntime) -> Result<(), Fail> {
    for (left, fails, limit, want, failed) in &READS {
        let mut file = ByteByByte {
            left: *left,
            fails: *fails,
        };
        let reading = read_up_to(rt.alloc(), &mut file, *limit)?;
        assert!(rt; reading.bytes.as_slice() == *want);
        assert!(rt; reading.failed == *failed);
    }
    Ok(())
}

/// How many bytes go out, whether an error follows, and whether three bytes are written.
const WRITES: [(u8, bool, bool); 3] = [(3, true, true), (2, false, false), (2, true, false)];

#[test]
fn writing_byte_by_byte(rt: HostRuntime) {
    for (left, fails, written) in &WRITES {
        let mut out = ByteByByte {
            left: *left,
            fails: *fails,
        };
        assert!(rt; write_out(&mut out, b"abc").is_ok() == *written);
    }
}

#[test]
fn no_gate_holds_nobody(rt: HostRuntime) {
    NoGate.arrive(&rt, 1, 1);
}

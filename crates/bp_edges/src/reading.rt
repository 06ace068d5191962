//! Bytes that were read from a file.
ghost use Rattle.std.specs.Prelude.{
  ◌≡◌,
  ◌+◌,
  ◌<◌,
  ◌≤◌,
  [],
  true,
  false,
  take,
  length,
  Some,
  IfOk,
  IfSome,
  IfNone,
  OnSome,
};
ghost use Rattle.std.specs.Option.{ForSome};
ghost use Rattle.std.specs.Io.KnownBytes.{IsAtEnd};
ghost use Rattle.bp_edges.specs.Reading.{TakesOver};
ghost use Rattle.bp_edges.specs.declared.reading.TheConstants.{PIECE};

use std::alloc::{AllocError, Global};
use std::io::Read;

/// How many bytes one read takes at most.
const PIECE: usize = 1 << 16;

/// The bytes that came, from the first on, and whether reading went wrong after them.
#[derive(Drop)]
pub struct Reading {
    /// What was read.
    pub bytes: Vec<u8>,
    /// Whether reading went wrong behind them.
    pub failed: bool,
}

impl Reading {
    /// Reading went wrong before the first byte.
    pub fn nothing(alloc: Global) -> Reading
        ensures bytes { result.bytes.items ≡ [] }
        ensures failed { result.failed ≡ true }
    {
        Reading {
            bytes: Vec::new(alloc),
            failed: true,
        }
    }
}

/// How many bytes to ask for where there may be this many below the last one.
fn piece_len(below: u64) -> usize
    ensures some { 1 ≤ result }
    ensures within { result ≤ below + 1 }
    ensures piece { result ≤ PIECE }
{
    if below < PIECE as u64 {
        below as usize + 1
    } else {
        PIECE
    }
}

/// Reads once into the piece, and keeps what came behind the bytes. How many came; None is an error of the file.
fn read_once<F: Read>(
    file: &mut F,
    piece: &mut [u8],
    bytes: &mut Vec<u8>,
) -> Result<Option<usize>, AllocError>
    ensures count { IfOk result (λ came. IfSome came (λ n. (n ≤ length piece.old)
        × (length bytes.new.items ≡ length bytes.old.items + n))) }
    ensures consumed { IfOk result (λ came. OnSome came (TakesOver (F.remaining file.old) (F.remaining file.new)
        bytes.old.items bytes.new.items)) }
    ensures end { IfOk result (λ came. came ≡ Some 0 → 0 < length piece.old → IsAtEnd (F.remaining file.new)) }
    ensures failed { IfOk result (λ came. IfNone came (bytes.new.items ≡ bytes.old.items)) }
{
    match file.read(piece) {
        Ok(taken) => {
            bytes.extend_from_slice(piece.split_at(taken).0)?;
            Ok(Some(taken))
        }
        Err(_) => Ok(None),
    }
}

/// Reads to the end, or to one byte past the limit, in pieces of at most 65,536 bytes. The one error is want of memory;
/// where the file went wrong, the reading says so.
pub fn read_up_to<F: Read>(alloc: Global, file: &mut F, limit: u64) -> Result<Reading, AllocError>
    ensures short { IfOk result (λ reading. length reading.bytes.items ≤ limit + 1) }
    ensures read { IfOk result (λ reading. reading.failed ≡ false →
        ForSome (F.remaining file.old) (λ text. reading.bytes.items ≡ take (limit + 1) text)) }
{
    let mut piece = [0u8; PIECE];
    let mut bytes = Vec::new(alloc);
    while bytes.len() as u64 <= limit {
        let room = piece_len(limit - bytes.len() as u64);
        match read_once(file, &mut piece[..room], &mut bytes)? {
            None => {
                return Ok(Reading {
                    bytes,
                    failed: true,
                });
            }
            Some(0) => {
                return Ok(Reading {
                    bytes,
                    failed: false,
                });
            }
            Some(_) => {}
        }
    }
    Ok(Reading {
        bytes,
        failed: false,
    })
}

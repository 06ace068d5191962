//! A shelf in memory of the texts of a call. It never fails at them.
ghost use Rattle.std.specs.Prelude.{◌≡◌, IfOk};
ghost use Rattle.bp_c.specs.Calls.{one_file, two_files};

use bp_edges::{HeldFile, MemoryShelf, Shelf};
use std::alloc::{AllocError, Global};

/// A file in memory: its name and its bytes.
fn held(alloc: Global, name: &str, bytes: &[u8]) -> Result<HeldFile, AllocError>
    ensures { IfOk result (λ file. file ≡ record { name = name.now; bytes = bytes.now }) }
{
    let name = String::from_str(alloc, name)?;
    let bytes = Vec::from_slice(alloc, bytes)?;
    Ok(HeldFile::new(name, bytes))
}

/// A shelf of one file with this text.
pub(crate) fn shelf_of_one(alloc: Global, first: &[u8]) -> Result<MemoryShelf, AllocError>
    ensures files { IfOk result (λ shelf. shelf.files ≡ one_file first.now) }
    ensures steady { IfOk result (λ shelf. ⟦<MemoryShelf as Shelf>⟧.steady shelf) }
{
    let mut files = Vec::new(alloc);
    files.push(held(alloc, "first", first)?)?;
    Ok(MemoryShelf::new(files, Vec::new(alloc)))
}

/// A shelf of two files with these texts.
pub(crate) fn shelf_of_two(
    alloc: Global,
    first: &[u8],
    second: &[u8],
) -> Result<MemoryShelf, AllocError>
    ensures files { IfOk result (λ shelf. shelf.files ≡ two_files first.now second.now) }
    ensures steady { IfOk result (λ shelf. ⟦<MemoryShelf as Shelf>⟧.steady shelf) }
{
    let mut files = Vec::new(alloc);
    files.push(held(alloc, "first", first)?)?;
    files.push(held(alloc, "second", second)?)?;
    Ok(MemoryShelf::new(files, Vec::new(alloc)))
}

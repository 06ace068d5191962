//! What a call with texts replies: the outcome of a task over files that hold them.
ghost use Rattle.std.specs.Prelude.{◌≡◌, List, IfOk};
ghost use Rattle.bp_edges.specs.Memory.{files_of};
ghost use Rattle.bp_cli.specs.Words.{Word};
ghost use Rattle.bp_cli.specs.Asked.{asked};
ghost use Rattle.bp_run.specs.Served.{IsPlainTask};
ghost use Rattle.bp_run.specs.Demo.{HasDemoNumbers};
ghost use Rattle.bp_inputs.specs.Stages.{HoldsFiles};
ghost use Rattle.bp_run.specs.Commands.{command_of};
ghost use Rattle.bp_c.specs.Calls.{one_file, two_files, IsGivenByTask, IsGivenByNone, RepliesToTask, RepliesToNone};

use crate::buffer::{NO_MEMORY, Reply, deliver};
use crate::shelf::{shelf_of_one, shelf_of_two};
use bp_cli::{Task, law};
use bp_edges::{MemoryShelf, MemorySink, Shelf};
use bp_run::{run_no_task, run_task};
use std::alloc::Global;

/// Does the task over the shelf, with its text in memory.
fn done(alloc: Global, task: &Task<'_>, shelf: MemoryShelf) -> Reply
    requires plain { IsPlainTask (asked task.now) }
    requires numbers { HasDemoNumbers (asked task.now) }
    requires there { HoldsFiles (files_of shelf.files) (command_of (asked task.now)).plan }
    requires steady { ⟦<MemoryShelf as Shelf>⟧.steady shelf }
    ensures { IsGivenByTask (asked task.now) shelf.files result.status result.out.written }
{
    law::tasks_are_unique();
    let mut shelf = shelf;
    let mut out = MemorySink::new(Vec::new(alloc));
    let status = run_task(alloc, task, &mut shelf, &mut out);
    Reply { status, out }
}

/// Does what is done of words that ask for no task, with its text in memory.
fn not_done(alloc: Global, shelf: &MemoryShelf) -> Reply
    requires { ⟦<MemoryShelf as Shelf>⟧.steady shelf.now }
    ensures { IsGivenByNone shelf.now.files result.status result.out.written }
{
    let mut out = MemorySink::new(Vec::new(alloc));
    let status = run_no_task(alloc, shelf, &mut out);
    Reply { status, out }
}

/// Replies to a task with one text.
pub(crate) fn reply_to_one(
    alloc: Global,
    task: &Task<'_>,
    first: &[u8],
    answer: &mut [u8],
    written: &mut u64,
) -> u32
    requires plain { IsPlainTask (asked task.now) }
    requires numbers { HasDemoNumbers (asked task.now) }
    requires there { HoldsFiles (files_of (one_file first.now)) (command_of (asked task.now)).plan }
    ensures { RepliesToTask (asked task.now) (one_file first.now) result answer.old answer.new written.old written.new }
{
    match shelf_of_one(alloc, first) {
        Ok(shelf) => deliver(&done(alloc, task, shelf), answer, written),
        Err(_) => NO_MEMORY,
    }
}

/// Replies to a task with two texts.
pub(crate) fn reply_to_two(
    alloc: Global,
    task: &Task<'_>,
    first: &[u8],
    second: &[u8],
    answer: &mut [u8],
    written: &mut u64,
) -> u32
    requires plain { IsPlainTask (asked task.now) }
    requires numbers { HasDemoNumbers (asked task.now) }
    requires there { HoldsFiles (files_of (two_files first.now second.now)) (command_of (asked task.now)).plan }
    ensures { RepliesToTask (asked task.now) (two_files first.now second.now)
        result answer.old answer.new written.old written.new }
{
    match shelf_of_two(alloc, first, second) {
        Ok(shelf) => deliver(&done(alloc, task, shelf), answer, written),
        Err(_) => NO_MEMORY,
    }
}

/// Replies to words that ask for no task, beside one text.
pub(crate) fn reply_to_none(
    alloc: Global,
    first: &[u8],
    answer: &mut [u8],
    written: &mut u64,
) -> u32
    ensures { RepliesToNone (one_file first.now) result answer.old answer.new written.old written.new }
{
    match shelf_of_one(alloc, first) {
        Ok(shelf) => deliver(&not_done(alloc, &shelf), answer, written),
        Err(_) => NO_MEMORY,
    }
}

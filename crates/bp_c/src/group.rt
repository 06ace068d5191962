//! The command of a group over a text and numbers.
ghost use Rattle.std.specs.Prelude.{◌↔◌, IsTrue};
ghost use Rattle.bp_c.specs.Calls.{Replies, group_line, one_file, AreGroupNumbers};

use crate::reply::{reply_to_none, reply_to_one};
use bp_cli::{Name, Task};
use bp_types::limits::MOST_GROUP_ROOMS;
use std::alloc::Global;

/// Numbers of a line have at most nine digits.
const NUMBERS: u32 = 1_000_000_000;

/// Whether a line may have these numbers of a group.
fn are_group_numbers(from: u32, to: u32, rooms: u64) -> bool
    ensures { IsTrue result ↔ AreGroupNumbers from to rooms }
{
    from < NUMBERS && to < NUMBERS && 1 <= rooms && rooms <= MOST_GROUP_ROOMS
}

/// Quotes a group of so many rooms from night `from` up to the morning of night `to`, as `bidprice group` does. Numbers
/// that no line may have give status 2 and the usage text, as there.
#[unsafe(no_mangle)]
pub extern "C" fn bidprice_group(
    alloc: Global,
    problem: &[u8],
    from: u32,
    to: u32,
    rooms: u64,
    answer: &mut [u8],
    written: &mut u64,
) -> u32
    ensures { Replies (group_line from to rooms) (one_file problem.now)
        result answer.old answer.new written.old written.new }
{
    if !are_group_numbers(from, to, rooms) {
        return reply_to_none(alloc, problem, answer, written);
    }
    let task = Task::Group {
        problem: Name::new("first"),
        from,
        to,
        rooms,
    };
    reply_to_one(alloc, &task, problem, answer, written)
}

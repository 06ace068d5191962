//! The commands over texts.
ghost use Rattle.std.specs.Prelude.{codes};
ghost use Rattle.bp_c.specs.Calls.{Replies, line_of_one, line_of_two, one_file, two_files};

use crate::reply::{reply_to_one, reply_to_two};
use bp_cli::{Name, Task};
use std::alloc::Global;

/// Checks the certificate against the problem, as `bidprice check` does with files of these texts.
///
/// The answer is the command's status, and the text that it writes stands at the front of the buffer; `written` is its
/// length. It is 6 without memory, and then nothing is written; 8 where the buffer is too short, and then only
/// `written` is, with the length that is needed. So it is of every call with texts.
#[unsafe(no_mangle)]
pub extern "C" fn bidprice_check(
    alloc: Global,
    problem: &[u8],
    certificate: &[u8],
    answer: &mut [u8],
    written: &mut u64,
) -> u32
    ensures { Replies (line_of_two (codes "check")) (two_files problem.now certificate.now)
        result answer.old answer.new written.old written.new }
{
    let task = Task::Check {
        problem: Name::new("first"),
        certificate: Name::new("second"),
    };
    reply_to_two(alloc, &task, problem, certificate, answer, written)
}

/// Solves the problem, as `bidprice solve` does with a file of this text: a certificate with the least prices.
#[unsafe(no_mangle)]
pub extern "C" fn bidprice_solve(
    alloc: Global,
    problem: &[u8],
    answer: &mut [u8],
    written: &mut u64,
) -> u32
    ensures { Replies (line_of_one (codes "solve")) (one_file problem.now)
        result answer.old answer.new written.old written.new }
{
    let task = Task::Solve {
        problem: Name::new("first"),
    };
    reply_to_one(alloc, &task, problem, answer, written)
}

/// Judges a journal of the problem's house, as `bidprice judge` does with files of these texts.
#[unsafe(no_mangle)]
pub extern "C" fn bidprice_judge(
    alloc: Global,
    problem: &[u8],
    journal: &[u8],
    answer: &mut [u8],
    written: &mut u64,
) -> u32
    ensures { Replies (line_of_two (codes "judge")) (two_files problem.now journal.now)
        result answer.old answer.new written.old written.new }
{
    let task = Task::Judge {
        problem: Name::new("first"),
        journal: Name::new("second"),
    };
    reply_to_two(alloc, &task, problem, journal, answer, written)
}

/// Answers scenarios of the problem, as `bidprice scenarios` does with files of these texts: the optimum and the least
/// prices after each list of changes, or the first change that the rooms do not allow.
///
/// The problem is solved once, and each list takes a restart, which costs what its changes move. It starts no thread.
#[unsafe(no_mangle)]
pub extern "C" fn bidprice_scenarios(
    alloc: Global,
    problem: &[u8],
    changes: &[u8],
    answer: &mut [u8],
    written: &mut u64,
) -> u32
    ensures { Replies (line_of_two (codes "scenarios")) (two_files problem.now changes.now)
        result answer.old answer.new written.old written.new }
{
    let task = Task::Scenarios {
        problem: Name::new("first"),
        changes: Name::new("second"),
    };
    reply_to_two(alloc, &task, problem, changes, answer, written)
}

/// Writes the sheet of the problem, as `bidprice sheet` does with a file of this text: the bands of each night, and
/// what a stay of each length has to pay.
#[unsafe(no_mangle)]
pub extern "C" fn bidprice_sheet(
    alloc: Global,
    problem: &[u8],
    answer: &mut [u8],
    written: &mut u64,
) -> u32
    ensures { Replies (line_of_one (codes "sheet")) (one_file problem.now)
        result answer.old answer.new written.old written.new }
{
    let task = Task::Sheet {
        problem: Name::new("first"),
    };
    reply_to_one(alloc, &task, problem, answer, written)
}

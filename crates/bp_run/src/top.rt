//! The whole program.
ghost use Rattle.std.specs.Prelude.{◌≤◌};
ghost use Rattle.bp_cli.specs.Words.{texts};
ghost use Rattle.bp_cli.specs.Asked.{asked};
ghost use Rattle.bp_run.specs.Served.{IsPlainTask, MayStartThreads};
ghost use Rattle.bp_run.specs.Demo.{HasDemoNumbers};
ghost use Rattle.bp_inputs.specs.Fetches.{over};
ghost use Rattle.bp_run.specs.Puts.{onto};
ghost use Rattle.bp_run.specs.Ends.{Serves, ServesTask, ServesNoTask};

use crate::outcome::{end_of, end_with_threads};
use crate::print::finish;
use crate::threads::may_start_threads;
use crate::{End, Status};
use bp_cert::law;
use bp_cli::{Task, WordsError, parse};
use bp_edges::{Gate, Shelf, Sink};
use bp_types::Memory;
use std::alloc::Global;
use std::sync::Wait;
use std::thread::Threads;

/// Does what the task asks for, and gives the number of its status.
///
/// Every text goes to the sink, refusals too. It starts no thread; these are the tasks that one thread can do.
pub fn run_task<S: Shelf, K: Sink>(alloc: Global, task: &Task<'_>, shelf: &mut S, out: &mut K) -> u8
    requires plain { IsPlainTask (asked task.now) }
    requires numbers { HasDemoNumbers (asked task.now) }
    ensures known { result ≤ 6 }
    ensures serves { ServesTask (asked task.now) (over S.held S.faults S.fetches S.last S.steady shelf.old shelf.new)
        (onto K.written K.faults K.steady out.old out.new) result }
{
    law::problems_have_one_spelling();
    law::certificates_have_one_spelling();
    bp_journal::law::journals_have_one_spelling();
    bp_scenarios::law::scenarios_have_one_spelling();
    bp_portfolio::law::lists_have_one_spelling();
    match end_of(alloc, task, shelf) {
        Ok(end) => finish(alloc, &end, out).number(),
        Err(Memory) => Status::NoMemory.number(),
    }
}

/// Does what is done of words that ask for no task: the usage text goes to the sink. The shelf is not asked.
pub fn run_no_task<S: Shelf, K: Sink>(alloc: Global, shelf: &S, out: &mut K) -> u8
    ensures known { result ≤ 6 }
    ensures serves { ServesNoTask (over S.held S.faults S.fetches S.last S.steady shelf.now shelf.now)
        (onto K.written K.faults K.steady out.old out.new) result }
{
    let end = End::NotPlain;
    finish(alloc, &end, out).number()
}

/// Does the line of these words, which stand behind the program's name, and gives the number of its status.
///
/// Every text goes to the sink, the usage text and refusals too. These are the lines that need no second thread.
#[tactic(auto, using(crate::proofs::EndLemmas::plain_task, crate::proofs::EndLemmas::demo_numbers, crate::proofs::EndLemmas::serves_nothing))]
pub fn run_plain<S: Shelf, K: Sink>(
    alloc: Global,
    words: &[String],
    shelf: &mut S,
    out: &mut K,
) -> u8
    requires { MayStartThreads (texts words.now) → ⊥ }
    ensures known { result ≤ 6 }
    ensures serves { Serves (texts words.now) (over S.held S.faults S.fetches S.last S.steady shelf.old shelf.new)
        (onto K.written K.faults K.steady out.old out.new) result }
{
    match parse(alloc, words) {
        Ok(task) => run_task(alloc, &task, shelf, out),
        Err(WordsError::Usage) => run_no_task(alloc, shelf, out),
        Err(WordsError::Memory) => Status::NoMemory.number(),
    }
}

/// Does the line of these words, which stand behind the program's name, and gives the number of its status.
///
/// Every text goes to the sink, the usage text and refusals too. The gate is passed by the callers of a desk.
pub fn run<R: Wait + Threads + Sync, S: Shelf, K: Sink, G: Gate>(
    rt: &R,
    alloc: Global,
    words: &[String],
    shelf: &mut S,
    out: &mut K,
    gate: &G,
) -> u8
    ensures known { result ≤ 7 }
    ensures serves { Serves (texts words.now) (over S.held S.faults S.fetches S.last S.steady shelf.old shelf.new)
        (onto K.written K.faults K.steady out.old out.new) result }
{
    law::problems_have_one_spelling();
    law::certificates_have_one_spelling();
    bp_journal::law::journals_have_one_spelling();
    bp_scenarios::law::scenarios_have_one_spelling();
    bp_portfolio::law::lists_have_one_spelling();
    if !may_start_threads(words) {
        return run_plain(alloc, words, shelf, out);
    }
    match end_with_threads(rt, alloc, words, shelf, gate) {
        Ok(end) => finish(alloc, &end, out).number(),
        Err(Memory) => Status::NoMemory.number(),
    }
}

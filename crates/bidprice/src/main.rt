//! The program: words from the system, files from the disk, text to standard output.
#![tactic(auto)]

ghost use Rattle.std.specs.Prelude.{◌≡◌, ◌⊎◌};
ghost use Rattle.bp_cli.specs.Words.{texts};
ghost use Rattle.bp_run.specs.Ends.{ServesUnseen};
ghost use Rattle.bp_run.specs.declared.status.Status.TheVariants.{NotPlain, NoMemory};

use bp_edges::{FileShelf, NoGate, OutSink};
use bp_run::Status;
use exit::Exit;
use std::env::Env;
use std::rt::Files;
use std::sync::Wait;
use std::thread::Threads;
use std::{env, io};

mod exit;

/// The words behind the program's name.
fn words<R: Env + AllocGlobal>(rt: &R) -> io::Result<Vec<String>> {
    let mut words = Vec::new(rt.alloc());
    for word in env::args(rt)?.skip(1) {
        words.push(word)?;
    }
    Ok(words)
}

/// The status where the system gives no words: there is no memory for them, or they are no text.
fn no_words(error: &io::Error) -> Status
    ensures { (result ≡ NotPlain) ⊎ (result ≡ NoMemory) }
{
    if error.kind() == io::ErrorKind::OutOfMemory {
        Status::NoMemory
    } else {
        Status::NotPlain
    }
}

/// Does the line of these words over real files and standard output, and gives the number of its status.
fn serve<R: Files + Print + AllocGlobal + Wait + Threads + Sync>(rt: &R, words: &[String]) -> u8
    ensures { ServesUnseen (texts words.now) result }
{
    let mut shelf = FileShelf::new(rt);
    let mut out = OutSink::new(rt);
    bp_run::run(rt, rt.alloc(), words, &mut shelf, &mut out, &NoGate)
}

/// Serves the words that the system gives, and ends with their status.
fn main(rt: HostRuntime) -> Exit {
    let number = match words(&rt) {
        Ok(words) => serve(&rt, &words),
        Err(error) => no_words(&error).number(),
    };
    Exit { number }
}

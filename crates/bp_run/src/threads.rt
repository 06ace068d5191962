//! The commands that may start threads.
ghost use Rattle.std.specs.Prelude.{◌↔◌, IsTrue};
ghost use Rattle.bp_cli.specs.Words.{texts};
ghost use Rattle.bp_run.specs.Served.{NamesThreads, MayStartThreads};

/// Whether this is a command that may start threads.
fn names_threads(command: &str) -> bool
    ensures { IsTrue result ↔ NamesThreads command.now }
{
    matches!(command, "desk" | "scenarios" | "portfolio")
}

/// Whether the first word is a command that may start threads.
pub fn may_start_threads(words: &[String]) -> bool
    ensures { IsTrue result ↔ MayStartThreads (texts words.now) }
{
    match words {
        [] => false,
        [first, ..] => names_threads(first.as_str()),
    }
}

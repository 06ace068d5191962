//! The whole program: from words and files to a status and a text.
//!
//! A line of words served with files and a sink in memory.
//!
//! ```
//! let got = run(rt, alloc, &words, &mut shelf, &mut sink, &NoGate);
//! ```
#![tactic(auto)]

mod commands;
mod end;
pub mod law;
mod lines;
mod outcome;
mod print;
mod refusals;
mod status;
mod threads;
mod top;

pub use commands::group::GroupAnswer;
pub use commands::judge::Ruling;
pub use commands::portfolio::Runs;
pub use commands::report::ReportAnswer;
pub use commands::scenarios::Outcomes;
pub use end::{Answer, End};
pub use status::Status;
pub use top::{run, run_no_task, run_plain, run_task};

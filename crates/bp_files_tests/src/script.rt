//! The script of a run, and the problem of a demo.
mod demo;
mod longest;
mod refusals;
mod sessions;

/// The header of a script.
const HEADER: &str = "session,verb,item,nights,rooms,amount\n";

//! Certificates: the checker, and the texts of problems and certificates.
//!
//! A certificate is written as it was read.
//!
//! ```
//! let certificate = read_certificate(alloc, &text)?;
//! let mut out = MemorySink::new(Vec::new(alloc));
//! write_certificate(alloc, &certificate, &mut out)?;
//! assert!(rt; out.written() == text.as_slice());
//! ```
#![tactic(auto)]

mod certificate_text;
mod claim_text;
pub mod law;
pub mod lines;
mod loads;
mod problem_text;
mod verdict;

pub use bp_text::TextError;
pub use certificate_text::{read_certificate, text_of_certificate, write_certificate};
pub use problem_text::read_problem;
pub use verdict::{Verdict, check};

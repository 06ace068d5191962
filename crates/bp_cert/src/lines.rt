//! Texts of lines: the parts that other kinds of text are made of, and the lines of a certificate among them.
pub use crate::claim_text::{certificate_lines, draft_claim, push_claim, write_certificate_lines};
pub use bp_text::{Lines, Number, number, write_text};

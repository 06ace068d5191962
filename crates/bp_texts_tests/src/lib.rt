//! Tests of the texts of lines, of problems and certificates, and of journals.
#![tactic(auto)]

#[cfg(test)]
mod cert;
#[cfg(test)]
mod journal;
#[cfg(test)]
mod lines;
#[cfg(test)]
mod text;

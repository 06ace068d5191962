//! Tests of displays, and a program for a library's user.
#![tactic(auto)]

#[cfg(test)]
mod evening;
#[cfg(test)]
mod lobby;
#[cfg(test)]
mod tests;

//! Tests of the answers to what-if questions: scenarios, and bands with sheets by length of stay.
#![tactic(auto)]

#[cfg(test)]
mod bands;
#[cfg(test)]
mod hotel;
#[cfg(test)]
mod scenarios;
#[cfg(test)]
mod sheets;

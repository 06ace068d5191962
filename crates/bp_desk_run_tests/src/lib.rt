//! Whole runs of a desk, in threads, each on one small hotel.
#![tactic(auto)]

#[cfg(test)]
mod runs;
#[cfg(test)]
mod tests;

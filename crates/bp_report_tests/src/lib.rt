//! Tests of the report: histories written by hand and judged, and what is printed of them.
#![tactic(auto)]

#[cfg(test)]
mod tests;

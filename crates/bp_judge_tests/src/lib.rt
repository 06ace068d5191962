//! Tests of the judge: journals of small houses, legal or with a cause at a place, worked out by hand from the rules.
#![tactic(auto)]

#[cfg(test)]
mod journals;
#[cfg(test)]
mod tests;
#[cfg(test)]
mod texts;

//! Tests of a book: the worked cases, and a table of calls with each reply worked out by hand from the rules.
#![tactic(auto)]

#[cfg(test)]
mod desk;
#[cfg(test)]
mod hotel;
#[cfg(test)]
mod hundred;
#[cfg(test)]
mod made;
#[cfg(test)]
mod rows;
#[cfg(test)]
mod tests;

//! Tests of the solver's crates: instances of two and three nights, worked out by hand or compared with a plain search.
#![tactic(auto)]

#[cfg(test)]
mod flow;
#[cfg(test)]
mod group;
#[cfg(test)]
mod instances;
#[cfg(test)]
mod paths;
#[cfg(test)]
mod residual;
#[cfg(test)]
mod small;
#[cfg(test)]
mod starts;
#[cfg(test)]
mod warm;

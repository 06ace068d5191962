//! Tests of the shared desk: the worked cases, a table of calls with each reply worked out by hand, and threads.
#![tactic(auto)]

#[cfg(test)]
mod calling;
#[cfg(test)]
mod day;
#[cfg(test)]
mod hotel;
#[cfg(test)]
mod lindenhof;
#[cfg(test)]
mod quoting;
#[cfg(test)]
mod tests;
#[cfg(test)]
mod threads;

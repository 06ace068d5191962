//! Tests of the files: the hotel file, its tables, and the script of a run.
#![tactic(auto)]

#[cfg(test)]
mod hotelfile;
#[cfg(test)]
mod script;
#[cfg(test)]
mod stayfile;
#[cfg(test)]
mod three_nights;

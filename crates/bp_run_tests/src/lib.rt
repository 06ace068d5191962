//! Tests of the whole program, over files and a sink in memory.
#![tactic(auto)]

#[cfg(test)]
mod changed;
#[cfg(test)]
mod damaged;
#[cfg(test)]
mod damaged_tests;
#[cfg(test)]
mod desk_files;
#[cfg(test)]
mod desk_lines;
#[cfg(test)]
mod desk_tests;
#[cfg(test)]
mod desks;
#[cfg(test)]
mod files;
#[cfg(test)]
mod gates;
#[cfg(test)]
mod lines;
#[cfg(test)]
mod month;
#[cfg(test)]
mod portfolios;
#[cfg(test)]
mod scenarios;
#[cfg(test)]
mod sheets_and_reports;
#[cfg(test)]
mod statuses;
#[cfg(test)]
mod tests;

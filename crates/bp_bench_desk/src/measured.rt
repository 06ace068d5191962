//! What a part of the program tells: a figure, and a number that depends neither on time nor on the order of threads.
use std::alloc::Global;
use std::test::Fail;

/// What was measured.
#[derive(Clone, Copy, Drop)]
pub(crate) struct Measured {
    pub(crate) name: &'static str,
    /// What depends on the machine: nanoseconds, or as the name says.
    pub(crate) figure: u128,
    /// What it came to, whatever the time and the order of the threads.
    pub(crate) count: u64,
}

/// One line.
pub(crate) fn one(
    alloc: Global,
    name: &'static str,
    figure: u128,
    count: u64,
) -> Result<Vec<Measured>, Fail> {
    let mut lines = Vec::new(alloc);
    lines.push(Measured {
        name,
        figure,
        count,
    })?;
    Ok(lines)
}

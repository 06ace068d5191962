//! The tables of stays, forecasts and bookings, and tables in general.
mod counts;
mod long_files;
mod rows;
mod stays_files;

use crate::three_nights::stay;
use bp_stayfile::Stays;
use std::process::Abort;

/// The header of a stays file.
const STAYS_HEADER: &str = "code,arrival,nights,rate\n";

/// The header of a forecast or a bookings file.
const COUNTS_HEADER: &str = "code,count\n";

/// Wants the four stays with their codes and these forecasts.
fn are_the_four(rt: &impl Abort, stays: &Stays, forecasts: [u64; 4]) {
    let [first, second, third, fourth] = forecasts;
    let expected = [
        stay(0, 2, 100, first),
        stay(1, 3, 150, second),
        stay(0, 1, 60, third),
        stay(2, 3, 40, fourth),
    ];
    assert_eq!(rt; stays.as_slice(), expected.as_slice());
    let codes = stays.codes();
    for (code, found) in [("P0", Some(0)), ("P3", Some(3)), ("p0", None), ("", None)] {
        assert_eq!(rt; codes.find(code), found);
    }
    assert_eq!(rt; codes.count(), 4);
    assert_eq!(rt; codes.code(2), "P2");
}

//! The hotel file: hotels that are read, and each refusal at its key or night.
mod hotels;
mod keys;
mod tables;

use crate::three_nights::joined;
use bp_hotelfile::{Hotel, HotelError, HotelRefusal, read_hotel};
use std::alloc::{AllocError, Global};

/// What is refused in a file of some lines and further ones behind them.
fn refusal(alloc: Global, lines: &str, more: &str) -> Result<Option<HotelRefusal>, AllocError> {
    let text = joined(alloc, lines, more)?;
    Ok(refused(read_hotel(alloc, text.as_bytes())))
}

/// The refusal of a file that is read.
fn refused(read: Result<Hotel, HotelError>) -> Option<HotelRefusal> {
    match read {
        Err(HotelError::Refused(refusal)) => Some(refusal),
        _ => None,
    }
}

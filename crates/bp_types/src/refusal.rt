//! The first limit that rooms and stays break.
ghost use Rattle.std.specs.Prelude.{◌≡◌, ◌<◌, ◌≤◌, length, nat_lt, not};
ghost use Rattle.std.specs.List.{position};
ghost use Rattle.bp_types.specs.declared.limits.TheConstants.{MOST_FORECAST};
ghost use Rattle.bp_types.specs.Spans.{is_within};
ghost use Rattle.bp_types.specs.Limits.{refusal_above, is_rate};

use crate::Stay;
use crate::limits::{MOST_FORECAST, MOST_NIGHTS, MOST_RATE, MOST_STAYS};
use thiserror::Error;

/// The first limit that an instance breaks, in the order of these variants, each at its first place.
#[derive(Clone, Copy, Debug, PartialEq, Eq, Error)]
pub enum InstanceError {
    /// There is no night.
    #[error("there is no night")]
    NoNights,
    /// More than 400 nights.
    #[error("there are more than {most} nights", most = MOST_NIGHTS)]
    TooManyNights,
    /// More than 4,000 stays.
    #[error("there are more than {most} stays", most = MOST_STAYS)]
    TooManyStays,
    /// More than 1,000,000 units on this night; of a house, more than 10,000 rooms.
    #[error("night {night} has too many rooms")]
    Rooms { night: u32 },
    /// The stay has no night, or one past the last.
    #[error("stay {stay} is not within the nights")]
    SpanOut { stay: u32 },
    /// The rate is 0, or above 1,000,000,000.
    #[error("the rate of stay {stay} is outside 1 to {most}", most = MOST_RATE)]
    Rate { stay: u32 },
    /// The forecast is above 1,000,000 units.
    #[error("the forecast of stay {stay} is above {most}", most = MOST_FORECAST)]
    Forecast { stay: u32 },
}

/// The first night with more rooms than these.
fn night_with_too_many_rooms(rooms: &[u64], most: u64) -> Option<usize>
    ensures { result ≡ position (λ r. nat_lt most r) rooms.now }
{
    rooms.iter().position(|r| *r > most)
}

/// The first stay that has no night, or one past the last.
fn stay_out_of_range(nights: usize, stays: &[Stay]) -> Option<usize>
    ensures { result ≡ position (λ s. not (is_within nights s.span)) stays.now }
{
    stays.iter().position(|s| !(s.span.from < s.span.to && s.span.to as usize <= nights))
}

/// The first stay whose rate is 0, or too great.
fn stay_of_wrong_rate(stays: &[Stay]) -> Option<usize>
    ensures { result ≡ position (λ s. not (is_rate s.rate)) stays.now }
{
    stays
        .iter()
        .position(|s| !(1 <= s.rate && s.rate <= MOST_RATE))
}

/// The first stay whose forecast is too great.
fn stay_of_great_forecast(stays: &[Stay]) -> Option<usize>
    ensures { result ≡ position (λ s. nat_lt MOST_FORECAST s.forecast) stays.now }
{
    stays.iter().position(|s| s.forecast > MOST_FORECAST)
}

/// The first limit that rooms and stays break, where a night has so many rooms at most. It takes the time of a look at
/// each night and each stay.
pub(crate) fn refusal_of(rooms: &[u64], stays: &[Stay], most: u64) -> Option<InstanceError>
    ensures { result ≡ refusal_above most rooms.now stays.now }
{
    if rooms.is_empty() {
        return Some(InstanceError::NoNights);
    }
    if rooms.len() > MOST_NIGHTS {
        return Some(InstanceError::TooManyNights);
    }
    if stays.len() > MOST_STAYS {
        return Some(InstanceError::TooManyStays);
    }
    if let Some(night) = night_with_too_many_rooms(rooms, most) {
        return Some(InstanceError::Rooms {
            night: night as u32,
        });
    }
    if let Some(stay) = stay_out_of_range(rooms.len(), stays) {
        return Some(InstanceError::SpanOut { stay: stay as u32 });
    }
    if let Some(stay) = stay_of_wrong_rate(stays) {
        return Some(InstanceError::Rate { stay: stay as u32 });
    }
    if let Some(stay) = stay_of_great_forecast(stays) {
        return Some(InstanceError::Forecast { stay: stay as u32 });
    }
    None
}

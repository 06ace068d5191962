//! The stays of a hotel with their codes.
ghost use Rattle.std.specs.Prelude.{◌≡◌, IfOk, List, None, length, map, slice_index_or};
ghost use Rattle.std.specs.List.{range_with_len};
ghost use Rattle.bp_types.specs.Program.{no_stay};
ghost use Rattle.bp_stayfile.specs.declared.counts.Counted.{Counted};
ghost use Rattle.bp_stayfile.specs.StayList.{IsStayList};
ghost use Rattle.bp_stayfile.specs.Forecasts.{forecast_by, with_forecasts};
ghost use Rattle.bp_stayfile.specs.LaidOut.{AreLaidOut};

use crate::Codes;
use bp_types::{Memory, Stay};
use std::alloc::Global;
use std::marker::Model;

/// The stays of a hotel with their codes, in the order of the stays file.
///
/// Contracts see within how many nights the stays are, the codes, and one stay for each code. Forecasts are in units.
#[derive(Drop)]
pub struct Stays {
    pub(crate) nights: u32,
    pub(crate) codes: Codes,
    pub(crate) stays: Vec<Stay>,
}

impl Model for Stays {
    ghost use Rattle.bp_stayfile.specs.StayList.{StayList, IsStayList};

    ghost Value = { StayList };

    ghost view = { λ a. record { nights = a.nights; codes = a.codes; stays = a.stays.items } };

    ghost invariant = { λ a. IsStayList (record { nights = a.nights; codes = a.codes; stays = a.stays.items }) };
}

/// Sets the forecast of each stay that has a count.
fn set_each(stays: &mut [Stay], counts: &[Option<u64>])
    requires { length counts.now ≡ length stays.old }
    ensures { stays.new ≡ map
        (λ j. forecast_by (slice_index_or counts.now j None) (slice_index_or stays.old j no_stay))
        (range_with_len 0 (length stays.old)) }
{
    for stay in 0..stays.len() {
        if let Some(count) = counts[stay] {
            stays[stay].forecast = count;
        }
    }
}

impl Stays {
    /// Within how many nights the stays are: the nights of their hotel.
    pub fn nights(&self) -> u32
        ensures value { result ≡ self.now.nights }
        ensures list { IsStayList self.now }
    {
        self.nights
    }

    /// The codes, one for each stay.
    pub fn codes(&self) -> &Codes
        ensures value { result.now ≡ self.now.codes }
        ensures list { IsStayList self.now }
    {
        &self.codes
    }

    /// The stays, one for each code.
    pub fn as_slice(&self) -> &[Stay]
        ensures value { result.now ≡ self.now.stays }
        ensures list { IsStayList self.now }
    {
        &self.stays
    }

    /// The stays without their codes.
    pub fn into_vec(self) -> Vec<Stay>
        ensures value { result.items ≡ self.stays }
        ensures list { IsStayList self }
    {
        self.stays
    }

    /// Sets the forecast of each stay that has a count.
    pub(crate) fn set_forecasts(&mut self, counts: &[Option<u64>])
        requires { (named : List Counted) × AreLaidOut (length self.old.codes) named counts.now }
        ensures { (named : List Counted) → AreLaidOut (length self.old.codes) named counts.now
            → self.new ≡ with_forecasts self.old named }
    {
        set_each(&mut self.stays, counts);
    }

    /// The same stays with the same codes. The one error is `Memory`.
    pub fn copy(&self, alloc: Global) -> Result<Stays, Memory>
        ensures { IfOk result (λ s. s ≡ self.now) }
    {
        let codes = self.codes.copy(alloc)?;
        let stays = Vec::from_slice(alloc, &self.stays)?;
        Ok(Stays {
            nights: self.nights,
            codes,
            stays,
        })
    }
}

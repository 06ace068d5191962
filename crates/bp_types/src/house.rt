//! The house: a hotel as its desk opens, which keeps to every limit, and the first limit that one breaks.
ghost use Rattle.std.specs.Prelude.{◌≡◌, ◌<◌, ◌-◌, ◌≤◌, length, map, nat_lt, slice_index, MatchResult, IfOk, IsTrue};
ghost use Rattle.std.specs.List.{find, range_with_len};
ghost use Rattle.bp_types.specs.declared.limits.TheConstants.{MOST_NIGHTS};
ghost use Rattle.bp_types.specs.Program.{no_stay};
ghost use Rattle.bp_types.specs.House.{
  Inn,
  IsHouse,
  house_refusal,
  limits_refusal,
  sold_refusal,
  is_from_one,
  is_oversold,
  units_left,
  opening,
};
ghost use Rattle.std.specs.Prelude.{slice_index_or};

use crate::limits::{HUNDREDTHS, MOST_ENTRIES, MOST_PUBLICATIONS, MOST_ROOMS, MOST_STALE_AFTER};
use crate::refusal::refusal_of;
use crate::{Instance, InstanceError, Limits, Memory, Stay};
use std::alloc::Global;
use std::marker::Model;
use thiserror::Error;

/// The first limit that a house breaks, in the order of these variants, each at its first place.
#[derive(Clone, Copy, Debug, PartialEq, Eq, Error)]
pub enum HouseError {
    /// A limit of the instance, whose nights have 10,000 whole rooms at most.
    #[error("{0}")]
    Instance(InstanceError),
    /// Not one number of sold rooms per night.
    #[error("there is not one sold number per night")]
    SoldLength,
    /// More rooms sold on this night than there are.
    #[error("night {night} has more rooms sold than it has")]
    Sold { night: u32 },
    /// The number of changes after which a booking waits is 0, or above 100,000.
    #[error("the number of changes to wait for is outside 1 to 100000")]
    StaleAfter,
    /// The greatest number of command entries is 0, or above 200,000.
    #[error("the number of entries is outside 1 to 200000")]
    Entries,
    /// The greatest number of vectors is 0, or above 1,000.
    #[error("the number of publications is outside 1 to 1000")]
    Publications,
    /// The unit is neither 1 nor 100.
    #[error("the unit is neither 1 nor 100")]
    Unit,
}

/// A hotel as its desk opens: rooms and rooms sold by night, in whole rooms, the stays, and the limits.
///
/// Contracts see these three lists and the limits. The forecasts of the stays are in units.
#[derive(Debug, Drop)]
pub struct House {
    rooms: Vec<u64>,
    sold: Vec<u64>,
    stays: Vec<Stay>,
    limits: Limits,
}

impl Model for House {
    ghost use Rattle.bp_types.specs.House.{Inn, IsHouse};

    ghost Value = { Inn };

    ghost view = { λ h. record { rooms = h.rooms.items; sold = h.sold.items; stays = h.stays.items; limits = h.limits } };

    ghost invariant = { λ h. IsHouse (record {
      rooms = h.rooms.items;
      sold = h.sold.items;
      stays =
          h.stays.items;
      limits = h.limits;
    }) };
}

impl House {
    /// The house of these rooms, sold rooms, stays and limits, or the first limit that they break. `rooms` and `sold`
    /// have one number per night, in whole rooms; the forecasts of the stays are in units. It takes no memory, and the
    /// time of a look at each night and each stay.
    pub fn new(
        rooms: Vec<u64>,
        sold: Vec<u64>,
        stays: Vec<Stay>,
        limits: Limits,
    ) -> Result<House, HouseError>
        ensures made { MatchResult result
            (λ h. (h ≡ record { rooms = rooms.items; sold = sold.items; stays = stays.items; limits = limits }) ×
            (house_refusal rooms.items sold.items stays.items limits ≡ None))
            (λ e. house_refusal rooms.items sold.items stays.items limits ≡ Some e) }
    {
        match house_refusal_of(&rooms, &sold, &stays, limits) {
            Some(error) => Err(error),
            None => Ok(House {
                rooms,
                sold,
                stays,
                limits,
            }),
        }
    }

    /// The program of the house in its units: what is left of the rooms, and the stays. It takes the time of the nights
    /// and the stays; the one error is `Memory`.
    pub fn instance(&self, alloc: Global) -> Result<Instance, Memory>
        ensures { IfOk result (λ p. p ≡ opening self.now) }
    {
        let rooms = self.rooms_left(alloc)?;
        let stays = Vec::from_slice(alloc, &self.stays)?;
        Ok(Instance::within(rooms, stays))
    }

    /// The units left on each night, one number per night.
    fn rooms_left(&self, alloc: Global) -> Result<Vec<u64>, Memory>
        ensures { IfOk result (λ v. v.items ≡ map (units_left self.now) (range_with_len 0 (length self.now.rooms))) }
    {
        let mut left = Vec::new(alloc);
        for night in 0..self.nights() {
            left.push(self.units_left(night))?;
        }
        Ok(left)
    }

    /// The units left on a night.
    fn units_left(&self, night: u32) -> u64
        requires { night < length self.now.rooms }
        ensures { result ≡ units_left self.now night }
    {
        self.limits.unit * (self.rooms[night as usize] - self.sold[night as usize])
    }

    /// What bounds the history, and the unit.
    pub fn limits(&self) -> Limits
        ensures value { result ≡ self.now.limits }
        ensures house { IsHouse self.now }
    {
        self.limits
    }

    /// How many nights there are.
    pub fn nights(&self) -> u32
        ensures value { result ≡ length self.now.rooms }
        ensures house { IsHouse self.now }
    {
        self.rooms.len() as u32
    }

    /// How many stays there are.
    pub fn stays(&self) -> u32
        ensures value { result ≡ length self.now.stays }
        ensures house { IsHouse self.now }
    {
        self.stays.len() as u32
    }

    /// The rooms of a night, in whole rooms.
    pub fn rooms(&self, night: u32) -> u64
        requires { night < length self.now.rooms }
        ensures { result ≡ slice_index self.now.rooms night }
    {
        self.rooms[night as usize]
    }

    /// The rooms of a night that are sold at the opening, in whole rooms.
    pub fn sold(&self, night: u32) -> u64
        requires { night < length self.now.rooms }
        ensures { result ≡ slice_index self.now.sold night }
    {
        self.sold[night as usize]
    }

    /// A stay by its number, from 0.
    pub fn stay(&self, stay: u32) -> Stay
        requires { stay < length self.now.stays }
        ensures { result ≡ slice_index_or self.now.stays stay no_stay }
    {
        self.stays[stay as usize]
    }
}

/// Whether a number is from 1 up to the greatest.
fn is_from_one(most: u64, number: u64) -> bool
    ensures { result ≡ is_from_one most number }
{
    1 <= number && number <= most
}

/// The first night with more rooms sold than it has.
fn oversold_night(rooms: &[u64], sold: &[u64]) -> Option<u32>
    requires one_each { length sold.now ≡ length rooms.now }
    requires short { length rooms.now ≤ MOST_NIGHTS }
    ensures { result ≡ find (is_oversold rooms.now sold.now) (range_with_len 0 (length rooms.now)) }
{
    for night in 0..rooms.len() {
        if rooms[night] < sold[night] {
            return Some(night as u32);
        }
    }
    None
}

/// What is wrong with the rooms sold.
fn sold_refusal_of(rooms: &[u64], sold: &[u64]) -> Option<HouseError>
    requires { length rooms.now ≤ MOST_NIGHTS }
    ensures { result ≡ sold_refusal rooms.now sold.now }
{
    if sold.len() != rooms.len() {
        return Some(HouseError::SoldLength);
    }
    if let Some(night) = oversold_night(rooms, sold) {
        return Some(HouseError::Sold { night });
    }
    None
}

/// The first limit that the limits of a desk break themselves.
fn limits_refusal_of(limits: Limits) -> Option<HouseError>
    ensures { result ≡ limits_refusal limits }
{
    if !is_from_one(MOST_STALE_AFTER, limits.stale_after) {
        return Some(HouseError::StaleAfter);
    }
    if !is_from_one(MOST_ENTRIES, limits.entries) {
        return Some(HouseError::Entries);
    }
    if !is_from_one(MOST_PUBLICATIONS, limits.publications) {
        return Some(HouseError::Publications);
    }
    if limits.unit != 1 && limits.unit != HUNDREDTHS {
        return Some(HouseError::Unit);
    }
    None
}

/// The first limit that a house breaks: its instance's, then those of the rooms sold, then the desk's.
fn house_refusal_of(
    rooms: &[u64],
    sold: &[u64],
    stays: &[Stay],
    limits: Limits,
) -> Option<HouseError>
    ensures { result ≡ house_refusal rooms.now sold.now stays.now limits }
{
    if let Some(error) = refusal_of(rooms, stays, MOST_ROOMS) {
        return Some(HouseError::Instance(error));
    }
    if let Some(error) = sold_refusal_of(rooms, sold) {
        return Some(error);
    }
    limits_refusal_of(limits)
}

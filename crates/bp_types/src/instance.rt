//! The instance: rooms by night and stays within their limits, the worth of an allocation, and the bound of prices.
ghost use Rattle.std.specs.Prelude.{◌≡◌, ℕ, ◌^◌, ◌<◌, ◌≤◌, ◌*◌, ◌-◌, length, slice_index, MatchResult, IfOk};
ghost use Rattle.bp_types.specs.Program.{Program, stay_at, load, worth, bound, rooms_value, stays_value};
ghost use Rattle.bp_types.specs.Limits.{refusal, IsWithinLimits};
ghost use Rattle.bp_types.specs.Changes.{changed, Fits};
ghost use Rattle.bp_types.specs.Prices.{SumUp};

use crate::change::move_rooms;
use crate::limits::MOST_UNITS;
use crate::prices::PriceSums;
use crate::refusal::refusal_of;
use crate::{Change, InstanceError, Memory, Stay};
use std::alloc::Global;
use std::marker::Model;

/// The rooms of each night and the stays, every value within its limit.
///
/// Contracts see two lists: rooms, one number per night in units, and stays.
#[derive(Debug, Drop)]
pub struct Instance {
    rooms: Vec<u64>,
    stays: Vec<Stay>,
}

impl Model for Instance {
    ghost use Rattle.bp_types.specs.Program.{Program};
    ghost use Rattle.bp_types.specs.Limits.{IsWithinLimits};

    ghost Value = { Program };

    ghost view = { λ a. record { rooms = a.rooms.items; stays = a.stays.items } };

    ghost invariant = { λ a. IsWithinLimits (record { rooms = a.rooms.items; stays = a.stays.items }) };
}

impl Instance {
    /// The instance of these rooms and stays, or the first limit that they break: `rooms` has one number per night, in
    /// units. It takes no memory, and the time of a look at each night and each stay.
    pub fn new(rooms: Vec<u64>, stays: Vec<Stay>) -> Result<Instance, InstanceError>
        ensures made { MatchResult result
            (λ p. (p.rooms ≡ rooms.items) × (p.stays ≡ stays.items) × (refusal rooms.items stays.items ≡ None))
            (λ e. refusal rooms.items stays.items ≡ Some e) }
    {
        match refusal_of(&rooms, &stays, MOST_UNITS) {
            Some(error) => Err(error),
            None => Ok(Instance { rooms, stays }),
        }
    }

    /// The instance of rooms and stays that are known to keep to the limits. Nothing is tested.
    pub fn within(rooms: Vec<u64>, stays: Vec<Stay>) -> Instance
        requires { IsWithinLimits (record { rooms = rooms.items; stays = stays.items }) }
        ensures { result ≡ record { rooms = rooms.items; stays = stays.items } }
    {
        Instance { rooms, stays }
    }

    /// How many nights there are.
    pub fn nights(&self) -> u32
        ensures value { result ≡ length self.now.rooms }
        ensures limits { IsWithinLimits self.now }
    {
        self.rooms.len() as u32
    }

    /// How many stays there are.
    pub fn stays(&self) -> u32
        ensures value { result ≡ length self.now.stays }
        ensures limits { IsWithinLimits self.now }
    {
        self.stays.len() as u32
    }

    /// The rooms of a night, in units.
    pub fn rooms(&self, night: u32) -> u64
        requires { night < length self.now.rooms }
        ensures { result ≡ slice_index self.now.rooms night }
    {
        self.rooms[night as usize]
    }

    /// A stay by its number, from 0.
    pub fn stay(&self, stay: u32) -> Stay
        requires { stay < length self.now.stays }
        ensures { result ≡ stay_at self.now stay }
    {
        self.stays[stay as usize]
    }

    /// A copy, the same in every value. It takes the time of the nights and the stays; the one error is `Memory`.
    pub fn copy(&self, alloc: Global) -> Result<Instance, Memory>
        ensures { IfOk result (λ p. p ≡ self.now) }
    {
        let rooms = Vec::from_slice(alloc, &self.rooms)?;
        let stays = Vec::from_slice(alloc, &self.stays)?;
        Ok(Instance { rooms, stays })
    }

    /// Makes one change, which keeps to the limits. One of rooms takes the time of the span's nights; the others write
    /// one number.
    pub fn apply(&mut self, change: Change)
        requires { Fits self.old change }
        ensures changed { self.new ≡ changed self.old change }
        ensures limits { IsWithinLimits self.new }
    {
        match change {
            Change::Rooms { span, up, units } => move_rooms(&mut self.rooms, span, up, units),
            Change::Demand { stay, value } => self.stays[stay as usize].forecast = value,
            Change::Rate { stay, value } => self.stays[stay as usize].rate = value,
        }
        let _nights = self.nights();
    }

    /// What an allocation takes of a night, in units: `sell` has one number per stay. It takes the time of the stays.
    pub fn load(&self, sell: &[u64], night: u32) -> u128
        requires { length sell.now ≡ length self.now.stays }
        ensures { result ≡ load self.now sell.now night }
    {
        let mut sum: u128 = 0;
        for stay in 0..self.stays.len() {
            if self.stays[stay].span.covers(night) {
                sum += u128::from(sell[stay]);
            }
        }
        sum
    }

    /// The revenue of an allocation, in minor units of money times the unit: `sell` has one number per stay. It takes
    /// the time of the stays.
    pub fn worth(&self, sell: &[u64]) -> u128
        requires { length sell.now ≡ length self.now.stays }
        ensures { result ≡ worth self.now sell.now }
    {
        let mut sum: u128 = 0;
        for stay in 0..self.stays.len() {
            sum += u128::from(self.stays[stay].rate) * u128::from(sell[stay]);
        }
        sum
    }

    /// The dual value of bid prices, in minor units of money times the unit: `prices` has one number per night. By weak
    /// duality no feasible allocation, whole or fractional, is worth more. Its time grows with nights plus stays.
    pub fn bound_of(&self, prices: &[u64]) -> u128
        requires { length prices.now ≡ length self.now.rooms }
        ensures { result ≡ bound self.now prices.now }
    {
        self.rooms_value(prices) + self.stays_value(prices)
    }

    /// The rooms of all nights at their prices.
    fn rooms_value(&self, prices: &[u64]) -> u128
        requires { length prices.now ≡ length self.now.rooms }
        ensures value { result ≡ rooms_value self.now prices.now }
        ensures fits { result < 2 ^ 100 }
    {
        let mut sum: u128 = 0;
        for night in 0..self.rooms.len() {
            sum += u128::from(self.rooms[night]) * u128::from(prices[night]);
        }
        sum
    }

    /// The forecasts of all stays at their surpluses.
    fn stays_value(&self, prices: &[u64]) -> u128
        requires { length prices.now ≡ length self.now.rooms }
        ensures value { result ≡ stays_value self.now prices.now }
        ensures fits { result < 2 ^ 100 }
    {
        let stays = self.stays() as usize;
        let sums = PriceSums::of(prices);
        let mut sum: u128 = 0;
        for stay in 0..stays {
            sum += self.surplus_value(&sums, stay);
        }
        sum
    }

    /// The forecast of a stay at the part of its rate above the price of its nights.
    fn surplus_value(&self, sums: &PriceSums, stay: usize) -> u128
        requires { stay < length self.now.stays }
        ensures value { result ≡
            (stay_at self.now stay).forecast *
            ((stay_at self.now stay).rate -
            (slice_index sums.now.sums (stay_at self.now stay).span.from - slice_index sums.now.sums
            (stay_at self.now stay).span.to)) }
        ensures fits { result ≤ 2 ^ 50 }
    {
        let stay = self.stays[stay];
        let over = u128::from(stay.rate).saturating_sub(sums.price(stay.span));
        u128::from(stay.forecast) * over
    }
}

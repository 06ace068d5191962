//! A certificate: a value, an allocation and bid prices that are said to certify each other.
ghost use Rattle.std.specs.Prelude.{◌≡◌, IfOk};

use crate::Memory;
use std::alloc::Global;
use std::marker::Model;

/// An allocation and bid prices, with the value that both are said to have.
///
/// Contracts see a number and two lists. All are whole numbers, and these suffice: a stay takes nights in a row, so the
/// matrix of the program, a row a night and a column a stay, has consecutive ones in each column. Such an interval
/// matrix is totally unimodular, so whole rooms and forecasts have a whole optimal allocation, and whole rates whole
/// optimal prices.
#[derive(Debug, Drop)]
pub struct Certificate {
    /// In minor units of money, times the unit of the instance.
    pub value: u128,
    /// How many units of each stay are sold, one number per stay.
    pub sell: Vec<u64>,
    /// The bid price of each night, one number per night, in minor units of money.
    pub prices: Vec<u64>,
}

impl Model for Certificate {
    ghost use Rattle.bp_types.specs.Claim.{Claim};

    ghost Value = { Claim };

    ghost view = { λ a. record { value = a.value; sell = a.sell.items; prices = a.prices.items } };
}

impl Certificate {
    /// A copy, the same in every value. It takes the time of the two lists; the one error is `Memory`.
    pub fn copy(&self, alloc: Global) -> Result<Certificate, Memory>
        ensures { IfOk result (λ c. c ≡ self.now) }
    {
        let sell = Vec::from_slice(alloc, &self.sell)?;
        let prices = Vec::from_slice(alloc, &self.prices)?;
        Ok(Certificate {
            value: self.value,
            sell,
            prices,
        })
    }
}

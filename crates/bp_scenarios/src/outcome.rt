//! What a scenario comes to.
ghost use Rattle.std.specs.Prelude.{◌≡◌};

use std::marker::Model;

/// The bid price of each night, in minor units of money.
///
/// Contracts see their list.
#[derive(Debug, Drop)]
pub struct Prices {
    list: Vec<u64>,
}

impl Model for Prices {
    ghost use Rattle.std.specs.Prelude.{List, ℕ};

    ghost Value = { List ℕ };

    ghost view = { λ p. p.list.items };
}

impl Prices {
    /// These prices, one for each night.
    pub(crate) fn new(list: Vec<u64>) -> Prices
        ensures { result ≡ list.items }
    {
        Prices { list }
    }

    /// The prices, one for each night.
    pub fn list(&self) -> &[u64]
        ensures { result.now ≡ self.now }
    {
        &self.list
    }
}

/// What is answered to a list of changes.
#[derive(Debug, Drop)]
pub enum Outcome {
    /// The optimum after the changes, in minor units of money, and the least optimal prices.
    Solved { value: u128, prices: Prices },
    /// The first change, counted from 1, after which a night would have fewer rooms than none or more than 10,000.
    Refused { change: u32 },
}

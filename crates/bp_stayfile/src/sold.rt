//! The rooms that are sold of each night.
ghost use Rattle.std.specs.Prelude.{◌≡◌};

use std::marker::Model;

/// The rooms that are sold of each night, in whole rooms.
///
/// Contracts see a list of numbers, one per night.
#[derive(Debug, Drop)]
pub struct Sold {
    pub(crate) rooms: Vec<u64>,
}

impl Model for Sold {
    ghost use Rattle.std.specs.Prelude.{List, ℕ};

    ghost Value = { List ℕ };

    ghost view = { λ a. a.rooms.items };
}

impl Sold {
    /// The rooms sold, one number per night.
    pub fn as_slice(&self) -> &[u64]
        ensures { result.now ≡ self.now }
    {
        &self.rooms
    }

    /// The same as a vector.
    pub fn into_vec(self) -> Vec<u64>
        ensures { result.items ≡ self }
    {
        self.rooms
    }
}

//! The codes of a hotel's stays.
ghost use Rattle.std.specs.Prelude.{◌≡◌, ◌<◌, ◌++◌, ◌∷◌, [], length, slice_index_or, OnOk, IfOk, None};
ghost use Rattle.bp_stayfile.specs.Codes.{stay_with, IsCodes};

use bp_types::Memory;
use bp_types::limits::MOST_STAYS;
use indexmap::IndexSet;
use std::alloc::Global;
use std::marker::Model;

/// The codes of a hotel's stays, in the order of the stays file: a stay's number is its code's place.
///
/// Contracts see a list of distinct codes.
#[derive(Drop)]
pub struct Codes {
    codes: IndexSet<String>,
}

impl Model for Codes {
    ghost use Rattle.std.specs.Prelude.{List, ℕ, map, string_bytes};
    ghost use Rattle.bp_stayfile.specs.Codes.{IsCodes};

    ghost Value = { List (List ℕ) };

    ghost view = { λ a. map string_bytes a.codes.keys };

    ghost invariant = { λ a. IsCodes (map string_bytes a.codes.keys) };
}

impl Codes {
    /// No codes.
    pub(crate) fn new(alloc: Global) -> Codes
        ensures { result ≡ [] }
    {
        Codes {
            codes: IndexSet::new(alloc),
        }
    }

    /// How many codes there are.
    pub fn count(&self) -> u32
        ensures value { result ≡ length self.now }
        ensures codes { IsCodes self.now }
    {
        self.codes.len() as u32
    }

    /// The stay that has this code, if one has; stays are numbered from 0.
    pub fn find(&self, code: &str) -> Option<u32>
        ensures { result ≡ stay_with self.now code.now }
    {
        match self.codes.get_index_of(code) {
            Some(stay) => Some(stay as u32),
            None => None,
        }
    }

    /// The code of a stay.
    pub fn code(&self, stay: u32) -> &str
        requires { stay < length self.now }
        ensures { result.now ≡ slice_index_or self.now stay [] }
    {
        match self.codes.get_index(stay as usize) {
            Some(code) => code.as_str(),
            None => unreachable!(),
        }
    }

    /// The same codes.
    pub(crate) fn copy(&self, alloc: Global) -> Result<Codes, Memory>
        ensures { IfOk result (λ codes. codes ≡ self.now) }
    {
        let mut copied = Codes::new(alloc);
        for stay in 0..self.count() {
            copied.add(alloc, self.code(stay))?;
        }
        Ok(copied)
    }

    /// Adds a code that is not there.
    pub(crate) fn add(&mut self, alloc: Global, code: &str) -> Result<(), Memory>
        requires new { stay_with self.old code.now ≡ None }
        requires room { length self.old < MOST_STAYS }
        ensures { OnOk result (self.new ≡ self.old ++ code.now ∷ []) }
    {
        let Ok(code) = String::from_str(alloc, code) else {
            return Err(Memory);
        };
        if self.codes.insert(code).is_err() {
            return Err(Memory);
        }
        Ok(())
    }
}

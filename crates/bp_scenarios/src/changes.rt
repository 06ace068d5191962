//! One scenario: a list of changes.
ghost use Rattle.std.specs.Prelude.{◌≡◌, ◌++◌, ◌∷◌, [], OnOk};

use bp_types::Change;
use std::alloc::AllocError;
use std::marker::Model;

/// A list of changes, each made after those before it: one scenario.
///
/// Contracts see the list.
#[derive(Debug, Drop)]
pub struct Changes {
    list: Vec<Change>,
}

impl Model for Changes {
    ghost use Rattle.std.specs.Prelude.{List};
    ghost use Rattle.bp_types.specs.declared.change.Change.{Change};

    ghost Value = { List Change };

    ghost view = { λ c. c.list.items };
}

impl Changes {
    /// The scenario of these changes.
    pub fn new(list: Vec<Change>) -> Changes
        ensures { result ≡ list.items }
    {
        Changes { list }
    }

    /// Adds a change behind the others.
    pub(crate) fn push(&mut self, change: Change) -> Result<(), AllocError>
        ensures { OnOk result (self.new ≡ self.old ++ change ∷ []) }
    {
        self.list.push(change)?;
        Ok(())
    }

    /// The changes, in their order.
    pub fn list(&self) -> &[Change]
        ensures { result.now ≡ self.now }
    {
        &self.list
    }
}

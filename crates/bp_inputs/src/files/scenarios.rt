//! Scenarios of a problem.
ghost use Rattle.std.specs.Prelude.{◌≡◌, All, Ok};
ghost use Rattle.bp_types.specs.declared.limits.TheConstants.{MOST_FILE_BYTES};
ghost use Rattle.bp_text.specs.Reading.{IsText};
ghost use Rattle.bp_scenarios.specs.Refused.{IsAskable, IsChangeWithin};
ghost use Rattle.bp_scenarios.specs.Texts.{scenario_lines, AreWithin};
ghost use Rattle.bp_inputs.specs.TextFiles.{IsNoText};

use crate::files::Kind;
use crate::unread::Unread;
use bp_scenarios::{Changes, read_scenarios};
use bp_types::Instance;
use bp_types::limits::MOST_FILE_BYTES;
use std::alloc::Global;
use std::marker::Model;

/// Lists of changes. Contracts see a list of lists.
#[derive(Debug, Drop)]
pub struct WhatIfLists {
    lists: Vec<Changes>,
}

impl Model for WhatIfLists {
    ghost use Rattle.std.specs.Prelude.{List};
    ghost use Rattle.bp_types.specs.declared.change.Change.{Change};

    ghost Value = { List (List Change) };

    ghost view = { λ s. s.lists.items };
}

impl WhatIfLists {
    /// The lists, in their order.
    pub fn as_slice(&self) -> &[Changes]
        ensures { result.now ≡ self.now }
    {
        &self.lists
    }
}

/// Scenarios of a problem. The value is their lists of changes.
#[derive(Clone, Copy)]
pub struct ScenariosFile<'a> {
    /// The problem, whose nights and stays the changes name.
    pub problem: &'a Instance,
}

impl<'a> Kind for ScenariosFile<'a> {
    type Value = WhatIfLists;

    ghost most = { λ k. MOST_FILE_BYTES };

    ghost needs = { λ k. Unit {0} };

    ghost accepts = { λ k bytes lists. IsText scenario_lines (AreWithin (IsChangeWithin k.problem.now)) bytes (Ok lists) };

    ghost refuses = { λ k. IsNoText scenario_lines (AreWithin (IsChangeWithin k.problem.now)) };

    ghost keeps = { λ k lists. All (IsAskable k.problem.now) lists };

    fn most_bytes(&self) -> u64 {
        MOST_FILE_BYTES
    }

    fn read(&self, alloc: Global, bytes: &[u8]) -> Result<WhatIfLists, Unread> {
        let lists = read_scenarios(alloc, self.problem, bytes)?;
        Ok(WhatIfLists { lists })
    }
}

//! The list of a portfolio.
ghost use Rattle.std.specs.Prelude.{◌≡◌, ◌≤◌, length, Ok};
ghost use Rattle.bp_types.specs.declared.limits.TheConstants.{MOST_FILE_BYTES, MOST_HOTELS};
ghost use Rattle.bp_portfolio.specs.Lists.{IsListText};
ghost use Rattle.bp_inputs.specs.ListFiles.{IsNoList};

use crate::files::Kind;
use crate::unread::Unread;
use bp_portfolio::{Names, read_list};
use bp_types::limits::MOST_FILE_BYTES;
use std::alloc::Global;
use std::marker::Model;

/// The names of each hotel's files, the first hotel first. Contracts see a list.
#[derive(Debug, Drop)]
pub struct Hotels {
    list: Vec<Names>,
}

impl Model for Hotels {
    ghost use Rattle.std.specs.Prelude.{List};
    ghost use Rattle.bp_portfolio.specs.Lists.{FiveNames};

    ghost Value = { List FiveNames };

    ghost view = { λ h. h.list.items };
}

impl Hotels {
    /// Each hotel's names, as one list.
    pub fn as_slice(&self) -> &[Names]
        ensures { result.now ≡ self.now }
    {
        &self.list
    }
}

/// The list of a portfolio. The value is the names of its hotels' files.
#[derive(Clone, Copy)]
pub struct ListFile;

impl Kind for ListFile {
    type Value = Hotels;

    ghost most = { λ k. MOST_FILE_BYTES };

    ghost needs = { λ k. Unit {0} };

    ghost accepts = { λ k bytes hotels. IsListText bytes (Ok hotels) };

    ghost refuses = { λ k. IsNoList };

    ghost keeps = { λ k hotels. length hotels ≤ MOST_HOTELS };

    fn most_bytes(&self) -> u64 {
        MOST_FILE_BYTES
    }

    fn read(&self, alloc: Global, bytes: &[u8]) -> Result<Hotels, Unread> {
        let list = read_list(alloc, bytes)?;
        Ok(Hotels { list })
    }
}

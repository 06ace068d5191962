//! The script of a desk's sessions.
ghost use Rattle.std.specs.Prelude.{◌≡◌, ◌≤◌, length, All, Ok};
ghost use Rattle.bp_types.specs.declared.limits.TheConstants.{MOST_FILE_BYTES, MOST_SESSIONS};
ghost use Rattle.bp_types.specs.House.{Inn};
ghost use Rattle.bp_optimise.specs.Sessions.{AreInRange};
ghost use Rattle.bp_script.specs.Scripts.{script_file};
ghost use Rattle.bp_inputs.specs.ScriptFiles.{IsNoScript};

use crate::files::Kind;
use crate::unread::Unread;
use bp_hotelfile::Hotel;
use bp_script::{Commands, law, read_script};
use bp_stayfile::Stays;
use bp_types::limits::MOST_FILE_BYTES;
use std::alloc::Global;
use std::marker::Model;

/// The commands of each session, the first session first. Contracts see a list of lists.
#[derive(Debug, Drop)]
pub struct Scripts {
    list: Vec<Commands>,
}

impl Model for Scripts {
    ghost use Rattle.std.specs.Prelude.{List};
    ghost use Rattle.bp_types.specs.declared.command.Command.{Command};

    ghost Value = { List (List Command) };

    ghost view = { λ s. s.list.items };
}

impl Scripts {
    /// Each session's commands, as one list.
    pub fn into_vec(self) -> Vec<Commands>
        ensures { result.items ≡ self }
    {
        self.list
    }
}

/// A script of the sessions on these stays of a hotel. The value is the commands of each session.
#[derive(Clone, Copy)]
pub struct ScriptFile<'a> {
    /// The hotel, whose nights the commands name.
    pub hotel: &'a Hotel,
    /// Its stays, whose codes the commands name.
    pub stays: &'a Stays,
}

impl<'a> Kind for ScriptFile<'a> {
    type Value = Scripts;

    ghost most = { λ k. MOST_FILE_BYTES };

    ghost needs = { λ k. Unit {0} };

    ghost accepts = { λ k bytes scripts. script_file k.hotel.now k.stays.now.codes bytes ≡ Ok scripts };

    ghost refuses = { λ k. IsNoScript k.hotel.now k.stays.now.codes };

    ghost keeps = { λ k scripts. (length scripts ≤ MOST_SESSIONS)
        × ((h : Inn) → length h.rooms ≡ length k.hotel.now.rooms → length h.stays ≡ length k.stays.now.codes → All (AreInRange h) scripts) };

    fn most_bytes(&self) -> u64 {
        MOST_FILE_BYTES
    }

    fn read(&self, alloc: Global, bytes: &[u8]) -> Result<Scripts, Unread> {
        law::sessions_are_few();
        law::commands_are_in_range();
        let list = read_script(alloc, self.hotel, self.stays.codes(), bytes)?;
        Ok(Scripts { list })
    }
}

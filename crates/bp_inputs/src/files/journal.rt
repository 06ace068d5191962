//! A journal.
ghost use Rattle.std.specs.Prelude.{Ok};
ghost use Rattle.bp_types.specs.declared.limits.TheConstants.{MOST_JOURNAL_BYTES};
ghost use Rattle.bp_journal.specs.Read.{IsJournalText};
ghost use Rattle.bp_inputs.specs.JournalFiles.{IsNoJournal};

use crate::files::Kind;
use crate::unread::Unread;
use bp_journal::{Journal, read};
use bp_types::limits::MOST_JOURNAL_BYTES;
use std::alloc::Global;

/// A journal, in one of its versions. The value is the list of its lines, legal or not.
#[derive(Clone, Copy)]
pub struct JournalFile;

impl Kind for JournalFile {
    type Value = Journal;

    ghost most = { λ k. MOST_JOURNAL_BYTES };

    ghost needs = { λ k. Unit {0} };

    ghost accepts = { λ k bytes H. IsJournalText bytes (Ok H) };

    ghost refuses = { λ k. IsNoJournal };

    ghost keeps = { λ k H. Unit {0} };

    fn most_bytes(&self) -> u64 {
        MOST_JOURNAL_BYTES
    }

    fn read(&self, alloc: Global, bytes: &[u8]) -> Result<Journal, Unread> {
        Ok(read(alloc, bytes)?)
    }
}

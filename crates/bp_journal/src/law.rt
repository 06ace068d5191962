//! Laws over journals, as the contracts of functions that do nothing.
ghost use Rattle.bp_text.specs.Laws.{HasOneSpelling, IsPrefixFree};
ghost use Rattle.bp_journal.specs.Journals.{noted_lines};
ghost use Rattle.bp_journal.specs.Laws.{
  EntriesAreTold,
  VersionsAreTold,
  OneReading,
  LegalIsJournal,
  LegalIsWithin,
  WrittenIsRead,
};

/// Different entries are spelt differently.
pub fn entries_are_told()
    ensures { EntriesAreTold }
{}

/// No two journals have one text, and none goes on behind another; no text is of both versions, and bytes are read in
/// one way.
pub fn journals_have_one_spelling()
    ensures spelling { HasOneSpelling noted_lines }
    ensures prefix { IsPrefixFree noted_lines }
    ensures versions { VersionsAreTold }
    ensures reading { OneReading }
{}

/// A legal history can be said as a journal of the second version: each reply is one of its act's, and there is a
/// certificate exactly where the act is a Publish.
pub fn legal_is_journal()
    ensures { LegalIsJournal }
{}

/// The numbers of a legal history keep to the limits of the reader.
pub fn legal_is_within()
    ensures { LegalIsWithin }
{}

/// What is written of a legal history is read as this very history.
pub fn written_is_read()
    ensures { WrittenIsRead }
{}

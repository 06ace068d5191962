//! A journal: the lines of a history, its entries and its certificates each held once.
ghost use Rattle.std.specs.Prelude.{◌≡◌, ◌++◌, ◌∷◌, [], length, is_some, MatchOption, IfOk, IfErr, OnOk, ◌==◌};
ghost use Rattle.bp_core.specs.Lines.{published_position};

use bp_core::{Act, Entry, Line};
use bp_types::Certificate;
use std::alloc::{AllocError, Global};
use std::marker::Model;
use std::vec::IntoIter;

/// A list of lines: entries, each Publish with its certificate.
///
/// Contracts see the lines of a history, whether legal or not.
#[derive(Debug, Drop)]
pub struct Journal {
    entries: Vec<Entry>,
    /// One for each entry that publishes, in their order.
    certificates: Vec<Certificate>,
}

impl Model for Journal {
    ghost use Rattle.std.specs.Prelude.{◌≡◌, length};
    ghost use Rattle.bp_core.specs.Lines.{History};
    ghost use Rattle.bp_journal.specs.Stored.{lines_of, publications};

    ghost Value = { History };

    ghost view = { λ j. lines_of j.entries.items j.certificates.items };

    ghost invariant = { λ j. length j.certificates.items ≡ publications j.entries.items };
}

impl Journal {
    /// No lines, and room for so many, and for so many certificates among them. The one error is want of memory.
    pub fn with_capacity(alloc: Global, lines: usize, vectors: usize) -> Result<Journal, AllocError>
        ensures { IfOk result (λ journal. journal ≡ []) }
    {
        Ok(Journal {
            entries: Vec::with_capacity(alloc, lines)?,
            certificates: Vec::with_capacity(alloc, vectors)?,
        })
    }

    /// Adds a line, which has a certificate exactly where its act is a Publish. After want of memory the lines are as
    /// before.
    #[tactic(auto, using(crate::proofs::StoredLemmas::push_plain, crate::proofs::StoredLemmas::push_certified))]
    pub fn push(&mut self, line: Line) -> Result<(), AllocError>
        requires { is_some line.certificate ≡ is_some (published_position line.entry.act) }
        ensures added { OnOk result (self.new ≡ self.old ++ line ∷ []) }
        ensures unchanged { IfErr result (λ _. self.new ≡ self.old) }
    {
        let entry = line.entry;
        self.entries.reserve(1)?;
        let Some(certificate) = line.certificate else {
            self.entries.push_reserved(entry);
            return Ok(());
        };
        self.certificates.push(certificate)?;
        self.entries.push_reserved(entry);
        Ok(())
    }

    /// How many lines there are.
    #[tactic(auto, using(crate::proofs::StoredLemmas::lines_of_length))]
    pub fn len(&self) -> usize
        ensures { result ≡ length self.now }
    {
        self.entries.len()
    }

    /// Whether there are none.
    #[tactic(auto, using(crate::proofs::StoredLemmas::lines_of_length))]
    pub fn is_empty(&self) -> bool
        ensures { result ≡ (length self.now == 0) }
    {
        self.entries.is_empty()
    }

    /// The lines one by one, the first one first, each with its own certificate and none of them copied.
    pub fn into_lines(self) -> JournalLines
        ensures { result ≡ self }
    {
        JournalLines {
            entries: self.entries.into_iter(),
            certificates: self.certificates.into_iter(),
        }
    }
}

/// The lines of a journal that were not given yet.
///
/// Contracts see their list.
#[derive(Drop)]
pub struct JournalLines {
    entries: IntoIter<Entry>,
    certificates: IntoIter<Certificate>,
}

impl Model for JournalLines {
    ghost use Rattle.std.specs.Vec.Iter.{into_iter_items};
    ghost use Rattle.bp_core.specs.Lines.{History};
    ghost use Rattle.bp_journal.specs.Stored.{lines_of};

    ghost Value = { History };

    ghost view = { λ l. lines_of (into_iter_items l.entries) (into_iter_items l.certificates) };
}

impl JournalLines {
    /// The next line; None where each was given.
    pub fn next(&mut self) -> Option<Line>
        ensures { MatchOption result ((self.old ≡ []) × (self.new ≡ [])) (λ line. self.old ≡ line ∷ self.new) }
    {
        let Some(entry) = self.entries.next() else {
            return None;
        };
        let certificate = match entry.act {
            Act::Publish { .. } => self.certificates.next(),
            Act::Do(_) | Act::Enrol | Act::Leave => None,
        };
        Some(Line { entry, certificate })
    }
}

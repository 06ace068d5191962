//! The three lines of a certificate that say what it claims: `value`, `sell` and `prices`.
ghost use Rattle.std.specs.Prelude.{◌≡◌, ◌+◌, ◌≤◌, ◌++◌, IsErrOf, OnOk};
ghost use Rattle.bp_edges.specs.Counts.{Rose};
ghost use Rattle.bp_edges.specs.Writing.{Writes};
ghost use Rattle.bp_text.specs.Lines.{text_of};
ghost use Rattle.bp_text.specs.Drafts.{Drafts};
ghost use Rattle.bp_text.specs.Reading.{IsReading};
ghost use Rattle.bp_cert.specs.Texts.{claim_lines, IsSpeakable};

use bp_edges::{Sink, WriteError};
use bp_text::{
    Bounds, Draft, Lines, TextError, open_line, push_line, push_wide_line, wide_number_line,
};
use bp_types::Certificate;
use bp_types::limits::{MOST_NIGHTS, MOST_STAYS, MOST_VALUE};
use std::alloc::{AllocError, Global};

/// How many stays a certificate may name; each number fits 64 bits.
const SALES: Bounds = Bounds {
    most: MOST_STAYS,
    greatest: u64::MAX,
};

/// How many nights it may name; each number fits 64 bits.
const PRICES: Bounds = Bounds {
    most: MOST_NIGHTS,
    greatest: u64::MAX,
};

/// Reads the three lines of a certificate that say what it claims: `value`, `sell` and `prices`.
///
/// After a refusal the lines before the refused one were given, and the refused one where it has its end.
pub fn certificate_lines(alloc: Global, lines: &mut Lines<'_>) -> Result<Certificate, TextError>
    ensures read { IsReading claim_lines IsSpeakable lines.old lines.new result }
    ensures few { lines.new.given ≤ lines.old.given + 3 }
{
    let value = wide_number_line(lines, b"value", MOST_VALUE)?;
    let mut sell = Vec::new(alloc);
    open_line(lines, b"sell", SALES, &mut sell)?;
    let mut prices = Vec::new(alloc);
    open_line(lines, b"prices", PRICES, &mut prices)?;
    Ok(Certificate {
        value,
        sell,
        prices,
    })
}

/// Writes the three lines of a certificate that say what it claims: `value`, `sell` and `prices`. After an error a
/// first part of them is written.
pub fn write_certificate_lines<K: Sink>(
    alloc: Global,
    certificate: &Certificate,
    out: &mut K,
) -> Result<(), WriteError>
    ensures writes { Writes (K.written out.old) (K.written out.new) (text_of (claim_lines certificate.now)) result }
    ensures failed { IsErrOf result WriteError.Failed → Rose (K.faults out.old) (K.faults out.new) }
    ensures unfailing { K.steady out.old → ¬ IsErrOf result WriteError.Failed }
    ensures steady { K.steady out.old → K.steady out.new }
    ensures faults { K.faults out.old ≤ K.faults out.new }
{
    let mut draft = Draft::new(alloc)?;
    draft_claim(&mut draft, certificate, out)?;
    draft.hand_on(out)
}

/// Puts these three lines behind a draft. After an error a first part of the draft's text is written.
pub fn draft_claim<K: Sink>(
    draft: &mut Draft,
    certificate: &Certificate,
    out: &mut K,
) -> Result<(), WriteError>
    ensures writes { Drafts (K.written out.old) (K.written out.new) draft.old draft.new
        (text_of (claim_lines certificate.now)) result }
    ensures failed { IsErrOf result WriteError.Failed → Rose (K.faults out.old) (K.faults out.new) }
    ensures unfailing { K.steady out.old → ¬ IsErrOf result WriteError.Failed }
    ensures steady { K.steady out.old → K.steady out.new }
    ensures faults { K.faults out.old ≤ K.faults out.new }
{
    draft.push_wide_line(b"value", certificate.value, out)?;
    draft.push_line(b"sell", &certificate.sell, out)?;
    draft.push_line(b"prices", &certificate.prices, out)
}

/// Puts these three lines at the end of a text. The one error is want of memory.
pub fn push_claim(text: &mut Vec<u8>, certificate: &Certificate) -> Result<(), AllocError>
    ensures { OnOk result (text.new.items ≡ text.old.items ++ text_of (claim_lines certificate.now)) }
{
    push_wide_line(text, b"value", certificate.value)?;
    push_line(text, b"sell", &certificate.sell)?;
    push_line(text, b"prices", &certificate.prices)?;
    Ok(())
}

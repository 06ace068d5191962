//! The text of a certificate, read and written.
ghost use Rattle.std.specs.Prelude.{◌≡◌, ◌+◌, ◌≤◌, IfOk, IsErrOf};
ghost use Rattle.bp_edges.specs.Counts.{Rose};
ghost use Rattle.bp_edges.specs.Writing.{Writes};
ghost use Rattle.bp_text.specs.Drafts.{Drafts};
ghost use Rattle.bp_text.specs.Reading.{IsReading, IsText};
ghost use Rattle.bp_cert.specs.Texts.{all_certificate_lines, certificate_text, IsSpeakable};

use crate::claim_text::{certificate_lines, draft_claim, push_claim};
use bp_edges::{Sink, WriteError};
use bp_text::{Draft, Lines, TextError, at_end, push_line, word_line};
use bp_types::Certificate;
use std::alloc::{AllocError, Global};

/// Reads all lines of a certificate.
fn read_lines(alloc: Global, lines: &mut Lines<'_>) -> Result<Certificate, TextError>
    ensures { IsReading all_certificate_lines IsSpeakable lines.old lines.new result }
{
    word_line(lines, b"certificate 1")?;
    let certificate = certificate_lines(alloc, lines)?;
    word_line(lines, b"end")?;
    Ok(certificate)
}

/// Reads the text of a certificate, or says which line of it is the first wrong one. Whether it certifies anything is
/// for `check` to say. It takes the time of the bytes.
pub fn read_certificate(alloc: Global, bytes: &[u8]) -> Result<Certificate, TextError>
    ensures { IsText all_certificate_lines IsSpeakable bytes.now result }
{
    let mut lines = Lines::new(bytes);
    let certificate = read_lines(alloc, &mut lines)?;
    at_end(&lines)?;
    Ok(certificate)
}

/// The text of a certificate, in memory. The one error is want of memory.
pub fn text_of_certificate(alloc: Global, certificate: &Certificate) -> Result<Vec<u8>, AllocError>
    ensures { IfOk result (λ text. text.items ≡ certificate_text certificate.now) }
{
    let mut text = Vec::new(alloc);
    push_line(&mut text, b"certificate 1", &[])?;
    push_claim(&mut text, certificate)?;
    push_line(&mut text, b"end", &[])?;
    Ok(text)
}

/// Writes the text of a certificate as it is spelt, in pieces, of which one is held. After an error a first part of the
/// text is written.
pub fn write_certificate<K: Sink>(
    alloc: Global,
    certificate: &Certificate,
    out: &mut K,
) -> Result<(), WriteError>
    ensures writes { Writes (K.written out.old) (K.written out.new) (certificate_text certificate.now) result }
    ensures failed { IsErrOf result WriteError.Failed → Rose (K.faults out.old) (K.faults out.new) }
    ensures unfailing { K.steady out.old → ¬ IsErrOf result WriteError.Failed }
    ensures steady { K.steady out.old → K.steady out.new }
    ensures faults { K.faults out.old ≤ K.faults out.new }
{
    let mut draft = Draft::new(alloc)?;
    draft_certificate(&mut draft, certificate, out)?;
    draft.hand_on(out)
}

/// Puts the text of a certificate behind a draft. After an error a first part of the draft's text is written.
pub fn draft_certificate<K: Sink>(
    draft: &mut Draft,
    certificate: &Certificate,
    out: &mut K,
) -> Result<(), WriteError>
    ensures writes { Drafts (K.written out.old) (K.written out.new) draft.old draft.new
        (certificate_text certificate.now) result }
    ensures failed { IsErrOf result WriteError.Failed → Rose (K.faults out.old) (K.faults out.new) }
    ensures unfailing { K.steady out.old → ¬ IsErrOf result WriteError.Failed }
    ensures steady { K.steady out.old → K.steady out.new }
    ensures faults { K.faults out.old ≤ K.faults out.new }
{
    draft.push_line(b"certificate 1", &[], out)?;
    draft_claim(draft, certificate, out)?;
    draft.push_line(b"end", &[], out)
}

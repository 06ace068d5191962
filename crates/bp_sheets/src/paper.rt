//! The sheet of an instance: a line for each night, and one for each arrival.
ghost use Rattle.std.specs.Prelude.{◌≡◌, ◌≤◌, ◌++◌, length, All, IfOk, IsErrOf, OnOk};
ghost use Rattle.bp_types.specs.declared.limits.TheConstants.{MOST_NIGHTS, MOST_ROOMS};
ghost use Rattle.bp_edges.specs.Counts.{Rose};
ghost use Rattle.bp_text.specs.Lines.{text_of};
ghost use Rattle.bp_sheets.specs.Sheets.{IsSheet, WritesSheet, night_lines, arrival_lines};

use crate::band::{Band, price_nights};
use crate::hurdles::hurdles;
use crate::lengths::least_lengths;
use crate::lines::{push_arrival, push_night};
use bp_board::Board;
use bp_edges::{Sink, WriteError};
use bp_text::write_text;
use bp_types::{Instance, Memory};
use std::alloc::{AllocError, Global};
use std::marker::Model;

/// The text of a sheet.
///
/// Contracts see its bytes.
#[derive(Debug, Drop)]
pub struct SheetText {
    text: Vec<u8>,
}

impl Model for SheetText {
    ghost use Rattle.std.specs.Prelude.{ℕ, List};

    ghost Value = { List ℕ };

    ghost view = { λ s. s.text.items };
}

impl SheetText {
    /// The text, whose lines each end with a line feed.
    pub fn text(&self) -> &[u8]
        ensures { result.now ≡ self.now }
    {
        &self.text
    }
}

/// The sheet of an instance, whose nights have 10,000 rooms at most. It takes as many searches as `bands`. The one
/// error is `Memory`.
pub fn sheet_of(alloc: Global, instance: &Instance) -> Result<SheetText, Memory>
    requires { All (λ r. r ≤ MOST_ROOMS) instance.now.rooms }
    ensures { IfOk result (IsSheet instance.now) }
{
    let priced = price_nights(alloc, instance)?;
    let lengths = least_lengths(alloc, instance, &priced.board)?;
    let mut text = Vec::new(alloc);
    push_nights(&mut text, &priced.bands)?;
    push_arrivals(alloc, &mut text, &priced.board, &lengths)?;
    Ok(SheetText { text })
}

/// Writes the sheet of an instance, whose nights have 10,000 rooms at most. Where there is no memory for it, nothing is
/// written. The error is `Memory`, or `Failed` where the sink failed.
pub fn sheet<K: Sink>(alloc: Global, instance: &Instance, out: &mut K) -> Result<(), WriteError>
    requires { All (λ r. r ≤ MOST_ROOMS) instance.now.rooms }
    ensures writes { WritesSheet instance.now (K.written out.old) (K.written out.new) result }
    ensures failed { IsErrOf result WriteError.Failed → Rose (K.faults out.old) (K.faults out.new) }
    ensures unfailing { K.steady out.old → ¬ IsErrOf result WriteError.Failed }
    ensures steady { K.steady out.old → K.steady out.new }
    ensures faults { K.faults out.old ≤ K.faults out.new }
{
    match sheet_of(alloc, instance) {
        Ok(sheet) => write_text(alloc, sheet.text(), out),
        Err(Memory) => Err(WriteError::Memory),
    }
}

/// Puts the lines of the nights at the end of a text.
fn push_nights(text: &mut Vec<u8>, bands: &[Band]) -> Result<(), AllocError>
    requires { length bands.now ≤ MOST_NIGHTS }
    ensures { OnOk result (text.new.items ≡ text.old.items ++ text_of (night_lines 0 bands.now)) }
{
    for night in 0..bands.len() {
        push_night(text, night as u32, bands[night])?;
    }
    Ok(())
}

/// Puts the lines of the arrivals at the end of a text.
fn push_arrivals(
    alloc: Global,
    text: &mut Vec<u8>,
    board: &Board,
    lengths: &[Option<u32>],
) -> Result<(), AllocError>
    requires { length lengths.now ≡ length board.now.certificate.prices }
    ensures { OnOk result (text.new.items ≡
        text.old.items ++ text_of (arrival_lines board.now.certificate.prices 0 lengths.now)) }
{
    for arrival in 0..board.nights() {
        let hurdles = hurdles(alloc, board, arrival)?;
        push_arrival(text, arrival, lengths[arrival as usize], &hurdles)?;
    }
    Ok(())
}

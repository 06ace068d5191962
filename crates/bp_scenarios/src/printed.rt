//! Outcomes, written line by line as they are spelt.
ghost use Rattle.std.specs.Prelude.{◌≡◌, ◌≤◌, ◌<◌, ◌^◌, ◌++◌, ◌∷◌, [], length, IsErrOf, OnOk};
ghost use Rattle.bp_edges.specs.Counts.{Rose};
ghost use Rattle.bp_edges.specs.Writing.{Writes};
ghost use Rattle.bp_text.specs.Numbers.{spelled};
ghost use Rattle.bp_text.specs.Lines.{text_of};
ghost use Rattle.bp_text.specs.Drafts.{Drafts};
ghost use Rattle.bp_scenarios.specs.Printed.{outcome_text, outcome_line, outcome_lines};

use crate::outcome::Outcome;
use bp_edges::{Sink, WriteError};
use bp_text::{Draft, push_number, push_numbers};
use std::alloc::{AllocError, Global};

/// Writes a line for each outcome, numbered from 1. It holds one piece of the text beside one line, and no more. The
/// error is `Memory`, or `Failed` where the sink failed.
pub fn write_outcomes<K: Sink>(
    alloc: Global,
    outcomes: &[Outcome],
    out: &mut K,
) -> Result<(), WriteError>
    ensures writes { Writes (K.written out.old) (K.written out.new) (text_of (outcome_lines 1 outcomes.now)) result }
    ensures failed { IsErrOf result WriteError.Failed → Rose (K.faults out.old) (K.faults out.new) }
    ensures unfailing { K.steady out.old → ¬ IsErrOf result WriteError.Failed }
    ensures steady { K.steady out.old → K.steady out.new }
    ensures faults { K.faults out.old ≤ K.faults out.new }
{
    let mut draft = Draft::new(alloc)?;
    draft_outcomes(alloc, &mut draft, outcomes, out)?;
    draft.hand_on(out)
}

/// Puts a line for each outcome behind a draft.
fn draft_outcomes<K: Sink>(
    alloc: Global,
    draft: &mut Draft,
    outcomes: &[Outcome],
    out: &mut K,
) -> Result<(), WriteError>
    ensures writes { Drafts (K.written out.old) (K.written out.new) draft.old draft.new
        (text_of (outcome_lines 1 outcomes.now)) result }
    ensures failed { IsErrOf result WriteError.Failed → Rose (K.faults out.old) (K.faults out.new) }
    ensures unfailing { K.steady out.old → ¬ IsErrOf result WriteError.Failed }
    ensures steady { K.steady out.old → K.steady out.new }
    ensures faults { K.faults out.old ≤ K.faults out.new }
{
    let mut line = Vec::new(alloc);
    let mut number = 0u64;
    for outcome in outcomes {
        number += 1;
        line.clear();
        draft_outcome(draft, &mut line, number, outcome, out)?;
    }
    Ok(())
}

/// Puts the line of an outcome behind a draft; it is spelt in an empty text first.
fn draft_outcome<K: Sink>(
    draft: &mut Draft,
    line: &mut Vec<u8>,
    number: u64,
    outcome: &Outcome,
    out: &mut K,
) -> Result<(), WriteError>
    requires { line.old.items ≡ [] }
    ensures writes { Drafts (K.written out.old) (K.written out.new) draft.old draft.new
        (text_of (outcome_line number outcome.now ∷ [])) result }
    ensures failed { IsErrOf result WriteError.Failed → Rose (K.faults out.old) (K.faults out.new) }
    ensures unfailing { K.steady out.old → ¬ IsErrOf result WriteError.Failed }
    ensures steady { K.steady out.old → K.steady out.new }
    ensures faults { K.faults out.old ≤ K.faults out.new }
{
    push_line(line, number, outcome)?;
    draft.push(line, out)
}

/// Puts the line of an outcome at the end of a text.
fn push_line(text: &mut Vec<u8>, number: u64, outcome: &Outcome) -> Result<(), AllocError>
    ensures { OnOk result (text.new.items ≡ text.old.items ++ text_of (outcome_line number outcome.now ∷ [])) }
{
    push_named(text, b"scenario ", u128::from(number))?;
    push_outcome(text, outcome)?;
    text.push(b'\n')?;
    Ok(())
}

/// Puts what stands behind the number of a scenario at the end of a text.
fn push_outcome(text: &mut Vec<u8>, outcome: &Outcome) -> Result<(), AllocError>
    ensures { OnOk result (text.new.items ≡ text.old.items ++ outcome_text outcome.now) }
{
    match outcome {
        Outcome::Solved { value, prices } => {
            push_named(text, b" value ", *value)?;
            text.extend_from_slice(b" prices")?;
            push_numbers(text, prices.list())
        }
        Outcome::Refused { change } => push_named(text, b" refused ", u128::from(*change)),
    }
}

/// Puts a word and a number at the end of a text.
fn push_named(text: &mut Vec<u8>, name: &[u8], number: u128) -> Result<(), AllocError>
    ensures { OnOk result (text.new.items ≡ text.old.items ++ (name.now ++ spelled number)) }
{
    text.extend_from_slice(name)?;
    push_number(text, number)
}

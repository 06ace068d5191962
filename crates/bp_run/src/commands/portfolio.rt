//! `portfolio LIST [--workers W]`: the desks of several hotels beside one another.
ghost use Rattle.std.specs.Prelude.{
  ◌≡◌,
  ◌+◌,
  ◌*◌,
  ◌<◌,
  ◌≤◌,
  ◌^◌,
  ◌++◌,
  ◌∷◌,
  [],
  length,
  IfOk,
  IsErrOf,
  OnOk,
  string_bytes,
};
ghost use Rattle.std.specs.List.{list_all};
ghost use Rattle.bp_desk_run.specs.declared.callers.Ran.{Ran as RanValue};
ghost use Rattle.bp_types.specs.declared.limits.TheConstants.{MOST_HOTELS, MOST_WORKERS};
ghost use Rattle.bp_edges.specs.Counts.{Rose};
ghost use Rattle.bp_edges.specs.Writing.{Writes};
ghost use Rattle.bp_portfolio.specs.Desks.{AreRightRuns};
ghost use Rattle.bp_inputs.specs.Fetches.{over};
ghost use Rattle.bp_inputs.specs.Stops.{Follows, of_all};
ghost use Rattle.bp_run.specs.Command.{Brings};
ghost use Rattle.bp_inputs.specs.HotelPlan.{named};
ghost use Rattle.bp_run.specs.Portfolio.{
  desks_plan,
  four_names,
  hotel_head,
  hotel_said,
  hotels_said,
  portfolio_command,
  runs_said,
  runs_status,
};
ghost use Rattle.bp_run.specs.Puts.{onto, PutsText};

use crate::Status;
use crate::commands::desk::{self, load_desk};
use bp_desk_run::Ran;
use bp_edges::{Gate, Shelf, Sink, WriteError};
use bp_inputs::{HotelFiles, ListFile, Stop, load};
use bp_portfolio::{Names, Staged, run_desks};
use bp_text::write_text;
use bp_types::Memory;
use std::alloc::{AllocError, Global};
use std::marker::Model;
use std::sync::Wait;
use std::thread::Threads;

/// The closed desks of several hotels, the first hotel first. Contracts see a list.
#[derive(Drop)]
pub struct Runs {
    list: Vec<Ran>,
}

impl Model for Runs {
    ghost use Rattle.std.specs.Prelude.{◌≤◌, List, length};
    ghost use Rattle.bp_types.specs.declared.limits.TheConstants.{MOST_HOTELS};
    ghost use Rattle.bp_desk_run.specs.declared.callers.Ran.{Ran};

    ghost Value = { List Ran };

    ghost view = { λ r. r.list.items };

    ghost invariant = { λ r. length r.list.items ≤ MOST_HOTELS };
}

/// The names of a hotel's four files.
fn files_of<'a>(names: &'a Names) -> HotelFiles<'a>
    ensures { named result ≡ four_names names.entry.now }
{
    HotelFiles {
        hotel: names.name(0),
        stays: names.name(1),
        forecast: names.name(2),
        bookings: names.name(3),
    }
}

/// Puts one more hotel behind the others.
fn keep(hotels: &mut Vec<Staged>, staged: Staged) -> Result<(), Memory>
    ensures { OnOk result (hotels.new.items ≡ hotels.old.items ++ staged ∷ []) }
{
    hotels.push(staged)?;
    Ok(())
}

/// Reads the files of hotels by their names, and puts each hotel behind those before it.
fn load_desks<S: Shelf>(
    alloc: Global,
    shelf: &mut S,
    first: u64,
    names: &[Names],
    hotels: &mut Vec<Staged>,
) -> Result<(), Stop>
    requires { first + 5 * length names.now < 2 ^ 64 }
    ensures count { OnOk result (length hotels.new.items ≡ length hotels.old.items + length names.now) }
    ensures follows { Follows (over S.held S.faults S.fetches S.last S.steady shelf.old shelf.new)
        (desks_plan hotels.old.items names.now) first (first + 5 * length names.now) (of_all hotels.new.items result) }
{
    let Some((next, behind)) = names.split_first() else {
        return Ok(());
    };
    let files = files_of(next);
    let staged = load_desk(alloc, shelf, first, &files, next.name(4))?;
    keep(hotels, staged)?;
    load_desks(alloc, shelf, first + 5, behind, hotels)?;
    Ok(())
}

/// Runs the desks of all hotels.
fn all_run<R: Wait + Threads + Sync, G: Gate>(
    rt: &R,
    alloc: Global,
    hotels: Vec<Staged>,
    workers: u32,
    gate: &G,
) -> Result<Runs, Memory>
    requires few { length hotels.items ≤ MOST_HOTELS }
    requires workers { workers ≤ MOST_WORKERS }
    ensures { IfOk result (AreRightRuns workers hotels.items) }
{
    let list = run_desks(rt, alloc, hotels, workers, gate)?;
    Ok(Runs { list })
}

/// Reads a list and the files of all its hotels in order, and then runs their desks beside one another, each with so
/// many optimisers.
pub fn answer<R: Wait + Threads + Sync, S: Shelf, G: Gate>(
    rt: &R,
    alloc: Global,
    shelf: &mut S,
    list: &str,
    workers: u32,
    gate: &G,
) -> Result<Runs, Stop>
    requires { workers ≤ MOST_WORKERS }
    ensures { Brings (over S.held S.faults S.fetches S.last S.steady shelf.old shelf.new)
        (portfolio_command list.now workers) result }
{
    let names = load(alloc, shelf, &ListFile, 1, list)?;
    let mut hotels = Vec::new(alloc);
    load_desks(alloc, shelf, 2, names.as_slice(), &mut hotels)?;
    Ok(all_run(rt, alloc, hotels, workers, gate)?)
}

/// Whether each hotel's run is whole.
fn are_whole(runs: &[Ran]) -> bool
    ensures { result ≡ list_all (λ (ran : RanValue). ran.whole) runs.now }
{
    runs.iter().all(|ran| ran.whole)
}

/// The status of several hotels: done where each is.
pub fn status_of(runs: &Runs) -> Status
    ensures { result ≡ runs_status runs.now }
{
    if are_whole(&runs.list) {
        Status::Done
    } else {
        Status::Unfinished
    }
}

/// The line of a hotel, before its journal.
fn head_of(alloc: Global, hotel: u64, ran: &Ran) -> Result<String, AllocError>
    ensures { IfOk result (λ text. string_bytes text ≡ hotel_head hotel ran.now) }
{
    let status = desk::status_of(ran).number();
    format!(in alloc; "hotel {hotel} {status}\n")
}

/// Writes the line of a hotel.
fn write_head<K: Sink>(alloc: Global, hotel: u64, ran: &Ran, out: &mut K) -> Result<(), WriteError>
    ensures writes { Writes (K.written out.old) (K.written out.new) (hotel_head hotel ran.now) result }
    ensures failed { IsErrOf result WriteError.Failed → Rose (K.faults out.old) (K.faults out.new) }
    ensures unfailing { K.steady out.old → ¬ IsErrOf result WriteError.Failed }
    ensures steady { K.steady out.old → K.steady out.new }
    ensures faults { K.faults out.old ≤ K.faults out.new }
{
    write_text(alloc, &head_of(alloc, hotel, ran)?.into_bytes(), out)
}

/// Writes the line of a hotel, and its journal behind it.
fn write_hotel<K: Sink>(alloc: Global, hotel: u64, ran: &Ran, out: &mut K) -> Result<(), WriteError>
    ensures writes { Writes (K.written out.old) (K.written out.new) (hotel_said hotel ran.now) result }
    ensures failed { IsErrOf result WriteError.Failed → Rose (K.faults out.old) (K.faults out.new) }
    ensures unfailing { K.steady out.old → ¬ IsErrOf result WriteError.Failed }
    ensures steady { K.steady out.old → K.steady out.new }
    ensures faults { K.faults out.old ≤ K.faults out.new }
{
    write_head(alloc, hotel, ran, out)?;
    bp_journal::write(alloc, &ran.book, out)?;
    Ok(())
}

/// Writes the hotels from one with this number on.
fn write_from<K: Sink>(
    alloc: Global,
    hotel: u64,
    runs: &[Ran],
    out: &mut K,
) -> Result<(), WriteError>
    requires { hotel + length runs.now < 2 ^ 64 }
    ensures writes { Writes (K.written out.old) (K.written out.new) (hotels_said hotel runs.now) result }
    ensures failed { IsErrOf result WriteError.Failed → Rose (K.faults out.old) (K.faults out.new) }
    ensures unfailing { K.steady out.old → ¬ IsErrOf result WriteError.Failed }
{
    let Some((next, behind)) = runs.split_first() else {
        return Ok(());
    };
    write_hotel(alloc, hotel, next, out)?;
    write_from(alloc, hotel + 1, behind, out)?;
    Ok(())
}

/// Writes the line and the journal of each hotel. No journal is ever held as a text.
pub fn write<K: Sink>(alloc: Global, runs: &Runs, out: &mut K) -> Result<(), WriteError>
    ensures { PutsText (onto K.written K.faults K.steady out.old out.new) (runs_said runs.now) result }
{
    write_from(alloc, 1, &runs.list, out)?;
    Ok(())
}

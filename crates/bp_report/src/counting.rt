//! What became of the bookings of each stay, counted in one pass over a history.
ghost use Rattle.std.specs.Prelude.{◌≡◌, ◌+◌, ◌-◌, ◌<◌, ◌≤◌, ◌^◌, length, slice_index, slice_index_or, slice_set, IfOk};
ghost use Rattle.bp_core.specs.Lines.{booked_stay, has_given_up};
ghost use Rattle.bp_report.specs.Tallies.{tallies_of, booked_of, with_book, no_tally, IsSmall};

use crate::tally::Tally;
use bp_core::{Act, Book, Entry};
use bp_types::limits::CALLERS;
use bp_types::{Command, Memory};
use std::alloc::Global;

/// The stay that an entry asks for, where it is a Book.
fn booked_stay(entry: Entry) -> Option<u32>
    ensures { result ≡ booked_stay entry.act }
{
    match entry.act {
        Act::Do(Command::Book { stay }) => Some(stay),
        _ => None,
    }
}

/// Counts a Book of a stay: `booked` has one number per caller, `tallies` one tally per stay.
fn count_book(book: &Book, entry: Entry, stay: u32, booked: &mut [u64], tallies: &mut [Tally])
    requires caller { entry.caller < length booked.old }
    requires stay { stay < length tallies.old }
    requires few { slice_index booked.old entry.caller ≤ 2 ^ 64 - 2 }
    requires small { IsSmall (slice_index_or tallies.old stay no_tally) (2 ^ 64 - 2) }
    ensures booked { booked.new ≡ slice_set booked.old entry.caller (slice_index booked.old entry.caller + 1) }
    ensures tallies { tallies.new ≡ slice_set tallies.old stay
        (with_book (slice_index_or tallies.old stay no_tally) entry.reply (has_given_up book.now.history entry.caller (slice_index booked.old entry.caller + 1))) }
{
    let nth = booked[entry.caller as usize] + 1;
    booked[entry.caller as usize] = nth;
    let given_up = book.is_cancelled(entry.caller, nth);
    tallies[stay as usize] = tallies[stay as usize].with(entry.reply, given_up);
}

/// Counts the entry at a place.
fn count_entry(book: &Book, place: u64, booked: &mut [u64], tallies: &mut [Tally])
    requires place { place < length book.now.history }
    requires fits { place + 1 < 2 ^ 64 }
    requires booked { booked.old ≡ booked_of book.now.history place }
    requires tallies { tallies.old ≡ tallies_of book.now.history (length book.now.house.stays) place }
    ensures booked { booked.new ≡ booked_of book.now.history (place + 1) }
    ensures tallies { tallies.new ≡ tallies_of book.now.history (length book.now.house.stays) (place + 1) }
{
    book.facts();
    let Some(entry) = book.entry(place) else {
        unreachable!();
    };
    match booked_stay(entry) {
        Some(stay) => count_book(book, entry, stay, booked, tallies),
        None => {}
    }
}

/// The tally of each stay, one per stay, in time that grows with the entries.
pub(crate) fn tallies_of(alloc: Global, book: &Book) -> Result<Vec<Tally>, Memory>
    ensures { IfOk result (λ v. v.items ≡
        tallies_of book.now.history (length book.now.house.stays) (length book.now.history)) }
{
    let mut tallies = vec![in alloc; Tally::none(); book.house().stays() as usize]?;
    let mut booked = [0; CALLERS];
    for place in 0..book.length() {
        count_entry(book, place, &mut booked, &mut tallies);
    }
    Ok(tallies)
}

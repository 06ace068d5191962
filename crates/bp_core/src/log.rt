//! The entries of a history and the boards of its vectors, with the number of changes before each place.
ghost use Rattle.std.specs.Prelude.{
  ◌≡◌,
  ◌+◌,
  ◌-◌,
  ◌<◌,
  ◌≤◌,
  ◌^◌,
  ◌++◌,
  ◌∷◌,
  [],
  true,
  Some,
  None,
  length,
  map,
  slice_get,
  slice_index,
  vec_capacity,
  IfOk,
  IsTrue,
};
ghost use Rattle.std.specs.Option.{option_map};
ghost use Rattle.std.specs.Arc.{arc_value};
ghost use Rattle.bp_core.specs.declared.line.Line.{Line};
ghost use Rattle.bp_core.specs.Lines.{line_at, published_position, is_command, commands, vectors, boards};
ghost use Rattle.bp_core.specs.Changes.{is_change, changes_between};
ghost use Rattle.bp_core.specs.Deltas.{delta_list};
ghost use Rattle.bp_core.specs.Log.{LogView, published_line, stored_between};

use crate::deltas::Deltas;
use crate::{Act, Entry, Reply};
use bp_board::Board;
use bp_types::{Change, Command, Memory};
use std::alloc::Global;
use std::marker::Model;
use std::sync::Arc;

/// The entries of a history and the boards of its vectors, with what each entry changes.
///
/// Contracts see the lines, what each changes, and for how many there is room.
#[derive(Drop)]
pub(crate) struct Log {
    entries: Vec<Entry>,
    boards: Vec<Arc<Board>>,
    deltas: Vec<Deltas>,
    /// How many changes stand before each place, and before the end.
    counts: Vec<u64>,
    commands: u64,
}

impl Model for Log {
    ghost use Rattle.std.specs.Prelude.{map, vec_capacity, ◌≡◌, ◌+◌};
    ghost use Rattle.std.specs.Arc.{arc_value};
    ghost use Rattle.bp_core.specs.Deltas.{delta_list};
    ghost use Rattle.bp_core.specs.Log.{LogView, IsLog, lines_of};

    ghost Value = { LogView };

    ghost view = { λ l. record { lines = lines_of l.entries.items (map arc_value l.boards.items); deltas = map delta_list l.deltas.items; line_room = vec_capacity l.entries; board_room = vec_capacity l.boards } };

    ghost invariant = { λ l. IsLog (lines_of l.entries.items (map arc_value l.boards.items))
        (map arc_value l.boards.items) (map delta_list l.deltas.items) l.counts.items l.commands ×
        (vec_capacity l.deltas ≡ vec_capacity l.entries) × (vec_capacity l.counts ≡ vec_capacity l.entries + 1) };
}

impl Log {
    /// A log with room for so many lines, and vectors among them.
    pub(crate) fn new(alloc: Global, lines: usize, vectors: usize) -> Result<Log, Memory>
        requires { lines < 2 ^ 32 }
        ensures { IfOk result (λ l. l ≡ record { lines = []; deltas = []; line_room = lines; board_room = vectors }) }
    {
        let mut counts = Vec::with_capacity(alloc, lines + 1)?;
        counts.push_reserved(0);
        Ok(Log {
            entries: Vec::with_capacity(alloc, lines)?,
            boards: Vec::with_capacity(alloc, vectors)?,
            deltas: Vec::with_capacity(alloc, lines)?,
            counts,
            commands: 0,
        })
    }

    /// Adds an entry that is no Publish, with what it changes.
    pub(crate) fn push(&mut self, entry: Entry, deltas: Deltas)
        requires plain { published_position entry.act ≡ None }
        requires room { length self.old.lines < self.old.line_room }
        ensures { self.new ≡ record {
          lines =
              self.old.lines ++ record { entry = entry; certificate = None } ∷ [];
          deltas =
              self.old.deltas ++ delta_list deltas ∷ [];
          line_room = self.old.line_room;
          board_room =
              self.old.board_room;
        } }
    {
        let changes = self.counts[self.entries.len()] + u64::from(is_change(&entry));
        self.commands += u64::from(is_command(&entry));
        self.entries.push_reserved(entry);
        self.deltas.push_reserved(deltas);
        self.counts.push_reserved(changes);
    }

    /// Adds the Publish of a board by a caller, and answers the number of the vector.
    pub(crate) fn post(&mut self, caller: u32, board: Arc<Board>) -> u64
        requires room { length self.old.lines < self.old.line_room }
        requires board_room { vectors self.old.lines < self.old.board_room }
        ensures number { result ≡ vectors self.old.lines }
        ensures posted { self.new ≡
            record {
              lines = self.old.lines ++
                  published_line caller (arc_value board) (vectors self.old.lines) ∷ [];
              deltas =
                  self.old.deltas ++ [] ∷ [];
              line_room = self.old.line_room;
              board_room = self.old.board_room;
            } }
    {
        let number = self.boards.len() as u64;
        let position = board.position();
        let changes = self.counts[self.entries.len()];
        self.entries.push_reserved(Entry {
            caller,
            act: Act::Publish { position },
            reply: Reply::Vector { number },
        });
        self.boards.push_reserved(board);
        self.deltas.push_reserved(Deltas::None);
        self.counts.push_reserved(changes);
        number
    }

    /// How many lines there are.
    pub(crate) fn len(&self) -> u64
        ensures { result ≡ length self.now.lines }
    {
        let _ = &self.commands;
        self.entries.len() as u64
    }

    /// How many of them are commands.
    pub(crate) fn commands(&self) -> u64
        ensures { result ≡ commands self.now.lines }
    {
        self.commands
    }

    /// How many of them are vectors.
    pub(crate) fn vectors(&self) -> u64
        ensures { result ≡ vectors self.now.lines }
    {
        let _ = &self.commands;
        self.boards.len() as u64
    }

    /// The board of the last vector, of which there is one.
    pub(crate) fn last(&self) -> &Board
        requires { 1 ≤ vectors self.now.lines }
        ensures { slice_get (boards self.now.lines) (vectors self.now.lines - 1) ≡ Some result.now }
    {
        let _ = &self.commands;
        &self.boards[self.boards.len() - 1]
    }

    /// How many changes stand at the places from one up to, and not including, another: a difference of two counts.
    pub(crate) fn changes_between(&self, from: u64, until: u64) -> u64
        requires ordered { from ≤ until }
        requires within { until ≤ length self.now.lines }
        ensures { result ≡ changes_between self.now.lines from until }
    {
        self.counts[until as usize] - self.counts[from as usize]
    }

    /// Fills in what the entries from one place up to another change, whole entries only and as many as fit, and
    /// answers the place reached.
    pub(crate) fn fill(&self, from: u64, until: u64, into: &mut Vec<Change>) -> u64
        requires ordered { from ≤ until }
        requires within { until ≤ length self.now.lines }
        requires empty { into.old.items ≡ [] }
        requires room { 2 ≤ vec_capacity into.old }
        ensures reached { (from ≤ result) × (result ≤ until) }
        ensures moves { from < until → from < result }
        ensures items { into.new.items ≡ stored_between self.now.deltas from result }
        ensures full { result < until →
            vec_capacity into.old < length (stored_between self.now.deltas from (result + 1)) }
        ensures capacity { vec_capacity into.new ≡ vec_capacity into.old }
    {
        let _ = &self.commands;
        for place in from..until {
            let deltas = self.deltas[place as usize];
            if into.len() + deltas.len() > into.capacity() {
                return place;
            }
            deltas.append_to(into);
        }
        until
    }

    /// The entry at a place, if there is one.
    pub(crate) fn entry(&self, place: u64) -> Option<Entry>
        ensures { result ≡ option_map (λ (x : Line). x.entry) (slice_get self.now.lines place) }
    {
        if place < self.entries.len() as u64 {
            Some(self.entries[place as usize])
        } else {
            None
        }
    }

    /// The board of a vector, if there is one of this number.
    pub(crate) fn board(&self, number: u64) -> Option<&Arc<Board>>
        ensures { option_map (λ b. arc_value b.now) result ≡ slice_get (boards self.now.lines) number }
    {
        if number < self.boards.len() as u64 {
            Some(&self.boards[number as usize])
        } else {
            None
        }
    }
}

/// Whether the act of an entry is a command.
fn is_command(entry: &Entry) -> bool
    ensures { result ≡ is_command (record { entry = entry.now; certificate = None }) }
{
    matches!(entry.act, Act::Do(_))
}

/// Whether an entry moves the instance.
fn is_change(entry: &Entry) -> bool
    ensures { result ≡ is_change (record { entry = entry.now; certificate = None }) }
{
    match (entry.act, entry.reply) {
        (Act::Do(Command::Book { .. } | Command::Reforecast { .. } | Command::Reprice { .. }), _) =>
            true,
        (Act::Do(Command::Cancel { .. }), Reply::Cancelled) => true,
        (Act::Do(Command::Resize { .. }), Reply::Done) => true,
        (Act::Do(Command::Group { .. }), Reply::GroupAccepted { .. }) => true,
        _ => false,
    }
}

//! The calls at a shared desk that only read.
ghost use Rattle.std.specs.Prelude.{◌≡◌, ◌+◌, ◌<◌, ◌≤◌, ◌++◌, ◌∷◌, [], length, vec_capacity, slice_get};
ghost use Rattle.std.specs.Option.{option_map};
ghost use Rattle.bp_types.specs.Changes.{Leads};
ghost use Rattle.bp_core.specs.declared.line.Line.{Line};
ghost use Rattle.bp_core.specs.Lines.{last_position};
ghost use Rattle.bp_core.specs.Changes.{changes_after, deltas_between};
ghost use Rattle.bp_core.specs.Callers.{left_of};
ghost use Rattle.bp_core.specs.Instance.{instance_at};
ghost use Rattle.bp_desk.specs.Calling.{HasRead};

use crate::desk::Desk;
use crate::pass::Pass;
use bp_core::Entry;
use bp_types::Change;
use std::sync::Wait;

/// How far the last vector is behind the history.
#[derive(Clone, Copy, Debug, PartialEq, Eq)]
pub struct Lag {
    /// How many entries there are.
    pub length: u64,
    /// The last vector's position.
    pub position: u64,
    /// How many changes stand after that position.
    pub changes: u64,
}

/// Calls that only read. Each takes one turn, and answers for the history that it found there, which the pass has then
/// seen.
impl Desk {
    /// Fills in the changes of the entries from a position on, whole entries only and as many as fit, and answers the
    /// position reached. Applied in turn to the instance at `from` they give the instance there.
    pub fn changes<R: Wait>(
        &self,
        rt: &R,
        pass: &mut Pass,
        from: u64,
        into: &mut Vec<Change>,
    ) -> u64
        requires desk { pass.old.desk ≡ self.now }
        requires within { from ≤ length pass.old.seen }
        requires empty { into.old.items ≡ [] }
        requires room { 2 ≤ vec_capacity into.old }
        ensures read { HasRead pass.old pass.new }
        ensures reached { (from ≤ result) × (result ≤ length pass.new.seen) }
        ensures moves { from < length pass.new.seen → from < result }
        ensures items { into.new.items ≡ deltas_between pass.old.house pass.new.seen from result }
        ensures leads { Leads (instance_at pass.old.house pass.new.seen from) into.new.items
            (instance_at pass.old.house pass.new.seen result) }
        ensures full { result < length pass.new.seen →
            vec_capacity into.old < length (deltas_between pass.old.house pass.new.seen from (result + 1)) }
        ensures capacity { vec_capacity into.new ≡ vec_capacity into.old }
    {
        let shared = self.take(rt, &mut pass.seat);
        let reached = shared.book.changes(from, into);
        self.give(&mut pass.seat, &mut pass.newest, shared);
        reached
    }

    /// The same, of the entries before another position.
    pub fn changes_until<R: Wait>(
        &self,
        rt: &R,
        pass: &mut Pass,
        from: u64,
        until: u64,
        into: &mut Vec<Change>,
    ) -> u64
        requires desk { pass.old.desk ≡ self.now }
        requires ordered { from ≤ until }
        requires within { until ≤ length pass.old.seen }
        requires empty { into.old.items ≡ [] }
        requires room { 2 ≤ vec_capacity into.old }
        ensures read { HasRead pass.old pass.new }
        ensures reached { (from ≤ result) × (result ≤ until) }
        ensures moves { from < until → from < result }
        ensures items { into.new.items ≡ deltas_between pass.old.house pass.old.seen from result }
        ensures leads { Leads (instance_at pass.old.house pass.old.seen from) into.new.items
            (instance_at pass.old.house pass.old.seen result) }
        ensures full { result < until →
            vec_capacity into.old < length (deltas_between pass.old.house pass.old.seen from (result + 1)) }
        ensures capacity { vec_capacity into.new ≡ vec_capacity into.old }
    {
        let shared = self.take(rt, &mut pass.seat);
        let reached = shared.book.changes_until(from, until, into);
        self.give(&mut pass.seat, &mut pass.newest, shared);
        reached
    }

    /// How far the last vector is behind the history.
    pub fn lag<R: Wait>(&self, rt: &R, pass: &mut Pass) -> Lag
        requires desk { pass.old.desk ≡ self.now }
        ensures read { HasRead pass.old pass.new }
        ensures length { result.length ≡ length pass.new.seen }
        ensures position { result.position ≡ last_position pass.new.seen }
        ensures changes { result.changes ≡ changes_after pass.new.seen (last_position pass.new.seen) }
    {
        let shared = self.take(rt, &mut pass.seat);
        let length = shared.book.length();
        let position = shared.book.last_board().position();
        let changes = shared.book.changes_after(position);
        self.give(&mut pass.seat, &mut pass.newest, shared);
        Lag {
            length,
            position,
            changes,
        }
    }

    /// How many of the callers from 1 to a number have left.
    pub fn left<R: Wait>(&self, rt: &R, pass: &mut Pass, sessions: u32) -> u32
        requires desk { pass.old.desk ≡ self.now }
        ensures read { HasRead pass.old pass.new }
        ensures left { result ≡ left_of pass.new.seen sessions }
    {
        let shared = self.take(rt, &mut pass.seat);
        let left = shared.book.left(sessions);
        self.give(&mut pass.seat, &mut pass.newest, shared);
        left
    }

    /// The entry at a place; there is none past the last one.
    pub fn entry<R: Wait>(&self, rt: &R, pass: &mut Pass, place: u64) -> Option<Entry>
        requires { pass.old.desk ≡ self.now }
        ensures read { HasRead pass.old pass.new }
        ensures entry { result ≡ option_map (λ (x : Line). x.entry) (slice_get pass.new.seen place) }
    {
        let shared = self.take(rt, &mut pass.seat);
        let entry = shared.book.entry(place);
        self.give(&mut pass.seat, &mut pass.newest, shared);
        entry
    }

    /// Sees the history so far.
    pub fn refresh<R: Wait>(&self, rt: &R, pass: &mut Pass)
        requires { pass.old.desk ≡ self.now }
        ensures { HasRead pass.old pass.new }
    {
        let shared = self.take(rt, &mut pass.seat);
        self.give(&mut pass.seat, &mut pass.newest, shared);
    }

    /// The length of the history at this moment, found without a turn and without waiting.
    pub fn peek(&self, pass: &mut Pass) -> u64
        requires { pass.old.desk ≡ self.now }
        ensures pass { pass.new ≡ record pass.old { looks = pass.old.looks ++ result ∷ [] } }
        ensures least { length pass.old.seen ≤ result }
    {
        self.turn.peek(&mut pass.seat)
    }
}

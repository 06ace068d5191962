//! A text that is written as it is spelt, and never held whole.
ghost use Rattle.std.specs.Prelude.{◌≡◌, ◌≤◌, ◌++◌, ◌∷◌, [], length, IfOk, IsErrOf};
ghost use Rattle.bp_edges.specs.Counts.{Rose};
ghost use Rattle.bp_edges.specs.Writing.{Writes};
ghost use Rattle.bp_text.specs.Numbers.{spelled};
ghost use Rattle.bp_text.specs.Lines.{line_of, numbers_text, text_of};
ghost use Rattle.bp_text.specs.Drafts.{Drafts};

use crate::cursor::LINE_END;
use crate::numbers::SPACE;
use crate::spaced::{MOST_SPACED, spell_spaced};
use bp_edges::{MOST_PIECE, Sink, WriteError};
use itoa::Buffer;
use std::alloc::{AllocError, Global};
use std::marker::Model;

/// What of a text is spelt and not yet written, at most one piece.
///
/// Contracts see its bytes. After an error of a call that is given a sink, a first part of the text is written:
/// `Failed` comes of the sink alone, `Memory` where there was none.
#[derive(Drop)]
pub struct Draft {
    bytes: Vec<u8>,
}

impl Model for Draft {
    ghost use Rattle.std.specs.Prelude.{◌≤◌, ℕ, List, length};
    ghost use Rattle.bp_edges.specs.declared.sink.TheConstants.{MOST_PIECE};

    ghost Value = { List ℕ };

    ghost view = { λ d. d.bytes.items };

    ghost invariant = { λ d. length d.bytes.items ≤ MOST_PIECE };
}

impl Draft {
    /// A draft with nothing in it. It takes the memory of one piece, and no more afterwards; the one error is want of
    /// memory.
    pub fn new(alloc: Global) -> Result<Draft, AllocError>
        ensures { IfOk result (λ draft. draft ≡ []) }
    {
        let bytes = Vec::with_capacity(alloc, MOST_PIECE)?;
        Ok(Draft { bytes })
    }

    /// Puts bytes behind the draft, and hands it on each time that it is full.
    #[inline]
    pub fn push<K: Sink>(&mut self, bytes: &[u8], out: &mut K) -> Result<(), WriteError>
        ensures writes { Drafts (K.written out.old) (K.written out.new) self.old self.new bytes.now result }
        ensures failed { IsErrOf result WriteError.Failed → Rose (K.faults out.old) (K.faults out.new) }
        ensures unfailing { K.steady out.old → ¬ IsErrOf result WriteError.Failed }
        ensures steady { K.steady out.old → K.steady out.new }
        ensures faults { K.faults out.old ≤ K.faults out.new }
    {
        if bytes.len() > MOST_PIECE - self.bytes.len() {
            return self.push_in_pieces(bytes, out);
        }
        self.bytes.extend_from_slice(bytes)?;
        Ok(())
    }

    /// Puts bytes behind the draft that may have no room for all of them, apart so that the test is inlined.
    #[inline(never)]
    fn push_in_pieces<K: Sink>(&mut self, bytes: &[u8], out: &mut K) -> Result<(), WriteError>
        ensures writes { Drafts (K.written out.old) (K.written out.new) self.old self.new bytes.now result }
        ensures failed { IsErrOf result WriteError.Failed → Rose (K.faults out.old) (K.faults out.new) }
        ensures unfailing { K.steady out.old → ¬ IsErrOf result WriteError.Failed }
        ensures steady { K.steady out.old → K.steady out.new }
        ensures faults { K.faults out.old ≤ K.faults out.new }
    {
        let mut rest = bytes;
        while rest.len() > MOST_PIECE - self.bytes.len() {
            let (front, more) = rest.split_at(MOST_PIECE - self.bytes.len());
            self.bytes.extend_from_slice(front)?;
            self.hand_on(out)?;
            rest = more;
        }
        self.bytes.extend_from_slice(rest)?;
        Ok(())
    }

    /// Puts a number behind the draft, in decimal digits.
    pub fn push_number<K: Sink>(&mut self, number: u128, out: &mut K) -> Result<(), WriteError>
        ensures writes { Drafts (K.written out.old) (K.written out.new) self.old self.new (spelled number) result }
        ensures failed { IsErrOf result WriteError.Failed → Rose (K.faults out.old) (K.faults out.new) }
        ensures unfailing { K.steady out.old → ¬ IsErrOf result WriteError.Failed }
        ensures steady { K.steady out.old → K.steady out.new }
        ensures faults { K.faults out.old ≤ K.faults out.new }
    {
        let mut buffer = Buffer::new();
        self.push(buffer.format(number).as_bytes(), out)
    }

    /// Puts a number behind the draft, and one space before it.
    fn push_spaced<K: Sink>(&mut self, number: u128, out: &mut K) -> Result<(), WriteError>
        ensures writes { Drafts (K.written out.old) (K.written out.new) self.old self.new (32 ∷ spelled number) result }
        ensures failed { IsErrOf result WriteError.Failed → Rose (K.faults out.old) (K.faults out.new) }
        ensures unfailing { K.steady out.old → ¬ IsErrOf result WriteError.Failed }
        ensures steady { K.steady out.old → K.steady out.new }
        ensures faults { K.faults out.old ≤ K.faults out.new }
    {
        self.push(&[SPACE], out)?;
        self.push_number(number, out)
    }

    /// Puts a machine word behind the draft, and one space before it, both at once.
    fn push_spaced_word<K: Sink>(&mut self, number: u64, out: &mut K) -> Result<(), WriteError>
        ensures writes { Drafts (K.written out.old) (K.written out.new) self.old self.new (32 ∷ spelled number) result }
        ensures failed { IsErrOf result WriteError.Failed → Rose (K.faults out.old) (K.faults out.new) }
        ensures unfailing { K.steady out.old → ¬ IsErrOf result WriteError.Failed }
        ensures steady { K.steady out.old → K.steady out.new }
        ensures faults { K.faults out.old ≤ K.faults out.new }
    {
        let mut bytes = [SPACE; MOST_SPACED];
        let start = spell_spaced(number, &mut bytes);
        self.push(&bytes[start..], out)
    }

    /// Puts numbers behind the draft, each behind one space.
    pub fn push_numbers<K: Sink>(&mut self, numbers: &[u64], out: &mut K) -> Result<(), WriteError>
        ensures writes { Drafts (K.written out.old) (K.written out.new) self.old self.new (numbers_text numbers.now)
            result }
        ensures failed { IsErrOf result WriteError.Failed → Rose (K.faults out.old) (K.faults out.new) }
        ensures unfailing { K.steady out.old → ¬ IsErrOf result WriteError.Failed }
        ensures steady { K.steady out.old → K.steady out.new }
        ensures faults { K.faults out.old ≤ K.faults out.new }
    {
        for number in numbers {
            self.push_spaced_word(*number, out)?;
        }
        Ok(())
    }

    /// Puts a line of a word and numbers behind the draft, with its end.
    pub fn push_line<K: Sink>(
        &mut self,
        word: &[u8],
        numbers: &[u64],
        out: &mut K,
    ) -> Result<(), WriteError>
        ensures writes { Drafts (K.written out.old) (K.written out.new) self.old self.new
            (text_of (line_of word.now numbers.now ∷ [])) result }
        ensures failed { IsErrOf result WriteError.Failed → Rose (K.faults out.old) (K.faults out.new) }
        ensures unfailing { K.steady out.old → ¬ IsErrOf result WriteError.Failed }
        ensures steady { K.steady out.old → K.steady out.new }
        ensures faults { K.faults out.old ≤ K.faults out.new }
    {
        self.push(word, out)?;
        self.push_numbers(numbers, out)?;
        self.push(&[LINE_END], out)
    }

    /// Puts a line of a word and one wide number behind the draft, with its end.
    pub fn push_wide_line<K: Sink>(
        &mut self,
        word: &[u8],
        number: u128,
        out: &mut K,
    ) -> Result<(), WriteError>
        ensures writes { Drafts (K.written out.old) (K.written out.new) self.old self.new
            (text_of (line_of word.now (number ∷ []) ∷ [])) result }
        ensures failed { IsErrOf result WriteError.Failed → Rose (K.faults out.old) (K.faults out.new) }
        ensures unfailing { K.steady out.old → ¬ IsErrOf result WriteError.Failed }
        ensures steady { K.steady out.old → K.steady out.new }
        ensures faults { K.faults out.old ≤ K.faults out.new }
    {
        self.push(word, out)?;
        self.push_spaced(number, out)?;
        self.push(&[LINE_END], out)
    }

    /// Writes what is in the draft, and leaves it empty.
    pub fn hand_on<K: Sink>(&mut self, out: &mut K) -> Result<(), WriteError>
        ensures writes { Writes (K.written out.old) (K.written out.new) self.old result }
        ensures empty { IfOk result (λ _. self.new ≡ []) }
        ensures failed { IsErrOf result WriteError.Failed → Rose (K.faults out.old) (K.faults out.new) }
        ensures unfailing { K.steady out.old → ¬ IsErrOf result WriteError.Failed }
        ensures steady { K.steady out.old → K.steady out.new }
        ensures faults { K.faults out.old ≤ K.faults out.new }
    {
        out.put(*self.bytes.allocator(), &self.bytes)?;
        self.bytes.clear();
        Ok(())
    }
}

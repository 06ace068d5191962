//! What a value under the lock has to be.
ghost use Rattle.std.specs.Prelude.{◌≡◌, ℕ, List, length};

/// A value that a history lock may hold. It has a part that never changes, and a list of entries, its story, each made
/// by a caller with a number.
pub trait Story {
    /// The part that never changes. All values that lie in one lock have the same.
    type Fixed;

    /// One event of the story.
    type Entry;

    /// The part that never changes.
    ghost fixed: { Self → Self.Fixed };

    /// The entries, the oldest first.
    ghost story: { Self → List Self.Entry };

    /// The number of the caller that made the entry.
    ghost caller: { Self.Entry → ℕ };

    /// How many entries the story has.
    fn length(&self) -> u64
        ensures { result ≡ length (story self.now) };
}

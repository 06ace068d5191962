//! The next words of a line, as numbers.
ghost use Rattle.std.specs.Prelude.{◌≡◌, ℕ, ◌∷◌, List, ◌||◌, MatchOption};
ghost use Rattle.bp_text.specs.Numbers.{spelled};
ghost use Rattle.bp_text.specs.Words.{Word, IsCounted};

use bp_text::{Counted, Words};

/// The next two words as numbers; None where they are not both numbers.
pub(crate) fn two(words: &mut Words<'_>, first: u128, second: u128) -> Option<(Counted, Counted)>
    ensures { MatchOption result
        ((m n : ℕ) (more : List Word) → words.old ≡ spelled m ∷ spelled n ∷ more → ⊥)
        (λ r. (m : ℕ) × (n : ℕ) × (words.old ≡ spelled m ∷ spelled n ∷ words.new) × IsCounted first m r.0 ×
        IsCounted second n r.1) }
{
    let Some(one) = words.number(first) else {
        return None;
    };
    match words.number(second) {
        None => None,
        Some(other) => Some((one, other)),
    }
}

/// Whether either is above its limit.
pub(crate) fn is_either(first: bool, second: bool) -> bool
    ensures { result ≡ (first || second) }
{
    first || second
}

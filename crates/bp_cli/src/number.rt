//! Numbers of 1 to 9 decimal digits.
ghost use Rattle.std.specs.Prelude.{◌≤◌, ℕ, MatchOption};
ghost use Rattle.bp_cli.specs.Words.{IsNumber};

/// Workers of a desk where the line does not say how many.
pub const WORKERS: u32 = 2;

/// The number that 1 to 9 decimal digits write; None of any other word.
pub(crate) fn number_of(word: &str) -> Option<u32>
    ensures { MatchOption result ((n : ℕ) → IsNumber word.now n → ⊥) (IsNumber word.now) }
{
    if word.len() > 9 || word.starts_with('+') {
        return None;
    }
    word.parse().ok()
}

/// A number of 1 to 9 digits from least to most; None of any other word.
pub(crate) fn number_within(least: u32, most: u32, word: &str) -> Option<u32>
    ensures { MatchOption result
        ((n : ℕ) → IsNumber word.now n → least ≤ n → n ≤ most → ⊥)
        (λ n. IsNumber word.now n × (least ≤ n) × (n ≤ most)) }
{
    let number = number_of(word)?;
    if least <= number && number <= most {
        Some(number)
    } else {
        None
    }
}

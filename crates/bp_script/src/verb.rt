//! The verbs of a script.
ghost use Rattle.std.specs.Prelude.{◌≡◌};
ghost use Rattle.bp_script.specs.Verbs.{verb_of, verb_in};

use bp_stayfile::TableRefusal;

/// What a row asks for.
#[derive(Clone, Copy)]
pub(crate) enum Verb {
    Book,
    Cancel,
    Reforecast,
    Reprice,
    Resize,
    Group,
}

/// The verb that a text is, if it is one.
fn verb_of(text: &str) -> Option<Verb>
    ensures { result ≡ verb_of text.now }
{
    match text {
        "book" => Some(Verb::Book),
        "cancel" => Some(Verb::Cancel),
        "reforecast" => Some(Verb::Reforecast),
        "reprice" => Some(Verb::Reprice),
        "resize" => Some(Verb::Resize),
        "group" => Some(Verb::Group),
        _ => None,
    }
}

/// A verb; else `Verb`.
pub(crate) fn verb_in(line: u64, text: &str) -> Result<Verb, TableRefusal>
    ensures { result ≡ verb_in line text.now }
{
    verb_of(text).ok_or(TableRefusal::Verb { line })
}

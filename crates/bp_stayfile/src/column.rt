//! The columns of the tables, by their names.
ghost use Rattle.std.specs.Prelude.{◌≡◌};
ghost use Rattle.bp_stayfile.specs.Columns.{column_text};

/// A column of a table.
#[derive(Clone, Copy, Debug, PartialEq, Eq)]
pub enum Column {
    Code,
    Arrival,
    Nights,
    Rate,
    Count,
    Session,
    Verb,
    Item,
    Rooms,
    Amount,
}

impl Column {
    /// The name of the column, as it stands in a header.
    pub fn text(self) -> &'static str
        ensures { result.now ≡ column_text self }
    {
        match self {
            Column::Code => "code",
            Column::Arrival => "arrival",
            Column::Nights => "nights",
            Column::Rate => "rate",
            Column::Count => "count",
            Column::Session => "session",
            Column::Verb => "verb",
            Column::Item => "item",
            Column::Rooms => "rooms",
            Column::Amount => "amount",
        }
    }
}

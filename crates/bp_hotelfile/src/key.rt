//! The keys of the hotel file.
ghost use Rattle.std.specs.Prelude.{◌≡◌};
ghost use Rattle.bp_hotelfile.specs.Keys.{key_text};

/// A key of the hotel file.
#[derive(Clone, Copy, Debug, PartialEq, Eq)]
pub enum Key {
    Name,
    FirstNight,
    Nights,
    Rooms,
    StaleAfter,
    Entries,
    Publications,
    Unit,
    Night,
}

impl Key {
    /// The key as it stands in the file.
    pub fn text(self) -> &'static str
        ensures { result.now ≡ key_text self }
    {
        match self {
            Key::Name => "name",
            Key::FirstNight => "first_night",
            Key::Nights => "nights",
            Key::Rooms => "rooms",
            Key::StaleAfter => "stale_after",
            Key::Entries => "entries",
            Key::Publications => "publications",
            Key::Unit => "unit",
            Key::Night => "night",
        }
    }
}

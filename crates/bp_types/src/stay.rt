//! A stay, which is what the hotel sells, and the span of nights that it takes.
ghost use Rattle.std.specs.Prelude.{◌≡◌};
ghost use Rattle.bp_types.specs.Program.{covers};

/// The nights from `from` up to `to - 1`; the guest departs on the morning of night `to`.
#[derive(Clone, Copy, Debug, PartialEq, Eq)]
pub struct Span {
    /// The night of arrival, from 0.
    pub from: u32,
    /// The night after the last one, on whose morning the guest departs.
    pub to: u32,
}

/// A product: a room on each night of the span, at a rate for the whole stay.
#[derive(Clone, Copy, Debug, PartialEq, Eq)]
pub struct Stay {
    /// Its nights.
    pub span: Span,
    /// What the whole stay pays, in minor units of money.
    pub rate: u64,
    /// How many are expected to ask for it, in units.
    pub forecast: u64,
}

impl Span {
    /// Whether a guest of this span sleeps in the hotel on the night.
    pub fn covers(self, night: u32) -> bool
        ensures { result ≡ covers self night }
    {
        self.from <= night && night < self.to
    }
}

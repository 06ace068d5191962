//! Laws over the definitions, as the contracts of functions that do nothing.
ghost use Rattle.bp_hotelfile.specs.Laws.{FilesGiveSeasons, DaysHaveOneText};

/// What a hotel file says keeps to every limit.
pub fn files_give_seasons()
    ensures { FilesGiveSeasons }
{}

/// A day has one text, ten characters as `2025-07-01`, and two days have two texts.
pub fn days_have_one_text()
    ensures { DaysHaveOneText }
{}

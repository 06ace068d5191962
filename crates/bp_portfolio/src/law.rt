//! Laws over lists of hotels, as the contracts of functions that do nothing.
ghost use Rattle.bp_text.specs.Laws.{HasOneSpelling, IsPrefixFree};
ghost use Rattle.bp_portfolio.specs.Lists.{list_lines};
ghost use Rattle.bp_portfolio.specs.Laws.{OneReading};

/// No two lists have one text, and none goes on behind another; bytes are read as a list in one way.
pub fn lists_have_one_spelling()
    ensures spelling { HasOneSpelling list_lines }
    ensures prefix { IsPrefixFree list_lines }
    ensures reading { OneReading }
{}

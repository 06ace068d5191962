//! Laws over the definitions, as the contracts of functions that do nothing.
ghost use Rattle.bp_types.specs.Laws.{DisplacementIsUnique};

/// A group of so many units on a span of an instance has one displacement at most: whatever method found it, it is the
/// number of the quote.
pub fn displacement_is_unique()
    ensures { DisplacementIsUnique }
{
    bp_types::law::displacement_is_unique();
}

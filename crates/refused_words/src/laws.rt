//! Laws of refused lines. Each function only states one.

ghost use Rattle.refused_words.specs.Laws.{LimitHasQuantity, RefusedHasWord};

/// A line that is refused for how a name is spelled, for the order of intervals, for what it uses
/// outside of a column or for its arrivals has a refused word.
pub fn refused_has_word()
    ensures { RefusedHasWord }
{}

/// A line that is refused by a limit brings a quantity above its bound, unless it makes the text too long.
pub fn limit_has_quantity()
    ensures { LimitHasQuantity }
{}

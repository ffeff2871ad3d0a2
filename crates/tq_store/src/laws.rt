//! Laws of the rows of a window: functions with an empty body, whose contract is the law.

ghost use Rattle.tq_store.specs.Laws.{PartsAreValid, RowsAppearOnce};

/// If parts tile a window, as those of `tq_scan::cut` do, each row of the window is a row of exactly one part.
pub fn rows_appear_once()
    ensures { RowsAppearOnce }
{}

/// If parts tile a window, their rows, one part after the other, are valid at each instant of its period as often as
/// those of the table. Their keys lie in the range.
pub fn parts_are_valid()
    ensures { PartsAreValid }
{}

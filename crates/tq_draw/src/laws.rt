//! Laws of pictures, for proofs. No code calls them.

ghost use Rattle.tq_draw.specs.Laws.{BarsMatchRows, CellsTile, InstantsAreDrawn, LabelsAreNarrow, MarksAreFirstDays, ScalesCoverRows, WindowsAreScales};

/// The cells of a scale cover its instants in order, each instant once, and no cell is empty.
pub fn cells_tile()
    ensures { CellsTile }
{}

/// A bar is filled exactly in the cells with an instant at which its row is valid.
pub fn bars_match_rows()
    ensures { BarsMatchRows }
{}

/// The bar of a row that is valid at an instant of the scale has a filled cell.
pub fn instants_are_drawn()
    ensures { InstantsAreDrawn }
{}

/// Without a window, each row has an instant in the scale. Only rows that begin at instant 0, in dates, begin before the
/// scale, and the scale goes up to the end of each row that has one.
pub fn scales_cover_rows()
    ensures { ScalesCoverRows }
{}

/// A window is the scale, and each row that is shown has an instant in it.
pub fn windows_are_scales()
    ensures { WindowsAreScales }
{}

/// In dates each mark is on the cell that holds a first day of the scale's unit, and the date of this day is written above
/// it; only if there is no room for any such mark, there is one on the first cell. Marks are at least 12 cells apart.
pub fn marks_are_first_days()
    ensures { MarksAreFirstDays }
{}

/// A label takes at most 24 columns of a terminal.
pub fn labels_are_narrow()
    ensures { LabelsAreNarrow }
{}

//! Laws of the rows of a table by key, and of references, for proofs. No code calls them.

ghost use Rattle.tq_check.specs.KeyLaws.{AllAreListed, GapsAreGaps, KeyOrderIsUnique, OverlapsAreOverlaps};
ghost use Rattle.tq_check.specs.OrphanLaws.{AllOrphansAreListed, MissingPeriodsAreFirst, OtherRowsHaveParents};

/// The rows of a table have at most one order by key, start and place. So there is one text of a summary.
pub fn key_order_is_unique()
    ensures { KeyOrderIsUnique }
{}

/// The list of all rows that overlap an earlier row of their key, or that end a gap, is as long as their number.
pub fn all_are_listed()
    ensures { AllAreListed }
{}

/// Two rows that are listed as overlapping do overlap.
pub fn overlaps_are_overlaps()
    ensures { OverlapsAreOverlaps }
{}

/// In a gap that is listed no row of its key is valid.
pub fn gaps_are_gaps()
    ensures { GapsAreGaps }
{}

/// The list of all rows that have no parent at some time is as long as their number.
pub fn all_orphans_are_listed()
    ensures { AllOrphansAreListed }
{}

/// The period that is listed as missing for a row is the first maximal period, within that of the row, in which the row
/// has no parent.
pub fn missing_periods_are_first()
    ensures { MissingPeriodsAreFirst }
{}

/// A row that is not listed has a parent at each instant of its period.
pub fn other_rows_have_parents()
    ensures { OtherRowsHaveParents }
{}

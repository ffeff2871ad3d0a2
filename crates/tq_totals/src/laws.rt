//! Laws of the definitions: functions with an empty body whose contract is the law.

ghost use Rattle.tq_totals.specs.Calendar.{PeriodsAreRuns};
ghost use Rattle.tq_totals.specs.Totals.{TotalsAreUnique};

/// The periods of the calendar follow each other from the first day to the end. All days of a period have its label, and
/// the next period has another one.
pub fn periods_are_runs()
    ensures { PeriodsAreRuns }
{}

/// The totals of rows are unique: at most one list has them.
pub fn totals_are_unique()
    ensures { TotalsAreUnique }
{}

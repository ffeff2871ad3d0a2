//! Laws of reports: functions with an empty body whose contract is the law.

ghost use Rattle.tq_report.specs.ImportLaws.{AmountsAreReadBack, EndsAreReadBack};
ghost use Rattle.tq_report.specs.Laws.{CsvIsTheAnswer};

use tq_base::laws::dates_round_trip;

/// CSV without amounts and included ends is the text of answers.
pub fn csv_is_the_answer()
    ensures { CsvIsTheAnswer }
{}

/// A number of 64 signed bits, written with any number of digits after the point, is what an import reads.
pub fn amounts_are_read_back()
    ensures { AmountsAreReadBack }
{}

/// The end of a period is what an import reads of the last instant that is written for it.
pub fn ends_are_read_back()
    ensures { EndsAreReadBack }
{
    dates_round_trip();
}

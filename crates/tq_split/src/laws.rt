//! Laws of divided tables and of answers over their parts: functions with an empty body whose contract is the law.

ghost use Rattle.tq_split.specs.PartNumbers.{PartNumbersAreBelow};
ghost use Rattle.tq_split.specs.Splits.{AddedAnswersAnswer, MergedAnswersAnswer};
ghost use Rattle.tq_split.specs.TableParts.{LinesLoad, PartsAppend, PartsLoad};

/// Every value belongs to one of the parts.
pub fn part_numbers_are_below()
    ensures { PartNumbersAreBelow }
{}

/// If a whole table file loads, by the loader's own definition, the text of each part loads: it has the same columns, and
/// the rows that belong to the part, in their order.
pub fn parts_load()
    ensures { PartsLoad }
{}

/// The lines of a part load under any header of the table, also if they come from several files: as the rows that belong to
/// the part, in their order.
pub fn lines_load()
    ensures { LinesLoad }
{}

/// A further file, which does not begin the parts, adds the lines of its records to them.
pub fn parts_append()
    ensures { PartsAppend }
{}

/// If tables are divided so that answers add up, the layers of the rows of all answers over the parts are the answer over the
/// whole tables.
pub fn merged_answers_answer()
    ensures { MergedAnswersAnswer }
{}

/// If tables are divided so that counts and sums add up, the layers of the sums of the groups of all answers over the parts are
/// the answer over the whole tables.
pub fn added_answers_answer()
    ensures { AddedAnswersAnswer }
{}

//! Laws of answers.

ghost use Rattle.tq_exec.specs.Answers.{AnswersAgree, AnswersAreUnique, AnswersExist, AnswersStay};
ghost use Rattle.tq_exec.specs.Bounds.{BoundsAreGiven};
ghost use Rattle.tq_exec.specs.Fitting.{HeldRowsFit};
ghost use Rattle.tq_exec.specs.AggregateParts.{PartitionsHaveGroups};
ghost use Rattle.tq_exec.specs.Required.{AllColumnsSuffice, ProjectedRowsFit, ProjectedTablesAnswer, ProjectedTablesFit, ProjectedTablesHold, RequiredColumnsSuffice};
ghost use Rattle.tq_exec.specs.Partitioning.{PartitionsHaveAnswers, PartitionsHaveRows};
ghost use Rattle.tq_exec.specs.Parts.{LinkedPartitionsAreParts, PartitionsAreParts, PartsHaveLayers, PartsHaveRows, PeriodsAreParts, RangesAreParts};
ghost use Rattle.tq_exec.specs.TableAnswers.{TablesAnswer};

use tq_base::laws::{layers_are_runs, layers_are_unique, layers_exist};
use tq_event::laws::prefixes_agree;
use tq_plan::laws::plans_are_valid;

/// A statement has at most one answer over a catalogue, a history and a count of its events.
pub fn answers_are_unique()
    ensures { AnswersAreUnique }
{
    layers_are_unique();
}

/// A plan has an answer over every history, as of every count of its events.
pub fn answers_exist()
    ensures { AnswersExist }
{
    layers_exist();
}

/// Each row of an answer begins and ends at 0, `forever`, a bound of the statement's window, or the time of one
/// of the events that the answer is as of.
pub fn bounds_are_given()
    ensures { BoundsAreGiven }
{
    layers_are_runs();
}

/// A plan has the same answer over two sets of tables if each row is valid equally often in the tables that it reads.
pub fn answers_agree()
    ensures { AnswersAgree }
{
    plans_are_valid();
}

/// Events that come later change no answer as of the events before them.
pub fn answers_stay()
    ensures { AnswersStay }
{
    prefixes_agree();
    answers_agree();
}

/// A plan has the same answer over a history and over tables with the rows of this history, in any order.
pub fn tables_answer()
    ensures { TablesAnswer }
{
    answers_agree();
}

/// Rows of tables with the rows of a history over a catalogue fit the catalogue's tables.
pub fn held_rows_fit()
    ensures { HeldRowsFit }
{}

/// The law of a divided execution. If parts add up to a whole, lists with the rows of the parts have together the rows of the
/// whole. If the lists are ordered and coalesced, and each is below the next, they are one after the other the ordered,
/// coalesced rows of the whole. A new way to divide a plan needs only to make such parts.
pub fn parts_have_the_whole()
    ensures rows { PartsHaveRows }
    ensures layers { PartsHaveLayers }
{}

/// Partitions of the tables by a column that partitions the plan, or by columns that link the sources of a plan that only
/// joins, periods that tile its window, and ranges of found rows are parts that add up to the whole.
pub fn partitionings_make_parts()
    ensures values { PartitionsAreParts }
    ensures linked { LinkedPartitionsAreParts }
    ensures periods { PeriodsAreParts }
    ensures ranges { RangesAreParts }
{
    partitions_have_answers();
    partitions_have_rows();
}

/// If the first output of a plan is the column by which its tables are partitioned, the plan over a partition has exactly the
/// rows of its answer whose first value belongs to the partition.
pub fn partitions_have_answers()
    ensures { PartitionsHaveAnswers }
{}

/// If each row that passes a query has the value by which its tables are partitioned at one place, the rows that pass over a
/// partition are exactly those whose value at this place belongs to the partition.
pub fn partitions_have_rows()
    ensures { PartitionsHaveRows }
{}

/// The rows whose first value belongs to a partition make exactly the groups of this partition.
pub fn partitions_have_groups()
    ensures { PartitionsHaveGroups }
{}

/// The answer of a plan depends only on the columns that it names. Dropping the other columns does not change it.
pub fn required_columns_suffice()
    ensures { RequiredColumnsSuffice }
{}

/// Without a list of wanted columns, no column is dropped.
pub fn all_columns_suffice()
    ensures { AllColumnsSuffice }
{}

/// Dropping columns does not change which tables rows fit, and when the rows of tables are valid.
pub fn projected_rows_fit()
    ensures rows { ProjectedRowsFit }
    ensures tables { ProjectedTablesFit }
    ensures valid { ProjectedTablesHold }
{}

/// A plan has the same answer over whole tables and over tables that keep the columns that it names.
pub fn projected_tables_answer()
    ensures { ProjectedTablesAnswer }
{
    required_columns_suffice();
    all_columns_suffice();
}

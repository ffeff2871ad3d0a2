//! Laws of answers.

ghost use Rattle.tq_engine.specs.Answers.{AnswersAreDated, AnswersAreUnique, QueryIsAnswered, QueryIsRefused, OutcomesAreUnique, OutcomesExist};

use tq_event::laws::{
    loaded_are_dated, loaded_exists, loaded_is_history, loaded_is_unique, tables_are_loaded,
};
use tq_exec::laws::{
    answers_exist, bounds_are_given, held_rows_fit, projected_tables_answer, tables_answer,
};
use tq_plan::laws::{queries_are_valid, windows_are_dated};
use tq_sql::laws::{
    faults_are_refusals, faults_are_unique, statements_are_unique, texts_are_decided,
};

/// Files and a statement have at most one answer.
pub fn answers_are_unique()
    ensures { AnswersAreUnique }
{
    loaded_is_unique();
    statements_are_unique();
    tq_exec::laws::answers_are_unique();
}

/// Files and a statement have exactly one outcome: an answer, or a first fault. Failed allocations and failed writes
/// are no outcomes. So both the answer and a refusal are the same for every number of workers.
pub fn outcomes_are_decided()
    ensures exist { OutcomesExist }
    ensures unique { OutcomesAreUnique }
{
    loaded_exists();
    loaded_is_unique();
    texts_are_decided();
    faults_are_refusals();
    faults_are_unique();
    statements_are_unique();
    answers_exist();
    answers_are_unique();
}

/// If files write instants as dates, each bound of the answer has a date or is `forever`. No bound is printed as a
/// number.
pub fn answers_are_dated()
    ensures { AnswersAreDated }
{
    bounds_are_given();
    loaded_are_dated();
    windows_are_dated();
}

/// The answer of the statement's plan over a loaded query's tables is the answer over the files. Columns that the plan
/// does not name need no values there. A fault of the statement over these tables is the first fault of the query.
pub fn query_is_answered()
    ensures answered { QueryIsAnswered }
    ensures refused { QueryIsRefused }
{
    tables_are_loaded();
    loaded_is_history();
    held_rows_fit();
    queries_are_valid();
    projected_tables_answer();
    tables_answer();
}

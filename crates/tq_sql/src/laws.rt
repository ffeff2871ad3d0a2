//! Laws of the grammar and of faults: functions with an empty body, whose contract is the law.

ghost use Rattle.tq_sql.specs.Laws.{FaultsAreRefusals, FaultsAreUnique, StatementsAreUnique, TextsAreDecided};

/// A list of tokens makes at most one statement.
pub fn statements_are_unique()
    ensures { StatementsAreUnique }
{}

/// A text that has a fault makes no statement.
pub fn faults_are_refusals()
    ensures { FaultsAreRefusals }
{}

/// A text has at most one fault.
pub fn faults_are_unique()
    ensures { FaultsAreUnique }
{}

/// Each text makes a statement or has a fault.
pub fn texts_are_decided()
    ensures { TextsAreDecided }
{}

//! Laws of conditions: functions with an empty body, whose contract is the law.

ghost use Rattle.tq_condition.specs.Known.{KeepsPassing};

/// If `may_pass` is false for a part of a row, each row with that part at that position fails.
pub fn parts_keep_passing()
    ensures { KeepsPassing }
{}

// The names of faults that `tq` prints.

ghost use Rattle.std.specs.Prelude.{◌≡◌};
ghost use Rattle.tq_engine.specs.FaultNames.{load_name, plan_name, sql_name};

use tq_event::LoadFaultKind;
use tq_plan::PlanFault;
use tq_sql::SqlFaultKind;

/// The name of a fault of a file.
pub fn load_name(fault: LoadFaultKind) -> &'static str
    ensures { result.now ≡ load_name fault }
{
    match fault {
        LoadFaultKind::BadHeader => "BadHeader",
        LoadFaultKind::DuplicateName => "DuplicateName",
        LoadFaultKind::FieldCount => "FieldCount",
        LoadFaultKind::BadInt => "BadInt",
        LoadFaultKind::TextTooLong => "TextTooLong",
        LoadFaultKind::BadPeriod => "BadPeriod",
        LoadFaultKind::NotUtf8 => "NotUtf8",
        LoadFaultKind::TooManyTables => "TooManyTables",
        LoadFaultKind::TooManyColumns => "TooManyColumns",
        LoadFaultKind::TooManyEvents => "TooManyEvents",
        LoadFaultKind::OutOfMemory => "OutOfMemory",
    }
}

/// The name of a fault of a statement's text.
pub fn sql_name(fault: SqlFaultKind) -> &'static str
    ensures { result.now ≡ sql_name fault }
{
    match fault {
        SqlFaultKind::BadByte => "BadByte",
        SqlFaultKind::UnexpectedToken => "UnexpectedToken",
        SqlFaultKind::NumberTooLarge => "NumberTooLarge",
        SqlFaultKind::UnclosedText => "UnclosedText",
        SqlFaultKind::TooDeep => "TooDeep",
        SqlFaultKind::TooLong => "TooLong",
        SqlFaultKind::OutOfMemory => "OutOfMemory",
    }
}

/// The name of a fault of a plan.
pub fn plan_name(fault: PlanFault) -> &'static str
    ensures { result.now ≡ plan_name fault }
{
    match fault {
        PlanFault::UnknownTable => "UnknownTable",
        PlanFault::UnknownColumn => "UnknownColumn",
        PlanFault::AmbiguousColumn => "AmbiguousColumn",
        PlanFault::DuplicateAlias => "DuplicateAlias",
        PlanFault::TypeMismatch => "TypeMismatch",
        PlanFault::NotGrouped => "NotGrouped",
        PlanFault::SumNeedsGroup => "SumNeedsGroup",
        PlanFault::SumOfText => "SumOfText",
        PlanFault::UnequalColumns => "UnequalColumns",
        PlanFault::BadWindow => "BadWindow",
        PlanFault::OutOfMemory => "OutOfMemory",
    }
}

//! Laws of the conversions: functions with an empty body whose contract is the law.

ghost use Rattle.tq_import.specs.Laws.{DatesAreWrittenBack, EndsAreKept, Latin1FieldsAreConverted, Latin1IsKept, SecondsAreCounted, UnitsAreExact};
ghost use Rattle.tq_import.specs.Loads.{ImportedFilesLoad, ImportsAreReadBack, ImportsLoad};
ghost use Rattle.tq_import.specs.Rejects.{FirstFaultsAgree, RecordsAreSplit, RejectsAreReadBack, ValidFilesAgree, ValidRecordsAgree};

use tq_base::laws::dates_round_trip;

/// The number of units of 10^-places is exactly the amount that a field writes.
pub fn units_are_exact()
    ensures { UnitsAreExact }
{}

/// A field that is read as a day is what its format writes of that day.
pub fn dates_are_written_back()
    ensures { DatesAreWrittenBack }
{
    dates_round_trip();
}

/// An end that is included ends the period at the next instant, and any other end at itself.
pub fn ends_are_kept()
    ensures { EndsAreKept }
{}

/// The text of an import is read as its header and the fields of each record, one after the other.
pub fn imports_are_read_back()
    ensures { ImportsAreReadBack }
{}

/// The text of an import loads, by the loader's own definition: the table has the planned columns and the rows that the
/// records mean, in order, if the loader's limit on events allows for them.
pub fn imports_load()
    ensures { ImportsLoad }
{}

/// A file with the text of an import holds one table with these columns and rows.
pub fn imported_files_load()
    ensures { ImportedFilesLoad }
{}

/// If no record is invalid, the table file of the valid records is that of a plain import.
pub fn valid_files_agree()
    ensures { ValidFilesAgree }
{}

/// The first invalid record is the one that stops a plain import, with the same fault.
pub fn first_faults_agree()
    ensures { FirstFaultsAgree }
{}

/// Each record is either valid or invalid, in the order of the file.
pub fn records_are_split()
    ensures { RecordsAreSplit }
{}

/// Without row numbers, the table file of the valid records is what a plain import makes of these records alone.
pub fn valid_records_agree()
    ensures { ValidRecordsAgree }
{}

/// With commas, the file of invalid records is read as the header and these records.
pub fn rejects_are_read_back()
    ensures { RejectsAreReadBack }
{}

/// A second is counted from its day and the seconds since midnight: they are found again by dividing by 86,400.
pub fn seconds_are_counted()
    ensures { SecondsAreCounted }
{}

/// A file in Latin-1 becomes UTF-8 whose characters have the bytes of the file as their code points.
pub fn latin1_is_kept()
    ensures { Latin1IsKept }
{}

/// The records of a file in Latin-1 are those of its bytes, with each field as UTF-8, if the delimiter is ASCII.
pub fn latin1_fields_are_converted()
    ensures { Latin1FieldsAreConverted }
{}

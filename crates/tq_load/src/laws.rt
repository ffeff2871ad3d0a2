//! Laws of records and of their rows.

ghost use Rattle.tq_load.specs.Laws.{HeadersAreCatalogue, RecordsAreIndependent, ParsedIsContents};

/// If bytes end where a record begins, the records of the whole are those of the bytes, then those of what follows.
/// What follows must not begin with a byte order mark.
pub fn records_are_independent()
    ensures { RecordsAreIndependent }
{}

/// Files with valid names, headers and records hold the rows of their records, if the events stay within the limit.
pub fn parsed_is_contents()
    ensures { ParsedIsContents }
{}

/// The tables of valid files are those of their names and headers.
pub fn headers_are_catalogue()
    ensures { HeadersAreCatalogue }
{}

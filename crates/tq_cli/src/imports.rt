// What `tq import` was asked.

ghost use Rattle.std.specs.Prelude.{IfOk};
ghost use Rattle.clap.specs.Words.{found_of, rows_of};
ghost use Rattle.tq_cli.specs.CommandLine.{AreColumnsOf, AreWordsOf, IsImportOf, IsPeriodOf};

use crate::request::ImportRequest;
use crate::values::{read_flag, read_list, read_text};
use crate::words::bytes_of;
use clap::ArgMatches;
use std::alloc::{AllocError, Global};
use tq_import::{ColumnWords, ImportWords, PeriodWords};

/// How the periods of an import are written.
pub(crate) fn read_period(alloc: Global, import: &ArgMatches<'_>) -> Result<PeriodWords, AllocError>
    ensures { IfOk result (IsPeriodOf (rows_of (found_of import.now))) }
{
    let from = bytes_of(alloc, read_text(import, "from"))?;
    let to = bytes_of(alloc, read_text(import, "to"))?;
    let format = bytes_of(alloc, read_text(import, "date-format"))?;
    let unit = bytes_of(alloc, read_text(import, "unit"))?;
    let open = read_list(alloc, import, "open")?;
    Ok(PeriodWords {
        from,
        to,
        format,
        unit,
        inclusive: read_flag(import, "inclusive"),
        open,
    })
}

/// Which columns an import has.
pub(crate) fn read_columns(
    alloc: Global,
    import: &ArgMatches<'_>,
) -> Result<ColumnWords, AllocError>
    ensures { IfOk result (AreColumnsOf (rows_of (found_of import.now))) }
{
    let key = bytes_of(alloc, read_text(import, "key"))?;
    let only = bytes_of(alloc, read_text(import, "columns"))?;
    let without = bytes_of(alloc, read_text(import, "without"))?;
    let renames = read_list(alloc, import, "rename")?;
    let decimals = read_list(alloc, import, "decimal")?;
    let ints = read_list(alloc, import, "int")?;
    let texts = read_list(alloc, import, "text")?;
    Ok(ColumnWords {
        key,
        numbered: read_flag(import, "number"),
        only,
        without,
        renames,
        decimals,
        ints,
        texts,
    })
}

/// How a file is imported.
pub(crate) fn read_import_words(
    alloc: Global,
    import: &ArgMatches<'_>,
) -> Result<ImportWords, AllocError>
    ensures { IfOk result (AreWordsOf (rows_of (found_of import.now))) }
{
    let encoding = bytes_of(alloc, read_text(import, "encoding"))?;
    let delimiter = bytes_of(alloc, read_text(import, "delimiter"))?;
    let point = bytes_of(alloc, read_text(import, "decimal-point"))?;
    let thousands = bytes_of(alloc, read_text(import, "thousands"))?;
    let period = read_period(alloc, import)?;
    let columns = read_columns(alloc, import)?;
    Ok(ImportWords {
        encoding,
        delimiter,
        period,
        columns,
        point,
        thousands,
    })
}

/// What `tq import` was asked.
pub(crate) fn read_import(
    alloc: Global,
    import: &ArgMatches<'_>,
) -> Result<ImportRequest, AllocError>
    ensures { IfOk result (IsImportOf (rows_of (found_of import.now))) }
{
    let path = bytes_of(alloc, read_text(import, "file"))?;
    let output = bytes_of(alloc, read_text(import, "output"))?;
    let rejected = bytes_of(alloc, read_text(import, "skip-invalid"))?;
    let words = read_import_words(alloc, import)?;
    Ok(ImportRequest {
        path,
        output,
        all: read_flag(import, "all"),
        rejected,
        explain: read_flag(import, "explain"),
        words,
    })
}

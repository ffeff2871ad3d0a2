// The options of an import, as words of a command line.

use crate::dates::is_date_format;
use crate::encoding::Encoding;
use crate::options::{GivenKind, ImportOptions, Rename, Selection};
use crate::plan::{Conversion, NumberFormat, TimeFormat, TimeUnit};
use std::alloc::{AllocError, Global};
use tq_base::{List, read_natural};

// The most digits after the point that an option takes.
const MAX_PLACES: u64 = 18;

/// The options of an import, as they were given. An option that was not given is empty.
#[derive(Drop, Debug)]
pub struct ImportWords {
    pub encoding: Vec<u8>,
    pub delimiter: Vec<u8>,
    pub period: PeriodWords,
    pub columns: ColumnWords,
    pub point: Vec<u8>,
    pub thousands: Vec<u8>,
}

/// How periods are written.
#[derive(Drop, Debug)]
pub struct PeriodWords {
    pub from: Vec<u8>,
    pub to: Vec<u8>,
    pub format: Vec<u8>,
    pub unit: Vec<u8>,
    pub inclusive: bool,
    pub open: Vec<Vec<u8>>,
}

/// Which columns are imported, and how.
#[derive(Drop, Debug)]
pub struct ColumnWords {
    pub key: Vec<u8>,
    pub numbered: bool,
    pub only: Vec<u8>,
    pub without: Vec<u8>,
    pub renames: Vec<Vec<u8>>,
    pub decimals: Vec<Vec<u8>>,
    pub ints: Vec<Vec<u8>>,
    pub texts: Vec<Vec<u8>>,
}

/// Why options were not read: an option has an invalid value, with what is expected, or an allocation failed.
#[derive(Clone, Copy, Debug)]
pub enum WordFault {
    Invalid(&'static str),
    OutOfMemory,
}

impl From<AllocError> for WordFault {
    fn from(_error: AllocError) -> WordFault {
        WordFault::OutOfMemory
    }
}

// The single byte of a word; `none` if the word is empty.
fn one_byte(word: &[u8], none: u8, expected: &'static str) -> Result<u8, WordFault> {
    match word {
        [] => Ok(none),
        [byte] => Ok(*byte),
        b"\\t" => Ok(b'\t'),
        _ => Err(WordFault::Invalid(expected)),
    }
}

fn read_encoding(word: &[u8]) -> Result<Encoding, WordFault> {
    match word {
        b"" | b"utf8" => Ok(Encoding::Utf8),
        b"latin1" => Ok(Encoding::Latin1),
        _ => Err(WordFault::Invalid("--encoding takes utf8 or latin1")),
    }
}

// Fails if one of these bytes is not ASCII and files are in Latin-1: there such a byte becomes two in UTF-8.
fn check_ascii(encoding: Encoding, delimiter: u8, numbers: NumberFormat) -> Result<(), WordFault> {
    let are_ascii = delimiter.is_ascii()
        && numbers.point.is_ascii()
        && numbers.thousands.unwrap_or(0).is_ascii();
    match encoding {
        Encoding::Latin1 if !are_ascii => Err(WordFault::Invalid(
            "--delimiter, --decimal-point and --thousands take ASCII bytes with --encoding latin1",
        )),
        _ => Ok(()),
    }
}

fn read_delimiter(word: &[u8]) -> Result<u8, WordFault> {
    let byte = one_byte(word, b',', "--delimiter takes one byte, or \\t for a tab")?;
    match byte {
        b'"' | b'\n' | b'\r' => Err(WordFault::Invalid(
            "--delimiter cannot be a quote or a line end",
        )),
        _ => Ok(byte),
    }
}

fn read_numbers(point: &[u8], thousands: &[u8]) -> Result<NumberFormat, WordFault> {
    let point = one_byte(point, b'.', "--decimal-point takes one byte")?;
    let mark = one_byte(thousands, b'0', "--thousands takes one byte")?;
    let is_plain = |byte: u8| byte.is_ascii_alphanumeric() || byte == b'-';
    let thousands = if thousands.is_empty() {
        None
    } else {
        Some(mark)
    };
    if is_plain(point) || thousands.is_some_and(|mark| is_plain(mark) || mark == point) {
        return Err(WordFault::Invalid(
            "--decimal-point and --thousands take different bytes, no letters, digits or `-`",
        ));
    }
    Ok(NumberFormat { point, thousands })
}

fn lists_of(alloc: Global, words: Vec<Vec<u8>>) -> Result<List<List<u8>>, AllocError> {
    let mut lists = Vec::new(alloc);
    'words: for word in words {
        lists.push(List::of(word)).map_err(AllocError::from)?;
    }
    Ok(List::of(lists))
}

// The names between commas.
fn names_in(alloc: Global, word: &[u8]) -> Result<List<List<u8>>, AllocError> {
    let mut names = Vec::new(alloc);
    let mut name = Vec::new(alloc);
    'bytes: for byte in word {
        if *byte == b',' {
            names
                .push(List::of(name.as_slice().to_vec(alloc)?))
                .map_err(AllocError::from)?;
            name.clear();
        } else {
            name.push(*byte)?;
        }
    }
    names.push(List::of(name)).map_err(AllocError::from)?;
    Ok(List::of(names))
}

fn read_unit(word: &[u8], has_format: bool) -> Result<TimeUnit, WordFault> {
    if !word.is_empty() && !has_format {
        return Err(WordFault::Invalid("--unit needs --date-format"));
    }
    match word {
        b"" | b"day" => Ok(TimeUnit::Day),
        b"second" => Ok(TimeUnit::Second),
        _ => Err(WordFault::Invalid("--unit takes day or second")),
    }
}

fn read_times(
    alloc: Global,
    words: PeriodWords,
) -> Result<(List<u8>, List<u8>, TimeFormat), WordFault> {
    let PeriodWords {
        from,
        to,
        format,
        unit,
        inclusive,
        open,
    } = words;
    let unit = read_unit(&unit, !format.is_empty())?;
    let dates = if format.is_empty() {
        None
    } else if is_date_format(&format) {
        Some(List::of(format))
    } else {
        return Err(WordFault::Invalid(
            "--date-format takes dd, mm and yyyy with other bytes between them, as dd.mm.yyyy",
        ));
    };
    let times = TimeFormat {
        dates,
        unit,
        open: lists_of(alloc, open)?,
        inclusive,
    };
    Ok((List::of(from), List::of(to), times))
}

fn read_selection(alloc: Global, only: &[u8], without: &[u8]) -> Result<Selection, WordFault> {
    match (only.is_empty(), without.is_empty()) {
        (true, true) => Ok(Selection::All),
        (false, true) => Ok(Selection::Only(names_in(alloc, only)?)),
        (true, false) => Ok(Selection::Without(names_in(alloc, without)?)),
        (false, false) => Err(WordFault::Invalid("give --columns or --without, not both")),
    }
}

fn read_key(key: Vec<u8>, numbered: bool) -> Result<Option<List<u8>>, WordFault> {
    match (key.is_empty(), numbered) {
        (true, true) => Ok(None),
        (false, false) => Ok(Some(List::of(key))),
        _ => Err(WordFault::Invalid(
            "give --key NAME, or --number for a first column of row numbers",
        )),
    }
}

// The name and the text after the last `=`.
fn split_last(word: &[u8]) -> Option<(&[u8], &[u8])> {
    let place = word.iter().rposition(|byte| *byte == b'=')?;
    Some((&word[..place], &word[place + 1..]))
}

fn read_renames(alloc: Global, words: &[Vec<u8>]) -> Result<List<Rename>, WordFault> {
    let mut renames = Vec::new(alloc);
    'words: for word in words {
        let Some((old, new)) = split_last(word) else {
            return Err(WordFault::Invalid("--rename takes OLD=NEW"));
        };
        let rename = Rename {
            old: List::of(old.to_vec(alloc)?),
            new: List::of(new.to_vec(alloc)?),
        };
        renames.push(rename).map_err(AllocError::from)?;
    }
    Ok(List::of(renames))
}

fn add_kind(
    alloc: Global,
    kinds: &mut Vec<GivenKind>,
    name: &[u8],
    conversion: Conversion,
) -> Result<(), WordFault> {
    let given = GivenKind {
        name: List::of(name.to_vec(alloc)?),
        conversion,
    };
    kinds.push(given).map_err(AllocError::from)?;
    Ok(())
}

fn add_decimals(
    alloc: Global,
    kinds: &mut Vec<GivenKind>,
    words: &[Vec<u8>],
) -> Result<(), WordFault> {
    'words: for word in words {
        let Some((name, places)) = split_last(word) else {
            return Err(WordFault::Invalid("--decimal takes NAME=PLACES"));
        };
        let Some(places) = read_natural(places, MAX_PLACES) else {
            return Err(WordFault::Invalid("--decimal takes NAME=PLACES, with 0 to 18 places"));
        };
        add_kind(alloc, kinds, name, Conversion::Number(places as usize))?;
    }
    Ok(())
}

fn add_kinds(
    alloc: Global,
    kinds: &mut Vec<GivenKind>,
    words: &[Vec<u8>],
    conversion: Conversion,
) -> Result<(), WordFault> {
    'words: for word in words {
        add_kind(alloc, kinds, word, conversion)?;
    }
    Ok(())
}

/// The options that the words ask for. `Invalid` says what an option takes.
pub fn read_words(alloc: Global, words: ImportWords) -> Result<ImportOptions, WordFault> {
    let ImportWords {
        encoding,
        delimiter,
        period,
        columns,
        point,
        thousands,
    } = words;
    let encoding = read_encoding(&encoding)?;
    let delimiter = read_delimiter(&delimiter)?;
    let (from, to, times) = read_times(alloc, period)?;
    let numbers = read_numbers(&point, &thousands)?;
    check_ascii(encoding, delimiter, numbers)?;
    let ColumnWords {
        key,
        numbered,
        only,
        without,
        renames,
        decimals,
        ints,
        texts,
    } = columns;
    let key = read_key(key, numbered)?;
    let selection = read_selection(alloc, &only, &without)?;
    let renames = read_renames(alloc, &renames)?;
    let mut kinds = Vec::new(alloc);
    add_decimals(alloc, &mut kinds, &decimals)?;
    add_kinds(alloc, &mut kinds, &ints, Conversion::Number(0))?;
    add_kinds(alloc, &mut kinds, &texts, Conversion::Text)?;
    Ok(ImportOptions {
        encoding,
        delimiter,
        from,
        to,
        key,
        selection,
        renames,
        kinds: List::of(kinds),
        numbers,
        times,
    })
}

//! The manifest of divided tables, in JSON: what was divided by what, and what the answers over the parts look like.

ghost use Rattle.std.specs.Prelude.{IsTrue};
ghost use Rattle.tq_base.specs.Names.{is_shown_name};

use crate::answer_part::AnswerLayout;
use crate::combine::Combine;
use serde::{Deserialize, Serialize};
use serde_json::{Error, to_string_pretty};
use std::alloc::{AllocError, Global};
use std::str;
use tq_base::{Column, Form, Kind, Name, fold_name};

/// The version of manifests that this crate writes and reads.
pub const MANIFEST_VERSION: u32 = 2;

/// A column: its name, and `int` or `text`.
#[derive(Debug, Drop, Serialize, Deserialize)]
pub struct ManifestColumn {
    pub name: String,
    pub kind: String,
}

/// A table: its name, and the name of the column by which it is divided. Without one, it is whole in each part.
#[derive(Debug, Drop, Serialize, Deserialize)]
pub struct ManifestTable {
    pub name: String,
    pub divided_by: Option<String>,
}

/// The statement, whether its instants are dates, the number of parts, the tables, and the columns of the answer. Answers are
/// combined by `merge` or `add`. If they are added, the first `groups` columns name a group; otherwise there is no `groups`.
#[derive(Debug, Drop, Serialize, Deserialize)]
pub struct Manifest {
    pub version: u32,
    pub statement: String,
    pub dates: bool,
    pub parts: u32,
    pub tables: Vec<ManifestTable>,
    pub columns: Vec<ManifestColumn>,
    pub combine: String,
    pub groups: Option<u32>,
}

/// Why a manifest is not read: it is not a manifest of this version, or an allocation failed.
#[derive(Clone, Copy, Debug, PartialEq, Eq)]
pub enum ManifestFault {
    Invalid,
    OutOfMemory,
}

impl From<AllocError> for ManifestFault {
    fn from(_error: AllocError) -> ManifestFault {
        ManifestFault::OutOfMemory
    }
}

impl From<Error> for ManifestFault {
    fn from(error: Error) -> ManifestFault {
        if error.is_memory() {
            ManifestFault::OutOfMemory
        } else {
            ManifestFault::Invalid
        }
    }
}

fn kind_word(kind: Kind) -> &'static str {
    match kind {
        Kind::Int => "int",
        Kind::Text => "text",
    }
}

fn read_kind(word: &str) -> Option<Kind> {
    match word {
        "int" => Some(Kind::Int),
        "text" => Some(Kind::Text),
        _ => None,
    }
}

/// The word for a way to combine answers.
pub fn combine_word(combine: Combine) -> &'static str {
    match combine {
        Combine::Merge => "merge",
        Combine::Add { .. } => "add",
    }
}

/// The number of columns that name a group, if answers are added.
pub fn combine_groups(combine: Combine) -> Option<u32> {
    match combine {
        Combine::Merge => None,
        Combine::Add { groups } => Some(groups),
    }
}

fn read_combine(word: &str, groups: Option<u32>) -> Option<Combine> {
    match (word, groups) {
        ("merge", None) => Some(Combine::Merge),
        ("add", Some(groups)) => Some(Combine::Add { groups }),
        _ => None,
    }
}

// Whether the columns suit the way in which answers are combined: to add them, there are more columns than those of the
// groups, and the others are numbers.
fn can_combine(combine: Combine, columns: &[Column]) -> bool {
    match combine {
        Combine::Merge => true,
        Combine::Add { groups } => match columns.get(groups as usize..) {
            Some(sums) => !sums.is_empty() && sums.iter().all(|column| column.kind == Kind::Int),
            None => false,
        },
    }
}

/// The text of a name.
pub fn name_text(alloc: Global, name: &Name) -> Result<String, AllocError> {
    match str::from_utf8(name.bytes()) {
        Ok(text) => String::from_str(alloc, text),
        Err(_) => Ok(String::new(alloc)),
    }
}

/// The columns of an answer, as a manifest has them.
pub fn manifest_columns(
    alloc: Global,
    columns: &[Column],
) -> Result<Vec<ManifestColumn>, AllocError> {
    let mut all = Vec::with_capacity(alloc, columns.len())?;
    for column in columns {
        let name = name_text(alloc, &column.name)?;
        let kind = String::from_str(alloc, kind_word(column.kind))?;
        all.push(ManifestColumn { name, kind })
            .map_err(AllocError::from)?;
    }
    Ok(all)
}

/// The manifest as JSON.
pub fn manifest_text(alloc: Global, manifest: &Manifest) -> Result<String, ManifestFault> {
    Ok(to_string_pretty(alloc, manifest)?)
}

/// Reads a manifest. `Invalid` if the bytes are not a manifest of this version.
pub fn read_manifest(alloc: Global, bytes: &[u8]) -> Result<Manifest, ManifestFault> {
    let manifest: Manifest = serde_json::from_slice(alloc, bytes)?;
    if manifest.version == MANIFEST_VERSION {
        Ok(manifest)
    } else {
        Err(ManifestFault::Invalid)
    }
}

// A name made from the word, which is one of the names of counts and sums.
fn counted_name(alloc: Global, word: &[u8]) -> Result<Name, AllocError>
    requires { IsTrue (is_shown_name word.now) }
{
    Ok(Name::of(Vec::from_slice(alloc, word)?))
}

// The name of a column of an answer; `None` if the bytes are not a valid name.
fn read_name(alloc: Global, bytes: &[u8]) -> Result<Option<Name>, AllocError> {
    if bytes == b"count".as_slice() {
        return Ok(Some(counted_name(alloc, b"count")?));
    }
    if bytes == b"sum".as_slice() {
        return Ok(Some(counted_name(alloc, b"sum")?));
    }
    fold_name(alloc, bytes)
}

/// How the answers are written and combined. `Invalid` if a column has no valid name or kind, or if the columns cannot be
/// combined in this way.
pub fn answer_layout(alloc: Global, manifest: &Manifest) -> Result<AnswerLayout, ManifestFault> {
    let mut columns = Vec::with_capacity(alloc, manifest.columns.len())?;
    for column in &manifest.columns {
        let Some(name) = read_name(alloc, column.name.as_bytes())? else {
            return Err(ManifestFault::Invalid);
        };
        let Some(kind) = read_kind(column.kind.as_str()) else {
            return Err(ManifestFault::Invalid);
        };
        columns
            .push(Column { name, kind })
            .map_err(AllocError::from)?;
    }
    let form = if manifest.dates {
        Form::Dates
    } else {
        Form::Numbers
    };
    let Some(combine) = read_combine(manifest.combine.as_str(), manifest.groups) else {
        return Err(ManifestFault::Invalid);
    };
    if !can_combine(combine, &columns) {
        return Err(ManifestFault::Invalid);
    }
    Ok(AnswerLayout {
        columns,
        form,
        combine,
    })
}

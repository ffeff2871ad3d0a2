// The queries of a reader: some neighbouring keys at one instant, as of some count of events.

ghost use Rattle.std.specs.Prelude.{◌≡◌};

use std::alloc::Global;
use tq_base::{Catalogue, Form};
use tq_plan::plan;
use tq_snapshot::{Reader, StoreId};
use tq_sql::read;

// The number of neighbouring keys of a query.
const NEIGHBOURS: u32 = 250;

// The instant of all queries. The rows that a store began with are valid then.
const AT: u64 = 100_000_000;

/// The number of rows that a store began with, and the number of queries of each reader for them.
#[derive(Clone, Copy)]
pub struct Questions {
    pub rows: u32,
    pub count: u32,
}

/// The number of answered queries, and the number of rows found.
#[derive(Clone, Copy)]
pub struct Asked {
    pub answers: u64,
    pub rows: u64,
}

impl Asked {
    /// The sum of both.
    pub fn and(self, other: Asked) -> Asked {
        Asked {
            answers: self.answers.saturating_add(other.answers),
            rows: self.rows.saturating_add(other.rows),
        }
    }
}

// A number below the limit; consecutive numbers give distant results.
fn spread(number: u32, limit: u32) -> u32 {
    (u64::from(number) * 2_654_435_761 % (u64::from(limit) + 1)) as u32
}

// The number of neighbouring rows, from `first` on, found as of the first `n` events.
fn ask_one<J: StoreId>(
    alloc: Global,
    catalogue: &Catalogue,
    reader: &mut Reader<J>,
    n: u32,
    first: u32,
) -> anyhow::Result<u64>
    requires { catalogue.now ≡ J.catalogue }
{
    let behind = first.saturating_add(NEIGHBOURS);
    let statement = format!(in alloc;
        "VALIDTIME PERIOD '[{AT} - {})' SELECT k FROM t WHERE k >= {first} AND k < {behind}",
        AT + 1
    )?;
    let statement = read(alloc, statement.as_bytes())?;
    let plan = plan(alloc, catalogue, &statement, Form::Numbers)?;
    let table = reader.ask(alloc, n, &plan)?;
    Ok(table.rows.len() as u64)
}

/// Runs all queries; those of two readers differ. Queries without an answer are not counted.
pub fn ask_all<J: StoreId>(
    alloc: Global,
    catalogue: &Catalogue,
    mut reader: Reader<J>,
    questions: Questions,
    number: u32,
) -> Asked
    requires { catalogue.now ≡ J.catalogue }
{
    let Questions { rows, count } = questions;
    let mut asked = Asked {
        answers: 0,
        rows: 0,
    };
    for place in 0..count {
        let n = spread(place.saturating_add(number), rows);
        let first = spread(n, rows.saturating_sub(NEIGHBOURS));
        if let Ok(found) = ask_one(alloc, catalogue, &mut reader, n, first) {
            asked = asked.and(Asked {
                answers: 1,
                rows: found,
            });
        }
    }
    asked
}

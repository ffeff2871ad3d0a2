//! Comparison of answers with the definition.

use crate::fault::Fault;
use crate::instants::lines_at;
use crate::printing::line_of;
use std::alloc::{AllocError, Global};
use tq_plan::Plan;
use tq_store::Db;
use tq_table::Table;

// The rows of the table that are valid at the instant, in order.
fn valid_lines(alloc: Global, table: &Table<'_>, instant: u64) -> Result<Vec<String>, AllocError> {
    let mut lines = Vec::new(alloc);
    let mut values = Vec::new(alloc);
    for line in 0..table.rows.len() {
        let period = table.rows.period(line);
        if period.start.number() <= instant && instant < period.end.number() {
            values.clear();
            table.rows.row(line).show_all(&mut values)?;
            lines.push(line_of(alloc, &values)?)?;
        }
    }
    lines.sort()?;
    Ok(lines)
}

/// Results of comparisons: the number of rows, and of instants at which they are not those of the definition.
#[derive(Clone, Copy)]
pub(crate) struct Seen {
    pub(crate) rows: usize,
    pub(crate) differences: u32,
}

impl Seen {
    /// No rows.
    pub(crate) fn nothing() -> Seen {
        Seen {
            rows: 0,
            differences: 0,
        }
    }

    fn add(&mut self, rows: usize, agree: bool) {
        self.rows = self.rows.saturating_add(rows);
        self.differences = self.differences.saturating_add(u32::from(!agree));
    }

    /// Compares the rows of the plan's answer as of the first `n` events at the instant.
    pub(crate) fn see(
        &mut self,
        alloc: Global,
        db: &Db,
        n: u32,
        plan: &Plan,
        table: &Table<'_>,
        instant: u64,
    ) -> Result<(), Fault> {
        let lines = valid_lines(alloc, table, instant)?;
        let defined = lines_at(alloc, &db.events().to_vec(alloc)?, n, plan, instant)?;
        self.add(lines.len(), lines == defined);
        Ok(())
    }
}

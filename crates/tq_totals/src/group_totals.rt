// Totals of an answer over time.

ghost use Rattle.std.specs.BTreeMap.{IsOrdered};
ghost use Rattle.std.specs.Prelude.{◌≡◌, IfErr, IfOk, List, map};
ghost use Rattle.tq_base.specs.ValueOrder.{values_cmp};
ghost use Rattle.tq_totals.specs.Sums.{total_pair, totals_entry};
ghost use Rattle.tq_totals.specs.Totals.{HaveEnds, HaveNumbers, AreTotals, IsFault};

use crate::checks::{check_ends, check_numbers};
use crate::fault::TotalsFault;
use crate::groups::sums_by_group;
use crate::sums::Sums;
use std::alloc::{AllocError, Global};
use std::collections::BTreeMap;
use tq_base::{List, Values};
use tq_table::Table;

// A group of rows with equal values in some columns, and the total of each summed column. A total is the sum, over all
// instants, of the column's numbers in the group's rows that are valid then.
#[derive(Drop, Debug)]
pub(crate) struct Total {
    pub values: Values,
    pub sums: List<i128>,
}

// The groups in the order of their values, each with its totals.
fn listed(alloc: Global, groups: BTreeMap<Values, Sums>) -> Result<Vec<Total>, AllocError>
    ensures totals { IfOk result (λ totals. map total_pair totals.items ≡ map totals_entry groups.entries) }
    ensures ordered { IsOrdered values_cmp groups }
{
    groups.len();
    let mut totals = Vec::new(alloc);
    'groups: for (values, sums) in groups {
        let sums = sums.totals(alloc)?;
        totals.push(Total { values, sums })?;
    }
    Ok(totals)
}

// The totals of the columns `summed` for each group of rows with equal values in the columns `by`, in the order of
// these values.
pub(crate) fn totals(
    alloc: Global,
    table: &Table<'_>,
    by: &[u32],
    summed: &[u32],
) -> Result<Vec<Total>, TotalsFault>
    ensures totals { IfOk result (λ totals. AreTotals by.now summed.now table.now.rows totals.items) }
    ensures ends { IfOk result (λ _. HaveEnds table.now.rows) }
    ensures numbers { IfOk result (λ _. HaveNumbers summed.now table.now.rows) }
    ensures fault { IfErr result (IsFault by.now summed.now table.now.rows) }
{
    check_ends(&table.rows)?;
    check_numbers(&table.rows, summed)?;
    let groups = sums_by_group(alloc, &table.rows, by, summed)?;
    Ok(listed(alloc, groups)?)
}

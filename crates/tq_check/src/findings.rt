// Rows that overlap an earlier row of their key, and rows that follow a gap.

ghost use Rattle.std.specs.Prelude.{◌≡◌, ◌+◌, ◌<◌, ◌≤◌, ◌++◌, ◌^◌, IfOk, List, None, OnOk, length, take};
ghost use Rattle.std.specs.List.{cons_option};
ghost use Rattle.tq_check.specs.declared.findings.KeyPair.{KeyPair as OnePair};
ghost use Rattle.tq_check.specs.KeyRows.{found_pair, further, is_found};
ghost use Rattle.tq_check.specs.KeyPasses.{of_key, pairs_after};

use crate::key_rows::KeyedRow;
use std::alloc::{AllocError, Global};

// At most this many pairs are listed.
const LISTED: usize = 100;

/// What is looked for among the rows of a key: a row that starts while an earlier one is valid, or a row that starts
/// after a time at which none is.
#[derive(Clone, Copy, Debug)]
pub(crate) enum Finding {
    Overlap,
    Gap,
}

/// A row, and of the earlier rows of its key the one that ends last.
#[derive(Clone, Copy, Debug)]
pub(crate) struct KeyPair {
    pub(crate) earlier: KeyedRow,
    pub(crate) row: KeyedRow,
}

/// How many pairs were found, and the first of them.
#[derive(Drop, Debug)]
pub(crate) struct Findings {
    pub(crate) count: usize,
    pub(crate) first: Vec<KeyPair>,
}

fn is_found(finding: Finding, pair: &KeyPair) -> bool
    ensures { result ≡ is_found finding pair.now }
{
    match finding {
        Finding::Overlap => pair.row.start < pair.earlier.end,
        Finding::Gap => pair.earlier.end < pair.row.start,
    }
}

// The last row, if it has the key of this one.
fn of_key(last: Option<KeyedRow>, row: &KeyedRow) -> Option<KeyedRow>
    ensures { result ≡ of_key last row.now }
{
    match last {
        Some(last) if last.key == row.key => Some(last),
        _ => None,
    }
}

// The one of the two rows that ends later; the earlier one if they end together.
fn further(earlier: Option<KeyedRow>, row: &KeyedRow) -> KeyedRow
    ensures { result ≡ further earlier row.now }
{
    match earlier {
        Some(earlier) if row.end <= earlier.end => earlier,
        _ => *row,
    }
}

// The row and the earlier one, if they are what is looked for.
fn found_pair(finding: Finding, earlier: Option<KeyedRow>, row: &KeyedRow) -> Option<KeyPair>
    ensures { result ≡ found_pair finding earlier row.now }
{
    let Some(earlier) = earlier else {
        return None;
    };
    let pair = KeyPair { earlier, row: *row };
    if is_found(finding, &pair) {
        Some(pair)
    } else {
        None
    }
}

// Counts the pair, if there is one, and lists it if fewer than `LISTED` are listed.
fn add_pair(findings: &mut Findings, pair: Option<KeyPair>) -> Result<(), AllocError>
    requires fits { findings.old.count < 2 ^ 32 }
    requires short { length findings.old.first.items ≤ 100 }
    ensures count { (rest : List OnePair) → OnOk result (findings.new.count + length rest ≡ findings.old.count + length (cons_option pair rest)) }
    ensures first { (rest : List OnePair) → OnOk result (take 100 (findings.new.first.items ++ rest) ≡ take 100 (findings.old.first.items ++ cons_option pair rest)) }
    ensures more { OnOk result (findings.new.count ≤ findings.old.count + 1) }
    ensures short { OnOk result (length findings.new.first.items ≤ 100) }
{
    let Some(pair) = pair else {
        return Ok(());
    };
    findings.count += 1;
    if findings.first.len() < LISTED {
        findings.first.push(pair)?;
    }
    Ok(())
}

/// Goes once through the rows, which are in the order of their keys. `AllocError` if an allocation failed.
pub(crate) fn findings_in(
    alloc: Global,
    order: &[KeyedRow],
    finding: Finding,
) -> Result<Findings, AllocError>
    requires { length order.now ≤ 4294967295 }
    ensures count { IfOk result (λ findings. findings.count ≡ length (pairs_after finding None order.now)) }
    ensures first { IfOk result (λ findings. findings.first.items ≡ take 100 (pairs_after finding None order.now)) }
{
    let mut findings = Findings {
        count: 0,
        first: Vec::new(alloc),
    };
    let mut last = None;
    'rows: for row in order {
        let earlier = of_key(last, row);
        add_pair(&mut findings, found_pair(finding, earlier, row))?;
        last = Some(further(earlier, row));
    }
    Ok(findings)
}

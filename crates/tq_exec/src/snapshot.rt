//! Tables over which plans are executed.

ghost use Rattle.std.specs.Prelude.{IfOk};
ghost use Rattle.std.proofs.Props.{props};
ghost use Rattle.tq_base.specs.declared.catalogue.Catalogue.{Catalogue as AnyCatalogue};
ghost use Rattle.tq_event.specs.Tables.{lists_of};
ghost use Rattle.tq_exec.specs.Answers.{in_tables, ValidRows};
ghost use Rattle.tq_exec.specs.Scan.{HasRowsIn};
ghost use Rattle.tq_exec.specs.Fitting.{fit_prop, AreAllFitting, AreFitting};

use std::alloc::{AllocError, Global};
use tq_base::{Catalogue, KeyRange, Period, Relation, Rows};

/// Tables that do not change: their catalogue, and which rows are valid in each table at each instant.
pub trait Snapshot<'a> {
    // the tables
    ghost catalogue: { Self → AnyCatalogue };

    // which rows are valid in each table at each instant
    ghost valid: { Self → ValidRows };

    /// Does nothing. Its contract says that each valid row fits its table: it has the width of the table, and a number of 64
    /// signed bits in each column of numbers.
    fn fit(&self)
        ensures { AreFitting (catalogue self.now) (valid self.now) };

    /// Rows of the table, borrowed or owned. At each instant of the window these are the valid rows with a key of the range,
    /// and maybe other valid rows; at other instants nothing is promised. `AllocError` if an allocation failed.
    fn rows(
        &self,
        alloc: Global,
        table: u32,
        keys: &KeyRange,
        window: &Period,
    ) -> Result<Relation<'a>, AllocError>
        ensures { IfOk result (λ rows. HasRowsIn window.now keys.now (valid self.now table) rows.items) };
}

/// Tables of rows, by their numbers, and their catalogue. A table that does not exist has no rows. A table is borrowed whole,
/// for any range of keys.
#[derive(Clone, Copy)]
pub struct TablesOfRows<'a> {
    pub catalogue: &'a Catalogue,
    pub tables: &'a [Rows],
    ghost fit: { AreAllFitting catalogue.now (lists_of tables.now) } by { Prim.hlevel (props, fit_prop) },
}

impl<'a> Snapshot<'a> for TablesOfRows<'a> {
    ghost catalogue = { λ s. s.catalogue.now };

    ghost valid = { λ s. in_tables (lists_of s.tables.now) };

    fn fit(&self) {}

    fn rows(
        &self,
        alloc: Global,
        table: u32,
        _keys: &KeyRange,
        _window: &Period,
    ) -> Result<Relation<'a>, AllocError> {
        match self.tables.get(table as usize) {
            Some(rows) => Relation::of(alloc, rows),
            None => Relation::owned(alloc, Rows::new(alloc, 0)),
        }
    }
}

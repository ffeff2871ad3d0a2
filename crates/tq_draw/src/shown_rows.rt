// The rows that a picture shows.

ghost use Rattle.std.specs.Prelude.{◌≡◌, ◌<◌, IfOk, length, slice_index_or};
ghost use Rattle.tq_base.specs.Relations.{values_at_number};
ghost use Rattle.tq_draw.specs.Scales.{is_in_window, shown_rows};

use std::alloc::{AllocError, Global};
use std::marker::Model;
use tq_base::{Period, Row};
use tq_table::ResultRows;

/// The rows in a window, in their order. Contracts see the list of rows.
#[derive(Drop)]
pub struct ShownRows<'r, 'a> {
    rows: &'r ResultRows<'a>,
    places: Vec<usize>,
}

impl<'r, 'a> Model for ShownRows<'r, 'a> {
    ghost use Rattle.std.specs.Prelude.{◌<◌, All, List, length, map, slice_index_or};
    ghost use Rattle.tq_base.specs.Keys.{no_row};
    ghost use Rattle.tq_base.specs.declared.fragment.Fragment.{Fragment};

    ghost Value = { List Fragment };

    ghost view = { λ s. map (λ place. slice_index_or s.rows.now place no_row) s.places.items };

    ghost invariant = { λ s. All (λ place. place < length s.rows.now) s.places.items };
}

// Whether a picture of the window shows a row that is valid in the period.
fn is_in_window(window: &Option<Period>, period: &Period) -> bool
    ensures { result ≡ is_in_window window.now period.now }
{
    match window {
        Some(window) => {
            let begins_before = period.start.number() < window.end.number();
            begins_before && window.start.number() < period.end.number()
        }
        None => true,
    }
}

impl<'r, 'a> ShownRows<'r, 'a> {
    ghost use Rattle.tq_base.specs.declared.fragment.Fragment.{Fragment};

    /// The rows that a picture of the window shows. `AllocError` if an allocation failed.
    pub(crate) fn of(
        alloc: Global,
        rows: &'r ResultRows<'a>,
        window: &Option<Period>,
    ) -> Result<ShownRows<'r, 'a>, AllocError>
        ensures { IfOk result (λ shown. shown ≡ shown_rows window.now rows.now) }
    {
        let mut places = Vec::new(alloc);
        'rows: for place in 0..rows.len() {
            if is_in_window(window, &rows.period(place)) {
                places.push(place)?;
            }
        }
        Ok(ShownRows { rows, places })
    }

    /// The number of rows.
    pub(crate) fn len(&self) -> usize
        ensures { result ≡ length self.now }
    {
        self.places.len()
    }

    /// The values of the row.
    pub(crate) fn row(&self, line: usize) -> Row<'_>
        requires { line < length self.now }
        ensures { result ≡ values_at_number self.now line }
    {
        self.rows.row(self.places[line])
    }

    /// The period of the row.
    pub(crate) fn period(&self, line: usize) -> Period
        requires { line < length self.now }
        ensures { (d : Fragment) → result ≡ (slice_index_or self.now line d).period }
    {
        self.rows.period(self.places[line])
    }
}

// A table as a picture in text.

ghost use Rattle.std.specs.Prelude.{◌≡◌, ◌++◌, IfOk, OnOk, length};
ghost use Rattle.tq_draw.specs.Pictures.{head_text, picture_of};
ghost use Rattle.tq_draw.specs.Scales.{IsScale};

use crate::marks::{marks_of, push_marks, push_ruler};
use crate::pieces::Workers;
use crate::rows::{push_blanks, push_names, push_rows};
use crate::scale::{Scale, room_of, scale_of};
use crate::shown_rows::ShownRows;
use crate::widths::widths_of;
use std::alloc::{AllocError, Global};
use std::thread::Threads;
use tq_base::{Form, Name, Period};
use tq_table::Table;

// The two lines above the rows.
#[tactic(auto, unfolding(crate::specs::Marks::marks_text, crate::specs::Marks::ruler_text))]
fn push_head(
    alloc: Global,
    text: &mut Vec<u8>,
    columns: &[Name],
    widths: &[usize],
    scale: &Scale,
    form: Form,
) -> Result<(), AllocError>
    requires widths { length widths.now ≡ length columns.now }
    requires scale { IsScale scale.now }
    ensures { OnOk result (text.new.items ≡ text.old.items ++ head_text form columns.now widths.now scale.now) }
{
    let marks = marks_of(alloc, form, scale)?;
    push_blanks(text, widths)?;
    push_marks(alloc, text, scale, &marks, form)?;
    text.push(b'\n')?;
    push_names(alloc, text, columns, widths)?;
    push_ruler(text, scale.cells, &marks)?;
    text.push(b'\n')?;
    Ok(())
}

/// Draws the table in a width of this many columns of a terminal: a line for each row, with its values and a bar, below a scale of
/// time. `form` says how instants are written. With a window, the scale is the window, and the rows are those that are
/// valid in it. The picture is wider if the values leave fewer than 17 columns. `AllocError` if an allocation failed.
pub fn draw<R: Threads + Sync>(
    workers: &Workers<'_, R>,
    table: &Table<'_>,
    form: Form,
    width: usize,
    window: Option<Period>,
) -> Result<Vec<u8>, AllocError>
    ensures { IfOk result (λ text. text.items ≡ picture_of form width window table.now) }
{
    let alloc = workers.alloc;
    let rows = ShownRows::of(alloc, &table.rows, &window)?;
    let columns = table.columns.get();
    let widths = widths_of(workers, columns, &rows)?;
    let mut text = Vec::new(alloc);
    if rows.len() == 0 {
        push_names(alloc, &mut text, columns, &widths)?;
        text.extend_from_slice(b"(no rows)\n")?;
        return Ok(text);
    }
    let scale = scale_of(form, room_of(width, &widths), &window, &rows);
    push_head(alloc, &mut text, columns, &widths, &scale, form)?;
    push_rows(workers, &mut text, &rows, &widths, &scale)?;
    Ok(text)
}

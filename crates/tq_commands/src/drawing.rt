// An answer as a picture.

ghost use Rattle.std.specs.Prelude.{◌≡◌, IfOk};
ghost use Rattle.tq_commands.specs.Drawings.{drawn_text};

use std::alloc::AllocError;
use std::thread::Threads;
use tq_base::{Form, Period};
use tq_cli::PictureFormat;
use tq_draw::{Workers, draw, draw_html, draw_svg};
use tq_table::Table;

/// How an answer is drawn: its instants, in which format, how wide, and in which window.
#[derive(Clone, Copy)]
pub struct Drawing {
    pub form: Form,
    pub format: PictureFormat,
    pub width: usize,
    pub window: Option<Period>,
}

/// The picture of a table, which is the answer of the statement. `AllocError` if an allocation failed.
pub fn drawn_text<R: Threads + Sync>(
    workers: &Workers<'_, R>,
    table: &Table<'_>,
    drawing: &Drawing,
    statement: &[u8],
) -> Result<Vec<u8>, AllocError>
    ensures { IfOk result (λ text. text.items ≡ drawn_text drawing.now statement.now table.now) }
{
    let Drawing {
        form,
        format,
        width,
        window,
    } = *drawing;
    match format {
        PictureFormat::Text => draw(workers, table, form, width, window),
        PictureFormat::Svg => draw_svg(workers, table, form, width, window),
        PictureFormat::Html => draw_html(workers, table, form, width, window, statement),
    }
}

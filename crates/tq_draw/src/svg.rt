// A table as a picture in SVG.

ghost use Rattle.std.specs.Prelude.{◌≡◌, ◌++◌, IfOk, OnOk, length};
ghost use Rattle.std.specs.List.{flat_map, range_with_len};
ghost use Rattle.tq_draw.specs.Marks.{AreWithin, labels_from, ruler_from};
ghost use Rattle.tq_draw.specs.Pictures.{name_label, value_label};
ghost use Rattle.tq_draw.specs.Scales.{IsScale};
ghost use Rattle.tq_draw.specs.Svg.{bar_element, empty_image, image_over, label_elements, left_of, lefts_of, opening, row_bar, spaced_label, stroke, strokes, svg_of, svg_over, text_element, title_text, values_element, x_of};

use crate::bars::{push_arrow, push_bar, push_lead};
use crate::labels::{label, push_bound, push_instant, value_label};
use crate::marks::{Tick, marks_of, push_marks, push_ruler};
use crate::pieces::{Lines, Workers, push_lines};
use crate::rows::{push_blanks, push_column};
use crate::scale::{Scale, room_of, scale_of};
use crate::shown_rows::ShownRows;
use crate::widths::widths_of;
use crate::xml::{push_number, push_xml};
use std::alloc::{AllocError, Global};
use std::thread::Threads;
use tq_base::{Form, Name, Period, Row};
use tq_table::Table;

// The columns of a terminal before each value.
fn lefts_of(alloc: Global, widths: &[usize]) -> Result<Vec<usize>, AllocError>
    ensures { IfOk result (λ lefts. lefts.items ≡ lefts_of widths.now) }
{
    let mut blanks = Vec::new(alloc);
    let mut lefts = Vec::new(alloc);
    'columns: for column in 0..widths.len() {
        lefts.push(blanks.len())?;
        push_column(&mut blanks, b"", widths[column])?;
    }
    Ok(lefts)
}

// The columns of a terminal that all values take.
fn left_of_bars(alloc: Global, widths: &[usize]) -> Result<usize, AllocError>
    ensures { IfOk result (λ left. left ≡ left_of widths.now (length widths.now)) }
{
    let mut blanks = Vec::new(alloc);
    push_blanks(&mut blanks, widths)?;
    Ok(blanks.len())
}

fn x_of(left: usize) -> u128
    ensures { result ≡ x_of left }
{
    9 * (left as u128 + 1)
}

// Appends a text at a place.
#[tactic(auto, unfolding(crate::specs::Svg::text_element))]
fn push_text(text: &mut Vec<u8>, x: u128, y: u128, content: &[u8]) -> Result<(), AllocError>
    ensures { OnOk result (text.new.items ≡ text.old.items ++ text_element x y content.now) }
{
    text.extend_from_slice(b"<text x=\"")?;
    push_number(text, x)?;
    text.extend_from_slice(b"\" y=\"")?;
    push_number(text, y)?;
    text.extend_from_slice(b"\">")?;
    push_xml(text, content)?;
    text.extend_from_slice(b"</text>\n")
}

// Appends the names of the columns.
fn push_names(
    alloc: Global,
    text: &mut Vec<u8>,
    columns: &[Name],
    lefts: &[usize],
    y: u128,
) -> Result<(), AllocError>
    requires { length lefts.now ≡ length columns.now }
    ensures { OnOk result (text.new.items ≡ text.old.items ++ label_elements lefts.now y (name_label columns.now)) }
{
    'columns: for column in 0..lefts.len() {
        let label = label(alloc, columns[column].bytes())?;
        push_text(text, x_of(lefts[column]), y, &label)?;
    }
    Ok(())
}

// Appends the values of a row.
fn push_values(
    alloc: Global,
    text: &mut Vec<u8>,
    row: &Row<'_>,
    lefts: &[usize],
    y: u128,
) -> Result<(), AllocError>
    ensures { OnOk result (text.new.items ≡ text.old.items ++ label_elements lefts.now y (value_label row.now)) }
{
    'columns: for column in 0..lefts.len() {
        let label = value_label(alloc, row.value(column))?;
        push_text(text, x_of(lefts[column]), y, &label)?;
    }
    Ok(())
}

// The values of the rows.
#[derive(Drop)]
struct RowValues<'p, 'r, 'a> {
    rows: &'p ShownRows<'r, 'a>,
    lefts: &'p [usize],
}

impl Lines for RowValues<'_, '_, '_> {
    ghost rows = { λ v. length v.rows.now };

    ghost line = { λ v row. values_element v.lefts.now v.rows.now row };

    fn len(&self) -> usize {
        self.rows.len()
    }

    fn push(&self, alloc: Global, text: &mut Vec<u8>, row: usize) -> Result<(), AllocError> {
        let y = 20 * (row as u128 + 3);
        push_values(alloc, text, &self.rows.row(row), self.lefts, y)
    }
}

// The stroke or step for a byte of a bar.
fn stroke(byte: u8) -> &'static [u8]
    ensures { result.now ≡ stroke byte }
{
    match byte {
        b'#' => b"h9",
        b'<' => b"m-8 0h2m2 0h2m2 0",
        b'>' => b"m2 0h2m2 0h2m-8 0",
        _ => b"m9 0",
    }
}

fn push_bar_strokes(text: &mut Vec<u8>, bar: &[u8]) -> Result<(), AllocError>
    ensures { OnOk result (text.new.items ≡ text.old.items ++ flat_map stroke bar.now) }
{
    'bytes: for byte in bar {
        text.extend_from_slice(stroke(*byte))?;
    }
    Ok(())
}

// Appends the strokes of a period's bar and arrows.
fn push_strokes(
    alloc: Global,
    text: &mut Vec<u8>,
    scale: &Scale,
    period: &Period,
) -> Result<(), AllocError>
    requires { IsScale scale.now }
    ensures { OnOk result (text.new.items ≡ text.old.items ++ strokes scale.now period.now) }
{
    let mut bar = Vec::new(alloc);
    push_lead(&mut bar, scale, period)?;
    push_bar(&mut bar, scale, period)?;
    push_arrow(&mut bar, scale, period)?;
    push_bar_strokes(text, &bar)
}

// Appends the labels of a row's values, each with two spaces behind it.
fn push_spaced_labels(
    alloc: Global,
    text: &mut Vec<u8>,
    row: &Row<'_>,
    columns: usize,
) -> Result<(), AllocError>
    ensures { OnOk result (text.new.items ≡ text.old.items ++ flat_map (spaced_label row.now) (range_with_len 0 columns)) }
{
    'columns: for column in 0..columns {
        let label = value_label(alloc, row.value(column))?;
        text.extend_from_slice(&label)?;
        text.extend_from_slice(b"  ")?;
    }
    Ok(())
}

// What a row says: its values, its start and its end.
#[tactic(auto, unfolding(crate::specs::Svg::title_text))]
fn title_text(
    alloc: Global,
    form: Form,
    columns: usize,
    row: &Row<'_>,
    period: &Period,
) -> Result<Vec<u8>, AllocError>
    ensures { IfOk result (λ title. title.items ≡ title_text form columns row.now period.now) }
{
    let mut title = Vec::new(alloc);
    push_spaced_labels(alloc, &mut title, row, columns)?;
    push_instant(&mut title, period.start, form)?;
    title.extend_from_slice(b"  ")?;
    push_bound(&mut title, period.end, form)?;
    Ok(title)
}

// Appends the bar of a period with a title.
#[tactic(auto, unfolding(crate::specs::Svg::bar_element))]
fn push_bar_element(
    alloc: Global,
    text: &mut Vec<u8>,
    scale: &Scale,
    x: u128,
    y: u128,
    period: &Period,
    title: &[u8],
) -> Result<(), AllocError>
    requires { IsScale scale.now }
    ensures { OnOk result (text.new.items ≡ text.old.items ++ bar_element scale.now x y period.now title.now) }
{
    text.extend_from_slice(b"<path d=\"M")?;
    push_number(text, x)?;
    text.extend_from_slice(b" ")?;
    push_number(text, y)?;
    push_strokes(alloc, text, scale, period)?;
    text.extend_from_slice(b"\"><title>")?;
    push_xml(text, title)?;
    text.extend_from_slice(b"</title></path>\n")
}

// The bars of the rows, which begin after `left` columns of a terminal.
#[derive(Drop)]
struct RowBars<'p, 'r, 'a> {
    rows: &'p ShownRows<'r, 'a>,
    form: Form,
    scale: &'p Scale,
    columns: usize,
    left: usize,
    ghost scaled: { IsScale scale.now },
}

impl Lines for RowBars<'_, '_, '_> {
    ghost rows = { λ b. length b.rows.now };

    ghost line = { λ b row. row_bar b.form b.scale.now b.columns b.left b.rows.now row };

    fn len(&self) -> usize {
        self.rows.len()
    }

    fn push(&self, alloc: Global, text: &mut Vec<u8>, row: usize) -> Result<(), AllocError> {
        let period = self.rows.period(row);
        let values = self.rows.row(row);
        let title = title_text(alloc, self.form, self.columns, &values, &period)?;
        let (x, y) = (x_of(self.left), 20 * row as u128 + 55);
        push_bar_element(alloc, text, self.scale, x, y, &period, &title)
    }
}

// Appends the image of this size in pixels, up to its texts.
fn push_opening(text: &mut Vec<u8>, width: u128, height: u128) -> Result<(), AllocError>
    ensures { OnOk result (text.new.items ≡ text.old.items ++ opening width height) }
{
    text.extend_from_slice(b"<svg xmlns=\"http://www.w3.org/2000/svg\" width=\"")?;
    push_number(text, width)?;
    text.extend_from_slice(b"\" height=\"")?;
    push_number(text, height)?;
    text.extend_from_slice(
        b"\" font-family=\"monospace\" font-size=\"15\" xml:space=\"preserve\">\n<rect width=\"100%\" height=\"100%\" fill=\"#fff\"/>\n",
    )?;
    Ok(())
}

#[tactic(auto, unfolding(crate::specs::Svg::empty_image))]
fn push_empty_image(
    alloc: Global,
    text: &mut Vec<u8>,
    columns: &[Name],
    lefts: &[usize],
    left: usize,
) -> Result<(), AllocError>
    requires { length lefts.now ≡ length columns.now }
    ensures { OnOk result (text.new.items ≡ text.old.items ++ empty_image columns.now lefts.now left) }
{
    push_opening(text, 9 * (left as u128 + 12), 50)?;
    push_names(alloc, text, columns, lefts, 20)?;
    push_text(text, x_of(left), 20, b"(no rows)")?;
    text.extend_from_slice(b"</svg>\n")
}

// Appends the instants of the marks.
fn push_marks_text(
    alloc: Global,
    text: &mut Vec<u8>,
    left: usize,
    scale: &Scale,
    marks: &[Tick],
    form: Form,
) -> Result<(), AllocError>
    requires scale { IsScale scale.now }
    requires within { AreWithin marks.now }
    ensures { OnOk result (text.new.items ≡ text.old.items ++ text_element (x_of left) 20 (labels_from form scale.now 0 marks.now)) }
{
    let mut line = Vec::new(alloc);
    push_marks(alloc, &mut line, scale, marks, form)?;
    push_text(text, x_of(left), 20, &line)
}

// Appends the ruler.
fn push_ruler_text(
    alloc: Global,
    text: &mut Vec<u8>,
    left: usize,
    cells: usize,
    marks: &[Tick],
) -> Result<(), AllocError>
    requires { AreWithin marks.now }
    ensures { OnOk result (text.new.items ≡ text.old.items ++ text_element (x_of left) 40 (ruler_from cells 0 marks.now)) }
{
    let mut line = Vec::new(alloc);
    push_ruler(&mut line, cells, marks)?;
    push_text(text, x_of(left), 40, &line)
}

fn push_image<R: Threads + Sync>(
    workers: &Workers<'_, R>,
    text: &mut Vec<u8>,
    columns: &[Name],
    rows: &ShownRows<'_, '_>,
    lefts: &[usize],
    left: usize,
    scale: &Scale,
    form: Form,
) -> Result<(), AllocError>
    requires lefts { length lefts.now ≡ length columns.now }
    requires scale { IsScale scale.now }
    ensures { OnOk result (text.new.items ≡ text.old.items ++ image_over form columns.now rows.now lefts.now left scale.now) }
{
    let alloc = workers.alloc;
    let marks = marks_of(alloc, form, scale)?;
    let cells = scale.cells.max(24) as u128;
    let lines = rows.len() as u128 + 2;
    push_opening(text, 9 * (left as u128 + cells + 3), 20 * lines + 10)?;
    push_marks_text(alloc, text, left, scale, &marks, form)?;
    push_names(alloc, text, columns, lefts, 40)?;
    push_ruler_text(alloc, text, left, scale.cells, &marks)?;
    push_lines(workers, text, &RowValues { rows, lefts })?;
    text.extend_from_slice(b"<g fill=\"none\" stroke=\"#36c\" stroke-width=\"12\">\n")?;
    let bars = RowBars {
        rows,
        form,
        scale,
        columns: columns.len(),
        left,
    };
    push_lines(workers, text, &bars)?;
    text.extend_from_slice(b"</g>\n</svg>\n")?;
    Ok(())
}

/// Appends the image of the rows.
pub(crate) fn push_svg<R: Threads + Sync>(
    workers: &Workers<'_, R>,
    text: &mut Vec<u8>,
    form: Form,
    width: usize,
    window: &Option<Period>,
    columns: &[Name],
    rows: &ShownRows<'_, '_>,
) -> Result<(), AllocError>
    ensures { OnOk result (text.new.items ≡ text.old.items ++ svg_over form width window.now columns.now rows.now) }
{
    let alloc = workers.alloc;
    let widths = widths_of(workers, columns, rows)?;
    let lefts = lefts_of(alloc, &widths)?;
    let left = left_of_bars(alloc, &widths)?;
    if rows.len() == 0 {
        return push_empty_image(alloc, text, columns, &lefts, left);
    }
    let scale = scale_of(form, room_of(width, &widths), window, rows);
    push_image(workers, text, columns, rows, &lefts, left, &scale, form)
}

/// Draws the table as a standalone SVG image, with the names, values, marks and cells that `draw` shows in this width and
/// window. The bar of each row has a title with the row's values, start and end. `AllocError` if an allocation failed.
pub fn draw_svg<R: Threads + Sync>(
    workers: &Workers<'_, R>,
    table: &Table<'_>,
    form: Form,
    width: usize,
    window: Option<Period>,
) -> Result<Vec<u8>, AllocError>
    ensures { IfOk result (λ text. text.items ≡ svg_of form width window table.now) }
{
    let alloc = workers.alloc;
    let rows = ShownRows::of(alloc, &table.rows, &window)?;
    let mut text = Vec::new(alloc);
    push_svg(
        workers,
        &mut text,
        form,
        width,
        &window,
        table.columns.get(),
        &rows,
    )?;
    Ok(text)
}

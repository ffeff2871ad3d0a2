//! Timelines of tables, as text, as SVG and as HTML.
//!
//! `draw` makes one line for each row: its values, and a bar over a scale of time that all rows share. The scale is cut
//! into cells of one instant or more. A cell of a bar is filled exactly if the row is valid at some instant of the
//! cell. `draw_svg` makes the same picture as an SVG image, and `draw_html` a page with the statement, the image and the
//! rows. The contracts cite `picture_of` in `specs/Pictures.antt`, `svg_of` in `specs/Svg.antt` and `html_of` in
//! `specs/Html.antt`; the laws in `src/laws.rt` say what scales, bars, marks and labels show.
//!
//! Open `src/pictures.rt` first.
#![tactic(auto)]

mod bars;
mod calendar;
mod html;
mod labels;
pub mod laws;
mod marks;
mod pictures;
mod pieces;
mod rows;
mod scale;
mod shown_rows;
mod svg;
mod widths;
mod xml;

pub use html::draw_html;
pub use labels::{columns_in, columns_in_bytes, escaped_text};
pub use pictures::draw;
pub use pieces::Workers;
pub use svg::draw_svg;

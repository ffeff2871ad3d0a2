//! The profile of an executed query, which `tq ask --explain` prints: its operators as a tree, with the rows that each made.
//!
//! `explain_answer` writes it. Proved of its figures (`AreFigures` in `specs/Figures.antt`) are the window, the table, the row
//! counts and the key range of each source, and the rows of the answer; and which lines they make (`figures_text` in
//! `specs/ProfileText.antt`).
//!
//! Open `src/profiles.rt` first.
#![tactic(auto)]

mod figures;
mod operators;
mod profile_text;
mod profiles;

pub use profile_text::RunFigures;
pub use profiles::explain_answer;

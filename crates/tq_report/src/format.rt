// The formats.

/// How an answer is written.
#[derive(Clone, Copy, Debug, PartialEq, Eq)]
pub enum Format {
    /// A table for the terminal, with columns as wide as their values.
    Aligned,
    /// A table of GitHub Flavored Markdown.
    Markdown,
    /// Lines with fields between tabs; `\t`, `\n`, `\r` and `\\` stand for a tab, line ends and a backslash in a text.
    Tsv,
    /// One JSON array with an object for each row.
    Json,
    /// One JSON object on a line for each row.
    JsonLines,
    /// CSV, as answers are by default.
    Csv,
}

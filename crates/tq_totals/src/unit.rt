// The units of the calendar.

/// A unit of the calendar.
#[derive(Clone, Copy, PartialEq, Eq, Debug)]
pub enum Unit {
    /// Its periods have labels such as `2024-01`.
    Month,
    /// January to March, and so on. Its periods have labels such as `2024-Q1`.
    Quarter,
    /// Its periods have labels such as `2024`.
    Year,
}

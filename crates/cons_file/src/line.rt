//! A line of the file.

/// A line that isn't blank: its number, counted from 1 over all lines, and what it says.
#[derive(Clone, Copy, Debug, PartialEq, Eq)]
pub struct Line<'a> {
    pub number: u32,
    pub form: LineForm<'a>,
}

/// What a line says. The names lie in the text that was read, and are in the order of the line; the flag is true for
/// `high` and for 1.
#[derive(Clone, Copy, Debug, PartialEq, Eq)]
pub enum LineForm<'a> {
    /// `clock P`
    Clock(&'a str),
    /// `reset N low` or `reset N high`
    Reset(&'a str, bool),
    /// `tie P 0` or `tie P 1`
    Tie(&'a str, bool),
    /// `steady P`
    Steady(&'a str),
    /// `track N`
    Track(&'a str),
    /// `order A before B`
    Order(&'a str, &'a str),
    /// `isolate R when S is 0` or `isolate R when S is 1`
    Isolate(&'a str, &'a str, bool),
    /// `quiet R C`
    Quiet(&'a str, &'a str),
    /// `waive F REASON`
    Waive(&'a str, &'a str),
}

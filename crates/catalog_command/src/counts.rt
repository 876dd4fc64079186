//! What was put on the shelf.
ghost use Rattle.std.specs.Prelude.{Some};
ghost use Rattle.catalog_command.specs.Run.{counts_text};

use std::fmt;

/// How many rows a catalogue has, and how many tiles. It is shown as in `rows 3 tiles 2`.
#[derive(Clone, Copy, Debug, PartialEq, Eq)]
pub struct Counts {
    /// The rows.
    pub rows: u64,
    /// The tiles that hold them.
    pub tiles: u64,
}

impl fmt::Display for Counts {
    ghost output = { λ counts. Some (counts_text counts) };

    fn fmt<W: fmt::Write>(&self, f: &mut fmt::Formatter<W>) -> fmt::Result {
        write!(f, "rows {} tiles {}", self.rows, self.tiles)
    }
}

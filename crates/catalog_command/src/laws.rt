//! Laws of the definitions, as functions that do nothing: the contract of each is its law.
ghost use Rattle.catalog_command.specs.There.{RowsAreThere};

/// After many lines the rows are exactly those that were there and that no line took out, and those that a line put in and no later
/// one took out. A refused line doesn't count.
pub fn rows_are_there()
    ensures { RowsAreThere }
{}

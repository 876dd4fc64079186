//! What follows from the definitions alone. Each function does nothing: its contract is the law.
ghost use Rattle.pyramid_model.specs.Laws.{BlankWithoutLeaves, TilesExistAboveLeaves, ValuesAreOfTheirChildren, TilesShowTheirCells, ValuesAreNumbers};

/// A cell is blank where no pixel under it has a leaf, and a tile that does not exist is blank throughout.
pub fn a_cell_without_leaves_is_blank()
    ensures { BlankWithoutLeaves }
{}

/// A tile of the leaves' order exists where its leaf is there, and a tile above where one of its four children does.
pub fn a_tile_exists_where_a_child_does()
    ensures { TilesExistAboveLeaves }
{}

/// A cell of the pixels' order is its pixel, and a cell above is combined of its four children.
pub fn a_value_is_of_its_children()
    ensures { ValuesAreOfTheirChildren }
{}

/// A tile has `4^n` stored numbers, each the value of the cell at its place, and that of a leaf has the leaf's own.
pub fn pixels_of_a_tile()
    ensures { TilesShowTheirCells }
{}

/// Where the blank number and those of the leaves are numbers of the depth, so is each value.
pub fn values_are_numbers()
    ensures { ValuesAreNumbers }
{}

//! What follows from the definitions alone. Each function does nothing: its contract is the law.
ghost use Rattle.tile_path.specs.Laws.{SpellingsDiffer, CatalogueSpellingsDiffer, CatalogueTilesAreNoPaths, DeepTilesAreNoPaths};

/// Two different paths have different spellings.
pub fn spellings_differ()
    ensures { SpellingsDiffer }
{}

/// Two different catalogue tiles have different spellings.
pub fn catalogue_spellings_differ()
    ensures { CatalogueSpellingsDiffer }
{}

/// No path is spelled as a catalogue tile.
pub fn catalogue_tiles_are_no_paths()
    ensures { CatalogueTilesAreNoPaths }
{}

/// No path is spelled as the tile of a cell of an order above 11 would be.
pub fn deep_tiles_are_no_paths()
    ensures { DeepTilesAreNoPaths }
{}

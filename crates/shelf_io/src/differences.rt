//! How a shelf differs from a generation, in numbers, for the log.
ghost use Rattle.std.specs.Prelude.{◌≡◌};

use log::{Log, warn};
use std::fmt;
use tile_path::Path;

/// How many files of a generation a shelf doesn't have, or has with other bytes.
#[derive(Drop)]
pub(crate) struct Differences {
    missing: u64,
    different: u64,
}

impl Differences {
    pub(crate) fn new() -> Differences {
        Differences {
            missing: 0,
            different: 0,
        }
    }

    /// Counts a file that the shelf has, with the generation's bytes or with others.
    pub(crate) fn found(&mut self, same: bool) -> bool
        ensures { result ≡ same }
    {
        if !same {
            self.different = self.different.saturating_add(1);
        }
        same
    }

    /// Counts a path at which the shelf has no file, and the generation none either or one.
    pub(crate) fn absent(&mut self, same: bool) -> bool
        ensures { result ≡ same }
    {
        if !same {
            self.missing = self.missing.saturating_add(1);
        }
        same
    }

    /// Logs how many there are, if any, and which others the shelf has.
    pub(crate) fn say<R: Log>(&self, rt: &R, strays: &[Path]) {
        say_strays(rt, strays);
        let (missing, different, others) = (self.missing, self.different, strays.len());
        if missing > 0 || different > 0 || others > 0 {
            warn!(rt; "{missing} files are missing, {different} differ, {others} aren't of this survey");
        }
    }
}

/// Logs which files a survey can have and this one doesn't have, if any. `export` removes these.
pub(crate) fn say_strays<R: Log>(rt: &R, strays: &[Path]) {
    if !strays.is_empty() {
        let (count, kinds) = (strays.len(), Kinds { paths: strays });
        warn!(rt; "{count} files aren't of this survey, and export removes them: {kinds}");
    }
}

// Files by their kinds, as in `97 tiles of order 7, 25 tiles of order 6, Moc.fits`.
#[derive(Clone, Copy)]
struct Kinds<'a> {
    paths: &'a [Path],
}

impl<'a> fmt::Display for Kinds<'a> {
    fn fmt<W: fmt::Write>(&self, f: &mut fmt::Formatter<W>) -> fmt::Result {
        let mut is_first = true;
        for order in (0..12_u8).rev() {
            let count = tiles_of(self.paths, order);
            if count > 0 {
                f.write_str(between(is_first))?;
                write!(f, "{count} tiles of order {order}")?;
                is_first = false;
            }
        }
        for path in self.paths {
            if order_of(*path).is_none() {
                f.write_str(between(is_first))?;
                write!(f, "{path}")?;
                is_first = false;
            }
        }
        Ok(())
    }
}

// What comes before an item of a list.
fn between(is_first: bool) -> &'static str {
    if is_first { "" } else { ", " }
}

fn tiles_of(paths: &[Path], order: u8) -> usize {
    let tiles = paths.iter().filter(|path| order_of(**path) == Some(order));
    tiles.count()
}

/// The order of a tile; `None` for another file.
pub(crate) fn order_of(path: Path) -> Option<u8> {
    match path {
        Path::Tile(cell) => Some(cell.order()),
        _ => None,
    }
}

//! How a shelf compares with a generation.
ghost use Rattle.std.specs.Prelude.{Some};
ghost use Rattle.shelf_io.specs.Texts.{verdict_text};

use std::fmt;
use tile_path::Path;

/// How the files of a survey that a shelf has compare with those of a generation. It is shown as in `verified 2` and
/// `differs Moc.fits`.
#[derive(Clone, Copy, Debug, PartialEq, Eq)]
pub enum Verdict {
    /// They are the same; so many files.
    Same(u64),
    /// The first path, by the bytes of its spelling, that only one of the two has, or at which they have other bytes.
    Differs(Path),
}

impl fmt::Display for Verdict {
    ghost output = { λ verdict. Some (verdict_text verdict) };

    fn fmt<W: fmt::Write>(&self, f: &mut fmt::Formatter<W>) -> fmt::Result {
        match self {
            Verdict::Same(count) => write!(f, "verified {count}"),
            Verdict::Differs(path) => write!(f, "differs {path}"),
        }
    }
}

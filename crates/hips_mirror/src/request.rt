//! The requests of a copy, one after another.
use healpix_nested::Cell;
use mirror_frame::Ask;
use std::fmt;
use tile_path::Path;

/// A request of a copy, which is shown as in `GET /properties (request 1)`.
#[derive(Clone, Copy)]
pub(crate) struct Request {
    /// How many requests come before it.
    pub(crate) number: u32,
    /// What it asks for.
    pub(crate) ask: Ask,
}

// How many requests come before those of the leaves.
const FIRST_LEAF: u32 = 3;

impl Request {
    ghost use Rattle.std.specs.Prelude.{◌≡◌, ◌≤◌, ◌+◌};
    ghost use Rattle.mirror_frame.specs.declared.ask.Ask.TheVariants.{Pin, File, Unpin};
    ghost use Rattle.tile_path.specs.declared.path.Path.TheVariants.{Properties, Moc, Allsky};
    ghost use Rattle.hips_mirror.specs.Stages.{unpin_request};

    /// That the newest state is held.
    pub(crate) fn pin() -> Request
        ensures number { result.number ≡ 0 }
        ensures ask { result.ask ≡ Pin }
    {
        Request {
            number: 0,
            ask: Ask::Pin,
        }
    }

    /// The properties.
    pub(crate) fn properties() -> Request
        ensures number { result.number ≡ 1 }
        ensures ask { result.ask ≡ File Properties }
    {
        Request {
            number: 1,
            ask: Ask::File(Path::Properties),
        }
    }

    /// The coverage.
    pub(crate) fn cover() -> Request
        ensures number { result.number ≡ 2 }
        ensures ask { result.ask ≡ File Moc }
    {
        Request {
            number: 2,
            ask: Ask::File(Path::Moc),
        }
    }

    /// A leaf, behind those of so many others.
    pub(crate) fn leaf(cell: Cell, before: usize) -> Request
        requires { before ≤ 65000 }
        ensures number { result.number ≡ 3 + before }
        ensures ask { result.ask ≡ File (Path.Tile cell) }
    {
        Request {
            number: FIRST_LEAF + before as u32,
            ask: Ask::File(Path::Tile(cell)),
        }
    }

    /// The mosaic, behind so many leaves.
    pub(crate) fn mosaic(leaves: usize) -> Request
        requires { leaves ≤ 65000 }
        ensures number { result.number ≡ 3 + leaves }
        ensures ask { result.ask ≡ File Allsky }
    {
        Request {
            number: FIRST_LEAF + leaves as u32,
            ask: Ask::File(Path::Allsky),
        }
    }

    /// That no state is held any more, behind so many leaves and, where there is one, the mosaic.
    pub(crate) fn unpin(leaves: usize) -> Request
        requires { leaves ≤ 65000 }
        ensures number { result.number ≡ unpin_request leaves }
        ensures ask { result.ask ≡ Unpin }
    {
        Request {
            number: FIRST_LEAF + leaves as u32 + u32::from(leaves > 0),
            ask: Ask::Unpin,
        }
    }
}

impl fmt::Display for Request {
    fn fmt<W: fmt::Write>(&self, f: &mut fmt::Formatter<W>) -> fmt::Result {
        match self.ask {
            Ask::Pin => f.write_str("POST /pin")?,
            Ask::File(path) => write!(f, "GET /{path}")?,
            Ask::Unpin => f.write_str("POST /unpin")?,
        }
        write!(f, " (request {})", self.number)
    }
}

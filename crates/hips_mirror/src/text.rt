//! How it is shown why no survey was copied.
ghost use Rattle.std.specs.Prelude.{Some};
ghost use Rattle.hips_mirror.specs.Texts.{mirror_text};

use crate::refusal::MirrorRefusal;
use std::error::Error;
use std::fmt;
use tile_path::Path;

/// A word and what was found, as in `reply 3`, `tile Norder4/Dir0/Npix0.fits 9 truncated 1` and `differs properties`.
impl fmt::Display for MirrorRefusal {
    ghost output = { λ refusal. Some (mirror_text refusal) };

    fn fmt<W: fmt::Write>(&self, f: &mut fmt::Formatter<W>) -> fmt::Result {
        match self {
            MirrorRefusal::Reply { request } => write!(f, "reply {request}"),
            MirrorRefusal::Properties => f.write_str("properties"),
            MirrorRefusal::Cover => f.write_str("cover"),
            MirrorRefusal::TooLarge { leaves } => write!(f, "leaves {leaves}"),
            MirrorRefusal::Leaf { cell, fault } => write!(f, "tile {} {fault}", Path::Tile(*cell)),
            MirrorRefusal::Differs { path } => write!(f, "differs {path}"),
            MirrorRefusal::Cut => f.write_str("cut"),
            MirrorRefusal::ReadFault => f.write_str("the source failed"),
            MirrorRefusal::WriteFault => f.write_str("the sink failed"),
            MirrorRefusal::ShelfFault => f.write_str("the shelf failed"),
            MirrorRefusal::OutOfMemory => f.write_str("out of memory"),
        }
    }
}

impl Error for MirrorRefusal {}

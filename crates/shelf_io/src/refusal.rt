//! Why a shelf is not loaded.
ghost use Rattle.std.specs.Prelude.{Some};
ghost use Rattle.shelf_io.specs.Texts.{load_text};

use fits_tile::TileFault;
use healpix_nested::Cell;
use std::alloc::AllocError;
use std::error::Error;
use std::fmt;
use survey_conf::{ConfFault, ConfRefusal};
use survey_link::LinkFault;
use tile_path::Path;

/// Why a shelf is not loaded. If several of the first four apply, it is the first of these. It is shown as a word and what
/// was found, as in `conf 5 4` and `tile Norder4/Dir0/Npix0.fits 1 header 1`.
#[derive(Clone, Copy, Debug, PartialEq, Eq)]
pub enum LoadRefusal {
    /// There is no `survey.conf`.
    NoConf,
    /// `survey.conf` has this fault.
    Conf(ConfFault),
    /// What the leaves are charged with exceeds 2^29 bytes.
    TooMany {
        /// How many leaves have a file.
        leaves: u64,
    },
    /// The file of this leaf has this fault, and those of all leaves with lower numbers have none.
    Tile {
        /// The leaf.
        cell: Cell,
        /// What is wrong with its file.
        fault: TileFault,
    },
    /// The shelf failed: its count of faults rose.
    ShelfFault,
    /// There was no memory.
    OutOfMemory,
}

impl From<LinkFault> for LoadRefusal {
    ghost use Rattle.std.specs.Prelude.{◌≡◌};
    ghost use Rattle.shelf_io.specs.Refusals.{of_link};

    ghost from_gives = { λ fault refusal. refusal ≡ of_link fault };

    fn from(fault: LinkFault) -> LoadRefusal {
        match fault {
            LinkFault::Failed => LoadRefusal::ShelfFault,
            LinkFault::OutOfMemory => LoadRefusal::OutOfMemory,
        }
    }
}

impl From<ConfRefusal> for LoadRefusal {
    ghost use Rattle.std.specs.Prelude.{◌≡◌};
    ghost use Rattle.shelf_io.specs.Refusals.{of_conf};

    ghost from_gives = { λ fault refusal. refusal ≡ of_conf fault };

    fn from(refusal: ConfRefusal) -> LoadRefusal {
        match refusal {
            ConfRefusal::Fault(fault) => LoadRefusal::Conf(fault),
            ConfRefusal::OutOfMemory => LoadRefusal::OutOfMemory,
        }
    }
}

impl From<AllocError> for LoadRefusal {
    ghost use Rattle.std.specs.Prelude.{◌≡◌};
    ghost use Rattle.shelf_io.specs.declared.refusal.LoadRefusal.TheVariants.{OutOfMemory};

    ghost from_gives = { λ _ refusal. refusal ≡ OutOfMemory };

    fn from(_: AllocError) -> LoadRefusal {
        LoadRefusal::OutOfMemory
    }
}

impl fmt::Display for LoadRefusal {
    ghost output = { λ refusal. Some (load_text refusal) };

    fn fmt<W: fmt::Write>(&self, f: &mut fmt::Formatter<W>) -> fmt::Result {
        match self {
            LoadRefusal::NoConf => f.write_str("conf absent"),
            LoadRefusal::Conf(fault) => write!(f, "conf {fault}"),
            LoadRefusal::TooMany { leaves } => write!(f, "leaves {leaves}"),
            LoadRefusal::Tile { cell, fault } => write!(f, "tile {} {fault}", Path::Tile(*cell)),
            LoadRefusal::ShelfFault => f.write_str("the shelf failed"),
            LoadRefusal::OutOfMemory => f.write_str("out of memory"),
        }
    }
}

impl Error for LoadRefusal {}

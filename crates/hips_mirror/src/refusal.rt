//! Why no survey was copied.
use fits_tile::TileFault;
use healpix_nested::Cell;
use std::alloc::AllocError;
use tile_path::Path;

/// Why no survey was copied. The first seven come in the order of the replies, `Differs` before the last request.
#[derive(Clone, Copy, Debug, PartialEq, Eq)]
pub enum MirrorRefusal {
    /// The reply to this request is malformed.
    Reply {
        /// The number of the request, from 0.
        request: u32,
    },
    /// The body that was sent as the properties isn't a properties file with a description that is accepted.
    Properties,
    /// The body that was sent as the coverage isn't a coverage file of leaves of the survey's order.
    Cover,
    /// There are more than 65,000 leaves, or what they are charged with exceeds 2^29 bytes.
    TooLarge {
        /// How many leaves there are.
        leaves: u64,
    },
    /// The body that was sent as this leaf has this fault.
    Leaf {
        /// The leaf.
        cell: Cell,
        /// What is wrong with its file.
        fault: TileFault,
    },
    /// What was sent at this path isn't the file that the description and the leaves make.
    Differs {
        /// `properties`, or the path of the mosaic.
        path: Path,
    },
    /// The input ended within a reply.
    Cut,
    /// The source failed: its count of faults rose.
    ReadFault,
    /// The sink failed: its count of faults rose.
    WriteFault,
    /// The shelf failed: its count of faults rose.
    ShelfFault,
    /// There was no memory.
    OutOfMemory,
}

impl From<AllocError> for MirrorRefusal {
    ghost use Rattle.std.specs.Prelude.{◌≡◌};
    ghost use Rattle.hips_mirror.specs.declared.refusal.MirrorRefusal.TheVariants.{OutOfMemory};

    ghost from_gives = { λ _ refusal. refusal ≡ OutOfMemory };

    fn from(_: AllocError) -> MirrorRefusal {
        MirrorRefusal::OutOfMemory
    }
}

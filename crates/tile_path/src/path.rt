//! The files of a survey, and their spellings.
ghost use Rattle.std.specs.Prelude.{◌≡◌, ◌≢◌, ◌≤◌, ◌++◌, length, take, drop, Some, IfSome, IsNone};
ghost use Rattle.tile_path.specs.Spelling.{HasTileOrder, IsPath, spelling};

use crate::tile::{read_tile, write_tile};
use crate::write::write;
use healpix_nested::Cell;
use std::fmt;

const PROPERTIES: &[u8] = b"properties";

const MOC: &[u8] = b"Moc.fits";

const ALLSKY: &[u8] = b"Norder3/Allsky.fits";

// How the path of a tile ends.
const SUFFIX: &[u8] = b".fits";

/// A file of a survey (HiPS 1.0, section 4). Its spelling is its path from the survey's folder, without a leading `/`;
/// all numbers in it are plain decimals, without leading zeros.
#[derive(Clone, Copy, Debug, PartialEq, Eq, PartialOrd, Ord, Hash)]
pub enum Path {
    /// `properties`: what the survey is.
    Properties,
    /// `Moc.fits`: which cells the survey covers.
    Moc,
    /// `Norder3/Allsky.fits`: the mosaic of all tiles of order 3.
    Allsky,
    /// `Norder{order}/Dir{folder}/Npix{npix}.fits`: the tile of that cell, of an order from 0 to 11. Its folder is the
    /// greatest multiple of 10,000 up to the number.
    Tile(Cell),
}

impl Path {
    /// Writes the spelling at the front of `out`, leaves the rest as it was, and answers the length of the spelling.
    /// The longest spelling has 38 bytes.
    pub fn write_into(&self, out: &mut [u8]) -> usize
        requires room { 38 ≤ length out.old }
        requires order { HasTileOrder self.now }
        ensures length { result ≡ length (spelling self.now) }
        ensures within { result ≤ 38 }
        ensures front { take result out.new ≡ spelling self.now }
        ensures written { out.new ≡ spelling self.now ++ drop result out.old }
    {
        match self {
            Path::Properties => write(out, 0, PROPERTIES),
            Path::Moc => write(out, 0, MOC),
            Path::Allsky => write(out, 0, ALLSKY),
            Path::Tile(cell) => write_tile(*cell, SUFFIX, out),
        }
    }

    /// The path with that spelling; `None` if and only if no path has it, tiles of orders 0 to 11 counted.
    pub fn read(text: &[u8]) -> Option<Path>
        ensures path { IfSome result IsPath }
        ensures spelled { IfSome result (λ path. spelling path ≡ text.now) }
        ensures none { IsNone result → (path : Path) → IsPath path → spelling path ≢ text.now }
        ensures inverse { (path : Path) → IsPath path → spelling path ≡ text.now → result ≡ Some path }
    {
        if text == PROPERTIES {
            return Some(Path::Properties);
        }
        if text == MOC {
            return Some(Path::Moc);
        }
        if text == ALLSKY {
            return Some(Path::Allsky);
        }
        let cell = read_tile(text, SUFFIX)?;
        Some(Path::Tile(cell))
    }
}

impl fmt::Display for Path {
    ghost use Rattle.std.specs.Prelude.{Some};
    ghost use Rattle.tile_path.specs.Spelling.{spelling};

    ghost output = { λ path. Some (spelling path) };

    fn fmt<W: fmt::Write>(&self, f: &mut fmt::Formatter<W>) -> fmt::Result {
        match self {
            Path::Properties => write!(f, "properties"),
            Path::Moc => write!(f, "Moc.fits"),
            Path::Allsky => write!(f, "Norder3/Allsky.fits"),
            Path::Tile(cell) => {
                let order = cell.order();
                let npix = cell.npix();
                let folder = npix / 10_000 * 10_000;
                write!(f, "Norder{order}/Dir{folder}/Npix{npix}.fits")
            }
        }
    }
}

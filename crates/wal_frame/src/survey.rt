//! Which survey a write-ahead log belongs to.
ghost use Rattle.std.specs.Prelude.{◌≡◌, ◌≤◌, ◌^◌};
ghost use Rattle.sha2.specs.Sha512.{sha512_256};
ghost use Rattle.wal_frame.specs.Survey.{tile_length, survey_bytes};

use leaf_store::Store;
use pyramid_model::Shape;
use sha2::{Digest, Sha512_256};
use tile_pixels::Tile;

/// What a WAL's header says of the survey that it belongs to.
#[derive(Clone, Copy, Debug, PartialEq, Eq)]
pub struct SurveyMark {
    /// How many bytes the stored numbers of a tile have.
    pub tile_length: u32,
    /// A digest of the description and of the opening leaves.
    pub digest: [u8; 32],
}

impl SurveyMark {
    /// The mark of a survey of that shape: of the description's text, which is `properties` without its last line, and of the
    /// opening leaves. The digest is SHA-512/256 (FIPS 180-4, section 6.7).
    pub fn of(text: &[u8], shape: Shape, opening: &Store<Tile>) -> SurveyMark
        ensures tile_length { result.tile_length ≡ tile_length shape }
        ensures digest { result.digest ≡ sha512_256 (survey_bytes text.now opening.now) }
    {
        SurveyMark {
            tile_length: tile_length(shape) as u32,
            digest: digest_of(text, opening),
        }
    }
}

/// How many bytes the stored numbers of a tile have.
pub(crate) fn tile_length(shape: Shape) -> usize
    ensures length { result ≡ tile_length shape }
    ensures at_most { result ≤ 2 ^ 21 }
{
    4usize.pow(u32::from(shape.n)) * usize::from(shape.depth.bitpix() / 8)
}

// The digest of the text and the opening leaves.
fn digest_of(text: &[u8], opening: &Store<Tile>) -> [u8; 32]
    ensures { result ≡ sha512_256 (survey_bytes text.now opening.now) }
{
    let mut hasher = Sha512_256::new();
    hasher.update(text);
    for (leaf, tile) in opening.iter() {
        let [_, _, _, _, a, b, c, d] = leaf.to_be_bytes();
        hasher.update([a, b, c, d]);
        hasher.update(tile.raw());
    }
    hasher.finalize()
}

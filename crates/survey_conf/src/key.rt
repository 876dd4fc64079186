//! The keys of a description.
ghost use Rattle.std.specs.Prelude.{◌≡◌, codes, nat_eq};
ghost use Rattle.std.specs.List.{starts_with};
ghost use Rattle.survey_conf.specs.Keys;

use crate::number::{bitpix, combine, lowest_order, order, version, whole, width_exponent};
use crate::real::{real, scale};

/// A key that is known.
#[derive(Clone, Copy)]
pub(crate) enum Key {
    CreatorDid,
    ObsTitle,
    HipsReleaseDate,
    HipsStatus,
    HipsOrder,
    HipsOrderMin,
    HipsTileWidth,
    SurveyBitpix,
    SurveyBscale,
    SurveyBzero,
    SurveyBlank,
    SurveyVersion,
    SurveyRule,
    DataproductType,
    HipsVersion,
    HipsFrame,
    HipsTileFormat,
}

/// All keys that are known.
pub(crate) const KNOWN: [Key; 17] = [
    Key::CreatorDid,
    Key::ObsTitle,
    Key::HipsReleaseDate,
    Key::HipsStatus,
    Key::HipsOrder,
    Key::HipsOrderMin,
    Key::HipsTileWidth,
    Key::SurveyBitpix,
    Key::SurveyBscale,
    Key::SurveyBzero,
    Key::SurveyBlank,
    Key::SurveyVersion,
    Key::SurveyRule,
    Key::DataproductType,
    Key::HipsVersion,
    Key::HipsFrame,
    Key::HipsTileFormat,
];

impl Key {
    /// The known key that is written so; `None` if and only if none is.
    #[tactic(auto, unfolding(crate::specs::Keys::known))]
    pub(crate) fn of(text: &[u8]) -> Option<Key>
        ensures { result ≡ Keys.known text.now }
    {
        KNOWN.iter().copied().find(|key| key.name() == text)
    }

    /// How the key is written.
    pub(crate) fn name(self) -> &'static [u8]
        ensures { result.now ≡ Keys.name self }
    {
        match self {
            Key::CreatorDid => b"creator_did",
            Key::ObsTitle => b"obs_title",
            Key::HipsReleaseDate => b"hips_release_date",
            Key::HipsStatus => b"hips_status",
            Key::HipsOrder => b"hips_order",
            Key::HipsOrderMin => b"hips_order_min",
            Key::HipsTileWidth => b"hips_tile_width",
            Key::SurveyBitpix => b"survey_bitpix",
            Key::SurveyBscale => b"survey_bscale",
            Key::SurveyBzero => b"survey_bzero",
            Key::SurveyBlank => b"survey_blank",
            Key::SurveyVersion => b"survey_version",
            Key::SurveyRule => b"survey_rule",
            Key::DataproductType => b"dataproduct_type",
            Key::HipsVersion => b"hips_version",
            Key::HipsFrame => b"hips_frame",
            Key::HipsTileFormat => b"hips_tile_format",
        }
    }

    /// Whether a description must have the key.
    pub(crate) fn is_required(self) -> bool
        ensures { result ≡ Keys.is_required self }
    {
        matches!(
            self,
            Key::CreatorDid
                | Key::ObsTitle
                | Key::HipsReleaseDate
                | Key::HipsStatus
                | Key::HipsOrder
                | Key::SurveyBitpix
                | Key::SurveyBlank
        )
    }

    /// Whether the key takes the value; of the number of blank pixels only whether it is a whole number.
    pub(crate) fn takes(self, value: &[u8]) -> bool
        ensures { result ≡ Keys.takes self value.now }
    {
        match self {
            Key::CreatorDid | Key::ObsTitle | Key::HipsReleaseDate | Key::HipsStatus => true,
            Key::HipsOrder => order(value).is_some(),
            Key::HipsOrderMin => lowest_order(value).is_some(),
            Key::HipsTileWidth => width_exponent(value).is_some(),
            Key::SurveyBitpix => bitpix(value).is_some(),
            Key::SurveyBscale => scale(value).is_some(),
            Key::SurveyBzero => real(value).is_some(),
            Key::SurveyBlank => whole(value).is_some(),
            Key::SurveyVersion => version(value).is_some(),
            Key::SurveyRule => combine(value).is_some(),
            Key::DataproductType => value == b"image".as_slice(),
            Key::HipsVersion => value == b"1.4".as_slice(),
            Key::HipsFrame => value == b"equatorial".as_slice(),
            Key::HipsTileFormat => value == b"fits".as_slice(),
        }
    }
}

/// Whether the key is neither known nor begins with this project's prefix.
pub(crate) fn is_extra_key(key: &[u8]) -> bool
    ensures { result ≡ Keys.is_extra_key key.now }
{
    Key::of(key).is_none() && !has_own_prefix(key)
}

/// Whether the key begins with this project's prefix.
pub(crate) fn has_own_prefix(key: &[u8]) -> bool
    ensures { result ≡ starts_with nat_eq key.now (codes "survey_") }
{
    key.starts_with(b"survey_")
}

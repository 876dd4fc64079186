//! A description as the `properties` file of HiPS 1.0 (section 4.4.1): one line `key = value` for each key.
ghost use Rattle.std.specs.Prelude.{◌≡◌, ℕ, ◌^◌, List, [], ◌∷◌, ◌++◌, codes, take, drop, IfOk, OnOk, decimal};
ghost use Rattle.std.specs.List.{flat_map};
ghost use Rattle.decimal_scale.specs.Real.{real_text};
ghost use Rattle.survey_conf.specs.Keys.{name};
ghost use Rattle.survey_conf.specs.declared.key.Key.TheVariants.{HipsOrder, HipsOrderMin, HipsTileWidth, HipsTileFormat};
ghost use Rattle.survey_conf.specs.Properties;
ghost use Rattle.survey_conf.specs.Properties.{line, hips_pairs, survey_pairs, version_pairs, properties_text};
ghost use Rattle.survey_conf.specs.ConfView.{extras_view};

use crate::conf::Conf;
use crate::key::Key;
use decimal_scale::Decimal;
use indexmap::IndexMap;
use itoa::Buffer;
use parent_rule::Combine;
use pyramid_model::Shape;
use std::alloc::{AllocError, Global};

// Room for the text of a survey whose values are short.
const USUAL_SIZE: usize = 1024;

impl Conf {
    /// The `properties` file of the survey with that many leaf tiles (HiPS 1.0, section 4.4.1).
    ///
    /// # Errors
    ///
    /// `AllocError` where a growth was refused.
    pub fn properties(&self, alloc: Global, leaves: u64) -> Result<Vec<u8>, AllocError>
        ensures { IfOk result (λ text. text.items ≡ properties_text self.now leaves) }
    {
        let mut text = Vec::with_capacity(alloc, USUAL_SIZE)?;
        push_hips_keys(&mut text, self)?;
        push_extras(&mut text, &self.extras)?;
        push_survey_keys(&mut text, self)?;
        push_version(&mut text, self)?;
        push_line(
            &mut text,
            b"survey_leaves",
            Buffer::new().format(leaves).as_bytes(),
        )?;
        Ok(text)
    }
}

// The keys up to hips_tile_format.
fn push_hips_keys(text: &mut Vec<u8>, conf: &Conf) -> Result<(), AllocError>
    ensures { OnOk result (text.new.items ≡ text.old.items ++ flat_map line (hips_pairs conf.now)) }
{
    push_names(text, conf)?;
    push_release(text, conf)?;
    push_shape(text, conf.shape)
}

// The keys of whose survey it is, its title, what it shows and the version of HiPS.
fn push_names(text: &mut Vec<u8>, conf: &Conf) -> Result<(), AllocError>
    ensures { OnOk result (text.new.items ≡ text.old.items ++ flat_map line (take 4 (hips_pairs conf.now))) }
{
    push_key(text, Key::CreatorDid, &conf.creator_did)?;
    push_key(text, Key::ObsTitle, &conf.obs_title)?;
    push_key(text, Key::DataproductType, b"image")?;
    push_key(text, Key::HipsVersion, b"1.4")
}

// The keys of when it was made, what may be done with it, and the frame.
fn push_release(text: &mut Vec<u8>, conf: &Conf) -> Result<(), AllocError>
    ensures { OnOk result (text.new.items ≡ text.old.items ++ flat_map line (take 3 (drop 4 (hips_pairs conf.now)))) }
{
    push_key(text, Key::HipsReleaseDate, &conf.hips_release_date)?;
    push_key(text, Key::HipsStatus, &conf.hips_status)?;
    push_key(text, Key::HipsFrame, b"equatorial")
}

// The keys of the pyramid and its tiles.
fn push_shape(text: &mut Vec<u8>, shape: Shape) -> Result<(), AllocError>
    ensures { OnOk result (text.new.items ≡ text.old.items ++ flat_map line (
        (name HipsOrder, decimal shape.top)
        ∷ (name HipsOrderMin, decimal shape.low)
        ∷ (name HipsTileWidth, decimal (2 ^ shape.n))
        ∷ (name HipsTileFormat, codes "fits")
        ∷ [])) }
{
    push_number(text, Key::HipsOrder, u64::from(shape.top))?;
    push_number(text, Key::HipsOrderMin, u64::from(shape.low))?;
    push_number(text, Key::HipsTileWidth, tile_width(shape))?;
    push_key(text, Key::HipsTileFormat, b"fits")
}

// The columns of a tile.
fn tile_width(shape: Shape) -> u64
    ensures { result ≡ 2 ^ shape.n }
{
    1 << shape.n
}

// The extra keys, in their order.
fn push_extras(text: &mut Vec<u8>, extras: &IndexMap<Vec<u8>, Vec<u8>>) -> Result<(), AllocError>
    ensures { OnOk result (text.new.items ≡ text.old.items ++ flat_map line (extras_view extras.now.entries)) }
{
    for (key, value) in extras.iter() {
        push_line(text, key, value)?;
    }
    Ok(())
}

// The keys of the stored numbers.
fn push_survey_keys(text: &mut Vec<u8>, conf: &Conf) -> Result<(), AllocError>
    ensures { OnOk result (text.new.items ≡ text.old.items ++ flat_map line (survey_pairs conf.now)) }
{
    let depth = conf.shape.depth;
    push_number(text, Key::SurveyBitpix, u64::from(depth.bitpix()))?;
    push_real(text, Key::SurveyBscale, &conf.bscale)?;
    push_real(text, Key::SurveyBzero, &conf.bzero)?;
    push_key(
        text,
        Key::SurveyBlank,
        Buffer::new().format(depth.blank()).as_bytes(),
    )
}

// The version and the way to combine, which only version 2 says.
fn push_version(text: &mut Vec<u8>, conf: &Conf) -> Result<(), AllocError>
    ensures { OnOk result (text.new.items ≡ text.old.items ++ flat_map line (version_pairs conf.now)) }
{
    if conf.version != 2 {
        return Ok(());
    }
    push_key(text, Key::SurveyVersion, b"2")?;
    push_key(text, Key::SurveyRule, rule(conf.shape.depth.combine()))
}

// How the way to combine is written.
fn rule(combine: Combine) -> &'static [u8]
    ensures { result.now ≡ Properties.rule combine }
{
    match combine {
        Combine::Mean => b"mean",
        Combine::Median => b"median",
    }
}

// The line of a key whose value is a number.
fn push_number(text: &mut Vec<u8>, key: Key, number: u64) -> Result<(), AllocError>
    ensures { OnOk result (text.new.items ≡ text.old.items ++ line (name key, decimal number)) }
{
    push_key(text, key, Buffer::new().format(number).as_bytes())
}

// The line of a key whose value is a real number.
fn push_real(text: &mut Vec<u8>, key: Key, number: &Decimal) -> Result<(), AllocError>
    ensures { OnOk result (text.new.items ≡ text.old.items ++ line (name key, real_text number.now)) }
{
    let mut buffer = [0; 26];
    let len = number.text_into(&mut buffer);
    push_key(text, key, &buffer[..len])
}

// The line of a key that is known.
fn push_key(text: &mut Vec<u8>, key: Key, value: &[u8]) -> Result<(), AllocError>
    ensures { OnOk result (text.new.items ≡ text.old.items ++ line (name key, value.now)) }
{
    push_line(text, key.name(), value)
}

// The line of a key and its value.
fn push_line(text: &mut Vec<u8>, key: &[u8], value: &[u8]) -> Result<(), AllocError>
    ensures { OnOk result (text.new.items ≡ text.old.items ++ line (key.now, value.now)) }
{
    text.extend_from_slice(key)?;
    text.extend_from_slice(b" = ")?;
    text.extend_from_slice(value)?;
    text.extend_from_slice(b"\n")
}

//! Worked examples of the properties of a description.
use small_files::{SURVEY, properties_with};
use std::alloc::Global;
use std::test::Fail;
use survey_conf::{Conf, ConfRefusal};

const WRITTEN: &str = properties_with!("survey_leaves = 0\n");

const EACH_KEY: &[u8] = b"# Each key that is known, and two that are not.
survey_rule = median
survey_version = 2
obs_title = Survey two
zz_note = the first extra key
creator_did = ivo://example/P/two
hips_status = private master unclonable
hips_release_date = 2025-01-31T12:00Z
hips_order = 11
hips_order_min = 0
hips_tile_width = 512
hips_tile_format = fits
hips_frame = equatorial
hips_version = 1.4
dataproduct_type = image
survey_blank = 255
survey_bitpix = 8
survey_bzero = 32768
survey_bscale = 2.5E-3
aa_note = a = b
";

const EACH_KEY_WRITTEN: &[u8] = b"creator_did = ivo://example/P/two
obs_title = Survey two
dataproduct_type = image
hips_version = 1.4
hips_release_date = 2025-01-31T12:00Z
hips_status = private master unclonable
hips_frame = equatorial
hips_order = 11
hips_order_min = 0
hips_tile_width = 512
hips_tile_format = fits
zz_note = the first extra key
aa_note = a = b
survey_bitpix = 8
survey_bscale = 25.0E-4
survey_bzero = 32768.0E0
survey_blank = 255
survey_version = 2
survey_rule = median
survey_leaves = 18446744073709551615
";

const LEAVES_LINE: &[u8] = b"survey_leaves = 0\n";

// The properties of the description that a text gives.
fn properties(alloc: Global, text: &[u8], leaves: u64) -> Result<Vec<u8>, ConfRefusal> {
    let conf = Conf::read(alloc, text)?;
    match conf.properties(alloc, leaves) {
        Ok(properties) => Ok(properties),
        Err(_) => Err(ConfRefusal::OutOfMemory),
    }
}

#[test]
fn writes_each_key_in_order(rt: HostRuntime) -> Result<(), Fail> {
    let plain = properties(rt.alloc(), SURVEY.as_bytes(), 0)?;
    assert!(rt; plain.as_slice() == WRITTEN.as_bytes(), "the required keys");
    let each = properties(rt.alloc(), EACH_KEY, u64::MAX)?;
    assert!(rt; each.as_slice() == EACH_KEY_WRITTEN, "each key");
    Ok(())
}

// Whether the lines but the last, of what is written of a text, are a description with the same properties.
fn comes_back(alloc: Global, text: &[u8]) -> Result<bool, ConfRefusal> {
    let written = properties(alloc, text, 0)?;
    let described = written.strip_suffix(LEAVES_LINE).unwrap_or(&[]);
    let again = properties(alloc, described, 0)?;
    Ok(again.as_slice() == written.as_slice())
}

#[test]
fn reads_what_was_written(rt: HostRuntime) -> Result<(), Fail> {
    assert!(rt;
        comes_back(rt.alloc(), SURVEY.as_bytes())?,
        "the required keys"
    );
    assert!(rt; comes_back(rt.alloc(), EACH_KEY)?, "each key");
    Ok(())
}

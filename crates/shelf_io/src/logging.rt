//! What is logged of a survey's files.
use crate::tile_words::TileWords;
use edit_journal::MOST_CHARGE;
use fits_tile::TileFault;
use healpix_nested::Cell;
use log::{Log, error, info, warn};
use survey_conf::{Conf, ConfFault, FaultWords, likely_key};
use tile_path::Path;

/// Logs that there is no description.
pub(crate) fn say_no_conf<R: Log>(rt: &R) {
    error!(rt; "there is no file survey.conf, which describes the survey");
}

/// Logs which fault the text of a description has.
pub(crate) fn say_conf_fault<R: Log>(rt: &R, text: &[u8], fault: ConfFault) {
    error!(rt; "survey.conf: {}", FaultWords::new(text, fault));
}

/// Logs which extra keys of a description may be meant for known ones.
pub(crate) fn say_likely_keys<R: Log>(rt: &R, conf: &Conf) {
    for i in 0..usize::MAX {
        let Some((key, _)) = conf.extra(i) else {
            return;
        };
        if let Some(known) = likely_key(key) {
            let (key, known) = (key.escape_ascii(), known.escape_ascii());
            warn!(rt; "survey.conf: the key {key} has no meaning here; {known} is a known one");
        }
    }
}

/// Logs which fault the file of a leaf has, and what it looks like.
pub(crate) fn say_tile_fault<R: Log>(rt: &R, leaf: Cell, file: &[u8], fault: TileFault) {
    let path = Path::Tile(leaf);
    let bytes = file.len();
    let words = TileWords::new(file, fault);
    error!(rt; "{path} is no tile of this survey ({fault}: {words}); it has {bytes} bytes and looks like {}", look_of(file));
}

/// Logs how many bytes the leaves need, and how many they may.
pub(crate) fn say_too_many<R: Log>(rt: &R, leaves: u64, charge: u64) {
    error!(rt; "the {leaves} leaves need {charge} bytes, and {MOST_CHARGE} are allowed");
}

/// Logs how many files of a survey were written, of all that it has, and how many others were removed.
pub(crate) fn say_written<R: Log>(rt: &R, written: u64, count: u64, removed: usize) {
    let same = count.saturating_sub(written);
    info!(rt; "{written} of {count} files written, {same} were the same; {removed} removed");
}

// What a file is by its first bytes.
fn look_of(file: &[u8]) -> &'static str {
    match file {
        [] => "an empty file",
        [0x1f, 0x8b, ..] => "gzip",
        [0x89, b'P', b'N', b'G', ..] => "a PNG image",
        [0xff, 0xd8, 0xff, ..] => "a JPEG image",
        [b'S', b'I', b'M', b'P', b'L', b'E', b' ', b' ', ..] => "FITS",
        [0, 0, 0, 0, ..] => "zeros",
        _ => "none of FITS, gzip, PNG and JPEG",
    }
}

//! Runs of the commands that open the shelf as a survey, over ends in memory.
use crate::runs::all_go;
use std::test::Fail;

// A shelf that isn't opened: the status, the line that is written, and the files.
static REFUSALS: &str = "\
2|conf absent^|none
2|conf 5 4^|survey.conf %conf%hips_order = 12^hips_tile_width = 2^survey_bitpix = 16^survey_blank = -32768^
2|conf 0 5^|survey.conf %conf%hips_order = 4^hips_tile_width = 2^survey_bitpix = 16^
3|tile Norder4/Dir0/Npix0.fits 1 header 1^|leaves 4 1&survey.conf %conf%hips_order = 4^hips_tile_width = 2^survey_bitpix = 16^survey_blank = -32768^
3|leaves 257^|leaves 3 257&survey.conf %conf%hips_order = 3^hips_tile_width = 512^survey_bitpix = 64^survey_blank = 0^
3|tile Norder3/Dir0/Npix0.fits 1 header 1^|leaves 3 256&survey.conf %conf%hips_order = 3^hips_tile_width = 512^survey_bitpix = 64^survey_blank = 0^
";

#[test]
fn refuses_a_shelf_that_is_no_survey(rt: HostRuntime) -> Result<(), Fail> {
    all_go(&rt, "export||", REFUSALS, "")?;
    all_go(&rt, "verify||", REFUSALS, "")?;
    all_go(&rt, "session||", REFUSALS, "")
}

// Reads and writes that fail. The third write or flush is none of theirs.
static FAILING: &str = "\
session|GET /prop|5||||0
session|POST /unpin HTTP/1.1~Host: a~~|6||||||0
export||6||none||||0
export||6|conf absent^|none||||1
export||2|conf absent^|none||||2
";

#[test]
fn fails_where_an_end_does(rt: HostRuntime) -> Result<(), Fail> {
    all_go(&rt, "", FAILING, "")
}

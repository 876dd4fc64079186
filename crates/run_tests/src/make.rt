//! Made surveys: what `make` writes.
use crate::runs::all_go;
use std::test::Fail;

// What `scripts/made-summary.py` computes cell by cell, and a run whose first write fails.
static MADE: &str = "\
make 0 1||0|edits 1 of 1 leaves 1 files 6 prefix 1 sum 103636951^|none
make 1479 8||0|edits 8 of 8 leaves 6 files 21 prefix 8 sum 107075897^|none
make 26741 8||0|edits 7 of 8 leaves 7 files 20 prefix 7 sum 106878878^|none
make 0 1||6||none||||0
";

#[test]
fn sums_made_surveys_up(rt: HostRuntime) -> Result<(), Fail> {
    all_go(&rt, "", MADE, "")
}

//! Runs of the commands that read records or lines, over the small survey without leaves.
use crate::runs::all_go;
use std::test::Fail;

static RUNS: &str = "\
past 1|batch 2899^put 0 2888^%tile 4 0 1 2 3 5%read 0 Norder3/Dir0/Npix0.fits^read 1 Norder3/Dir0/Npix0.fits^read 2 properties^|0|edits 1^absent^file 5760^%file 3 0 -32768 -32768 3 -32768%future 1^
past 8|batch 2908^put 0 2888^%tile 4 0 1 2 3 5%remove 0^read 1 properties^read 2 properties^|0|edits 2^split 1^file 380^%properties%0^
past 1|look^|17|
past 1|read 0 prop|4|
catalog 1 1|5\t0\ta\t^3\t1\tb\t^4\t0\tc\t^|0|rows 3 tiles 2^||||||Norder0/Dir0/Npix0.tsv Norder1/Dir0/Npix0.tsv survey.conf
catalog 1 1|5\t0\ta\t^3\t1\tb\t^4\t0\tc\t^-\tb^|0|rows 2 tiles 2^||||||Norder0/Dir0/Npix0.tsv Norder1/Dir0/Npix0.tsv survey.conf
catalog 1 1|5\t0\ta\t^5\t0\ta\t^|16|row 2 7^
catalog 0 4096||0|rows 0 tiles 0^
catalog 11 1|5\t0|4|
";

#[test]
fn answers_records_and_lines(rt: HostRuntime) -> Result<(), Fail> {
    all_go(&rt, "", RUNS, "")
}

//! Runs of `probe`, and of words that are no command's.
use crate::runs::all_go;
use std::test::Fail;

// Where the source fails at its first read, the rest of them read nothing.
static RUNS: &str = "\
probe 4 1 3 0|%long 0%%short 1 2 3 5%|0|%short -32768 -32768 3 -32768%|none|100||100
probe 4 1 3 0|%long 4%%short 7 7 7 7%|10||none|100||100
probe 4 1 3 0|%long 0%%short 1 2 3%%byte 0%|4||none|100||100
probe 4 1 3 0|%long 3072%%byte 0%|13||none|100||100
probe 4 1 3 0|%long 0%%short 1 2 3 5%|5||none|3|1|100
probe 4 1 3 0|%long 0%%short 1 2 3 5%|6|%short -32768%%byte -128%|none|100||3|100
probe 4 1 3 768|%long 0%%short 1 2 3 5%|13||none|100|0|100
|%long 0%%short 1 2 3 5%|1|usage: hipsd COMMAND^|none|100|0|100
probe|%long 0%%short 1 2 3 5%|1|usage: hipsd COMMAND^|none|100|0|100
sessions|%long 0%%short 1 2 3 5%|1|usage: hipsd COMMAND^|none|100|0|100
probe 4 1 5 0|%long 0%%short 1 2 3 5%|1|usage: hipsd COMMAND^|none|100|0|100
";

#[test]
fn answers_probe(rt: HostRuntime) -> Result<(), Fail> {
    all_go(&rt, "", RUNS, "")
}

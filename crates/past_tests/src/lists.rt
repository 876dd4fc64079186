//! A list of reads, where one state is held.
use crate::bytes::bytes_of;
use crate::surveys::{journal, survey};
use parent_rule::Steps;
use past_reads::{Past, PastRead, PastRefusal};
use std::alloc::Global;
use std::test::Fail;
use survey_link::OpenGate;
use tile_path::Path;

// After how many edits which file is read, and the answer.
static READS: &str = "1 Norder3/Dir0/Npix0.fits|%whole 3 0 -32768 -32768 3 -32768%
4 Norder3/Dir0/Npix767.fits|%whole 3 767 -32768 3 -32768 -32768%
1 Norder4/Dir0/Npix0.fits|%whole 4 0 1 2 3 5%
2 properties|edit 2 isn't the last of its batch
4 Norder4/Dir0/Npix0.fits|absent
5 properties|there are 4 edits
3 properties|%properties%1;
0 properties|%properties%0;
4 properties|%properties%2;
3 Norder4/Dir0/Npix1.fits|%whole 4 1 1 2 3 5%
0 Norder3/Dir0/Npix0.fits|absent
1 properties|%properties%1;";

// The reads of the rows.
fn reads(alloc: Global) -> Result<Vec<PastRead>, Fail> {
    let mut reads = Vec::new(alloc);
    for row in READS.lines() {
        let (read, _) = row.split_once('|').ok_or("no answer")?;
        let (k, path) = read.split_once(' ').ok_or("no path")?;
        let k = k.parse::<u32>()?;
        let path = Path::read(path.as_bytes()).ok_or("no such path")?;
        reads.push(PastRead { k, path })?;
    }
    Ok(reads)
}

// An answer, as a row has it.
fn shown(alloc: Global, answer: &Result<Option<Vec<u8>>, PastRefusal>) -> Result<Vec<u8>, Fail> {
    match answer {
        Ok(Some(file)) => Ok(file.clone()?),
        Ok(None) => bytes_of(alloc, "absent"),
        Err(refusal) => bytes_of(alloc, format!(in alloc; "{refusal}")?.as_str()),
    }
}

// The answer of a row.
fn expected(alloc: Global, row: &str) -> Result<Vec<u8>, Fail> {
    let (_, answer) = row.split_once('|').ok_or("no answer")?;
    bytes_of(alloc, answer)
}

#[test]
fn each_read_of_a_list_is_answered_as_if_alone(rt: HostRuntime) -> Result<(), Fail> {
    let alloc = rt.alloc();
    let conf = survey(alloc)?;
    let journal = journal(alloc, &conf)?;
    let mut past = Past::new(alloc, conf, &journal, 1)?;
    let reads = reads(alloc)?;
    let gate = OpenGate::new();
    let answers = past.read_all(&rt, &journal, &reads, &gate, &mut Steps::new())?;
    assert!(rt; answers.len() == 12);
    for (row, answer) in READS.lines().zip(answers.iter()) {
        assert!(rt; shown(alloc, answer)? == expected(alloc, row)?, "{row}");
    }
    Ok(())
}

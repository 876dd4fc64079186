//! Past states that are read in any order.
ghost use Rattle.past_reads.specs.Past.{GoesOnFrom};

use crate::surveys::{journal, survey};
use edit_journal::Journal;
use log::Log;
use parent_rule::Steps;
use past_reads::Past;
use std::alloc::{AllocError, Global};
use std::process::Abort;
use std::test::Fail;
use std::thread::Threads;
use std::time::Clock;
use survey_link::OpenGate;

// The prefixes that are held.
fn held(alloc: Global, past: &Past) -> Result<String, AllocError> {
    let mut text = String::new(alloc);
    for i in 0..8 {
        if let Some(prefix) = past.held(i) {
            text.push_str(&format!(in alloc; " {prefix}")?)?;
        }
    }
    Ok(text)
}

// What comes of reading a prefix: how many files and leaves it has, or why there is none; how many steps it took; and what is
// held then.
fn read<R: Threads + Sync + Clock + Log>(
    rt: &R,
    alloc: Global,
    past: &mut Past,
    journal: &Journal,
    k: u32,
) -> Result<String, AllocError>
    requires { GoesOnFrom past.old journal.now }
    ensures { GoesOnFrom past.new journal.now }
{
    let mut steps = Steps::new();
    let answer = match past.at(rt, journal, k, &OpenGate::new(), &mut steps) {
        Ok(found) => format!(in alloc; "{} {}", found.file_count(), found.leaves().len())?,
        Err(refusal) => format!(in alloc; "{refusal}")?,
    };
    format!(in alloc; "{answer}|{}|{}", steps.count(), held(alloc, past)?)
}

// A prefix that is read, after those above it, where two are held: its files and leaves, the steps, and what is held then.
static READS: &str = "0|2 0|0| 0
1|5 1|1| 1 0
1|5 1|0| 1 0
2|edit 2 isn't the last of its batch|0| 1 0
3|5 1|1| 3 1
5|there are 4 edits|0| 3 1
4|7 2|1| 4 3
3|5 1|0| 3 4
1|5 1|1| 1 3
4|7 2|1| 4 1";

// Each prefix of the table is read as it says.
fn all_are_read<R: Threads + Sync + Clock + Log + Abort>(
    rt: &R,
    alloc: Global,
    past: &mut Past,
    journal: &Journal,
) -> Result<(), Fail>
    requires { GoesOnFrom past.old journal.now }
{
    for row in READS.lines() {
        let (k, expected) = row.split_once('|').ok_or("no answer")?;
        let found = read(rt, alloc, past, journal, k.parse::<u32>()?)?;
        assert!(rt; found.as_str() == expected, "{row}: {found}");
    }
    Ok(())
}

#[test]
fn past_states_are_read_in_any_order(rt: HostRuntime) -> Result<(), Fail> {
    let alloc = rt.alloc();
    let conf = survey(alloc)?;
    let journal = journal(alloc, &conf)?;
    let mut past = Past::new(alloc, conf, &journal, 2)?;
    all_are_read(&rt, alloc, &mut past, &journal)
}

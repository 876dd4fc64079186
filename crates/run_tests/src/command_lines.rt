//! The words of a command line.
use crate::runs::all_go;
use hipsd_run::words;
use std::env;
use std::io::{self, ErrorKind};
use std::test::Fail;

// Words that are no command's.
static NONE: &str = "\
probe
probe 4 1 3
probe 4 1 3 0 0
probe 4 1 5 0
probe 2 1 2 0
probe 12 1 3 0
probe 4 0 3 0
probe 4 10 3 0
probe 04 1 3 0
probe +4 1 3 0
probe 4 1 3 -0
probe 4 1 3 00
probe 4 1 3 18446744073709551616
Probe 4 1 3 0
session 0
sessions
make
make 0
make 0 1 1
make 0 0
make 0 4097
make 0 01
make +0 1
make 18446744073709551616 1
Make 0 1
past
past 0
past 9
past 08
past 1 1
catalog
catalog 1
catalog 12 1
catalog 01 1
catalog 0 0
catalog 0 4097
catalog 1 1 1
mirror
mirror a b
Mirror a
";

#[test]
fn refuses_what_is_no_command(rt: HostRuntime) -> Result<(), Fail> {
    all_go(&rt, "", NONE, "||1|usage: hipsd COMMAND^")
}

// A word that is not UTF-8 makes the list of words empty; any other failure to get the words is passed on.
#[test]
fn words_that_are_not_text_are_none(rt: HostRuntime) -> Result<(), Fail> {
    let not_text: io::Result<env::Args> = Err(ErrorKind::InvalidData.into());
    assert!(rt; words(rt.alloc(), not_text)?.is_empty());
    let no_words: io::Result<env::Args> = Err(ErrorKind::OutOfMemory.into());
    assert!(rt; words(rt.alloc(), no_words).is_err());
    Ok(())
}

//! Lines that are used one by one, refused ones among them.
use catalog_command::{LineRefusal, use_lines};
use hips_catalog::Catalog;
use std::alloc::{AllocError, Global};
use std::test::Fail;

// The lines of a text.
fn lines_of(alloc: Global, text: &[u8]) -> Result<Vec<Vec<u8>>, AllocError> {
    let mut lines = Vec::new(alloc);
    for line in text.split(|byte| *byte == b'\n') {
        lines.push(Vec::from_slice(alloc, line)?)?;
    }
    Ok(lines)
}

// The kind of the fault for which a line wasn't used; 0 where it was.
fn kind(answer: &Result<(), LineRefusal>) -> u8 {
    match answer {
        Ok(()) => 0,
        Err(LineRefusal::Fault(fault)) => fault.kind(),
        Err(LineRefusal::OutOfMemory) => 255,
    }
}

static LINES: &[u8] = b"5\t0\ta\t\n7\t1\n5\t0\ta\t\n-\tb\n7\t1\tb\t\n8\t0\tc\t\n-\ta";

#[test]
fn refused_lines_change_nothing(rt: HostRuntime) -> Result<(), Fail> {
    let alloc = rt.alloc();
    let mut catalog = Catalog::new(alloc, 1, 1);
    let answers = use_lines(alloc, &mut catalog, 1, &lines_of(alloc, LINES)?)?;
    assert!(rt; answers.iter().map(kind).eq([0, 1, 7, 9, 0, 0, 0]));
    assert!(rt; catalog.len() == 2);
    Ok(())
}

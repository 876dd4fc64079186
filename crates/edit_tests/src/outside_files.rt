//! Files for tools of others, which `scripts/check-fits.sh` gives them.
use crate::covers::{cover_of, numbers};
use std::alloc::{AllocError, Global};
use std::test::Fail;

// The next state of a linear congruence.
fn next(state: u64) -> u64 {
    state
        .wrapping_mul(6_364_136_223_846_793_005)
        .wrapping_add(1_442_695_040_888_963_407)
}

// Numbers of leaves of order 6: two whole cells of order 2, and five hundred drawn by a linear congruence.
fn drawn(alloc: Global) -> Result<Vec<u64>, AllocError> {
    let mut leaves = numbers(alloc, 1024, 1536)?;
    let mut state = 1u64;
    for _ in 0..500u32 {
        state = next(state);
        leaves.push((state >> 33) % 49_152)?;
    }
    Ok(leaves)
}

// Prints the leaves of a cover behind their order.
fn print_leaves(rt: &HostRuntime, top: u8, leaves: &[u64]) -> Result<(), Fail> {
    print!(rt; "leaves-{top}")?;
    for leaf in leaves {
        print!(rt; " {leaf}")?;
    }
    println!(rt;)?;
    Ok(())
}

// Prints the bytes of a file in hexadecimal digits, behind the order of the leaves.
fn print_file(rt: &HostRuntime, top: u8, file: &[u8]) -> Result<(), Fail> {
    print!(rt; "moc-{top} ")?;
    for byte in file {
        print!(rt; "{byte:02x}")?;
    }
    println!(rt;)?;
    Ok(())
}

// The file of the cover of these leaves.
fn file(alloc: Global, top: u8, leaves: &[u64]) -> Result<Vec<u8>, Fail> {
    if top > 11 {
        return Err("no such order".into());
    }
    let cover = cover_of(alloc, top, leaves)?;
    Ok(cover.encode(alloc, top)?)
}

// Prints the leaves and the file of their cover.
fn print(rt: &HostRuntime, top: u8, leaves: &[u64]) -> Result<(), Fail> {
    print_leaves(rt, top, leaves)?;
    let file = file(rt.alloc(), top, leaves)?;
    print_file(rt, top, &file)
}

#[test]
fn prints_files_for_tools_of_others(rt: HostRuntime) -> Result<(), Fail> {
    print(&rt, 4, &[0, 1, 2, 3])?;
    let drawn = drawn(rt.alloc())?;
    print(&rt, 6, &drawn)
}

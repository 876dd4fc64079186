//! A program that calls what can run out of memory at the greatest size that it has, or far beyond what the tests reach: a
//! body that answers out of memory from a size on is proved, and stops this program. It prints a line for each call, with
//! counts and sums; scripts/size-values.py computes these.
#![tactic(auto)]

mod catalogs;
mod covers;
mod levels;
mod mosaics;
mod plans;
mod stores;
mod surveys;
mod tiles;

use std::io::Print;
use std::test::Fail;
use std::thread::Threads;

fn main(rt: HostRuntime) -> Result<(), Fail> {
    print_lists(&rt)?;
    print_tiles(&rt)?;
    catalogs::print_catalog(&rt)?;
    surveys::print_survey(&rt)
}

// What is kept in stores, plans and covers.
fn print_lists<R: AllocGlobal + Print>(rt: &R) -> Result<(), Fail> {
    let alloc = rt.alloc();
    let pairs = stores::sizes(alloc)?;
    println!(rt;
        "store {} sum {} without one {}",
        pairs.len, pairs.sum, pairs.less
    )?;
    let plan = plans::sizes(alloc)?;
    println!(rt;
        "plan {} steps {} then {}",
        plan.leaves, plan.before, plan.after
    )?;
    let cover = covers::sizes(alloc)?;
    println!(rt;
        "cover {} sum {} file {}",
        cover.rows, cover.sum, cover.bytes
    )?;
    println!(rt; "listed {} sum {}", cover.leaves, cover.numbers)?;
    Ok(())
}

// Merges, and the mosaic.
fn print_tiles<R: AllocGlobal + Print + Threads + Sync>(rt: &R) -> Result<(), Fail> {
    let level = levels::sizes(rt, rt.alloc())?;
    println!(rt;
        "level {} tiles {} by many {}",
        level.merges, level.one, level.many
    )?;
    let mosaic = mosaics::sizes(rt, rt.alloc())?;
    println!(rt; "mosaic {} patched {}", mosaic.whole, mosaic.patched)?;
    Ok(())
}

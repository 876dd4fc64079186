//! A write-ahead log on a disk in memory, which crashes at each of its calls.
use sqlite_disk::{Crash, Disk, Fuse, Memory};
use std::alloc::Global;
use std::io;
use std::process::Abort;
use std::test::Fail;
use wal_disk::Wal;

// A disk that holds these bytes for good, and crashes after so many calls.
fn disk(alloc: Global, bytes: &[u8], calls: u64) -> io::Result<Option<Fuse<Memory>>> {
    let mut memory = Memory::new(alloc);
    memory.write_at(0, bytes)?;
    memory.sync()?;
    Ok(Some(Fuse::new(memory, calls)))
}

// Adds the record of the bytes 1, 7, 8, 9, and answers whether it is kept.
fn add<D: Disk>(wal: &mut Wal<D>) -> bool {
    if !wal.may_be_used() || wal.stage(&[7, 8]).is_err() {
        return false;
    }
    match wal.stage(&[9]) {
        Ok(()) => wal.commit().is_ok(),
        Err(_) => false,
    }
}

// Takes that record away again, and answers whether it is gone.
fn take_back<D: Disk>(wal: &mut Wal<D>) -> bool {
    wal.may_be_used() && wal.end() >= 4 && wal.take_back(4).is_ok()
}

// How many calls of the disk are answered; whether the record is kept then, and then taken back; and the file after a crash that
// loses what wasn't synced, and after one that loses nothing.
type Row = (u64, bool, bool, &'static [u8], &'static [u8]);

static ROWS: [Row; 9] = [
    (0, false, false, &[5, 0], &[5, 0]),
    (1, false, false, &[5, 0], &[5, 0, 7, 8]),
    (2, false, false, &[5, 0], &[5, 0, 7, 8, 9]),
    (3, false, false, &[5, 0], &[5, 0, 7, 8, 9, 0]),
    (4, false, false, &[5, 0, 7, 8, 9, 0], &[5, 0, 7, 8, 9, 0]),
    (5, false, false, &[5, 0, 7, 8, 9, 0], &[5, 1, 7, 8, 9, 0]),
    (6, true, false, &[5, 1, 7, 8, 9, 0], &[5, 1, 7, 8, 9, 0]),
    (7, true, false, &[5, 1, 7, 8, 9, 0], &[5, 0, 7, 8, 9, 0]),
    (8, true, true, &[5, 0, 7, 8, 9, 0], &[5, 0, 7, 8, 9, 0]),
];

fn check_row(
    rt: &impl Abort,
    alloc: Global,
    (calls, kept, gone, least, most): &Row,
) -> Result<(), Fail> {
    let device = disk(alloc, &[5, 0], *calls)?.ok_or("no disk")?;
    let mut wal = Wal::new(device, 1);
    assert_eq!(rt; add(&mut wal), *kept, "{calls} calls");
    if *kept {
        assert_eq!(rt; take_back(&mut wal), *gone, "{calls} calls");
    }
    let mut device = wal.into_device();
    assert_eq!(rt; device.inner().bytes(), *most, "{calls} calls");
    device.crash();
    assert_eq!(rt; device.inner().bytes(), *least, "{calls} calls");
    Ok(())
}

#[test]
fn a_crash_leaves_a_record_or_not(rt: HostRuntime) -> Result<(), Fail> {
    for row in &ROWS {
        check_row(&rt, rt.alloc(), row)?;
    }
    Ok(())
}

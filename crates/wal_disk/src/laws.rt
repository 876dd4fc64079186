//! What follows from the definitions: the law is the whole contract of its function.
ghost use Rattle.wal_disk.specs.Laws.{FilesStandForRecords};

/// A file that begins with a header and whole records, and goes on with a gate that isn't open, is a WAL of just these records.
pub fn files_stand_for_records()
    ensures { FilesStandForRecords }
{}

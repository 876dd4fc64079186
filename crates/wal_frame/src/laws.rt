//! What follows from the definitions: each law is the whole contract of its function.
ghost use Rattle.wal_frame.specs.Laws.{RecordsComeBack, RecordsStandAlone, WalsAreOne, HeadersAreKnown};

/// What was written is read again, whatever follows it.
pub fn records_come_back()
    ensures { RecordsComeBack }
{}

/// A record that is there whole is told by its own bytes, whatever follows it.
pub fn records_stand_alone()
    ensures { RecordsStandAlone }
{}

/// The bytes behind a header are one list of records, and end in one place.
pub fn wals_are_one()
    ensures { WalsAreOne }
{}

/// A header isn't refused exactly if it is the survey's, byte for byte.
pub fn headers_are_known()
    ensures { HeadersAreKnown }
{}

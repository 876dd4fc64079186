//! Records behind one another.

ghost use Rattle.std.specs.Prelude.{◌<◌, ◌≤◌, ◌^◌};

use crate::stop::{CommitStop, DiskFailed, StageStop};
use sqlite_disk::Disk;

/// The greatest length of a WAL.
pub(crate) const MOST_BYTES: usize = 1 << 62;

/// A write-ahead log, whose last record ends before the byte `end`, which is the gate of the next one; the bytes up to `next`
/// are staged behind it.
#[derive(Drop)]
pub struct Wal<D> {
    device: D,
    end: usize,
    next: usize,
    ghost order: { end < next },
    ghost fits: { next ≤ 2 ^ 62 },
}

impl<D: Disk> Wal<D> {
    ghost use Rattle.std.specs.Prelude.{◌≡◌, ◌+◌, ◌^◌, ◌<◌, ◌≤◌, [], ◌∷◌, ◌++◌, List, ℕ, length, OnOk, OnErr, IfErr, IsTrue, IsErrOf};
    ghost use Rattle.sqlite_disk.specs.Disk.{MoreFaults};
    ghost use Rattle.wal_disk.specs.Shut.{Shut, with_record};
    ghost use Rattle.wal_disk.specs.Wal.{device_of, end_of, next_of, IsStaged, IsUnsure, IsClosed, IsGated, IsShutAgain, Stopped};

    /// The WAL that the device holds up to `end`, where no open gate stands, whatever a crash leaves.
    pub fn new(device: D, end: usize) -> Wal<D>
        requires { end < 2 ^ 62 }
        ensures kept { (front : List ℕ) → end ≡ length front → ((c : List ℕ) → D.may_leave device c → Shut front c) → IsStaged D.seen D.may_leave front [] result }
        ensures device { device_of result ≡ device }
    {
        Wal {
            device,
            end,
            next: end + 1,
        }
    }

    /// How many bytes the header and the records have.
    pub fn end(&self) -> usize
        ensures { result ≡ end_of self.now }
    {
        self.end
    }

    /// Whether more may be asked of the device: no sync has failed.
    pub fn may_be_used(&self) -> bool
        ensures { result ≡ D.is_usable (device_of self.now) }
    {
        self.device.may_be_used()
    }

    /// The device.
    pub fn into_device(self) -> D
        ensures { result ≡ device_of self }
    {
        self.device
    }

    /// Writes more bytes of the next record, of those behind its gate. The WAL keeps the records that it has.
    ///
    /// # Errors
    ///
    /// `Full` only where the WAL would reach 2^62 bytes; `Failed` only where the disk failed. What was staged before stays staged.
    pub fn stage(&mut self, bytes: &[u8]) -> Result<(), StageStop>
        requires usable { IsTrue (D.is_usable (device_of self.old)) }
        requires some { 0 < length bytes.now }
        ensures staged { (front body : List ℕ) → IsStaged D.seen D.may_leave front body self.old
            → OnOk result (IsStaged D.seen D.may_leave front (body ++ bytes.now) self.new) }
        ensures kept { (front body : List ℕ) → IsStaged D.seen D.may_leave front body self.old
            → OnErr result (IsStaged D.seen D.may_leave front body self.new) }
        ensures room { OnOk result (next_of self.new < 2 ^ 62) }
        ensures usable { IsTrue (D.is_usable (device_of self.new)) }
        ensures full { IsErrOf result StageStop.Full → 2 ^ 62 ≤ next_of self.old + length bytes.now }
        ensures failed { IsErrOf result StageStop.Failed → MoreFaults (D.faults (device_of self.old)) (D.faults (device_of self.new)) }
        ensures calm { D.is_clean (device_of self.new) ≡ D.is_clean (device_of self.old) }
    {
        if bytes.len() >= MOST_BYTES - self.next {
            return Err(StageStop::Full);
        }
        match self.device.write_at(self.next, bytes) {
            Ok(()) => {
                self.next += bytes.len();
                Ok(())
            }
            Err(_) => Err(StageStop::Failed),
        }
    }

    /// Drops what is staged.
    pub fn discard(&mut self)
        ensures dropped { (front body : List ℕ) → IsStaged D.seen D.may_leave front body self.old → IsStaged D.seen D.may_leave front [] self.new }
        ensures device { device_of self.new ≡ device_of self.old }
    {
        self.next = self.end + 1;
    }

    /// Makes the bytes that are staged a record. At Ok each crash from then on leaves it in the file.
    ///
    /// # Errors
    ///
    /// Only where the disk failed. `NotKept`: no crash leaves the record, and its bytes are still staged. `Unsure`: a crash leaves
    /// the record or not.
    pub fn commit(&mut self) -> Result<(), CommitStop>
        requires usable { IsTrue (D.is_usable (device_of self.old)) }
        requires room { next_of self.old < 2 ^ 62 }
        ensures kept { (front body : List ℕ) → IsStaged D.seen D.may_leave front body self.old
            → OnOk result (IsStaged D.seen D.may_leave (with_record front body) [] self.new) }
        ensures stopped { (front body : List ℕ) → IsStaged D.seen D.may_leave front body self.old
            → IfErr result (Stopped D.seen D.may_leave front body self.new) }
        ensures usable { OnOk result (IsTrue (D.is_usable (device_of self.new))) }
        ensures failed { OnErr result (MoreFaults (D.faults (device_of self.old)) (D.faults (device_of self.new))) }
        ensures calm { D.is_clean (device_of self.new) ≡ D.is_clean (device_of self.old) }
    {
        match self.close_behind() {
            Ok(()) => self.open_gate(),
            Err(_) => Err(CommitStop::NotKept),
        }
    }

    // Writes a closed gate behind what is staged, and syncs.
    fn close_behind(&mut self) -> Result<(), DiskFailed>
        requires usable { IsTrue (D.is_usable (device_of self.old)) }
        ensures closed { (front body : List ℕ) → IsStaged D.seen D.may_leave front body self.old
            → OnOk result (IsClosed D.seen D.may_leave front body self.new) }
        ensures kept { (front body : List ℕ) → IsStaged D.seen D.may_leave front body self.old
            → OnErr result (IsStaged D.seen D.may_leave front body self.new) }
        ensures places { (end_of self.new ≡ end_of self.old) × (next_of self.new ≡ next_of self.old) }
        ensures usable { OnOk result (IsTrue (D.is_usable (device_of self.new))) }
        ensures failed { OnErr result (MoreFaults (D.faults (device_of self.old)) (D.faults (device_of self.new))) }
        ensures calm { D.is_clean (device_of self.new) ≡ D.is_clean (device_of self.old) }
        ensures never_falls { D.faults (device_of self.old) ≤ D.faults (device_of self.new) }
    {
        match self.device.write_at(self.next, &[0]) {
            Ok(()) => match self.device.sync() {
                Ok(()) => Ok(()),
                Err(_) => Err(DiskFailed),
            },
            Err(_) => Err(DiskFailed),
        }
    }

    // Opens the gate of a record that is on the disk, and syncs.
    fn open_gate(&mut self) -> Result<(), CommitStop>
        requires usable { IsTrue (D.is_usable (device_of self.old)) }
        requires room { next_of self.old < 2 ^ 62 }
        ensures kept { (front body : List ℕ) → IsClosed D.seen D.may_leave front body self.old
            → OnOk result (IsStaged D.seen D.may_leave (with_record front body) [] self.new) }
        ensures stopped { (front body : List ℕ) → IsClosed D.seen D.may_leave front body self.old
            → IfErr result (Stopped D.seen D.may_leave front body self.new) }
        ensures usable { OnOk result (IsTrue (D.is_usable (device_of self.new))) }
        ensures failed { OnErr result (MoreFaults (D.faults (device_of self.old)) (D.faults (device_of self.new))) }
        ensures calm { D.is_clean (device_of self.new) ≡ D.is_clean (device_of self.old) }
    {
        match self.device.write_at(self.end, &[1]) {
            Ok(()) => match self.device.sync() {
                Ok(()) => {
                    self.end = self.next;
                    self.next += 1;
                    Ok(())
                }
                Err(_) => Err(CommitStop::Unsure),
            },
            Err(_) => match self.shut_gate() {
                Ok(()) => Err(CommitStop::NotKept),
                Err(_) => Err(CommitStop::Unsure),
            },
        }
    }

    // Shuts the gate behind the last record, and syncs.
    fn shut_gate(&mut self) -> Result<(), DiskFailed>
        requires usable { IsTrue (D.is_usable (device_of self.old)) }
        ensures shut { (front body : List ℕ) → IsGated D.seen D.may_leave front body self.old
            → OnOk result (IsShutAgain D.seen D.may_leave front body self.new) }
        ensures unsure { (front body : List ℕ) → IsGated D.seen D.may_leave front body self.old
            → OnErr result (IsUnsure D.seen D.may_leave front body self.new) }
        ensures places { (end_of self.new ≡ end_of self.old) × (next_of self.new ≡ next_of self.old) }
        ensures usable { OnOk result (IsTrue (D.is_usable (device_of self.new))) }
        ensures failed { OnErr result (MoreFaults (D.faults (device_of self.old)) (D.faults (device_of self.new))) }
        ensures calm { D.is_clean (device_of self.new) ≡ D.is_clean (device_of self.old) }
        ensures never_falls { D.faults (device_of self.old) ≤ D.faults (device_of self.new) }
    {
        match self.device.write_at(self.end, &[0]) {
            Ok(()) => match self.device.sync() {
                Ok(()) => Ok(()),
                Err(_) => Err(DiskFailed),
            },
            Err(_) => Err(DiskFailed),
        }
    }

    /// Takes the last record, of so many bytes, away again, with all that is staged.
    ///
    /// # Errors
    ///
    /// Only where the disk failed: a crash then leaves the record or not.
    pub fn take_back(&mut self, count: usize) -> Result<(), DiskFailed>
        requires usable { IsTrue (D.is_usable (device_of self.old)) }
        requires count { count ≤ end_of self.old }
        ensures taken { (front body : List ℕ) → IsStaged D.seen D.may_leave (with_record front body) [] self.old → count ≡ 1 + length body
            → OnOk result (IsStaged D.seen D.may_leave front [] self.new) }
        ensures unsure { (front body : List ℕ) → IsStaged D.seen D.may_leave (with_record front body) [] self.old → count ≡ 1 + length body
            → OnErr result (IsUnsure D.seen D.may_leave front body self.new) }
        ensures failed { OnErr result (MoreFaults (D.faults (device_of self.old)) (D.faults (device_of self.new))) }
        ensures calm { D.is_clean (device_of self.new) ≡ D.is_clean (device_of self.old) }
    {
        self.end -= count;
        self.next = self.end + 1;
        self.shut_gate()
    }
}

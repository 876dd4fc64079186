//! The shelf over the current folder.
ghost use Rattle.std.specs.Prelude.{◌≡◌, ◌≤◌, ◌↔◌, IsNone, None, Bool, true, false, All, Err, string_bytes, vec_len, IfOk, IfSome, OnOk, OnErr, IsErrOf};
ghost use Rattle.survey_link.specs.Link.{next_count};
ghost use Rattle.std_link.specs.Folder.{IsPut};
ghost use Rattle.survey_link.specs.Shelf.{OthersStay};
ghost use Rattle.std_link.specs.ShelfPath.{is_left_over, is_shelf_path, longest_file, unfinished};

use crate::failed_call::{FailedCall, FileCall};
use crate::file_fault::FileFault;
use crate::folder::{Folder, put_by_way_of};
use crate::here::Here;
use crate::shelf_path::{is_shelf_path, unfinished};
use log::Log;
use std::alloc::Global;
use std::io;
use std::io::ErrorKind;
use std::marker::Model;
use std::rt::Files;
use survey_link::{LinkFault, Shelf};

/// A shelf over the regular files below the current folder, by their paths with `/` between names. Its files are opaque to
/// the proof.
///
/// A link counts as the regular file that it leads to; `put` and `remove` take the link itself away. A link to a folder is
/// a fault: nothing is listed, read, written or removed behind one. Whether one is on the way is looked up before each
/// call, not in the same one. A file is written beside the old one and renamed once it is whole, so that whoever looks sees
/// whole files; what a stop in the middle leaves isn't listed, and the next `put` there clears it.
///
/// What it answers as `Failed` counts as a fault: also a name that isn't UTF-8; to `get` what is no regular file, as a folder
/// or a pipe, or has more than 2^29 bytes; and a path that no file on the shelf may have, since it would leave the folder,
/// spell a path otherwise than listed, or is a left-over's. An interrupted call is made again and counts as none, nor does
/// running out of memory. `last_fault` is the last call that failed. The first listing logs how many entries have a tile's name
/// and are no files.
#[derive(Drop)]
pub struct FolderShelf<R> {
    alloc: Global,
    folder: Here<R>,
    faults: u64,
    last: Option<FailedCall>,
}

impl<R> Model for FolderShelf<R> {
    ghost use Rattle.std.specs.Prelude.{◌≡◌, ◌↔◌, IsNone};
    ghost use Rattle.std_link.specs.Folder.{FolderState, folder_code};

    ghost Value = { FolderState };

    ghost coded = { folder_code };

    ghost view = { λ a. record { faults = a.faults } };

    ghost invariant = { λ a. IsNone a.last ↔ (a.faults ≡ 0) };
}

impl<R: AllocGlobal> FolderShelf<R> {
    /// The shelf over the current folder.
    pub fn here(rt: R) -> FolderShelf<R>
        ensures { result ≡ record { faults = 0 } }
    {
        FolderShelf {
            alloc: rt.alloc(),
            folder: Here::new(rt.alloc(), rt),
            faults: 0,
            last: None,
        }
    }
}

impl<R> FolderShelf<R> {
    /// How often it has failed.
    pub fn faults(&self) -> u64
        ensures { result ≡ self.now.faults }
    {
        self.faults
    }

    /// The last call that failed; `None` if and only if none did.
    pub fn last_fault(&self) -> Option<&FailedCall>
        ensures { IsNone result ↔ (self.now.faults ≡ 0) }
    {
        self.last.as_ref()
    }

    // Counts a call that failed.
    fn fail<T>(&mut self, failed: FailedCall) -> Result<T, LinkFault>
        ensures failed { IsErrOf result LinkFault.Failed }
        ensures counted { self.new.faults ≡ next_count self.old.faults }
        ensures never_falls { self.old.faults ≤ self.new.faults }
    {
        self.faults = self.faults.saturating_add(1);
        self.last = Some(failed);
        Err(LinkFault::Failed)
    }

    // Counts a call on a path that no file on the shelf may have.
    fn refuse<T>(&mut self, call: FileCall, path: &str) -> Result<T, LinkFault>
        ensures failed { IsErrOf result LinkFault.Failed }
        ensures counted { self.new.faults ≡ next_count self.old.faults }
        ensures never_falls { self.old.faults ≤ self.new.faults }
    {
        let error = io::Error::new(ErrorKind::InvalidInput, "no file of a survey may lie there");
        self.fail(FailedCall::new(self.alloc, call, path, error))
    }

    // Counts what is answered as `Failed`.
    fn answer<T>(
        &mut self,
        call: FileCall,
        path: &str,
        outcome: Result<T, FileFault>,
    ) -> Result<T, LinkFault>
        ensures value { IfOk result (λ value. outcome ≡ Ok value) }
        ensures sound { OnOk result (self.new ≡ self.old) }
        ensures failed { IsErrOf result LinkFault.Failed → self.new.faults ≡ next_count self.old.faults }
        ensures out_of_memory { IsErrOf result LinkFault.OutOfMemory → self.new ≡ self.old }
        ensures never_falls { self.old.faults ≤ self.new.faults }
    {
        match outcome {
            Ok(value) => Ok(value),
            Err(FileFault::OutOfMemory) => Err(LinkFault::OutOfMemory),
            Err(FileFault::Failed(failed)) => self.fail(failed),
            Err(FileFault::Absent) => {
                let error = io::Error::from(ErrorKind::NotFound);
                self.fail(FailedCall::new(self.alloc, call, path, error))
            }
        }
    }
}

// Puts a file in place of what is at the path, by way of one beside it.
fn put_at<F: Folder>(
    folder: &mut F,
    alloc: Global,
    path: &str,
    bytes: &[u8],
) -> Result<(), FileFault>
    ensures done { OnOk result (IsPut path.now (unfinished path.now) bytes.now (F.files folder.old) (F.files folder.new)) }
    ensures refused { OnErr result (OthersStay (unfinished path.now) (F.files folder.old) (F.files folder.new)) }
{
    match unfinished(alloc, path) {
        Ok(beside) => put_by_way_of(folder, beside.as_str(), path, bytes),
        Err(_) => Err(FileFault::OutOfMemory),
    }
}

impl<R: Files + AllocGlobal + Clone + Drop + Log> Shelf for FolderShelf<R> {
    ghost files = { λ _. None };

    ghost faults = { λ s. s.faults };

    fn list(&mut self, alloc: Global) -> Result<Vec<String>, LinkFault>
        ensures no_left_over { IfOk result (λ paths. All (λ path. is_left_over (string_bytes path) ≡ false) paths.items) }
        ensures sound { OnOk result (self.new ≡ self.old) }
        ensures failed { IsErrOf result LinkFault.Failed → self.new.faults ≡ next_count self.old.faults }
        ensures out_of_memory { IsErrOf result LinkFault.OutOfMemory → self.new ≡ self.old }
        ensures never_falls { self.old.faults ≤ self.new.faults }
    {
        let outcome = self.folder.paths(alloc);
        self.answer(FileCall::List, ".", outcome)
    }

    fn get(&mut self, alloc: Global, path: &str) -> Result<Option<Vec<u8>>, LinkFault>
        ensures outside { is_shelf_path path.now ≡ false → IsErrOf result LinkFault.Failed }
        ensures length { IfOk result (λ found. IfSome found (λ bytes. vec_len bytes ≤ longest_file)) }
        ensures sound { OnOk result (self.new ≡ self.old) }
        ensures failed { IsErrOf result LinkFault.Failed → self.new.faults ≡ next_count self.old.faults }
        ensures out_of_memory { IsErrOf result LinkFault.OutOfMemory → self.new ≡ self.old }
        ensures never_falls { self.old.faults ≤ self.new.faults }
    {
        if !is_shelf_path(path) {
            return self.refuse(FileCall::Read, path);
        }
        let outcome = self.folder.read(alloc, path);
        self.answer(FileCall::Read, path, outcome)
    }

    fn put(&mut self, path: &str, bytes: &[u8]) -> Result<(), LinkFault>
        ensures outside { is_shelf_path path.now ≡ false → IsErrOf result LinkFault.Failed }
        ensures sound { OnOk result (self.new ≡ self.old) }
        ensures failed { IsErrOf result LinkFault.Failed → self.new.faults ≡ next_count self.old.faults }
        ensures out_of_memory { IsErrOf result LinkFault.OutOfMemory → self.new ≡ self.old }
        ensures never_falls { self.old.faults ≤ self.new.faults }
    {
        if !is_shelf_path(path) {
            return self.refuse(FileCall::Put, path);
        }
        let outcome = put_at(&mut self.folder, self.alloc, path, bytes);
        self.answer(FileCall::Put, path, outcome)
    }

    fn remove(&mut self, path: &str) -> Result<(), LinkFault>
        ensures outside { is_shelf_path path.now ≡ false → IsErrOf result LinkFault.Failed }
        ensures sound { OnOk result (self.new ≡ self.old) }
        ensures failed { IsErrOf result LinkFault.Failed → self.new.faults ≡ next_count self.old.faults }
        ensures out_of_memory { IsErrOf result LinkFault.OutOfMemory → self.new ≡ self.old }
        ensures never_falls { self.old.faults ≤ self.new.faults }
    {
        if !is_shelf_path(path) {
            return self.refuse(FileCall::Remove, path);
        }
        let outcome = self.folder.remove(path);
        self.answer(FileCall::Remove, path, outcome)
    }
}

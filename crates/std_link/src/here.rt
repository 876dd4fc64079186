//! The current folder, through the calls of the standard library.
ghost use Rattle.std.specs.Prelude.{◌≡◌, ◌≤◌, None, IfOk, IfSome, All, Bool, false, string_bytes, vec_len};
ghost use Rattle.std_link.specs.ShelfPath.{is_left_over, longest_file};

use crate::failed_call::{FailedCall, FileCall};
use crate::file_fault::{FileFault, Meaning, found, gone, meaning_of};
use crate::folder::Folder;
use crate::listing::{Kind, Listing, keep};
use crate::shelf_path::is_left_over;
use crate::stream::StreamSink;
use log::Log;
use std::alloc::{AllocError, Global};
use std::fs::{File, OpenOptions};
use std::io::{ErrorKind, Read};
use std::rt::Files;
use std::{fs, io};
use survey_link::write_whole;

// No file of a survey has more bytes.
const LONGEST_FILE: usize = 1 << 29;

/// The current folder. Its files are opaque to the proof; it has none behind a link to a folder.
#[derive(Drop)]
pub(crate) struct Here<R> {
    alloc: Global,
    runtime: R,
    has_listed: bool,
}

impl<R> Here<R> {
    /// The current folder; the path of a failed call is kept in memory of the allocator.
    pub(crate) fn new(alloc: Global, runtime: R) -> Here<R> {
        Here {
            alloc,
            runtime,
            has_listed: false,
        }
    }

    // Makes a call, and judges what it answers.
    fn ask<T, F: Fn() -> io::Result<T> + Drop>(
        &self,
        call: FileCall,
        path: &str,
        make: F,
    ) -> Result<T, FileFault>
        requires { F.IsAlwaysCallable make }
    {
        match again(make) {
            Ok(value) => Ok(value),
            Err(error) => match meaning_of(error.kind()) {
                Meaning::Absent => Err(FileFault::Absent),
                Meaning::OutOfMemory => Err(FileFault::OutOfMemory),
                Meaning::Interrupted | Meaning::Failed => Err(self.failed(call, path, error)),
            },
        }
    }

    // Makes a call to which also an absent file or folder is a fault.
    fn demand<T, F: Fn() -> io::Result<T> + Drop>(
        &self,
        call: FileCall,
        path: &str,
        make: F,
    ) -> Result<T, FileFault>
        requires { F.IsAlwaysCallable make }
    {
        match again(make) {
            Ok(value) => Ok(value),
            Err(error) => match meaning_of(error.kind()) {
                Meaning::OutOfMemory => Err(FileFault::OutOfMemory),
                _ => Err(self.failed(call, path, error)),
            },
        }
    }

    fn failed(&self, call: FileCall, path: &str, error: io::Error) -> FileFault {
        FileFault::Failed(FailedCall::new(self.alloc, call, path, error))
    }

    // There is a link in place of a folder.
    fn linked(&self, folder: &str) -> FileFault {
        let error = io::Error::new(
            ErrorKind::InvalidInput,
            "it is a link, and no folder of a survey lies behind one",
        );
        self.failed(FileCall::Enter, folder, error)
    }
}

impl<R: Files> Folder for Here<R> {
    ghost files = { λ _. None };

    fn make_way(&mut self, path: &str) -> Result<(), FileFault> {
        self.check_way(path)?;
        match path.rsplit_once('/') {
            None => Ok(()),
            Some((folder, _)) => self.demand(FileCall::MakeFolder, folder, || {
                fs::create_dir_all(&self.runtime, folder)
            }),
        }
    }

    fn write_new(&mut self, path: &str, bytes: &[u8]) -> Result<(), FileFault> {
        let file = self.demand(FileCall::Create, path, || create_new(&self.runtime, path))?;
        let mut sink = StreamSink::new(file);
        match write_whole(&mut sink, bytes) {
            Ok(()) => Ok(()),
            Err(_) => Err(self.failed(FileCall::Write, path, last_error(&sink))),
        }
    }

    fn rename(&mut self, from: &str, to: &str) -> Result<(), FileFault> {
        self.demand(FileCall::Rename, to, || fs::rename(&self.runtime, from, to))
    }

    fn remove(&mut self, path: &str) -> Result<(), FileFault> {
        self.check_way(path)?;
        gone(self.ask(
            FileCall::Remove,
            path,
            || fs::remove_file(&self.runtime, path),
        ))
    }
}

impl<R: Files> Here<R> {
    /// The bytes of a regular file, of which there are at most so many; `None` if nothing is at the path.
    pub(crate) fn read(&self, alloc: Global, path: &str) -> Result<Option<Vec<u8>>, FileFault>
        ensures { IfOk result (λ found. IfSome found (λ bytes. vec_len bytes ≤ longest_file)) }
    {
        self.check_way(path)?;
        let read = || read_file(&self.runtime, alloc, path);
        match found(self.ask(FileCall::Read, path, read))? {
            Some(bytes) if bytes.len() > LONGEST_FILE => Err(self.failed(
                FileCall::Read,
                path,
                too_long(),
            )),
            found => Ok(found),
        }
    }

    // Refuses a path that leads through a link.
    fn check_way(&self, path: &str) -> Result<(), FileFault> {
        let mut rest = path;
        for _ in 0..path.len() {
            match rest.rsplit_once('/') {
                None => return Ok(()),
                Some((folder, _)) => {
                    self.check_folder(folder)?;
                    rest = folder;
                }
            }
        }
        Ok(())
    }

    // Refuses a folder that is a link.
    fn check_folder(&self, folder: &str) -> Result<(), FileFault> {
        let look = || fs::symlink_metadata(&self.runtime, folder);
        match found(self.ask(FileCall::Look, folder, look))? {
            Some(metadata) if metadata.is_symlink() => Err(self.linked(folder)),
            _ => Ok(()),
        }
    }

    // What is at a path that a folder lists.
    fn kind_at(&self, path: &str) -> Result<Kind, FileFault> {
        let look = || fs::symlink_metadata(&self.runtime, path);
        match found(self.ask(FileCall::Look, path, look))? {
            Some(metadata) if metadata.is_symlink() => self.kind_behind(path),
            Some(metadata) => Ok(Kind::of(&metadata)),
            None => Ok(Kind::Neither),
        }
    }

    // What a link leads to; it must be a file.
    fn kind_behind(&self, link: &str) -> Result<Kind, FileFault> {
        let look = || fs::metadata(&self.runtime, link);
        match found(self.ask(FileCall::Look, link, look))? {
            Some(metadata) if metadata.is_dir() => Err(self.linked(link)),
            Some(metadata) => Ok(Kind::of(&metadata)),
            None => Ok(Kind::Neither),
        }
    }
}

impl<R: Files + AllocGlobal + Clone + Drop + Log> Here<R> {
    /// The paths of all regular files below the folder, without left-overs. The first time, how many entries have a tile's
    /// name and are no files is logged.
    pub(crate) fn paths(&mut self, alloc: Global) -> Result<Vec<String>, FileFault>
        ensures { IfOk result (λ paths. All (λ path. is_left_over (string_bytes path) ≡ false) paths.items) }
    {
        let listing = self.entries_below(alloc)?;
        if !self.has_listed {
            listing.say_odd(&self.runtime);
        }
        self.has_listed = true;
        let mut paths = listing.files;
        paths.retain(|path| !is_left_over(path.as_str()));
        Ok(paths)
    }

    // The deepest folder that is still to be read comes first.
    fn entries_below(&self, alloc: Global) -> Result<Listing, FileFault> {
        let mut listing = Listing::new(alloc);
        keep(&mut listing.folders, String::new(alloc))?;
        for _ in 0..u64::MAX {
            match listing.folders.pop() {
                None => return Ok(listing),
                Some(folder) => self.list(alloc, folder.as_str(), &mut listing)?,
            }
        }
        let error = io::Error::from(ErrorKind::FilesystemLoop);
        Err(self.failed(FileCall::List, ".", error))
    }

    // Adds what lies right in the folder; the current one has no name.
    fn list(&self, alloc: Global, folder: &str, listing: &mut Listing) -> Result<(), FileFault> {
        let shown = if folder.is_empty() { "." } else { folder };
        let list = || paths_in(&self.runtime, alloc, folder);
        for path in self.demand(FileCall::List, shown, list)? {
            let kind = self.kind_at(path.as_str())?;
            listing.add(path, kind)?;
        }
        Ok(())
    }
}

// Makes a call again while it is interrupted.
fn again<T, F: Fn() -> io::Result<T> + Drop>(make: F) -> io::Result<T>
    requires { F.IsAlwaysCallable make }
{
    for _ in 0..u64::MAX {
        match make() {
            Ok(value) => return Ok(value),
            Err(error) => {
                if error.kind() != ErrorKind::Interrupted {
                    return Err(error);
                }
            }
        }
    }
    Err(io::Error::from(ErrorKind::Interrupted))
}

// What a write was refused by.
fn last_error<W>(sink: &StreamSink<W>) -> io::Error {
    match sink.last_error() {
        Some(error) => error,
        None => io::Error::from(ErrorKind::Other),
    }
}

fn create_new<R: Files>(files: &R, path: &str) -> io::Result<R::File> {
    OpenOptions::new()
        .write(true)
        .create_new(true)
        .open(files, path)
}

// The bytes of a regular file, no more of them than show that they are too many. What is there is looked at before it is
// opened, since opening a pipe waits for a writer.
fn read_file<R: Files>(files: &R, alloc: Global, path: &str) -> io::Result<Vec<u8>> {
    let metadata = fs::metadata(files, path)?;
    if !metadata.is_file() {
        return Err(io::Error::other("it is no regular file"));
    }
    if metadata.len() > LONGEST_FILE as u64 {
        return Err(too_long());
    }
    let mut bytes = Vec::new(alloc);
    File::open(files, path)?
        .take(LONGEST_FILE as u64 + 1)
        .read_to_end(&mut bytes)?;
    Ok(bytes)
}

fn too_long() -> io::Error {
    io::Error::new(
        ErrorKind::FileTooLarge,
        "it has more than 536870912 bytes, as no file of a survey has",
    )
}

// The paths of all that lies right in the folder; the current one has no name.
fn paths_in<R: Files + AllocGlobal + Clone + Drop>(
    rt: &R,
    alloc: Global,
    folder: &str,
) -> io::Result<Vec<String>> {
    let mut paths = Vec::new(alloc);
    for entry in fs::read_dir(rt, if folder.is_empty() { "." } else { folder })? {
        let entry = entry?;
        paths.push(path_in(alloc, folder, entry.file_name())?)?;
    }
    Ok(paths)
}

// The path of what has this name in the folder.
fn path_in(alloc: Global, folder: &str, name: &str) -> Result<String, AllocError> {
    let mut path = String::from_str(alloc, folder)?;
    if !folder.is_empty() {
        path.push('/')?;
    }
    path.push_str(name)?;
    Ok(path)
}

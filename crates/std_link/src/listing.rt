//! What a folder lists.
use crate::file_fault::FileFault;
use log::{Log, warn};
use std::alloc::Global;
use std::fs::Metadata;

/// What an entry of a folder is.
#[derive(Clone, Copy, PartialEq, Eq)]
pub(crate) enum Kind {
    File,
    Folder,
    Neither,
}

impl Kind {
    pub(crate) fn of(metadata: &Metadata) -> Kind {
        if metadata.is_file() {
            Kind::File
        } else if metadata.is_dir() {
            Kind::Folder
        } else {
            Kind::Neither
        }
    }
}

/// The paths of files, and of the folders that are still to be read. Of what has a tile's name and is no file the first path is
/// kept.
#[derive(Drop)]
pub(crate) struct Listing {
    alloc: Global,
    pub(crate) files: Vec<String>,
    pub(crate) folders: Vec<String>,
    odd_count: u64,
    odd: Option<String>,
}

impl Listing {
    pub(crate) fn new(alloc: Global) -> Listing {
        Listing {
            alloc,
            files: Vec::new(alloc),
            folders: Vec::new(alloc),
            odd_count: 0,
            odd: None,
        }
    }

    /// Adds an entry.
    pub(crate) fn add(&mut self, path: String, kind: Kind) -> Result<(), FileFault> {
        if kind != Kind::File && path.as_str().ends_with(".fits") {
            self.count_odd(path.as_str());
        }
        match kind {
            Kind::File => keep(&mut self.files, path),
            Kind::Folder => keep(&mut self.folders, path),
            Kind::Neither => Ok(()),
        }
    }

    // Counts an entry that has a tile's name and is no file.
    fn count_odd(&mut self, path: &str) {
        self.odd_count = self.odd_count.saturating_add(1);
        if self.odd.is_none() {
            self.odd = String::from_str(self.alloc, path).ok();
        }
    }

    /// Says how many entries have a tile's name and are no files.
    pub(crate) fn say_odd<R: Log>(&self, rt: &R) {
        if let Some(path) = &self.odd {
            let (count, path) = (self.odd_count, path.as_bytes().escape_ascii());
            warn!(rt; "{count} entries are named as FITS files and are none, as {path}: a folder, a pipe or a link that leads nowhere counts as absent");
        }
    }
}

/// Puts a path behind others.
pub(crate) fn keep(paths: &mut Vec<String>, path: String) -> Result<(), FileFault> {
    match paths.push(path) {
        Ok(()) => Ok(()),
        Err(_) => Err(FileFault::OutOfMemory),
    }
}

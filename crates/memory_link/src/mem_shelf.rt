//! A shelf in memory that fails at given calls.
ghost use Rattle.std.specs.Prelude.{◌≡◌, ◌≤◌, ◌↔◌, Some, Contains, String, Vec, map, string_bytes, IfOk, OnOk, OnErr, IsErr, IsErrOf, option_map};
ghost use Rattle.std.specs.FinMap.{empty, keys, get, insert, remove};
ghost use Rattle.survey_link.specs.Shelf.{Lists};
ghost use Rattle.memory_link.specs.Files.{files_of};
ghost use Rattle.std.specs.BTreeMap.{IsOrdered};
ghost use Rattle.std.specs.String.{string_cmp};
ghost use Rattle.memory_link.specs.Memory.{after_call, after_failed_call};

use crate::calls::Calls;
use std::alloc::{AllocError, Global};
use std::collections::BTreeMap;
use std::marker::Model;
use survey_link::{LinkFault, Shelf};

/// A shelf whose files are held in memory, and which fails at given calls.
#[derive(Drop)]
pub struct MemShelf {
    alloc: Global,
    files: BTreeMap<String, Vec<u8>>,
    calls: Calls,
}

impl Model for MemShelf {
    ghost use Rattle.memory_link.specs.Memory.{ShelfState};
    ghost use Rattle.memory_link.specs.Files.{files_of, shelf_code};
    ghost use Rattle.std.specs.BTreeMap.{IsOrdered};
    ghost use Rattle.std.specs.String.{string_cmp};

    ghost Value = { ShelfState };

    ghost coded = { shelf_code };

    ghost view = { λ a. record {
      files = files_of a.files;
      fails = a.calls.fails.items;
      calls = a.calls.made;
      faults = a.calls.faults;
    } };

    ghost invariant = { λ a. IsOrdered string_cmp a.files };
}

impl MemShelf {
    /// An empty shelf. The calls numbered in `fails`, of all kinds counted together from 0, fail.
    pub fn new(alloc: Global, fails: Vec<u64>) -> MemShelf
        ensures { result ≡ record {
          files = empty;
          fails = fails.items;
          calls = 0;
          faults = 0;
        } }
    {
        MemShelf {
            alloc,
            files: BTreeMap::new(alloc),
            calls: Calls::new(fails),
        }
    }
}

/// The paths, in their order.
fn paths(alloc: Global, files: &BTreeMap<String, Vec<u8>>) -> Result<Vec<String>, AllocError>
    requires { IsOrdered string_cmp files.now }
    ensures { IfOk result (λ paths. map string_bytes paths.items ≡ keys (files_of files.now)) }
{
    let mut paths = Vec::with_capacity(alloc, files.len())?;
    for path in files.keys() {
        paths.push(path.clone()?)?;
    }
    Ok(paths)
}

/// A copy of the file at the path.
fn copy_at(
    alloc: Global,
    files: &BTreeMap<String, Vec<u8>>,
    path: &str,
) -> Result<Option<Vec<u8>>, AllocError>
    ensures { IfOk result (λ found. option_map (λ bytes. bytes.items) found ≡ get (files_of files.now) path.now) }
{
    match files.get(path) {
        None => Ok(None),
        Some(bytes) => {
            let copy = Vec::from_slice(alloc, bytes.as_slice())?;
            Ok(Some(copy))
        }
    }
}

/// Puts a copy of the bytes at the path.
fn insert_copy(
    alloc: Global,
    files: &mut BTreeMap<String, Vec<u8>>,
    path: &str,
    bytes: &[u8],
) -> Result<(), AllocError>
    requires { IsOrdered string_cmp files.old }
    ensures done { OnOk result (files_of files.new ≡ insert (files_of files.old) path.now bytes.now) }
    ensures refused { OnErr result (files.new.entries ≡ files.old.entries) }
    ensures ordered { IsOrdered string_cmp files.new }
{
    let key = String::from_str(alloc, path)?;
    let copy = Vec::from_slice(alloc, bytes)?;
    files.insert(key, copy)?;
    Ok(())
}

/// Removes what is at the path.
fn remove_at(files: &mut BTreeMap<String, Vec<u8>>, path: &str)
    ensures done { files_of files.new ≡ remove (files_of files.old) path.now }
    ensures ordered { IsOrdered string_cmp files.new }
{
    files.remove(path);
}

impl Shelf for MemShelf {
    ghost files = { λ s. Some s.files };

    ghost faults = { λ s. s.faults };

    fn list(&mut self, alloc: Global) -> Result<Vec<String>, LinkFault>
        ensures fails { IsErrOf result LinkFault.Failed ↔ Contains self.old.fails self.old.calls }
        ensures in_order { IfOk result (λ paths. map string_bytes paths.items ≡ keys self.old.files) }
        ensures listed { IfOk result (λ paths. Lists (Some self.old.files) paths.items) }
        ensures refused { IsErrOf result LinkFault.Failed → self.new ≡ after_failed_call self.old }
        ensures answered { OnOk result (self.new ≡ after_call self.old.files self.old) }
        ensures out_of_memory { IsErrOf result LinkFault.OutOfMemory → self.new ≡ after_call self.old.files self.old }
        ensures never_falls { self.old.faults ≤ self.new.faults }
    {
        self.calls.make()?;
        Ok(paths(alloc, &self.files)?)
    }

    fn get(&mut self, alloc: Global, path: &str) -> Result<Option<Vec<u8>>, LinkFault>
        ensures fails { IsErrOf result LinkFault.Failed ↔ Contains self.old.fails self.old.calls }
        ensures found { IfOk result (λ found. option_map (λ bytes. bytes.items) found ≡ get self.old.files path.now) }
        ensures refused { IsErrOf result LinkFault.Failed → self.new ≡ after_failed_call self.old }
        ensures answered { OnOk result (self.new ≡ after_call self.old.files self.old) }
        ensures out_of_memory { IsErrOf result LinkFault.OutOfMemory → self.new ≡ after_call self.old.files self.old }
        ensures never_falls { self.old.faults ≤ self.new.faults }
    {
        self.calls.make()?;
        Ok(copy_at(alloc, &self.files, path)?)
    }

    fn put(&mut self, path: &str, bytes: &[u8]) -> Result<(), LinkFault>
        ensures fails { IsErrOf result LinkFault.Failed ↔ Contains self.old.fails self.old.calls }
        ensures done { OnOk result (self.new ≡ after_call (insert self.old.files path.now bytes.now) self.old) }
        ensures refused { IsErrOf result LinkFault.Failed → self.new ≡ after_failed_call self.old }
        ensures out_of_memory { IsErrOf result LinkFault.OutOfMemory → self.new ≡ after_call self.old.files self.old }
        ensures never_falls { self.old.faults ≤ self.new.faults }
    {
        self.calls.make()?;
        insert_copy(self.alloc, &mut self.files, path, bytes)?;
        Ok(())
    }

    fn remove(&mut self, path: &str) -> Result<(), LinkFault>
        ensures fails { IsErr result ↔ Contains self.old.fails self.old.calls }
        ensures done { OnOk result (self.new ≡ after_call (remove self.old.files path.now) self.old) }
        ensures refused { OnErr result (self.new ≡ after_failed_call self.old) }
        ensures failed { IsErr result → IsErrOf result LinkFault.Failed }
        ensures never_falls { self.old.faults ≤ self.new.faults }
    {
        self.calls.make()?;
        remove_at(&mut self.files, path);
        Ok(())
    }
}

//! Where files lie.
ghost use Rattle.std.specs.Prelude.{◌≡◌, ℕ, ◌≤◌, Option, IfOk, OnOk, OnErr};
ghost use Rattle.survey_link.specs.Link.{CountsFault};
ghost use Rattle.survey_link.specs.Shelf.{ShelfFiles, Lists, Finds, with_file, without_file, OthersStay, shelf_failed};

use crate::faults::LinkFault;
use std::alloc::Global;

/// Where files lie by their paths.
pub trait Shelf {
    /// The files, where the proof can see them.
    ghost files: { Self → Option ShelfFiles };

    /// How often it has failed: a call that answers `Failed` raises the count, and no other call does.
    ghost faults: { Self → ℕ };

    /// All paths, each once, in any order.
    ///
    /// # Errors
    ///
    /// `LinkFault::Failed` only where the count of faults rose; `LinkFault::OutOfMemory`.
    fn list(&mut self, alloc: Global) -> Result<Vec<String>, LinkFault>
        ensures listed { IfOk result (λ paths. Lists (files self.old) paths.items) }
        ensures kept { files self.new ≡ files self.old }
        ensures faults { CountsFault (shelf_failed result) (faults self.old) (faults self.new) }
        ensures never_falls { faults self.old ≤ faults self.new };

    /// The bytes of a file; `None` if and only if the path isn't there.
    ///
    /// # Errors
    ///
    /// `LinkFault::Failed` only where the count of faults rose; `LinkFault::OutOfMemory`.
    fn get(&mut self, alloc: Global, path: &str) -> Result<Option<Vec<u8>>, LinkFault>
        ensures found { IfOk result (λ found. Finds (files self.old) path.now found) }
        ensures kept { files self.new ≡ files self.old }
        ensures faults { CountsFault (shelf_failed result) (faults self.old) (faults self.new) }
        ensures never_falls { faults self.old ≤ faults self.new };

    /// Puts a file in place of what is at the path. After a refusal this one path may hold anything, or be absent.
    ///
    /// # Errors
    ///
    /// `LinkFault::Failed` only where the count of faults rose; `LinkFault::OutOfMemory`.
    fn put(&mut self, path: &str, bytes: &[u8]) -> Result<(), LinkFault>
        ensures done { OnOk result (files self.new ≡ with_file path.now bytes.now (files self.old)) }
        ensures refused { OnErr result (OthersStay path.now (files self.old) (files self.new)) }
        ensures faults { CountsFault (shelf_failed result) (faults self.old) (faults self.new) }
        ensures never_falls { faults self.old ≤ faults self.new };

    /// Removes a file; `Ok` also where there is none. After a refusal this one path may hold anything, or be absent.
    ///
    /// # Errors
    ///
    /// `LinkFault::Failed` only where the count of faults rose; `LinkFault::OutOfMemory`.
    fn remove(&mut self, path: &str) -> Result<(), LinkFault>
        ensures done { OnOk result (files self.new ≡ without_file path.now (files self.old)) }
        ensures refused { OnErr result (OthersStay path.now (files self.old) (files self.new)) }
        ensures faults { CountsFault (shelf_failed result) (faults self.old) (faults self.new) }
        ensures never_falls { faults self.old ≤ faults self.new };
}

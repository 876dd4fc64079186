//! A folder, and how a file is put into it so that whoever looks sees whole files.
ghost use Rattle.std.specs.Prelude.{◌≡◌, ◌≢◌, Option, OnOk, OnErr};
ghost use Rattle.survey_link.specs.Shelf.{ShelfFiles, with_file, without_file, OthersStay};
ghost use Rattle.std_link.specs.Folder.{with_moved, IsPut};

use crate::file_fault::FileFault;

/// A folder of files by their paths.
pub(crate) trait Folder {
    /// The files, where the proof can see them.
    ghost files: { Self → Option ShelfFiles };

    /// Makes the folders that are missing on the way to the path.
    fn make_way(&mut self, path: &str) -> Result<(), FileFault>
        ensures { files self.new ≡ files self.old };

    /// Writes a file where there is none. After a refusal it may be there in part.
    fn write_new(&mut self, path: &str, bytes: &[u8]) -> Result<(), FileFault>
        ensures done { OnOk result (files self.new ≡ with_file path.now bytes.now (files self.old)) }
        ensures refused { OnErr result (OthersStay path.now (files self.old) (files self.new)) };

    /// Moves a file to another path, in place of what is there; at each moment one of the two is there.
    fn rename(&mut self, from: &str, to: &str) -> Result<(), FileFault>
        ensures done { OnOk result (files self.new ≡ with_moved from.now to.now (files self.old)) }
        ensures refused { OnErr result (files self.new ≡ files self.old) };

    /// Removes a file; `Ok` also where there is none.
    fn remove(&mut self, path: &str) -> Result<(), FileFault>
        ensures done { OnOk result (files self.new ≡ without_file path.now (files self.old)) }
        ensures refused { OnErr result (files self.new ≡ files self.old) };
}

/// Puts a file in place of what is at the path, by way of a new one beside it. After a refusal what was at the path is
/// still there.
pub(crate) fn put_by_way_of<F: Folder>(
    folder: &mut F,
    beside: &str,
    path: &str,
    bytes: &[u8],
) -> Result<(), FileFault>
    requires { beside.now ≢ path.now }
    ensures done { OnOk result (IsPut path.now beside.now bytes.now (F.files folder.old) (F.files folder.new)) }
    ensures refused { OnErr result (OthersStay beside.now (F.files folder.old) (F.files folder.new)) }
{
    folder.make_way(path)?;
    folder.remove(beside)?;
    match write_and_move(folder, beside, path, bytes) {
        Ok(()) => Ok(()),
        Err(fault) => {
            let _ = folder.remove(beside);
            Err(fault)
        }
    }
}

fn write_and_move<F: Folder>(
    folder: &mut F,
    beside: &str,
    path: &str,
    bytes: &[u8],
) -> Result<(), FileFault>
    requires { beside.now ≢ path.now }
    ensures done { OnOk result (IsPut path.now beside.now bytes.now (F.files folder.old) (F.files folder.new)) }
    ensures refused { OnErr result (OthersStay beside.now (F.files folder.old) (F.files folder.new)) }
{
    folder.write_new(beside, bytes)?;
    folder.rename(beside, path)
}

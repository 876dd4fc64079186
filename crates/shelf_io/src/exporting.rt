//! From a generation to a shelf.
ghost use Rattle.std.specs.Prelude.{◌≡◌, ◌+◌, ◌≤◌, length, All, IsSome, IfOk, OnOk, OnErr, false};
ghost use Rattle.std.specs.FinMap.{get, len};
ghost use Rattle.fits_header.specs.Cards.{whole_blocks};
ghost use Rattle.fits_tile.specs.TileFile.{data_len};
ghost use Rattle.tile_path.specs.Spelling.{IsPath, spelling};
ghost use Rattle.survey_link.specs.Link.{CountsFault};
ghost use Rattle.survey_link.specs.Shelf.{shelf_failed};
ghost use Rattle.generation.specs.Files.{paths_in, files_in};
ghost use Rattle.shelf_io.specs.Survey.{Replaces, OthersStay};
ghost use Rattle.shelf_io.specs.Writing.{without_paths, with_path, with_paths};

use crate::buffer::buffer;
use crate::differences::{Differences, say_strays};
use crate::logging::say_written;
use crate::spelling::spelled;
use crate::strays::shelf_strays;
use crate::verifying::has_file;
use command_output::Progress;
use generation::{Body, Generation};
use log::Log;
use std::alloc::Global;
use std::time::Clock;
use survey_link::{LinkFault, Shelf};
use tile_path::Path;

/// Makes the survey's files on the shelf those of the generation, and answers how many these are. Every path that a survey
/// can have and this one doesn't have is removed; no other path is touched. A file that is right already is read and not
/// written. Which are removed is logged before; then how many files are done, at most once a second, and at the end how many
/// were written and removed.
///
/// # Errors
///
/// `LinkFault::Failed` if and only if the shelf's count of faults rose; `LinkFault::OutOfMemory`. Of the paths that a survey
/// can have some may then be as they were, some as the generation has them, and one may hold anything; all other paths stay.
pub fn export<R: Clock + Log, H: Shelf>(
    rt: &R,
    alloc: Global,
    shelf: &mut H,
    generation: &Generation,
) -> Result<u64, LinkFault>
    ensures count { IfOk result (λ count. count ≡ len (files_in generation.now)) }
    ensures replaced { OnOk result (Replaces (files_in generation.now) (H.files shelf.old) (H.files shelf.new)) }
    ensures refused { OnErr result (OthersStay (H.files shelf.old) (H.files shelf.new)) }
    ensures faults { CountsFault (shelf_failed result) (H.faults shelf.old) (H.faults shelf.new) }
{
    let strays = shelf_strays(alloc, shelf, generation)?;
    remove_all(rt, alloc, shelf, &strays)?;
    let written = write_all(rt, alloc, shelf, generation)?;
    let count = generation.file_count();
    say_written(rt, written, count, strays.len());
    Ok(count)
}

// Logs which paths these are, and removes them.
fn remove_all<R: Log, H: Shelf>(
    rt: &R,
    alloc: Global,
    shelf: &mut H,
    paths: &[Path],
) -> Result<(), LinkFault>
    requires { All IsPath paths.now }
    ensures removed { OnOk result (H.files shelf.new ≡ without_paths paths.now (H.files shelf.old)) }
    ensures others { OthersStay (H.files shelf.old) (H.files shelf.new) }
    ensures faults { CountsFault (shelf_failed result) (H.faults shelf.old) (H.faults shelf.new) }
{
    say_strays(rt, paths);
    for path in paths {
        let text = spelled(alloc, path)?;
        shelf.remove(&text)?;
    }
    Ok(())
}

// Writes all missing or stale files of the generation, and answers how many these were. The last comes first: the tiles, from
// the leaves upward, then the mosaic, the coverage and the properties. So whoever reads the folder meanwhile finds the new
// properties only once all that they describe is there.
fn write_all<R: Clock + Log, H: Shelf>(
    rt: &R,
    alloc: Global,
    shelf: &mut H,
    generation: &Generation,
) -> Result<u64, LinkFault>
    ensures written { OnOk result (H.files shelf.new
        ≡ with_paths (files_in generation.now) (paths_in generation.now) (H.files shelf.old)) }
    ensures there { OnOk result (All (λ path. IsSome (get (files_in generation.now) (spelling path))) (paths_in generation.now)) }
    ensures others { OthersStay (H.files shelf.old) (H.files shelf.new) }
    ensures faults { CountsFault (shelf_failed result) (H.faults shelf.old) (H.faults shelf.new) }
{
    let mut room = buffer(alloc, generation.room())?;
    let mut progress = Progress::begin(
        rt,
        "files compared and written",
        Some(generation.file_count()),
    );
    let mut written = 0_u64;
    for i in (0..generation.file_count()).rev() {
        let path = generation.path(i).unwrap();
        if settle_file(alloc, shelf, generation, &path, &mut room)? {
            written = written.saturating_add(1);
        }
        progress.part_done(rt);
    }
    Ok(written)
}

// Writes the generation's file at a path, if the shelf's is missing or stale, and answers whether it was written.
fn settle_file<H: Shelf>(
    alloc: Global,
    shelf: &mut H,
    generation: &Generation,
    path: &Path,
    room: &mut [u8],
) -> Result<bool, LinkFault>
    requires room { 2880 + whole_blocks (data_len generation.now.conf.shape) ≤ length room.old }
    requires path { IsPath path.now }
    requires there { IsSome (get (files_in generation.now) (spelling path.now)) }
    ensures written { OnOk result (H.files shelf.new ≡ with_path (files_in generation.now) path.now (H.files shelf.old)) }
    ensures right { IfOk result (λ written. written ≡ false → H.files shelf.new ≡ H.files shelf.old) }
    ensures others { OthersStay (H.files shelf.old) (H.files shelf.new) }
    ensures faults { CountsFault (shelf_failed result) (H.faults shelf.old) (H.faults shelf.new) }
{
    let mut differences = Differences::new();
    if has_file(alloc, shelf, generation, path, room, &mut differences)? {
        return Ok(false);
    }
    write_file(alloc, shelf, generation, path, room)?;
    Ok(true)
}

// Writes the file at a path that the generation has.
fn write_file<H: Shelf>(
    alloc: Global,
    shelf: &mut H,
    generation: &Generation,
    path: &Path,
    room: &mut [u8],
) -> Result<(), LinkFault>
    requires room { 2880 + whole_blocks (data_len generation.now.conf.shape) ≤ length room.old }
    requires path { IsPath path.now }
    requires there { IsSome (get (files_in generation.now) (spelling path.now)) }
    ensures written { OnOk result (H.files shelf.new ≡ with_path (files_in generation.now) path.now (H.files shelf.old)) }
    ensures others { OthersStay (H.files shelf.old) (H.files shelf.new) }
    ensures faults { CountsFault (shelf_failed result) (H.faults shelf.old) (H.faults shelf.new) }
{
    let text = spelled(alloc, path)?;
    match generation.file(path, room).unwrap() {
        Body::Written(count) => shelf.put(&text, &room[..count]),
        Body::Kept(bytes) => shelf.put(&text, bytes),
    }
}

//! Whether a shelf holds a generation.
ghost use Rattle.std.specs.Prelude.{◌≡◌, ◌≤◌, ◌++◌, length, fold, IfOk, IfSome, Some};
ghost use Rattle.std.specs.Option.{option_eq};
ghost use Rattle.std.specs.Str.{bytes_eq};
ghost use Rattle.std.specs.FinMap.{get};
ghost use Rattle.survey_link.specs.Link.{CountsFault};
ghost use Rattle.survey_link.specs.Shelf.{shelf_failed};
ghost use Rattle.tile_path.specs.Spelling.{IsPath, spelling};
ghost use Rattle.generation.specs.Files.{paths_in, files_in};
ghost use Rattle.shelf_io.specs.Comparing.{agrees_at, first_after as spec_first_after};
ghost use Rattle.shelf_io.specs.Survey.{IsVerdict, CountsFiles};

use crate::buffer::{FRONT_LEN, buffer};
use crate::differences::Differences;
use crate::order::{first_after, first_path};
use crate::spelling::spelled;
use crate::strays::shelf_strays;
use crate::verdict::Verdict;
use command_output::Progress;
use generation::Generation;
use log::Log;
use std::alloc::Global;
use std::time::Clock;
use survey_link::{LinkFault, Shelf};
use tile_path::Path;

/// Compares the paths of the shelf that a survey can have with the files of the generation: `Same` if and only if they are
/// the same, and else the first path, by the bytes of its spelling, at which they differ. The shelf stays as it is. How many
/// files are missing, differ, and aren't of the survey is logged.
///
/// # Errors
///
/// `LinkFault::Failed` if and only if the shelf's count of faults rose; `LinkFault::OutOfMemory`.
pub fn verify<R: Clock + Log, H: Shelf>(
    rt: &R,
    alloc: Global,
    shelf: &mut H,
    generation: &Generation,
) -> Result<Verdict, LinkFault>
    ensures verdict { IfOk result (λ verdict. IfSome (H.files shelf.old) (λ files.
        IsVerdict (files_in generation.now) files verdict)) }
    ensures count { IfOk result (CountsFiles (files_in generation.now)) }
    ensures kept { H.files shelf.new ≡ H.files shelf.old }
    ensures faults { CountsFault (shelf_failed result) (H.faults shelf.old) (H.faults shelf.new) }
{
    let count = generation.file_count();
    let strays = shelf_strays(alloc, shelf, generation)?;
    let mut differences = Differences::new();
    let first = first_difference(
        rt,
        alloc,
        shelf,
        generation,
        first_path(&strays),
        &mut differences,
    )?;
    differences.say(rt, &strays);
    match first {
        Some(path) => Ok(Verdict::Differs(path)),
        None => Ok(Verdict::Same(count)),
    }
}

// The first of these paths and of those of the generation at which the shelf doesn't have what the generation has. At the
// first of these it hasn't.
fn first_difference<R: Clock + Log, H: Shelf>(
    rt: &R,
    alloc: Global,
    shelf: &mut H,
    generation: &Generation,
    mut first: Option<Path>,
    differences: &mut Differences,
) -> Result<Option<Path>, LinkFault>
    requires { IfSome first IsPath }
    ensures path { IfOk result (λ path. IfSome path IsPath) }
    ensures first { IfOk result (λ path. IfSome (H.files shelf.old) (λ files.
        path ≡ fold (spec_first_after (files_in generation.now) files) first (paths_in generation.now))) }
    ensures kept { H.files shelf.new ≡ H.files shelf.old }
    ensures faults { CountsFault (shelf_failed result) (H.faults shelf.old) (H.faults shelf.new) }
{
    let mut front = buffer(alloc, FRONT_LEN)?;
    let mut progress = Progress::begin(rt, "files compared", Some(generation.file_count()));
    for i in 0..generation.file_count() {
        let path = generation.path(i).unwrap();
        let agree = has_file(alloc, shelf, generation, &path, &mut front, differences)?;
        first = first_after(first, path, agree);
        progress.part_done(rt);
    }
    Ok(first)
}

/// Whether the shelf has at the path what the generation has. If not, the differences get one more.
pub(crate) fn has_file<H: Shelf>(
    alloc: Global,
    shelf: &mut H,
    generation: &Generation,
    path: &Path,
    front: &mut [u8],
    differences: &mut Differences,
) -> Result<bool, LinkFault>
    requires { 2880 ≤ length front.old }
    ensures agrees { IfOk result (λ agrees. IfSome (H.files shelf.old) (λ files.
        agrees ≡ agrees_at (files_in generation.now) files path.now)) }
    ensures kept { H.files shelf.new ≡ H.files shelf.old }
    ensures faults { CountsFault (shelf_failed result) (H.faults shelf.old) (H.faults shelf.new) }
{
    let text = spelled(alloc, path)?;
    match shelf.get(alloc, &text)? {
        Some(bytes) => Ok(differences.found(is_file(generation, path, &bytes, front))),
        None => Ok(differences.absent(generation.file_parts(path, front).is_none())),
    }
}

// Whether the generation has these bytes at the path.
fn is_file(generation: &Generation, path: &Path, bytes: &[u8], front: &mut [u8]) -> bool
    requires { 2880 ≤ length front.old }
    ensures { result ≡ option_eq bytes_eq (Some bytes.now) (get (files_in generation.now) (spelling path.now)) }
{
    match generation.file_parts(path, front) {
        Some(parts) => are_parts(bytes, &front[..parts.front], parts.kept, parts.zeros),
        None => false,
    }
}

// Whether the bytes are these parts one after another.
fn are_parts(bytes: &[u8], front: &[u8], kept: &[u8], zeros: &[u8]) -> bool
    ensures { result ≡ bytes_eq bytes.now (front.now ++ kept.now ++ zeros.now) }
{
    let Some(rest) = bytes.strip_prefix(front) else {
        return false;
    };
    match rest.strip_prefix(kept) {
        Some(rest) => rest == zeros,
        None => false,
    }
}

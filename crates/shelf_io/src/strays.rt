//! What a shelf has of a survey's files that a generation doesn't have.
ghost use Rattle.std.specs.Prelude.{◌≡◌, ◌≤◌, length, map, string_bytes, All, IsSome, IsNone, IfOk, IfSome, None};
ghost use Rattle.std.specs.FinMap.{get, keys};
ghost use Rattle.survey_link.specs.Link.{CountsFault};
ghost use Rattle.survey_link.specs.Shelf.{shelf_failed};
ghost use Rattle.tile_path.specs.Spelling.{IsPath, spelling};
ghost use Rattle.generation.specs.Files.{files_in};
ghost use Rattle.shelf_io.specs.Listed.{AreStrays};

use crate::buffer::{FRONT_LEN, buffer};
use generation::Generation;
use std::alloc::{AllocError, Global};
use survey_link::{LinkFault, Shelf};
use tile_path::Path;

/// The paths of the shelf that a survey can have and the generation doesn't have.
///
/// # Errors
///
/// `LinkFault::Failed` if and only if the shelf's count of faults rose; `LinkFault::OutOfMemory`.
pub(crate) fn shelf_strays<H: Shelf>(
    alloc: Global,
    shelf: &mut H,
    generation: &Generation,
) -> Result<Vec<Path>, LinkFault>
    ensures paths { IfOk result (λ strays. All IsPath strays.items) }
    ensures strays { IfOk result (λ strays. IfSome (H.files shelf.old) (λ files.
        AreStrays (files_in generation.now) (keys files) strays.items)) }
    ensures kept { H.files shelf.new ≡ H.files shelf.old }
    ensures faults { CountsFault (shelf_failed result) (H.faults shelf.old) (H.faults shelf.new) }
{
    let paths = shelf.list(alloc)?;
    let mut front = buffer(alloc, FRONT_LEN)?;
    match strays_among(alloc, generation, &paths, &mut front) {
        Ok(strays) => Ok(strays),
        Err(_) => Err(LinkFault::OutOfMemory),
    }
}

// The paths among these that a survey can have and the generation doesn't have.
fn strays_among(
    alloc: Global,
    generation: &Generation,
    paths: &[String],
    front: &mut [u8],
) -> Result<Vec<Path>, AllocError>
    requires { 2880 ≤ length front.old }
    ensures { IfOk result (λ strays. AreStrays (files_in generation.now) (map string_bytes paths.now) strays.items) }
{
    let mut strays = Vec::new(alloc);
    for text in paths {
        if let Some(path) = stray_at(generation, text.as_bytes(), front) {
            strays.push(path)?;
        }
    }
    Ok(strays)
}

// The path that is spelled so, where the generation has no file there.
fn stray_at(generation: &Generation, text: &[u8], front: &mut [u8]) -> Option<Path>
    requires { 2880 ≤ length front.old }
    ensures path { IfSome result IsPath }
    ensures spelled { IfSome result (λ path. spelling path ≡ text.now) }
    ensures lacking { IfSome result (λ path. get (files_in generation.now) (spelling path) ≡ None) }
    ensures none { IsNone result → (path : Path) → IsPath path → spelling path ≡ text.now
        → IsSome (get (files_in generation.now) (spelling path)) }
{
    let path = Path::read(text)?;
    match generation.file_parts(&path, front) {
        Some(_) => None,
        None => Some(path),
    }
}

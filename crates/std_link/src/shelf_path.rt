//! The paths of a shelf over a folder.
ghost use Rattle.std.specs.Prelude.{◌≡◌, string_bytes, IfOk};
ghost use Rattle.std_link.specs.ShelfPath.{has_nul, is_name, stays_in_folder, is_left_over, is_shelf_path, unfinished};

use std::alloc::{AllocError, Global};

// What follows a path in the name of the file that is still being written.
const UNFINISHED: &str = ".unfinished";

fn is_name(part: &[u8]) -> bool
    ensures { result ≡ is_name part.now }
{
    !part.is_empty() && part != b".".as_slice() && part != b"..".as_slice()
}

/// Whether this is the path of a file that a stop in the middle left unfinished.
pub(crate) fn is_left_over(path: &str) -> bool
    ensures { result ≡ is_left_over path.now }
{
    path.as_bytes().ends_with(UNFINISHED.as_bytes())
}

/// The path of the file beside this one that takes its place once it is whole.
pub(crate) fn unfinished(alloc: Global, path: &str) -> Result<String, AllocError>
    ensures { IfOk result (λ beside. string_bytes beside ≡ unfinished path.now) }
{
    let mut beside = String::from_str(alloc, path)?;
    beside.push_str(UNFINISHED)?;
    Ok(beside)
}

// Whether each name of the path is that of something in its folder.
fn stays_in_folder(path: &[u8]) -> bool
    ensures { result ≡ stays_in_folder path.now }
{
    path.split(|byte| *byte == b'/').all(|part| is_name(part))
}

fn has_nul(path: &[u8]) -> bool
    ensures { result ≡ has_nul path.now }
{
    path.contains(&0)
}

/// Whether a file on the shelf may have this path: it stays in the folder, has one spelling, and isn't a left-over's.
pub(crate) fn is_shelf_path(path: &str) -> bool
    ensures { result ≡ is_shelf_path path.now }
{
    let bytes = path.as_bytes();
    stays_in_folder(bytes) && !has_nul(bytes) && !is_left_over(path)
}

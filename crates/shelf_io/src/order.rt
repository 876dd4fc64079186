//! Paths by the bytes of their spellings.
ghost use Rattle.std.specs.Prelude.{◌≡◌, All, IfSome, Some, if◌then◌else◌};
ghost use Rattle.tile_path.specs.Spelling.{IsPath};
ghost use Rattle.shelf_io.specs.Comparing.{earlier_of as spec_earlier_of, earlier as spec_earlier, first_path as spec_first_path};

use std::cmp::Ordering;
use tile_path::Path;

// The length of the longest spelling.
const LONGEST: usize = 38;

/// The first of these paths.
pub(crate) fn first_path(paths: &[Path]) -> Option<Path>
    requires { All IsPath paths.now }
    ensures path { IfSome result IsPath }
    ensures first { result ≡ spec_first_path paths.now }
{
    let mut first = None;
    for path in paths {
        first = Some(earlier(first, *path));
    }
    first
}

/// The first path at which two surveys differ, of those compared so far and one more, at which they agree or not.
pub(crate) fn first_after(first: Option<Path>, path: Path, agree: bool) -> Option<Path>
    requires first { IfSome first IsPath }
    requires path { IsPath path }
    ensures path { IfSome result IsPath }
    ensures first { result ≡ (if agree then first else Some (spec_earlier first path)) }
{
    if agree {
        first
    } else {
        Some(earlier(first, path))
    }
}

// Whichever of the two comes first.
fn earlier(first: Option<Path>, path: Path) -> Path
    requires first { IfSome first IsPath }
    requires path { IsPath path }
    ensures path { IsPath result }
    ensures earlier { result ≡ spec_earlier first path }
{
    match first {
        Some(first) => earlier_of(first, path),
        None => path,
    }
}

// Whichever of two paths comes first.
fn earlier_of(first: Path, path: Path) -> Path
    requires first { IsPath first }
    requires path { IsPath path }
    ensures path { IsPath result }
    ensures earlier { result ≡ spec_earlier_of first path }
{
    let mut first_text = [0; LONGEST];
    let mut text = [0; LONGEST];
    let first_len = first.write_into(&mut first_text);
    let len = path.write_into(&mut text);
    match text[..len].cmp(&first_text[..first_len]) {
        Ordering::Less => path,
        _ => first,
    }
}

//! What a request asks for, by its method and its path.
ghost use Rattle.std.specs.Prelude.{◌≡◌, Some, IfSome, IsNone, option_copied};
ghost use Rattle.healpix_nested.specs.Cells.{NestedCell};
ghost use Rattle.tile_path.specs.declared.path.Path.TheVariants.{Tile};
ghost use Rattle.hips_http.specs.Paths.{IsOfKind, allowed, call_of};

use healpix_nested::Cell;
use http_frame::{Allow, Method};
use tile_path::Path;

const PUBLISH: &[u8] = b"publish";

const PIN: &[u8] = b"pin";

const UNPIN: &[u8] = b"unpin";

const BATCH: &[u8] = b"batch";

/// What a path names.
#[derive(Clone, Copy, Debug, PartialEq, Eq)]
pub enum PathKind {
    /// `publish`: the accepted edits are published.
    Publish,
    /// `pin`: the newest state is held.
    Pin,
    /// `unpin`: no state is held any more.
    Unpin,
    /// `batch`: several edits at once.
    Batch,
    /// The tile of a leaf.
    Leaf(Cell),
    /// Another file; `None` where a survey can have none there.
    Other(Option<Path>),
}

/// What is asked for.
#[derive(Clone, Copy, Debug, PartialEq, Eq)]
pub enum Call {
    /// The method doesn't fit the path, which allows others.
    NotAllowed(Allow),
    /// A file, or its head alone; `None` where a survey can have none at the path.
    File(Option<Path>),
    Publish,
    Pin,
    Unpin,
    Batch,
    /// Puts the tile in the body at the leaf.
    Put(u64),
    /// Removes the leaf.
    Delete(u64),
}

/// What the path names, in a survey whose leaves are of order `top`.
pub(crate) fn path_kind(path: Option<&[u8]>, top: u8) -> PathKind
    ensures { IsOfKind top (option_copied path.entry) result }
{
    match path {
        Some(text) => return text_kind(text, top),
        None => return PathKind::Other(None),
    }
}

// What a path that is there names.
fn text_kind(path: &[u8], top: u8) -> PathKind
    ensures { IsOfKind top (Some path.now) result }
{
    if path == PUBLISH {
        return PathKind::Publish;
    }
    if path == PIN {
        return PathKind::Pin;
    }
    if path == UNPIN {
        return PathKind::Unpin;
    }
    if path == BATCH {
        return PathKind::Batch;
    }
    let file = Path::read(path);
    match leaf_of(&file, top) {
        Some(leaf) => PathKind::Leaf(leaf),
        None => PathKind::Other(file),
    }
}

// The leaf whose tile the file is; `None` if it is no leaf's.
fn leaf_of(file: &Option<Path>, top: u8) -> Option<Cell>
    ensures some { IfSome result (λ leaf. (file.now ≡ Some (Tile leaf)) × (leaf.order ≡ top)) }
    ensures none { IsNone result → (leaf : NestedCell) → leaf.order ≡ top → ¬ (file.now ≡ Some (Tile leaf)) }
{
    match file {
        Some(Path::Tile(cell)) => of_order(*cell, top),
        _ => None,
    }
}

// The cell, where it is of that order.
fn of_order(cell: Cell, order: u8) -> Option<Cell>
    ensures some { IfSome result (λ found. (found ≡ cell) × (cell.order ≡ order)) }
    ensures none { IsNone result → ¬ (cell.order ≡ order) }
{
    if cell.order() == order {
        Some(cell)
    } else {
        None
    }
}

/// What is asked for: a method that doesn't fit the path asks for nothing.
pub(crate) fn call_of(method: Method, kind: PathKind) -> Call
    ensures { result ≡ call_of method kind }
{
    match (method, kind) {
        (Method::Post, PathKind::Publish) => Call::Publish,
        (Method::Post, PathKind::Pin) => Call::Pin,
        (Method::Post, PathKind::Unpin) => Call::Unpin,
        (Method::Post, PathKind::Batch) => Call::Batch,
        (Method::Get | Method::Head, PathKind::Leaf(leaf)) => Call::File(Some(Path::Tile(leaf))),
        (Method::Get | Method::Head, PathKind::Other(file)) => Call::File(file),
        (Method::Put, PathKind::Leaf(leaf)) => Call::Put(leaf.npix()),
        (Method::Delete, PathKind::Leaf(leaf)) => Call::Delete(leaf.npix()),
        (_, kind) => Call::NotAllowed(allowed(kind)),
    }
}

// The methods that a path allows.
fn allowed(kind: PathKind) -> Allow
    ensures { result ≡ allowed kind }
{
    match kind {
        PathKind::Publish | PathKind::Pin | PathKind::Unpin | PathKind::Batch => Allow::Control,
        PathKind::Leaf(_) => Allow::Leaf,
        PathKind::Other(_) => Allow::Other,
    }
}

//! Files that look like leaves and are none.
use crate::differences::order_of;
use log::{Log, warn};
use std::alloc::Global;
use tile_path::Path;

/// Logs how many of the files look like leaves of order `top` and are none, and one of them. If no leaf is there, it logs
/// which order would have the deepest tiles as leaves.
pub(crate) fn say_no_leaves<R: Log>(rt: &R, paths: &[String], top: u8) {
    if let Some(path) = paths.iter().find(|path| is_misplaced(path.as_str())) {
        let count = misplaced(paths);
        say_misplaced(rt, count, path.as_str(), top);
    }
    if tiles_of(paths, top) == 0 {
        say_other_order(rt, paths, top);
    } else if let Some(path) = paths.iter().find(|path| is_above(path.as_str(), top)) {
        let count = above(paths, top);
        say_above(rt, count, path.as_str(), top);
    }
}

// Logs which order would have the deepest tiles as leaves, if there are any.
fn say_other_order<R: Log>(rt: &R, paths: &[String], top: u8) {
    for order in (3..12_u8).rev() {
        let count = tiles_of(paths, order);
        if count > 0 {
            warn!(rt; "no tile is of order {top}, that of the leaves: with hips_order = {order} in survey.conf the {count} tiles of order {order} would be the leaves");
            return;
        }
    }
}

fn tiles_of(paths: &[String], order: u8) -> usize {
    let found = paths.iter().filter(|path| is_tile_of(path.as_str(), order));
    found.count()
}

fn misplaced(paths: &[String]) -> usize {
    let found = paths.iter().filter(|path| is_misplaced(path.as_str()));
    found.count()
}

fn above(paths: &[String], top: u8) -> usize {
    let found = paths.iter().filter(|path| is_above(path.as_str(), top));
    found.count()
}

fn say_misplaced<R: Log>(rt: &R, count: usize, path: &str, top: u8) {
    let path = path.as_bytes().escape_ascii();
    warn!(rt; "files that look like tiles and are none: {count}, as {path}; tile 7 would be Norder{top}/Dir0/Npix7.fits, and Dir is the greatest multiple of 10000 up to the number");
}

fn say_above<R: Log>(rt: &R, count: usize, path: &str, top: u8) {
    let path = path.as_bytes().escape_ascii();
    warn!(rt; "{count} tiles are of an order above {top}, that of the leaves, as {path}: they aren't read, and export removes them");
}

// Whether the file has the name of a tile, or nearly, and is none.
fn is_misplaced(path: &str) -> bool {
    has_name_of_tile(path) && Path::read(path.as_bytes()).is_none()
}

// Whether the last name of the path is that of a tile, or nearly.
fn has_name_of_tile(path: &str) -> bool {
    match path.rsplit('/').next() {
        Some(name) => name.starts_with("Npix") && name.contains(".fits"),
        None => false,
    }
}

// Whether the file is a tile of an order above `top`.
fn is_above(path: &str, top: u8) -> bool {
    order_at(path).is_some_and(|order| order > top)
}

fn is_tile_of(path: &str, order: u8) -> bool {
    order_at(path) == Some(order)
}

// The order of the tile at a path.
fn order_at(path: &str) -> Option<u8> {
    Path::read(path.as_bytes()).and_then(order_of)
}

//! What many lines do to a catalogue, refused ones among them.
ghost use Rattle.std.specs.Prelude.{◌≡◌, ◌≤◌, map, IfOk, OnErr};
ghost use Rattle.catalog_command.specs.Answers.{AreAnswered};

use crate::line::{LineRefusal, use_line};
use hips_catalog::Catalog;
use std::alloc::{AllocError, Global};

/// Uses each line, and answers for each whether it was used, or why not; each stands without its line feed. A refused one changes
/// nothing, and the next is used as though it hadn't been there. So the catalogue's tiles are then those of the rows that are
/// there, whatever was refused in between. The catalogue's deepest order is `top`.
///
/// # Errors
///
/// `AllocError` where there is no memory for the answers; then no line was used.
pub fn use_lines(
    alloc: Global,
    catalog: &mut Catalog,
    top: u8,
    lines: &[Vec<u8>],
) -> Result<Vec<Result<(), LineRefusal>>, AllocError>
    requires top { catalog.old.top ≡ top }
    requires few { top ≤ 11 }
    ensures answered { IfOk result (λ answers. AreAnswered (map (λ line. line.items) lines.now) catalog.old answers.items catalog.new) }
    ensures kept { OnErr result (catalog.new ≡ catalog.old) }
    ensures top { catalog.new.top ≡ catalog.old.top }
{
    let mut answers = Vec::with_capacity(alloc, lines.len())?;
    for line in lines {
        answers.push_reserved(use_line(alloc, catalog, top, line));
    }
    Ok(answers)
}

//! Writing of records. It takes no memory: what is long, the stored numbers of tiles, is written where it lies.
ghost use Rattle.std.specs.Prelude.{◌≡◌, ◌<◌, ◌≤◌, ◌+◌, ◌^◌, ◌∷◌, ◌++◌, List, length, flat_map};
ghost use Rattle.std.specs.Int.{w32, to_be_bytes};
ghost use Rattle.edit_journal.specs.Edit.{LeafEdit, edit_of, leaf_of, edit_tile};
ghost use Rattle.wal_frame.specs.Record.{WalRecord, batch, publication, payload, record_head, record_bytes, record_body, edit_bytes, form_of, stored_of};
ghost use Rattle.wal_frame.specs.Reading.{head_length};

use edit_journal::Edit;

/// How many bytes a record has before its payload.
pub const RECORD_HEAD_LEN: usize = 18;

/// How many bytes a record has whose payload has so many.
pub fn record_length(count: usize) -> usize
    requires { head_length + count < 2 ^ 64 }
    ensures length { result ≡ head_length + count }
    ensures whole { (r : WalRecord) → count ≡ length (payload r) → result ≡ length (record_bytes r) }
{
    RECORD_HEAD_LEN + count
}

/// A batch's record behind its gate and before its edits: of `count` edits, which have `total` bytes.
pub fn batch_head(count: u32, total: usize) -> [u8; 21]
    requires { 4 + total < 2 ^ 64 }
    ensures head { 1 ∷ result ≡ record_head 1 (4 + total) ++ to_be_bytes w32 count }
    ensures whole { (edits : List LeafEdit) → count ≡ length edits → total ≡ length (flat_map edit_bytes edits)
        → result ++ flat_map edit_bytes edits ≡ record_body (batch edits) }
{
    front(1, 4 + total, count)
}

/// How many bytes an edit has.
#[tactic(auto, unfolding(crate::specs::Record::edit_bytes))]
pub fn edit_length(edit: &Edit) -> usize
    ensures length { result ≡ length (edit_bytes (edit_of edit.now)) }
    ensures at_most { result ≤ 5 + 2 ^ 21 }
{
    match edit.tile() {
        Some(tile) => {
            // For the prover: the width is one of the four.
            let _bitpix = tile.depth().bitpix();
            5 + tile.raw().len()
        }
        None => 5,
    }
}

/// An edit before the stored numbers of its tile, which follow where it has one.
#[tactic(auto, unfolding(crate::specs::Record::edit_bytes))]
pub fn edit_head(edit: &Edit) -> [u8; 5]
    ensures { result ++ stored_of (edit_of edit.now) ≡ edit_bytes (edit_of edit.now) }
{
    let [_, _, _, _, a, b, c, d] = edit.leaf().to_be_bytes();
    [form_of(edit), a, b, c, d]
}

// The number of an edit's form.
fn form_of(edit: &Edit) -> u8
    ensures { result ≡ form_of (edit_of edit.now) }
{
    match edit {
        Edit::Put { .. } => 1,
        Edit::Add { .. } => 2,
        Edit::Replace { .. } => 3,
        Edit::Remove { .. } => 4,
    }
}

/// A publication's record behind its gate.
pub fn publication(tip: u32) -> [u8; 21]
    ensures { result ≡ record_body (publication tip) }
{
    front(2, 4, tip)
}

// A record's kind and lengths, and the number that its payload begins with.
fn front(kind: u8, count: usize, number: u32) -> [u8; 21]
    ensures { 1 ∷ result ≡ record_head kind count ++ to_be_bytes w32 number }
{
    let [a, b, c, d, e, f, g, h] = (count as u64).to_be_bytes();
    let [i, j, k, l] = number.to_be_bytes();
    [
        kind, a, b, c, d, e, f, g, h, a, b, c, d, e, f, g, h, i, j, k, l,
    ]
}

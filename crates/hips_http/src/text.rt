//! Texts of one line, made without memory.
ghost use Rattle.std.specs.Prelude.{◌≡◌, ◌+◌, ◌≤◌, ◌++◌, length, decimal};
ghost use Rattle.std.specs.Fmt.{signed_decimal};
ghost use Rattle.arrayvec.specs.ArrayVec.{array_vec_len};
ghost use Rattle.fits_header.specs.Faults.{fault_text as header_fault_text};
ghost use Rattle.fits_tile.specs.Faults.{fault_text, found_text};
ghost use Rattle.survey_core.specs.Faults.{entry_fault_text};

use arrayvec::ArrayVec;
use fits_header::HeaderFault;
use fits_tile::TileFault;
use http_frame::{push, push_number};
use itoa::Buffer;
use survey_core::EntryFault;

/// A text of at most 256 bytes.
pub(crate) type Text = ArrayVec<u8, 256>;

// Appends a number, with `-` before a negative one.
fn push_signed(text: &mut Text, number: i64)
    requires { array_vec_len text.old ≤ 200 }
    ensures number { text.new.items ≡ text.old.items ++ signed_decimal number }
    ensures short { array_vec_len text.new ≤ array_vec_len text.old + 40 }
{
    let mut buffer = Buffer::new();
    push(text, buffer.format(number).as_bytes());
}

// Appends a word and a number.
fn push_numbered(text: &mut Text, word: &[u8], number: u64)
    requires room { array_vec_len text.old ≤ 160 }
    requires word { length word.now ≤ 20 }
    ensures text { text.new.items ≡ text.old.items ++ (word.now ++ decimal number) }
    ensures short { array_vec_len text.new ≤ array_vec_len text.old + 60 }
{
    push(text, word);
    push_number(text, number);
}

// Appends a word and what a card has, `none` where it is absent.
fn push_found(text: &mut Text, word: &[u8], found: Option<i64>)
    requires room { array_vec_len text.old ≤ 160 }
    requires word { length word.now ≤ 20 }
    ensures text { text.new.items ≡ text.old.items ++ (word.now ++ found_text found) }
    ensures short { array_vec_len text.new ≤ array_vec_len text.old + 60 }
{
    push(text, word);
    match found {
        Some(number) => push_signed(text, number),
        None => push(text, b"none"),
    }
}

// Appends the text of the fault of a header.
fn push_header_fault(text: &mut Text, fault: HeaderFault)
    requires { array_vec_len text.old ≤ 120 }
    ensures text { text.new.items ≡ text.old.items ++ header_fault_text fault }
    ensures short { array_vec_len text.new ≤ array_vec_len text.old + 60 }
{
    match fault {
        HeaderFault::Short => push(text, b"1"),
        HeaderFault::NotAscii { at } => push_numbered(text, b"2 ", at as u64),
        HeaderFault::NoEnd => push(text, b"3"),
        HeaderFault::BadValue { card } => push_numbered(text, b"4 ", u64::from(card)),
        HeaderFault::Twice { card } => push_numbered(text, b"5 ", u64::from(card)),
    }
}

// Appends the text of a fault in the width of a tile.
fn push_width_fault(text: &mut Text, axis: u8, found: Option<i64>)
    requires { array_vec_len text.old ≤ 80 }
    ensures text { text.new.items ≡ text.old.items ++ fault_text (TileFault.Width axis found) }
    ensures short { array_vec_len text.new ≤ array_vec_len text.old + 120 }
{
    push_numbered(text, b"5 width ", u64::from(axis));
    push_found(text, b" ", found);
}

/// Appends the text of the fault of a tile file.
pub(crate) fn push_tile_fault(text: &mut Text, fault: TileFault)
    requires { array_vec_len text.old ≤ 80 }
    ensures text { text.new.items ≡ text.old.items ++ fault_text fault }
    ensures short { array_vec_len text.new ≤ array_vec_len text.old + 120 }
{
    match fault {
        TileFault::Header(fault) => {
            push(text, b"1 header ");
            push_header_fault(text, fault);
        }
        TileFault::NotSimple => push(text, b"2 simple"),
        TileFault::Bitpix { found } => push_found(text, b"3 bitpix ", found),
        TileFault::Naxis { found } => push_found(text, b"4 naxis ", found),
        TileFault::Width { axis, found } => push_width_fault(text, axis, found),
        TileFault::Scale => push(text, b"6 scale"),
        TileFault::Zero => push(text, b"7 zero"),
        TileFault::Blank { found } => push_found(text, b"8 blank ", Some(found)),
        TileFault::Truncated { missing } => push_numbered(text, b"9 truncated ", missing),
        TileFault::Trailing { extra } => push_numbered(text, b"10 trailing ", extra),
    }
}

/// Appends the text of the fault of an entry of a batch.
pub(crate) fn push_entry_fault(text: &mut Text, fault: EntryFault)
    requires { array_vec_len text.old ≤ 80 }
    ensures text { text.new.items ≡ text.old.items ++ entry_fault_text fault }
    ensures short { array_vec_len text.new ≤ array_vec_len text.old + 120 }
{
    match fault {
        EntryFault::Many => push(text, b"many"),
        EntryFault::Line => push(text, b"line"),
        EntryFault::Short => push(text, b"short"),
        EntryFault::Tile(fault) => push_tile_fault(text, fault),
    }
}

//! Replies with a text or without a body.
ghost use Rattle.std.specs.Prelude.{◌≡◌, ◌+◌, ◌≤◌, ◌++◌, ◌∷◌, [], length, true, codes, decimal};
ghost use Rattle.arrayvec.specs.ArrayVec.{array_vec_len};
ghost use Rattle.http_frame.specs.Reply.{is_reply_code};
ghost use Rattle.hips_http.specs.Replies;
ghost use Rattle.hips_http.specs.Replies.{text_answer, empty_answer, refused_answer, refused_batch, cause_code, cause_text};
ghost use Rattle.hips_http.specs.Verdict.{missing, unmet, cause_of};

use crate::text::{Text, push_entry_fault, push_tile_fault};
use edit_journal::EditFault;
use fits_tile::TileFault;
use http_frame::{Allow, Kind, Number, push, push_number};
use std::marker::Model;
use survey_core::EntryFault;

/// A reply, but for the field `Connection`, with its whole body.
#[derive(Drop)]
pub(crate) struct TextReply {
    pub(crate) code: u16,
    pub(crate) allow: Allow,
    pub(crate) kind: Kind,
    pub(crate) number: Number,
    pub(crate) text: Text,
}

impl Model for TextReply {
    ghost use Rattle.std.specs.Prelude.{◌≡◌, true};
    ghost use Rattle.http_frame.specs.Reply.{is_reply_code};
    ghost use Rattle.hips_http.specs.Replies.{Answer};

    ghost Value = { Answer };

    ghost view = { λ r. record {
      code = r.code;
      allow = r.allow;
      kind = r.kind;
      number = r.number;
      body = r.text.items;
    } };

    ghost invariant = { λ r. is_reply_code r.code ≡ true };
}

impl TextReply {
    // The reply with this line.
    fn of_line(code: u16, number: Number, line: Text) -> TextReply
        requires known { is_reply_code code ≡ true }
        requires short { array_vec_len line ≤ 255 }
        ensures { result ≡ text_answer code number line.items }
    {
        let mut text = line;
        push(&mut text, b"\n");
        TextReply {
            code,
            allow: Allow::Absent,
            kind: Kind::Text,
            number,
            text,
        }
    }

    // The reply with these words.
    fn of_words(code: u16, number: Number, words: &[u8]) -> TextReply
        requires known { is_reply_code code ≡ true }
        requires short { length words.now ≤ 100 }
        ensures { result ≡ text_answer code number words.now }
    {
        let mut line = Text::new();
        push(&mut line, words);
        TextReply::of_line(code, number, line)
    }

    // The reply with these words and that number.
    fn of_number(of_state: Number, words: &[u8], number: u32) -> TextReply
        requires short { length words.now ≤ 100 }
        ensures { result ≡ text_answer 200 of_state (words.now ++ decimal number) }
    {
        let mut line = Text::new();
        push(&mut line, words);
        push_number(&mut line, u64::from(number));
        TextReply::of_line(200, of_state, line)
    }

    // The reply without a body.
    fn empty(code: u16, number: Number) -> TextReply
        requires known { is_reply_code code ≡ true }
        ensures { result ≡ empty_answer code number }
    {
        TextReply {
            code,
            allow: Allow::Absent,
            kind: Kind::Absent,
            number,
            text: Text::new(),
        }
    }

    /// The tip was raised to `k`.
    pub(crate) fn published(k: u32) -> TextReply
        ensures { result ≡ Replies.published k }
    {
        TextReply::of_number(Number::Prefix(k), b"published ", k)
    }

    /// All `k` edits were published already.
    pub(crate) fn already(k: u32) -> TextReply
        ensures { result ≡ Replies.already k }
    {
        TextReply::of_number(Number::Prefix(k), b"already ", k)
    }

    /// A state is held that has published `k` edits.
    pub(crate) fn pinned(k: u32) -> TextReply
        ensures { result ≡ Replies.pinned k }
    {
        TextReply::of_number(Number::Prefix(k), b"pinned ", k)
    }

    /// No state is held any more.
    pub(crate) fn released() -> TextReply
        ensures { result ≡ Replies.released }
    {
        TextReply::of_words(200, Number::Absent, b"released")
    }

    /// An edit was accepted; there are so many now.
    pub(crate) fn edited(there: bool, edits: u32) -> TextReply
        ensures { result ≡ Replies.edited there edits }
    {
        let code = if there { 204 } else { 201 };
        TextReply::empty(code, Number::Edits(edits))
    }

    /// A batch of so many edits was accepted; there are `edits` now.
    pub(crate) fn batch_accepted(count: u32, edits: u32) -> TextReply
        ensures { result ≡ Replies.batch_accepted count edits }
    {
        TextReply::of_number(Number::Edits(edits), b"accepted ", count)
    }

    /// The leaf isn't there, after so many edits.
    pub(crate) fn missing(edits: u32) -> TextReply
        ensures { result ≡ refused_answer edits missing }
    {
        TextReply::of_words(404, Number::Edits(edits), b"absent")
    }

    /// A precondition is false, after so many edits.
    pub(crate) fn unmet(edits: u32) -> TextReply
        ensures { result ≡ refused_answer edits unmet }
    {
        TextReply::of_words(412, Number::Edits(edits), b"precondition failed")
    }

    /// An edit has a fault, after so many edits.
    pub(crate) fn edit_refused(fault: EditFault, edits: u32) -> TextReply
        ensures { result ≡ refused_answer edits (cause_of fault) }
    {
        let mut line = Text::new();
        push_fault(&mut line, fault);
        TextReply::of_line(fault_code(fault), Number::Edits(edits), line)
    }

    /// The edit `at` of a batch has a fault, after so many edits.
    pub(crate) fn batch_unmet(at: u32, fault: EditFault, edits: u32) -> TextReply
        ensures { result ≡ refused_batch edits at (cause_of fault) }
    {
        let mut line = Text::new();
        push(&mut line, b"batch ");
        push_number(&mut line, u64::from(at));
        push(&mut line, b" ");
        push_fault(&mut line, fault);
        TextReply::of_line(fault_code(fault), Number::Edits(edits), line)
    }

    /// The method doesn't fit the path.
    pub(crate) fn not_allowed(allow: Allow) -> TextReply
        ensures { result ≡ Replies.not_allowed allow }
    {
        let mut text = Text::new();
        push(&mut text, b"method not allowed\n");
        TextReply {
            code: 405,
            allow,
            kind: Kind::Text,
            number: Number::Absent,
            text,
        }
    }

    /// The body isn't a tile of the survey.
    pub(crate) fn tile_refused(fault: TileFault) -> TextReply
        ensures { result ≡ Replies.tile_refused fault }
    {
        let mut line = Text::new();
        push(&mut line, b"tile refused ");
        push_tile_fault(&mut line, fault);
        TextReply::of_line(422, Number::Absent, line)
    }

    /// The body isn't a batch: its entry `at` has a fault.
    pub(crate) fn batch_refused(at: u32, fault: EntryFault) -> TextReply
        ensures { result ≡ Replies.batch_refused at fault }
    {
        let mut line = Text::new();
        push(&mut line, b"batch refused ");
        push_number(&mut line, u64::from(at));
        push(&mut line, b" ");
        push_entry_fault(&mut line, fault);
        TextReply::of_line(422, Number::Absent, line)
    }

    /// Memory ran out.
    pub(crate) fn no_memory() -> TextReply
        ensures { result ≡ Replies.no_memory }
    {
        TextReply::of_words(503, Number::Absent, b"out of memory")
    }
}

// The code for an edit with a fault.
fn fault_code(fault: EditFault) -> u16
    ensures code { result ≡ cause_code (cause_of fault) }
    ensures known { is_reply_code result ≡ true }
{
    match fault {
        EditFault::Exists | EditFault::Absent => 412,
        EditFault::Edits | EditFault::Bytes => 507,
    }
}

// Appends why an edit is refused.
fn push_fault(text: &mut Text, fault: EditFault)
    requires { array_vec_len text.old ≤ 100 }
    ensures text { text.new.items ≡ text.old.items ++ cause_text (cause_of fault) }
    ensures short { array_vec_len text.new ≤ array_vec_len text.old + 60 }
{
    match fault {
        EditFault::Exists | EditFault::Absent => push(text, b"precondition failed"),
        EditFault::Edits | EditFault::Bytes => {
            push(text, b"limit ");
            push_number(text, u64::from(fault.number()));
        }
    }
}

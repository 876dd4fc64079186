//! Files of a published generation.
ghost use Rattle.std.specs.Prelude.{◌≡◌, ◌++◌, ℕ, true, List, length, Option, unwrap_or};
ghost use Rattle.survey_core.specs.State.{survey_state};
ghost use Rattle.reader_pin.specs.Board.{last_seen, state_in};
ghost use Rattle.tile_path.specs.Spelling.{spelling};
ghost use Rattle.hips_http.specs.Paths.{IsPathOf};
ghost use Rattle.http_frame.specs.Reply.{is_reply_code};
ghost use Rattle.hips_http.specs.Progress.{Looks};
ghost use Rattle.hips_http.specs.Replies.{IsReplyOf, file_kind, file_answer, not_found, sent_body};
ghost use Rattle.survey_link.specs.Link.{parts_bytes};

use fits_header::BLOCK_LEN;
use http_frame::{Allow, Kind, Method, Number, Reply};
use reader_pin::Board;
use survey_core::State;
use tile_path::Path;

/// Sees the newest state, unless one is held.
pub(crate) fn look<B: Board>(board: &mut B)
    ensures { Looks (B.content board.old) (B.content board.new) }
{
    match board.held() {
        Some(_) => return,
        None => return board.pin(),
    }
}

/// The state that files are read from: the one that is held, or else the last seen.
pub(crate) fn shown<B: Board>(board: &B) -> &State
    ensures { result.now ≡ state_in (B.content board.now) (unwrap_or (B.content board.now).held (last_seen (B.content board.now))) }
{
    match board.held() {
        Some(state) => return state,
        None => return board.last(),
    }
}

/// A reply to a request for a file: its head, and its body in three parts, one after another.
#[derive(Clone, Copy)]
pub(crate) struct FileReply<'a> {
    pub(crate) head: Reply,
    /// Where there is no file, the text that says so.
    pub(crate) front: &'a [u8],
    pub(crate) kept: &'a [u8],
    pub(crate) zeros: &'a [u8],
}

/// What GET of a file, or of a path that is no file's, is answered by the state. The head of a tile's file is written to
/// `front`. It takes no memory.
pub(crate) fn file_reply<'a>(
    close: bool,
    state: &'a State,
    file: &Option<Path>,
    front: &'a mut [u8; BLOCK_LEN],
) -> FileReply<'a>
    ensures code { is_reply_code result.head.code ≡ true }
    ensures length { length (result.front.now ++ result.kept.now ++ result.zeros.now) ≡ result.head.length }
    ensures answer { (path : Option (List ℕ)) → IsPathOf path file.now
        → IsReplyOf close (file_answer state.now.conf state.now.opening (survey_state state.now) path) result.head (result.front.now ++ result.kept.now ++ result.zeros.now) }
{
    let file = match file {
        Some(file) => file,
        None => {
            // For the prover: of which orders the tiles are.
            let _orders = state.conf().shape();
            return absent_reply(close, state);
        }
    };
    let parts = match state.generation().file_parts(file, front) {
        Some(parts) => parts,
        None => return absent_reply(close, state),
    };
    let front = &front[..parts.front];
    FileReply {
        head: Reply {
            code: 200,
            allow: Allow::Absent,
            kind: file_kind(file),
            number: Number::Prefix(state.tip()),
            length: front.len() as u64 + parts.kept.len() as u64 + parts.zeros.len() as u64,
            close,
        },
        front,
        kept: parts.kept,
        zeros: parts.zeros,
    }
}

// The reply that there is no file at the path.
fn absent_reply(close: bool, state: &State) -> FileReply<'_>
    ensures { IsReplyOf close (not_found state.now.tip) result.head (result.front.now ++ result.kept.now ++ result.zeros.now) }
{
    FileReply {
        head: Reply {
            code: 404,
            allow: Allow::Absent,
            kind: Kind::Text,
            number: Number::Prefix(state.tip()),
            length: 10,
            close,
        },
        front: b"not found\n",
        kept: &[],
        zeros: &[],
    }
}

/// The parts of a file that are sent: to HEAD none (RFC 9110, section 9.3.2).
pub(crate) fn sent_parts<'a>(method: Method, reply: &FileReply<'a>) -> [&'a [u8]; 3]
    ensures { parts_bytes result ≡ sent_body method (reply.now.front.now ++ reply.now.kept.now ++ reply.now.zeros.now) }
{
    match method {
        Method::Head => [&[], &[], &[]],
        _ => [reply.front, reply.kept, reply.zeros],
    }
}

// The properties are a text, each other file is a FITS file.
fn file_kind(file: &Path) -> Kind
    ensures { result ≡ file_kind (spelling file.now) }
{
    match file {
        Path::Properties => Kind::Text,
        _ => Kind::Fits,
    }
}

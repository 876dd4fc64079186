//! What a mirror asks for.
ghost use Rattle.std.specs.Prelude.{◌≡◌, is_err, OnOk, OnErr};
ghost use Rattle.std.specs.Io.KnownBytes.{Appends};
ghost use Rattle.survey_link.specs.Link.{AppendsPrefix, CountsFault};
ghost use Rattle.tile_path.specs.Spelling.{HasTileOrder, spelling};
ghost use Rattle.mirror_frame.specs.Requests.{HasOrder, request_bytes};
ghost use Rattle.mirror_frame.specs.declared.ask.Ask;

use survey_link::{Failed, Sink, write_all_parts, write_whole};
use tile_path::Path;

// The longest spelling of a path.
const PATH_ROOM: usize = 38;

/// What is asked for.
#[derive(Clone, Copy, Debug, PartialEq, Eq)]
pub enum Ask {
    /// That the newest state is held.
    Pin,
    /// The file at a path.
    File(Path),
    /// That no state is held any more, and that the connection is closed.
    Unpin,
}

/// Sends a request, and flushes it.
///
/// # Errors
///
/// `Failed` if and only if the sink's count of faults rose; a prefix may have been written.
pub(crate) fn send<K: Sink>(sink: &mut K, ask: &Ask) -> Result<(), Failed>
    requires { HasOrder ask.now }
    ensures sent { OnOk result (Appends (K.held sink.old) (K.held sink.new) (request_bytes ask.now)) }
    ensures part { OnErr result (AppendsPrefix (K.held sink.old) (K.held sink.new) (request_bytes ask.now)) }
    ensures flushed { OnOk result (K.flushed sink.new ≡ K.held sink.new) }
    ensures faults { CountsFault (is_err result) (K.faults sink.old) (K.faults sink.new) }
{
    match write_request(sink, ask) {
        Ok(()) => sink.flush(),
        Err(failed) => Err(failed),
    }
}

// Writes a request.
fn write_request<K: Sink>(sink: &mut K, ask: &Ask) -> Result<(), Failed>
    requires { HasOrder ask.now }
    ensures sent { OnOk result (Appends (K.held sink.old) (K.held sink.new) (request_bytes ask.now)) }
    ensures part { OnErr result (AppendsPrefix (K.held sink.old) (K.held sink.new) (request_bytes ask.now)) }
    ensures faults { CountsFault (is_err result) (K.faults sink.old) (K.faults sink.new) }
{
    match ask {
        Ask::Pin => write_whole(sink, b"POST /pin HTTP/1.1\r\nHost: mirror\r\n\r\n"),
        Ask::File(path) => write_get(sink, path),
        Ask::Unpin => write_whole(
            sink,
            b"POST /unpin HTTP/1.1\r\nHost: mirror\r\nConnection: close\r\n\r\n",
        ),
    }
}

// Asks for the file at a path.
fn write_get<K: Sink>(sink: &mut K, path: &Path) -> Result<(), Failed>
    requires { HasTileOrder path.now }
    ensures sent { OnOk result (Appends (K.held sink.old) (K.held sink.new) (request_bytes (Ask.File path.now))) }
    ensures part { OnErr result (AppendsPrefix (K.held sink.old) (K.held sink.new) (request_bytes (Ask.File path.now))) }
    ensures faults { CountsFault (is_err result) (K.faults sink.old) (K.faults sink.new) }
{
    let mut spelled = [0; PATH_ROOM];
    let len = path.write_into(&mut spelled);
    write_all_parts(
        sink,
        [
            b"GET /",
            &spelled[..len],
            b" HTTP/1.1\r\nHost: mirror\r\n\r\n",
            b"",
        ],
    )
}

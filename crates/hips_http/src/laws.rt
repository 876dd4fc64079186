//! What follows from the definitions alone. Each function does nothing: its contract is the law.
ghost use Rattle.hips_http.specs.Laws.{OneOutcome, OwnIsNewest, Completeness};

use http_frame::laws::{next_head_is_one, next_is_one};
use tile_path::laws::spellings_differ;

/// The law of one outcome. All connections to one survey, after one history and from one input, write the same, see the same
/// states then and end the same: of which each later state is their own event, each request is answered at the newest state
/// then, none finds no memory, and they end by no fault and not out of memory.
pub fn one_outcome()
    ensures { OneOutcome }
{
    next_is_one();
    next_head_is_one();
    spellings_differ();
}

/// Where each later state is the connection's own event, each request is answered at the newest state then.
pub fn own_is_newest()
    ensures { OwnIsNewest }
{}

/// The law of completeness. Where the input of a connection has whole, well-framed requests alone, to its end or to one that
/// asks to close, each method fits its path, each body of a PUT is a tile file of the survey and each of a batch is entries,
/// each change is accepted by the state that judges it, and neither the source nor the sink fails, then the connection ends
/// `Closed` or `Asked`, and what is written is a reply to each request by which it is fulfilled: with code 200, 201 or 204,
/// with 404 for a file that there isn't, or with 503 if it ran out of memory. Or it ends `OutOfMemory` before it began.
pub fn completeness()
    ensures { Completeness }
{
    next_is_one();
    next_head_is_one();
    spellings_differ();
}

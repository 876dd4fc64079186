//! What follows from the definitions alone. Each function does nothing: its contract is the law.
ghost use Rattle.served_copy.specs.Laws.{SessionsAnswerCopies, CopiesAreOfSeenStates};

use coverage_moc::laws::leaves_come_back;
use decimal_scale::laws::{plain_is_read, read_is_normal};
use fits_header::laws::made_cards_are_cards;
use fits_tile::laws::tiles_are_read_again;
use hips_http::laws::completeness;
use hips_mirror::laws::peers_are_copied;
use http_frame::laws::next_is_one;
use mirror_frame::laws::one_reply_stands;
use survey_conf::laws::properties_read_again;
use tile_path::laws::spellings_differ;

/// A session that is sent the requests of a copy, and no others, answers all of them by one state of its survey, whatever
/// other connections do meanwhile. It is a state that the session has seen, and not older than the last one seen before it.
/// What it writes and flushes is what a peer in order sends. Or the session runs out of memory before it begins.
pub fn sessions_answer_copies()
    ensures { SessionsAnswerCopies }
{
    next_is_one();
    completeness();
    spellings_differ();
}

/// Where a session is sent the requests of a copy, and what it flushes is read as that copy, the description is that of its
/// survey, and the leaves are those that are published in such a state. So it isn't needed that the requests are the right
/// ones for that state.
pub fn copies_are_of_seen_states()
    ensures { CopiesAreOfSeenStates }
{
    next_is_one();
    completeness();
    spellings_differ();
    peers_are_copied();
    plain_is_read();
    properties_read_again();
    tiles_are_read_again();
    one_reply_stands();
    read_is_normal();
    made_cards_are_cards();
    leaves_come_back();
}

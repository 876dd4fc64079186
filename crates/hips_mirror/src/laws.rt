//! What follows from the definitions alone. Each function does nothing: its contract is the law.
ghost use Rattle.hips_mirror.specs.Laws.{CopiesHaveOneOutcome, PeersAreCopied};

use coverage_moc::laws::leaves_come_back;
use decimal_scale::laws::{plain_is_read, read_is_normal};
use fits_header::laws::made_cards_are_cards;
use fits_tile::laws::tiles_are_read_again;
use mirror_frame::laws::one_reply_stands;
use survey_conf::laws::properties_read_again;
use tile_path::laws::spellings_differ;

/// Bytes are a copy of one description and one map of leaves at most, and then no stage of a copy refuses them; bytes that are
/// refused are refused in one way. Faults and lack of memory don't depend on the bytes.
pub fn copies_have_one_outcome()
    ensures { CopiesHaveOneOutcome }
{
    one_reply_stands();
    read_is_normal();
    made_cards_are_cards();
    leaves_come_back();
}

/// What a peer sends that serves in order, all of one state that it holds, is a copy of that state and of nothing else, and is
/// refused by no stage: where the leaves and the bodies are within the bounds of a copy.
pub fn peers_are_copied()
    ensures { PeersAreCopied }
{
    copies_have_one_outcome();
    plain_is_read();
    properties_read_again();
    tiles_are_read_again();
    spellings_differ();
}

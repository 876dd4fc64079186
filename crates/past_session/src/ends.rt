//! What a session reads and writes, and what came, each in one value.
ghost use Rattle.std.specs.Prelude.{◌≡◌};
ghost use Rattle.survey_link.specs.Inbox.{size};
ghost use Rattle.past_frame.specs.Record.{most_line};

use survey_link::Inbox;

/// The two ends of a session.
#[derive(Drop)]
pub(crate) struct Ends<'s, 'k, S, K> {
    pub(crate) src: &'s mut S,
    pub(crate) sink: &'k mut K,
}

/// What came: the bytes that belong to no record yet, and the text of the last record.
#[derive(Drop)]
pub(crate) struct Input {
    pub(crate) inbox: Inbox,
    pub(crate) text: Vec<u8>,
    ghost room: { size inbox ≡ most_line },
}

//! What follows from the definitions alone. Each function does nothing: its contract is the law.
ghost use Rattle.survey_core.specs.Laws.{StatesStay, PrefixesStay, HistoriesGoOn, StatesAreSound};
ghost use Rattle.survey_core.specs.Written.{BodiesAreEntries, RefusalsAreFaults};

use decimal_scale::laws::plain_is_read;

/// The law of histories: of one history, and of two of which one is a prefix of the other. The batches of an earlier state
/// are a prefix of those of each later state, its ends are ends of the later one, and tips never fall.
pub fn states_stay()
    ensures { StatesStay }
{}

/// The leaves after the first edits of an earlier state are those after as many edits of a later one.
pub fn prefixes_stay()
    ensures { PrefixesStay }
{}

/// A history with one step more is a history, and so is a prefix of a history that isn't empty.
pub fn histories_go_on()
    ensures { HistoriesGoOn }
{}

/// No batch of a history is empty, and each tip is an end.
pub fn states_are_sound()
    ensures { StatesAreSound }
{}

/// A body of 1 to 1,024 entries as they are written is read as the edits of these, and a body that is read as edits is
/// written so.
pub fn bodies_are_entries()
    ensures { BodiesAreEntries }
{
    plain_is_read();
}

/// A body is refused at a place with a fault if and only if it is written entries, as many as the place says, and a rest that
/// has this fault and none that comes before it.
pub fn refusals_are_faults()
    ensures { RefusalsAreFaults }
{
    plain_is_read();
}

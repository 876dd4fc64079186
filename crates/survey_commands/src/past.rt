//! The command `past`: records about past states over the source and the sink.
ghost use Rattle.std.specs.Prelude.{◌≡◌, ◌⊎◌, ℕ, ◌+◌, ◌≤◌, List, Some, [], nat_eq, IfSome, IfOk, IfErr};
ghost use Rattle.std.specs.Arc.{arc_value};
ghost use Rattle.survey_link.specs.Link.{CountsFault};
ghost use Rattle.command_output.specs.Status.{IsAmong, number_of};
ghost use Rattle.edit_journal.specs.Leaves.{charge_of};
ghost use Rattle.edit_journal.specs.Faults.{most_charge};
ghost use Rattle.past_session.specs.Run.{is_read_fault, is_write_fault};
ghost use Rattle.shelf_io.specs.Opening.{opening_steps};
ghost use Rattle.shelf_io.specs.Refusals.{at_shelf};
ghost use Rattle.hips_http.specs.Moment.{connection_of};
ghost use Rattle.survey_commands.specs.Session.{OpensAs, OpensNot};
ghost use Rattle.survey_commands.specs.Past.{IsPast, ended_statuses, RunsPast, RunsPastOver, FlushesPast, opened_cost, past_status, past_statuses};

use crate::refusing::say_why;
use command_output::Status;
use generation::Generation;
use log::{Log, error};
use parent_rule::Steps;
use past_session::{PastEnd, past_session};
use shelf_io::{LoadRefusal, load};
use std::alloc::{AllocError, Global};
use std::sync::Arc;
use std::thread::Threads;
use std::time::Clock;
use survey_link::{Gate, Means, Shelf, Sink, Source};

/// Opens the shelf, answers the records of the source about past states of its survey, of which up to `cache` are held, and
/// answers the status. It logs what is wrong with the input.
///
/// | Status | Where |
/// |---|---|
/// | 0 | the input was read to its end, between two records |
/// | 2, 3 | the shelf isn't opened, for its description or for its leaves; a line says why, and nothing is read |
/// | 4 | the input ends within a record |
/// | 5, 6, 7 | the source's, the sink's, the shelf's count of faults rose, and does so at no other status |
/// | 11 | there was no memory |
/// | 12 | the input goes on after 65,536 records |
/// | 17 | a record has no line of its form |
pub fn run_past<R, S, K, H, G>(
    means: &Means<'_, R, G>,
    cache: usize,
    source: &mut S,
    sink: &mut K,
    shelf: &mut H,
    steps: &mut Steps,
) -> Status
where
    R: Threads + Sync + Clock + Log,
    S: Source,
    K: Sink,
    H: Shelf,
    G: Gate + Sync,
    requires cache { IsPast cache }
    ensures run { (input : List ℕ) → S.left source.old ≡ Some input → RunsPast (H.files shelf.old) input
        (connection_of S.Source K.Sink source.old sink.old) (connection_of S.Source K.Sink source.new sink.new)
        steps.old steps.new (number_of result) }
    ensures over { RunsPastOver (H.files shelf.old)
        (connection_of S.Source K.Sink source.old sink.old) (connection_of S.Source K.Sink source.new sink.new)
        steps.old steps.new (number_of result) }
    ensures flushed { FlushesPast (number_of result)
        (connection_of S.Source K.Sink source.old sink.old) (connection_of S.Source K.Sink source.new sink.new) }
    ensures kept { H.files shelf.new ≡ H.files shelf.old }
    ensures unread { (number_of result ≡ 2) ⊎ (number_of result ≡ 3) → source.new ≡ source.old }
    ensures ends { IsAmong past_statuses (number_of result) }
    ensures read_fault { CountsFault (nat_eq (number_of result) 5) (S.faults source.old) (S.faults source.new) }
    ensures write_fault { CountsFault (nat_eq (number_of result) 6) (K.faults sink.old) (K.faults sink.new) }
    ensures shelf_fault { CountsFault (nat_eq (number_of result) 7) (H.faults shelf.old) (H.faults shelf.new) }
    ensures steps_never_fall { steps.old ≤ steps.new }
{
    let Means { rt, alloc, gate } = *means;
    match open_survey(means, shelf, steps) {
        Ok(opening) => {
            let end = past_session(rt, alloc, opening, cache, source, sink, gate, steps);
            say_end(rt, end);
            past_status(end)
        }
        Err(refusal) => say_why(alloc, sink, &refusal),
    }
}

// The first generation of the survey that the shelf describes.
fn open_survey<R, H, G>(
    means: &Means<'_, R, G>,
    shelf: &mut H,
    steps: &mut Steps,
) -> Result<Arc<Generation>, LoadRefusal>
where
    R: Threads + Sync + Clock + Log,
    H: Shelf,
    G: Gate + Sync,
    ensures opened { IfOk result (λ made. OpensAs (H.files shelf.old) (record { conf = (arc_value made).conf; leaves = (arc_value made).leaves })) }
    ensures first { IfOk result (λ made. (arc_value made).prefix ≡ 0) }
    ensures charge { IfOk result (λ made. charge_of (arc_value made).leaves [] ≤ most_charge) }
    ensures refused { IfErr result (OpensNot (H.files shelf.old)) }
    ensures kept { H.files shelf.new ≡ H.files shelf.old }
    ensures faults { CountsFault (at_shelf result) (H.faults shelf.old) (H.faults shelf.new) }
    ensures steps { IfOk result (λ made. steps.new ≤ steps.old + opened_cost (record { conf = (arc_value made).conf; leaves = (arc_value made).leaves })) }
    ensures steps_told { IfSome (H.files shelf.old) (λ files. steps.new ≤ steps.old + opening_steps files) }
    ensures steps_never_fall { steps.old ≤ steps.new }
{
    let Means { rt, alloc, gate } = *means;
    let generation = load(rt, alloc, shelf, gate, steps)?;
    Ok(shared(alloc, generation)?)
}

// The generation, so that several own it.
fn shared(alloc: Global, generation: Generation) -> Result<Arc<Generation>, AllocError>
    ensures { IfOk result (λ made. arc_value made ≡ generation) }
{
    Ok(Arc::new(alloc, generation)?)
}

// The status of records that ended so.
fn past_status(end: PastEnd) -> Status
    ensures status { number_of result ≡ past_status end }
    ensures ends { IsAmong ended_statuses (number_of result) }
    ensures read_fault { nat_eq (number_of result) 5 ≡ is_read_fault end }
    ensures write_fault { nat_eq (number_of result) 6 ≡ is_write_fault end }
{
    match end {
        PastEnd::Done => Status::Done,
        PastEnd::Cut => Status::Cut,
        PastEnd::ReadFault => Status::ReadFault,
        PastEnd::WriteFault => Status::WriteFault,
        PastEnd::OutOfMemory => Status::OutOfMemory,
        PastEnd::Spent => Status::Spent,
        PastEnd::BadLine { .. } => Status::BadRecord,
    }
}

// Logs what is wrong with an input that ended so.
fn say_end<R: Log>(rt: &R, end: PastEnd) {
    match end {
        PastEnd::BadLine { at } => {
            error!(rt; "record {at}, counted from 0, is malformed: its line must be \"batch LENGTH\" or \"read K PATH\", up to 128 bytes with its line feed, numbers in plain decimals, K below 2^32, LENGTH up to that of the longest batch of this survey");
        }
        PastEnd::Cut => error!(rt; "the input ends within a record"),
        PastEnd::Spent =>
            error!(rt; "the input goes on after 65536 records; one run takes no more"),
        _ => {}
    }
}

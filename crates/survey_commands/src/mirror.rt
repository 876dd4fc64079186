//! The command `mirror`: a copy of a peer's survey.
ghost use Rattle.std.specs.Prelude.{◌≡◌, ◌≤◌, nat_eq};
ghost use Rattle.survey_link.specs.Link.{CountsFault};
ghost use Rattle.command_output.specs.Status.{IsAmong, number_of};
ghost use Rattle.hips_mirror.specs.Mirror.{is_read_fault, is_write_fault, is_shelf_fault};
ghost use Rattle.hips_http.specs.Moment.{connection_of};
ghost use Rattle.survey_commands.specs.Mirror.{RunsMirror, copying_of, mirror_statuses, refusal_status};

use command_output::Status;
use hips_mirror::{MirrorRefusal, mirror};
use log::{Log, info};
use parent_rule::Steps;
use std::thread::Threads;
use std::time::Clock;
use survey_link::{Gate, Means, Shelf, Sink, Source};

/// Copies one published state of a peer's survey onto the shelf, and answers the status. The peer is asked over the sink, and
/// its replies come from the source. It logs how many files there are; `mirror` logs why there is no copy.
///
/// | Status | Where |
/// |---|---|
/// | 0 | the shelf's files of a survey are those of the copy |
/// | 4 | the input ends within a reply |
/// | 5, 6, 7 | the source's, the sink's, the shelf's count of faults rose, and does so at no other status |
/// | 11 | there was no memory |
/// | 21 | a reply is malformed |
/// | 22, 23, 25 | what was sent as the properties, as the coverage, as a leaf is refused |
/// | 24 | there are more than 65,000 leaves, or they are charged with more than 2^29 bytes |
/// | 26 | the properties, or else the mosaic, isn't that of the leaves |
///
/// Of 4 and 21 to 26 the first is answered, by the order of the requests, and the shelf stays.
pub fn run_mirror<R, S, K, H, G>(
    means: &Means<'_, R, G>,
    source: &mut S,
    sink: &mut K,
    shelf: &mut H,
    steps: &mut Steps,
) -> Status
where
    R: Threads + Sync + Clock + Log,
    S: Source,
    K: Sink,
    H: Shelf,
    G: Gate + Sync,
    ensures run { RunsMirror (copying_of
        (connection_of S.Source K.Sink source.old sink.old) (connection_of S.Source K.Sink source.new sink.new)
        (H.files shelf.old) (H.files shelf.new) steps.old steps.new) (number_of result) }
    ensures ends { IsAmong mirror_statuses (number_of result) }
    ensures read_fault { CountsFault (nat_eq (number_of result) 5) (S.faults source.old) (S.faults source.new) }
    ensures write_fault { CountsFault (nat_eq (number_of result) 6) (K.faults sink.old) (K.faults sink.new) }
    ensures shelf_fault { CountsFault (nat_eq (number_of result) 7) (H.faults shelf.old) (H.faults shelf.new) }
    ensures steps_never_fall { steps.old ≤ steps.new }
{
    let Means { rt, alloc, gate } = *means;
    match mirror(rt, alloc, source, sink, shelf, gate, steps) {
        Ok(count) => {
            say_copied(rt, count);
            Status::Done
        }
        Err(refusal) => refusal_status(&refusal),
    }
}

// The status of a copy that was refused so.
fn refusal_status(refusal: &MirrorRefusal) -> Status
    ensures status { number_of result ≡ refusal_status refusal.now }
    ensures ends { IsAmong mirror_statuses (number_of result) }
    ensures read_fault { nat_eq (number_of result) 5 ≡ is_read_fault refusal.now }
    ensures write_fault { nat_eq (number_of result) 6 ≡ is_write_fault refusal.now }
    ensures shelf_fault { nat_eq (number_of result) 7 ≡ is_shelf_fault refusal.now }
{
    match refusal {
        MirrorRefusal::Reply { .. } => Status::BadReply,
        MirrorRefusal::Properties => Status::BadProperties,
        MirrorRefusal::Cover => Status::BadCover,
        MirrorRefusal::TooLarge { .. } => Status::TooLarge,
        MirrorRefusal::Leaf { .. } => Status::BadLeaf,
        MirrorRefusal::Differs { .. } => Status::OtherFiles,
        MirrorRefusal::Cut => Status::Cut,
        MirrorRefusal::ReadFault => Status::ReadFault,
        MirrorRefusal::WriteFault => Status::WriteFault,
        MirrorRefusal::ShelfFault => Status::ShelfFault,
        MirrorRefusal::OutOfMemory => Status::OutOfMemory,
    }
}

// Logs how many files the copy has.
fn say_copied<R: Log>(rt: &R, count: u64) {
    info!(rt; "the folder has the copy: {count} files");
}

//! The cover of a peer's survey: which leaves it has.
ghost use Rattle.std.specs.Prelude.{◌≡◌, ◌⊎◌, ◌<◌, [], ◌∷◌, length, All, IfOk, IfErr, true, false};
ghost use Rattle.std.specs.List.Sorted.{IsStrictlyIncreasing};
ghost use Rattle.healpix_nested.specs.Cells.{cell_count};
ghost use Rattle.tile_path.specs.declared.path.Path.TheVariants.{Moc};
ghost use Rattle.mirror_frame.specs.declared.ask.Ask.TheVariants.{File};
ghost use Rattle.mirror_frame.specs.declared.due.Due.TheVariants.{Survey as OfSurvey};
ghost use Rattle.coverage_moc.specs.Cover.{leaves_under};
ghost use Rattle.hips_mirror.specs.Mirror.{IsCoverOf, WrongCover, RefusesAt, is_too_large};
ghost use Rattle.hips_mirror.specs.Stages.{TellsCover, RefusedBy, Reaches, IsRefusedIn, IsOfBody};

use crate::asking::ask;
use crate::description::PeerSurvey;
use crate::logging::say_refused;
use crate::refusal::MirrorRefusal;
use crate::request::Request;
use coverage_moc::{Cover, CoverRefusal};
use edit_journal::{MOST_CHARGE, leaf_charge};
use log::Log;
use mirror_frame::{Due, Peer};
use pyramid_model::Shape;
use std::alloc::Global;
use survey_conf::Conf;
use survey_link::{Sink, Source};

// The most leaves that are copied.
const MOST_LEAVES: u64 = 65_000;

/// Reads which leaves the survey has: their numbers, ascending.
///
/// # Errors
///
/// As `ask`; `Cover` if and only if what was sent isn't the coverage file of leaves of the survey's order; `TooLarge` if and
/// only if these are more than 65,000, or are charged with more than 2^29 bytes.
pub(crate) fn read_cover<R: Log, S: Source, K: Sink>(
    rt: &R,
    alloc: Global,
    peer: &mut Peer<'_, '_, '_, S, K>,
    survey: &PeerSurvey,
) -> Result<Vec<u64>, MirrorRefusal>
    ensures reached { IfOk result (λ numbers. Reaches S.Source K.Sink survey.now.pinned (File Moc ∷ []) (TellsCover survey.now.pinned survey.now.conf numbers.items) peer.old peer.new) }
    ensures ascending { IfOk result (λ numbers. IsStrictlyIncreasing numbers.items) }
    ensures cells { IfOk result (λ numbers. All (λ leaf. leaf < cell_count survey.now.conf.shape.top) numbers.items) }
    ensures fits { IfOk result (λ numbers. is_too_large survey.now.conf.shape (length numbers.items) ≡ false) }
    ensures refused { IfErr result (λ refusal. IsRefusedIn S.Source K.Sink survey.now.pinned (File Moc ∷ [])
        (λ bytes. RefusesAt (OfSurvey survey.now.pinned) 2 (WrongCover survey.now.conf) bytes refusal) peer.old peer.new refusal) }
{
    let request = Request::cover();
    match ask(rt, peer, &request, Due::Survey(survey.pinned)) {
        Ok(_) => {
            let numbers = leaves_covered(alloc, &survey.conf, peer.body());
            say_refused(rt, &request, &numbers);
            numbers
        }
        Err(refusal) => Err(refusal),
    }
}

// The leaves of a coverage file, where they aren't too many.
fn leaves_covered(alloc: Global, conf: &Conf, body: &[u8]) -> Result<Vec<u64>, MirrorRefusal>
    ensures covered { IfOk result (λ numbers. IsCoverOf conf.now.shape.top body.now numbers.items) }
    ensures ascending { IfOk result (λ numbers. IsStrictlyIncreasing numbers.items) }
    ensures fits { IfOk result (λ numbers. is_too_large conf.now.shape (length numbers.items) ≡ false) }
    ensures refused { IfErr result (RefusedBy (WrongCover conf.now) body.now) }
    ensures of_body { IfErr result IsOfBody }
{
    let shape = conf.shape();
    match Cover::decode(alloc, shape.top, body) {
        Ok(cover) => bounded_leaves(alloc, shape, &cover),
        Err(CoverRefusal::NotCover) => Err(MirrorRefusal::Cover),
        Err(CoverRefusal::OutOfMemory) => Err(MirrorRefusal::OutOfMemory),
    }
}

// The leaves of a cover, where they aren't too many.
fn bounded_leaves(alloc: Global, shape: Shape, cover: &Cover) -> Result<Vec<u64>, MirrorRefusal>
    requires top { shape.top ≡ cover.now.top }
    ensures leaves { IfOk result (λ numbers. numbers.items ≡ leaves_under shape.top cover.now.rows) }
    ensures fits { IfOk result (λ numbers. is_too_large shape (length numbers.items) ≡ false) }
    ensures refused { IfErr result (λ refusal.
        ((refusal ≡ MirrorRefusal.TooLarge (length (leaves_under shape.top cover.now.rows))) × (is_too_large shape (length (leaves_under shape.top cover.now.rows)) ≡ true))
        ⊎ (refusal ≡ MirrorRefusal.OutOfMemory)) }
    ensures of_body { IfErr result IsOfBody }
{
    let leaves = cover.leaves(shape.top);
    if is_too_large(shape, leaves) {
        return Err(MirrorRefusal::TooLarge { leaves });
    }
    Ok(cover.leaf_list(alloc, shape.top)?)
}

// Whether so many leaves are more than are copied.
fn is_too_large(shape: Shape, leaves: u64) -> bool
    ensures { result ≡ is_too_large shape leaves }
{
    leaves > MOST_LEAVES || leaves.saturating_mul(leaf_charge(shape)) > MOST_CHARGE
}

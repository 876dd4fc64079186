//! The description of a peer's survey.
ghost use Rattle.std.specs.Prelude.{◌≡◌, ◌≢◌, ℕ, List, [], ◌∷◌, ◌++◌, ◌&&◌, codes, All, IfOk, IfErr, IfSome, IsNone};
ghost use Rattle.tile_path.specs.declared.path.Path.TheVariants.{Properties};
ghost use Rattle.mirror_frame.specs.Reply.{IsReply, pinned_line};
ghost use Rattle.mirror_frame.specs.declared.ask.Ask.TheVariants.{Pin, File};
ghost use Rattle.mirror_frame.specs.declared.due.Due.TheVariants.{Pinned, Survey as OfSurvey};
ghost use Rattle.hips_mirror.specs.Mirror.{is_plain, are_lines, TellsLeaves, IsProperties, WrongProperties, RefusesReply, RefusesAt, Refuses};
ghost use Rattle.hips_mirror.specs.Stages.{TellsProperties, TellsSurvey, Counts, RefusedBy, Reaches, IsRefusedIn, IsOfBody};

use crate::asking::ask;
use crate::logging::{say_conf_fault, say_no_count};
use crate::refusal::MirrorRefusal;
use crate::request::Request;
use decimal_scale::plain_decimal;
use http_frame::digits;
use log::Log;
use memchr::memrchr;
use mirror_frame::{Due, Peer};
use std::alloc::{AllocError, Global};
use survey_conf::{Conf, ConfRefusal};
use survey_link::{Sink, Source};

/// What a peer's properties say of its survey.
#[derive(Drop)]
pub(crate) struct PeerSurvey {
    /// How many edits are published in the state that is held for this copy.
    pub(crate) pinned: u32,
    /// The description.
    pub(crate) conf: Conf,
    /// The number of leaves with which the description's properties are what the peer sent; none where there is no such number.
    pub(crate) counted: Option<u64>,
}

/// Asks the peer to hold its newest state, and reads its description.
///
/// # Errors
///
/// As `ask`; `Properties` if and only if what was sent isn't a properties file whose description is accepted.
pub(crate) fn read_description<R: Log, S: Source, K: Sink>(
    rt: &R,
    alloc: Global,
    peer: &mut Peer<'_, '_, '_, S, K>,
) -> Result<PeerSurvey, MirrorRefusal>
    ensures reached { IfOk result (λ survey. Reaches S.Source K.Sink survey.pinned (Pin ∷ File Properties ∷ [])
        (TellsSurvey survey.pinned survey.conf survey.counted) peer.old peer.new) }
    ensures refused { IfErr result (λ refusal. (k : ℕ) × IsRefusedIn S.Source K.Sink k (Pin ∷ File Properties ∷ [])
        (λ bytes. Refuses bytes refusal) peer.old peer.new refusal) }
{
    let pinned = pin(rt, peer)?;
    read_properties(rt, alloc, peer, pinned)
}

// Asks the peer to hold its newest state, and answers how many edits are published in it.
fn pin<R: Log, S: Source, K: Sink>(
    rt: &R,
    peer: &mut Peer<'_, '_, '_, S, K>,
) -> Result<u32, MirrorRefusal>
    ensures reached { IfOk result (λ k. Reaches S.Source K.Sink k (Pin ∷ []) (λ bytes rest. IsReply Pinned bytes (pinned_line k) rest) peer.old peer.new) }
    ensures refused { IfErr result (λ refusal. IsRefusedIn S.Source K.Sink 0 (Pin ∷ []) (λ bytes. RefusesReply Pinned 0 bytes refusal) peer.old peer.new refusal) }
{
    match ask(rt, peer, &Request::pin(), Due::Pinned) {
        Ok(prefix) => Ok(prefix.unwrap()),
        Err(refusal) => Err(refusal),
    }
}

// Reads the description of the state that is held.
fn read_properties<R: Log, S: Source, K: Sink>(
    rt: &R,
    alloc: Global,
    peer: &mut Peer<'_, '_, '_, S, K>,
    pinned: u32,
) -> Result<PeerSurvey, MirrorRefusal>
    ensures pinned { IfOk result (λ survey. survey.pinned ≡ pinned) }
    ensures reached { IfOk result (λ survey. Reaches S.Source K.Sink pinned (File Properties ∷ []) (TellsProperties pinned survey.conf survey.counted) peer.old peer.new) }
    ensures refused { IfErr result (λ refusal. IsRefusedIn S.Source K.Sink pinned (File Properties ∷ [])
        (λ bytes. RefusesAt (OfSurvey pinned) 1 WrongProperties bytes refusal) peer.old peer.new refusal) }
{
    match ask(rt, peer, &Request::properties(), Due::Survey(pinned)) {
        Ok(_) => describe(rt, alloc, peer.body(), pinned),
        Err(refusal) => Err(refusal),
    }
}

// The survey that the properties file describes. What is wrong with it is logged.
fn describe<R: Log>(
    rt: &R,
    alloc: Global,
    body: &[u8],
    pinned: u32,
) -> Result<PeerSurvey, MirrorRefusal>
    ensures pinned { IfOk result (λ survey. survey.pinned ≡ pinned) }
    ensures described { IfOk result (λ survey. IsProperties body.now survey.conf) }
    ensures counts { IfOk result (λ survey. Counts survey.conf body.now survey.counted) }
    ensures refused { IfErr result (RefusedBy WrongProperties body.now) }
    ensures of_body { IfErr result IsOfBody }
{
    match split_properties(body) {
        Some((text, digits)) => describe_by(rt, alloc, body, text, digits, pinned),
        None => {
            say_no_count(rt);
            Err(MirrorRefusal::Properties)
        }
    }
}

// The survey that the properties file describes by this text, where its last line has these digits.
fn describe_by<R: Log>(
    rt: &R,
    alloc: Global,
    body: &[u8],
    text: &[u8],
    digits: &[u8],
    pinned: u32,
) -> Result<PeerSurvey, MirrorRefusal>
    requires { TellsLeaves body.now text.now digits.now }
    ensures pinned { IfOk result (λ survey. survey.pinned ≡ pinned) }
    ensures described { IfOk result (λ survey. IsProperties body.now survey.conf) }
    ensures counts { IfOk result (λ survey. Counts survey.conf body.now survey.counted) }
    ensures refused { IfErr result (RefusedBy WrongProperties body.now) }
    ensures of_body { IfErr result IsOfBody }
{
    match Conf::read(alloc, text) {
        Ok(conf) => {
            let counted = count_told(alloc, &conf, digits, body)?;
            Ok(PeerSurvey {
                pinned,
                conf,
                counted,
            })
        }
        Err(ConfRefusal::Fault(fault)) => {
            say_conf_fault(rt, text, fault);
            Err(MirrorRefusal::Properties)
        }
        Err(ConfRefusal::OutOfMemory) => Err(MirrorRefusal::OutOfMemory),
    }
}

// The number of leaves with which the description's properties are this body, whose last line has these digits.
fn count_told(
    alloc: Global,
    conf: &Conf,
    digits: &[u8],
    body: &[u8],
) -> Result<Option<u64>, AllocError>
    requires { (text : List ℕ) × TellsLeaves body.now text digits.now }
    ensures { IfOk result (Counts conf.now body.now) }
{
    match plain_decimal(digits) {
        Some(leaves) => {
            let properties = conf.properties(alloc, leaves)?;
            if properties.as_slice() == body {
                Ok(Some(leaves))
            } else {
                Ok(None)
            }
        }
        None => Ok(None),
    }
}

// The text before the last line of a properties file, and the digits of that line, the number of leaves.
fn split_properties(body: &[u8]) -> Option<(&[u8], &[u8])>
    ensures told { IfSome result (λ parts. TellsLeaves body.now parts.0.now parts.1.now) }
    ensures none { IsNone result → (text digits : List ℕ) → ¬ TellsLeaves body.now text digits }
{
    let line = body.strip_suffix(b"\n")?;
    let (front, digits) = split_word(line)?;
    let text = front.strip_suffix(b"survey_leaves = ")?;
    if is_count(text, digits) {
        Some((text, digits))
    } else {
        None
    }
}

// Whether the text is whole lines, and plain decimals follow.
fn is_count(text: &[u8], digits: &[u8]) -> bool
    ensures { result ≡ (are_lines text.now && is_plain digits.now) }
{
    are_lines(text) && is_plain(digits)
}

// What comes up to the last space, and what follows it.
fn split_word(line: &[u8]) -> Option<(&[u8], &[u8])>
    ensures whole { IfSome result (λ parts. line.now ≡ parts.0.now ++ parts.1.now) }
    ensures space { IfSome result (λ parts. (front : List ℕ) × (parts.0.now ≡ front ++ 32 ∷ [])) }
    ensures word { IfSome result (λ parts. All (λ b. b ≢ 32) parts.1.now) }
    ensures none { IsNone result → All (λ b. b ≢ 32) line.now }
{
    let at = memrchr(b' ', line)?;
    Some((&line[..=at], &line[at + 1..]))
}

// Whether the text is plain decimals.
fn is_plain(text: &[u8]) -> bool
    ensures { result ≡ is_plain text.now }
{
    digits(text).is_some() && (text.len() <= 1 || text[0] != b'0')
}

// Whether the text is whole lines.
fn are_lines(text: &[u8]) -> bool
    ensures { result ≡ are_lines text.now }
{
    text.is_empty() || text[text.len() - 1] == b'\n'
}

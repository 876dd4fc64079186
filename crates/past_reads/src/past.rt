//! A few past states of a survey, and the making of others.
ghost use Rattle.std.specs.Prelude.{◌≡◌, ◌≢◌, ◌⊎◌, true, false, Some, ◌≤◌, ◌<◌, ◌+◌, [], length, slice_get, Contains, IfOk, IfErr, OnOk, OnErr};
ghost use Rattle.std.specs.Arc.{arc_value};
ghost use Rattle.edit_journal.specs.Batches.{edits_of, ends};
ghost use Rattle.past_reads.specs.declared.refusal.PastRefusal.TheVariants.{OutOfMemory};
ghost use Rattle.past_reads.specs.Past.{PastContent, GoesOnFrom, past_generation, FindsBase, TellsPastRefusal, prefix_by, better_prefix};
ghost use Rattle.past_reads.specs.Costs.{held_after, base, work_from, work_afresh, past_work};

use crate::logging::Making;
use crate::refusal::PastRefusal;
use edit_journal::Journal;
use generation::Generation;
use log::Log;
use lru::LruCache;
use parent_rule::Steps;
use std::alloc::{AllocError, Global};
use std::marker::Model;
use std::num::NonZeroUsize;
use std::sync::Arc;
use std::thread::Threads;
use std::time::Clock;
use survey_conf::Conf;
use survey_link::{Gate, Means};

/// The generations of a survey that were asked for last, at most eight of them. The generation of the opening leaves is kept
/// beside these, if it was given.
///
/// Contracts see the survey's description and opening leaves, whether the generation of these is kept, the batches of edits
/// that are known, how many generations may be held beside it, and the prefixes of those that are, the most recently used
/// first.
#[derive(Drop)]
pub struct Past {
    pub(crate) alloc: Global,
    conf: Arc<Conf>,
    journal: Journal,
    opening: Option<Arc<Generation>>,
    cache: LruCache<u32, Arc<Generation>>,
}

impl Model for Past {
    ghost use Rattle.std.specs.Prelude.{is_some};
    ghost use Rattle.std.specs.Map.{keys_of};
    ghost use Rattle.std.specs.Arc.{arc_value};
    ghost use Rattle.past_reads.specs.Past.{PastContent, kept_content, IsKeptPast};

    ghost Value = { PastContent };

    ghost view = { λ p. kept_content (arc_value p.conf) (is_some p.opening) p.journal (keys_of p.cache.entries) p.cache.cap };

    ghost invariant = { λ p. IsKeptPast (λ generation. arc_value generation) (arc_value p.conf) p.journal p.opening p.cache.entries p.cache.cap };
}

impl Past {
    /// A cache of so many generations, from 1 to 8, that knows the journal's batches and holds none. The command `past` begins
    /// by `over`.
    ///
    /// # Errors
    ///
    /// `AllocError` where there is no memory for it.
    #[tactic(auto, using(crate::proofs::PastLemmas::goes_new))]
    pub fn new(
        alloc: Global,
        conf: Arc<Conf>,
        journal: &Journal,
        capacity: usize,
    ) -> Result<Past, AllocError>
        requires least { 1 ≤ capacity }
        requires most { capacity ≤ 8 }
        requires shape { journal.now.shape ≡ (arc_value conf).shape }
        ensures made { IfOk result (λ past. past ≡ record {
          conf = arc_value conf;
          opening = journal.now.opening;
          opened = false;
          batches = journal.now.batches;
          room = capacity;
          held = [];
        }) }
        ensures goes_on { IfOk result (λ past. GoesOnFrom past journal.now) }
    {
        let journal = journal.share()?;
        let cache = LruCache::new(alloc, NonZeroUsize::new(capacity).unwrap())?;
        Ok(Past {
            alloc,
            conf,
            journal,
            opening: None,
            cache,
        })
    }

    /// The same of a survey with this generation of its opening leaves, which is kept beside those that are held: a generation
    /// below which none is held is made from it.
    ///
    /// # Errors
    ///
    /// As for `new`.
    #[tactic(auto, using(crate::proofs::PastLemmas::goes_new))]
    pub fn over(
        alloc: Global,
        opening: Arc<Generation>,
        journal: &Journal,
        capacity: usize,
    ) -> Result<Past, AllocError>
        requires least { 1 ≤ capacity }
        requires most { capacity ≤ 8 }
        requires first { (arc_value opening).prefix ≡ 0 }
        requires shape { journal.now.shape ≡ (arc_value opening).conf.shape }
        requires leaves { journal.now.opening ≡ (arc_value opening).leaves }
        ensures made { IfOk result (λ past. past ≡ record {
          conf = (arc_value opening).conf;
          opening = journal.now.opening;
          opened = true;
          batches = journal.now.batches;
          room = capacity;
          held = [];
        }) }
        ensures goes_on { IfOk result (λ past. GoesOnFrom past journal.now) }
    {
        let conf = opening.conf().clone()?;
        let journal = journal.share()?;
        let cache = LruCache::new(alloc, NonZeroUsize::new(capacity).unwrap())?;
        Ok(Past {
            alloc,
            conf,
            journal,
            opening: Some(opening),
            cache,
        })
    }

    /// The generation of the first `k` edits of the journal, which begins with the batches that are known. It is then the
    /// most recently used, the others keep their order, the last is dropped where there is no room for it, and the journal's
    /// batches are known.
    ///
    /// One that is held takes no step. Another one is made from that of the greatest held prefix below it, else from that of
    /// the opening leaves where this is kept, else from the opening leaves afresh. The steps rise by at most the number of
    /// tiles that are merged for this.
    ///
    /// # Errors
    ///
    /// `TooNew` with the number of edits if and only if there are fewer than `k`; `Split` if and only if the first `k` edits
    /// split a batch; `OutOfMemory` where there is no memory for the generation. Then everything is as it was.
    #[tactic(auto, using(crate::proofs::PastLemmas::goes_on))]
    pub fn at<R: Threads + Sync + Clock + Log, G: Gate + Sync>(
        &mut self,
        rt: &R,
        journal: &Journal,
        k: u32,
        gate: &G,
        steps: &mut Steps,
    ) -> Result<Arc<Generation>, PastRefusal>
        requires journal { GoesOnFrom self.old journal.now }
        ensures found { IfOk result (λ found. arc_value found ≡ past_generation self.old.conf journal.now.opening journal.now.batches k) }
        ensures whole { OnOk result (Contains (ends journal.now.batches) k) }
        ensures held { OnOk result (self.new ≡ record self.old {
          batches = journal.now.batches;
          held = held_after self.old.room k self.old.held;
        }) }
        ensures goes_on { GoesOnFrom self.new journal.now }
        ensures refused { IfErr result (TellsPastRefusal journal.now.batches k) }
        ensures kept { OnErr result (self.new ≡ self.old) }
        ensures no_steps { IfErr result (λ refusal. refusal ≢ OutOfMemory → steps.new ≡ steps.old) }
        ensures steps { steps.new ≤ steps.old + past_work self.old.conf self.old.opening self.old.opened (edits_of journal.now.batches) self.old.held k }
        ensures never_falls { steps.old ≤ steps.new }
    {
        let edits = journal.len();
        if k > edits {
            return Err(PastRefusal::TooNew { edits });
        }
        if !journal.is_end(k) {
            return Err(PastRefusal::Split { k });
        }
        let known = journal.share()?;
        let means = Means {
            rt,
            alloc: self.alloc,
            gate,
        };
        let generation = self.generation_of(&means, journal, k, steps)?;
        self.keep(known, k, generation.clone()?)?;
        Ok(generation)
    }

    /// The prefix of generation `i` of those held, the most recently used first; `None` if and only if `i` is past the last.
    pub fn held(&self, i: usize) -> Option<u32>
        ensures { result ≡ slice_get self.now.held i }
    {
        match self.cache.iter().nth(i) {
            Some((prefix, _)) => Some(*prefix),
            None => None,
        }
    }

    // The generation of the first `k` edits of the journal, which is held or made.
    fn generation_of<R: Threads + Sync + Clock + Log, G: Gate + Sync>(
        &self,
        means: &Means<'_, R, G>,
        journal: &Journal,
        k: u32,
        steps: &mut Steps,
    ) -> Result<Arc<Generation>, AllocError>
        requires journal { GoesOnFrom self.now journal.now }
        requires whole { Contains (ends journal.now.batches) k }
        ensures found { IfOk result (λ found. arc_value found ≡ past_generation self.now.conf journal.now.opening journal.now.batches k) }
        ensures steps { steps.new ≤ steps.old + past_work self.now.conf self.now.opening self.now.opened (edits_of journal.now.batches) self.now.held k }
        ensures never_falls { steps.old ≤ steps.new }
    {
        match self.cache.peek(&k) {
            Some(held) => {
                // For the prover: a count fits 64 bits.
                let _count = steps.count();
                held.clone()
            }
            None => self.make(means, journal, k, steps),
        }
    }

    // The same of edits whose generation isn't held.
    fn make<R: Threads + Sync + Clock + Log, G: Gate + Sync>(
        &self,
        means: &Means<'_, R, G>,
        journal: &Journal,
        k: u32,
        steps: &mut Steps,
    ) -> Result<Arc<Generation>, AllocError>
        requires journal { GoesOnFrom self.now journal.now }
        requires whole { Contains (ends journal.now.batches) k }
        ensures found { IfOk result (λ found. arc_value found ≡ past_generation self.now.conf journal.now.opening journal.now.batches k) }
        ensures steps { steps.new ≤ steps.old + work_from self.now.conf self.now.opening (edits_of journal.now.batches) k (base self.now.opened k self.now.held) }
        ensures never_falls { steps.old ≤ steps.new }
    {
        let making = Making::begin(means.rt, steps.count());
        let from = self.base(k);
        let made = match from {
            Some(base) => base.next(means.rt, journal, k, means.gate, steps)?,
            None => self.make_afresh(means, journal, k, steps)?,
        };
        making.say_made(means.rt, k, from.map(|base| base.prefix()), steps.count());
        Ok(Arc::new(means.alloc, made)?)
    }

    // The same from the opening leaves, where their generation isn't kept.
    fn make_afresh<R: Threads + Sync, G: Gate + Sync>(
        &self,
        means: &Means<'_, R, G>,
        journal: &Journal,
        k: u32,
        steps: &mut Steps,
    ) -> Result<Generation, AllocError>
        requires journal { GoesOnFrom self.now journal.now }
        requires whole { Contains (ends journal.now.batches) k }
        ensures made { IfOk result (λ made. made ≡ past_generation self.now.conf journal.now.opening journal.now.batches k) }
        ensures steps { steps.new ≤ steps.old + work_afresh self.now.conf self.now.opening (edits_of journal.now.batches) k }
        ensures never_falls { steps.old ≤ steps.new }
    {
        // For the prover: how many edits there are bounds `k`.
        let _count = journal.len();
        let Means { rt, alloc, gate } = *means;
        let leaves = journal.opening().share()?;
        let opening = Generation::start(rt, alloc, self.conf.clone()?, leaves, gate, steps)?;
        opening.next(rt, journal, k, gate, steps)
    }

    // The generation that the one of the first `k` edits is made from: the one held of the greatest prefix below `k`, else that
    // of the opening leaves, where it is kept.
    fn base(&self, k: u32) -> Option<&Arc<Generation>>
        ensures { FindsBase (λ generation. arc_value generation) self.now k result }
    {
        let mut best = self.opening.as_ref();
        for entry in self.cache.iter() {
            best = better(best, entry.1, k);
        }
        best
    }

    // Holds the generation of the first `k` edits, and knows the journal from then on.
    fn keep(
        &mut self,
        journal: Journal,
        k: u32,
        generation: Arc<Generation>,
    ) -> Result<(), AllocError>
        requires journal { GoesOnFrom self.old journal }
        requires whole { Contains (ends journal.batches) k }
        requires generation { arc_value generation ≡ past_generation self.old.conf journal.opening journal.batches k }
        ensures held { OnOk result (self.new ≡ record self.old { batches = journal.batches; held = held_after self.old.room k self.old.held }) }
        ensures kept { OnErr result (self.new ≡ self.old) }
    {
        // For the prover: the keys are distinct, and no more than there is room for.
        let _count = self.cache.len();
        self.cache.put(k, generation)?;
        self.journal = journal;
        Ok(())
    }
}

// The better of two generations, of which the second has at most as many edits as there are: that of more edits, below `k`.
fn better<'a>(
    best: Option<&'a Arc<Generation>>,
    other: &'a Arc<Generation>,
    k: u32,
) -> Option<&'a Arc<Generation>>
    ensures prefix { prefix_by (λ generation. arc_value generation) result ≡ better_prefix k (prefix_by (λ generation. arc_value generation) best.entry) (arc_value other.now).prefix }
    ensures either { (result ≡ best.entry) ⊎ ((result ≡ Some other.entry) × ((arc_value other.now).prefix < k)) }
{
    if other.prefix() >= k {
        return best;
    }
    match best {
        Some(held) => {
            if held.prefix() < other.prefix() {
                return Some(other);
            }
            Some(held)
        }
        None => Some(other),
    }
}

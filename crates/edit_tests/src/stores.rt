//! What a store answers: by tables, beside the plain store, and with keys in any order.
ghost use Rattle.std.specs.Prelude.{◌<◌};

use crate::plain_store::PlainStore;
use leaf_store::Store;
use std::alloc::{AllocError, Global};
use std::process::Abort;
use std::sync::Arc;
use std::test::Fail;

// The number that is shared, if one is.
fn number(shared: Option<Arc<u64>>) -> Option<u64> {
    match shared {
        Some(shared) => Some(*shared),
        None => None,
    }
}

// Puts the value at the key, or takes the key out where no value is given, and answers the old value.
fn change(
    alloc: Global,
    store: &mut Store<u64>,
    key: u64,
    value: Option<u64>,
) -> Result<Option<u64>, AllocError> {
    match value {
        Some(value) => Ok(number(store.put(key, Arc::new(alloc, value)?)?)),
        None => Ok(number(store.remove(key)?)),
    }
}

// A key, the value that is put at it or none where it is taken out, its old value, and the pairs after the change.
type ChangeRow = (u64, Option<u64>, Option<u64>, &'static str);

static CHANGES: [ChangeRow; 8] = [
    (5, None, None, "{}"),
    (9, Some(1), None, "{9: 1}"),
    (4, Some(2), None, "{4: 2, 9: 1}"),
    (
        u64::MAX,
        Some(3),
        None,
        "{4: 2, 9: 1, 18446744073709551615: 3}",
    ),
    (4, Some(5), Some(2), "{4: 5, 9: 1, 18446744073709551615: 3}"),
    (5, None, None, "{4: 5, 9: 1, 18446744073709551615: 3}"),
    (9, None, Some(1), "{4: 5, 18446744073709551615: 3}"),
    (0, Some(6), None, "{0: 6, 4: 5, 18446744073709551615: 3}"),
];

// Whether the change of a row finds the old value, and the store is then shown so.
fn changes(
    alloc: Global,
    store: &mut Store<u64>,
    (key, value, old, pairs): &ChangeRow,
) -> Result<bool, AllocError> {
    let found = change(alloc, store, *key, *value)?;
    let shown = format!(in alloc; "{store:?}")?;
    Ok(found == *old && shown.as_str() == *pairs)
}

fn check_changes(rt: &impl Abort, alloc: Global, store: &mut Store<u64>) -> Result<(), Fail> {
    for row in &CHANGES {
        assert!(rt; changes(alloc, store, row)?, "{row:?}");
    }
    Ok(())
}

#[test]
fn a_change_is_of_one_key(rt: HostRuntime) -> Result<(), Fail> {
    check_changes(&rt, rt.alloc(), &mut Store::new(rt.alloc()))
}

// The pairs of a store, by ascending key.
static PAIRS: [(u64, u64); 3] = [(4, 2), (9, 1), (u64::MAX, 3)];

// The store of these pairs.
fn store_of(alloc: Global, pairs: &[(u64, u64)]) -> Result<Store<u64>, AllocError> {
    let mut store = Store::new(alloc);
    for (key, value) in pairs {
        store.put(*key, Arc::new(alloc, *value)?)?;
    }
    Ok(store)
}

// The value of the key.
fn value_of(store: &Store<u64>, key: u64) -> Option<u64> {
    match store.get(key) {
        Some(shared) => Some(**shared),
        None => None,
    }
}

// Pair `i` by ascending key.
fn pair_at(store: &Store<u64>, i: usize) -> Option<(u64, u64)> {
    match store.at(i) {
        Some((key, shared)) => Some((key, **shared)),
        None => None,
    }
}

// Whether that is pair `i`.
fn is_pair(store: &Store<u64>, i: usize, key: u64, value: u64) -> bool {
    pair_at(store, i) == Some((key, value)) && value_of(store, key) == Some(value)
}

// From which key to below which other one there is one.
static RANGES: [(u64, u64, bool); 10] = [
    (0, 4, false),
    (4, 4, false),
    (0, 5, true),
    (4, 5, true),
    (5, 9, false),
    (5, 10, true),
    (9, 5, false),
    (10, u64::MAX, false),
    (u64::MAX, u64::MAX, false),
    (0, u64::MAX, true),
];

// The store has the pairs and no others.
fn check_pairs(rt: &impl Abort, store: &Store<u64>) {
    for (i, (key, value)) in PAIRS.iter().enumerate() {
        assert!(rt; is_pair(store, i, *key, *value), "pair {i}");
    }
    assert!(rt; store.at(3).is_none() && store.get(5).is_none() && store.len() == 3);
    for (low, high, found) in &RANGES {
        let is_there = store.any_in(*low, *high);
        assert!(rt; is_there == *found, "from {low} to below {high}");
    }
}

// It can be called only where the type may be moved to another thread, and used from several.
fn crosses_threads<S: Send + Sync>(_store: &S) {}

#[test]
fn pairs_are_found(rt: HostRuntime) -> Result<(), Fail> {
    let store = store_of(rt.alloc(), &PAIRS)?;
    crosses_threads(&store);
    check_pairs(&rt, &store);
    Ok(())
}

// A store of the keys below a count, each from the one before by a step, and each with its last digit.
fn filled(alloc: Global, count: u64, step: u64) -> Result<Store<u64>, AllocError>
    requires { 0 < count }
{
    let mut store = Store::new(alloc);
    for i in 0..count {
        let key = i.wrapping_mul(step) % count;
        store.put(key, Arc::new(alloc, key % 10)?)?;
    }
    Ok(store)
}

// The store of the keys below 1,000 stays as it is while its share is changed.
fn check_share(
    rt: &impl Abort,
    alloc: Global,
    store: &Store<u64>,
    share: &mut Store<u64>,
) -> Result<(), Fail> {
    assert!(rt; change(alloc, share, 500, None)? == Some(0));
    assert!(rt; change(alloc, share, 1000, Some(7))?.is_none());
    assert!(rt; store.len() == 1000 && value_of(store, 500) == Some(0));
    assert!(rt;
        share.len() == 1000 && value_of(share, 500).is_none() && is_pair(share, 999, 1000, 7)
    );
    Ok(())
}

#[test]
fn a_shared_store_changes_alone(rt: HostRuntime) -> Result<(), Fail> {
    let store = filled(rt.alloc(), 1000, 1)?;
    let mut share = store.share()?;
    check_share(&rt, rt.alloc(), &store, &mut share)
}

// Numbers that look like chance, and are the same at each run.
#[derive(Drop)]
struct Chance(u64);

impl Chance {
    fn below(&mut self, bound: u64) -> u64
        requires { 0 < bound }
    {
        self.0 = self
            .0
            .wrapping_mul(6_364_136_223_846_793_005)
            .wrapping_add(1_442_695_040_888_963_407);
        (self.0 >> 33) % bound
    }

    // A key below the bound.
    fn key(&mut self, bound: u64) -> u64 {
        self.below(u64::MAX) % bound.max(1)
    }

    // The number or none: mostly the number where a store is to grow, else mostly none.
    fn value(&mut self, number: u64, grows: bool) -> Option<u64> {
        if (self.below(3) > 0) == grows {
            Some(number)
        } else {
            None
        }
    }
}

// A store and the plain one, to which the same is done.
#[derive(Drop)]
struct Both {
    pages: Store<u64>,
    plain: PlainStore<u64>,
}

impl Both {
    fn share(&self) -> Result<Both, AllocError> {
        let pages = self.pages.share()?;
        let plain = self.plain.share()?;
        Ok(Both { pages, plain })
    }

    // Puts the value at the key, or takes the key out where no value is given, and answers whether both answer the same.
    fn change(&mut self, alloc: Global, key: u64, value: Option<u64>) -> Result<bool, AllocError> {
        match value {
            Some(value) => self.put(key, Arc::new(alloc, value)?),
            None => self.remove(key),
        }
    }

    // Puts the value at the key, and answers whether both had the same one there.
    fn put(&mut self, key: u64, shared: Arc<u64>) -> Result<bool, AllocError> {
        let plain = number(self.plain.put(key, shared.clone()?)?);
        Ok(number(self.pages.put(key, shared)?) == plain)
    }

    // Takes the key out, and answers whether both had the same value there.
    fn remove(&mut self, key: u64) -> Result<bool, AllocError> {
        let plain = number(self.plain.remove(key)?);
        Ok(number(self.pages.remove(key)?) == plain)
    }

    // Whether a key from `low` to below `high` is in both, or in neither.
    fn same_range(&self, low: u64, high: u64) -> bool {
        self.pages.any_in(low, high) == self.plain.any_in(low, high)
    }

    // Changes a key, and answers whether both answer the same, also whether a key from this one to below another is there.
    fn change_and_look(
        &mut self,
        alloc: Global,
        key: u64,
        value: Option<u64>,
        end: u64,
    ) -> Result<bool, AllocError> {
        let same = self.change(alloc, key, value)?;
        Ok(same && self.same_range(key, key.saturating_add(2)) && self.same_range(key, end))
    }

    // Whether both have the value at the key, which is pair `i` of the pages.
    fn have(&self, i: usize, key: u64, value: u64) -> bool {
        match self.plain.get(key) {
            Some(plain) => **plain == value && is_pair(&self.pages, i, key, value),
            None => false,
        }
    }

    // Whether both have the same pairs, each by its key, by its place and in turn.
    fn same(&self) -> bool {
        let mut seen = 0usize;
        for (key, shared) in &self.pages {
            if !self.have(seen, key, **shared) {
                return false;
            }
            seen = seen.saturating_add(1);
        }
        seen == self.plain.len() && seen == self.pages.len() && self.pages.at(seen).is_none()
    }
}

// So many changes of keys below a bound, two puts for each removal, or two removals for each put.
static RUNS: [(u64, u64, bool); 6] = [
    (300, 40, true),
    (20_000, 12_000, true),
    (6_000, 9_000, true),
    (20_000, 12_000, false),
    (5_000, u64::MAX, true),
    (9_000, 300, true),
];

// Makes the changes of a run, and answers whether both answer the same at each, and have the same pairs after them.
fn run(
    alloc: Global,
    both: &mut Both,
    chance: &mut Chance,
    (changes, bound, grows): (u64, u64, bool),
) -> Result<bool, AllocError> {
    for i in 0..changes {
        let key = chance.key(bound);
        let value = chance.value(i, grows);
        if !both.change_and_look(alloc, key, value, chance.key(bound))? {
            return Ok(false);
        }
    }
    Ok(both.same())
}

// Makes the runs, and keeps a share from before each.
fn check_runs(
    rt: &impl Abort,
    alloc: Global,
    both: &mut Both,
    kept: &mut Vec<Both>,
) -> Result<(), Fail> {
    let mut chance = Chance(2026);
    for (i, changes) in RUNS.iter().enumerate() {
        kept.push(both.share()?)?;
        assert!(rt; run(alloc, both, &mut chance, *changes)?, "run {i}");
    }
    for (i, old) in kept.iter().enumerate() {
        assert!(rt; old.same(), "the share before run {i}");
    }
    Ok(())
}

#[test]
fn pages_answer_as_the_ordered_map_does(rt: HostRuntime) -> Result<(), Fail> {
    let mut both = Both {
        pages: Store::new(rt.alloc()),
        plain: PlainStore::new(rt.alloc()),
    };
    check_runs(&rt, rt.alloc(), &mut both, &mut Vec::new(rt.alloc()))
}

// The keys below a prime, each from the one before by a step: ascending, descending and scattered.
const PRIME: u64 = 9001;

static STEPS: [u64; 3] = [1, PRIME - 1, 1999];

// Whether the store has each key below the prime in its place.
fn has_all(store: &Store<u64>) -> bool {
    let mut next = 0;
    for (key, shared) in store {
        if key != next || pair_at(store, key as usize) != Some((key, **shared)) {
            return false;
        }
        next = next.saturating_add(1);
    }
    next == PRIME && store.len() as u64 == PRIME
}

// Whether the store has each key below the prime, and none once they are taken out by this step.
fn is_emptied(store: &mut Store<u64>, step: u64) -> Result<bool, AllocError> {
    let had_all = has_all(store);
    for i in 0..PRIME {
        store.remove(i.wrapping_mul(step) % PRIME)?;
    }
    Ok(had_all && store.at(0).is_none() && store.len() == 0)
}

// Whether the keys go in and out by this step.
fn go_in_and_out(alloc: Global, step: u64) -> Result<bool, AllocError> {
    let mut store = filled(alloc, PRIME, step)?;
    is_emptied(&mut store, step)
}

#[test]
fn keys_go_in_and_out_in_any_order(rt: HostRuntime) -> Result<(), Fail> {
    for step in &STEPS {
        assert!(rt; go_in_and_out(rt.alloc(), *step)?, "step {step}");
    }
    Ok(())
}

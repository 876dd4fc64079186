//! The gate that the publications of scenario tests pass.
use std::sync::atomic::{AtomicU64, Ordering};
use std::thread::yield_now;
use survey_link::Gate;

/// It counts who comes, and holds them until it is opened, for 2^24 turns at most.
#[derive(Drop)]
pub(crate) struct TestGate {
    entered: AtomicU64,
    opened: AtomicU64,
    spent: AtomicU64,
}

impl TestGate {
    pub(crate) fn new() -> TestGate {
        TestGate {
            entered: AtomicU64::new(0),
            opened: AtomicU64::new(0),
            spent: AtomicU64::new(0),
        }
    }

    /// How many came.
    pub(crate) fn count(&self) -> u64 {
        self.entered.load(Ordering::SeqCst)
    }

    /// Waits until somebody is at the gate.
    pub(crate) fn wait_for_entry(&self) {
        self.wait_for(&self.entered);
    }

    /// Lets all pass, from now on.
    pub(crate) fn open(&self) {
        self.opened.store(1, Ordering::SeqCst);
    }

    /// Whether nobody's turns ran out.
    pub(crate) fn is_in_time(&self) -> bool {
        self.spent.load(Ordering::SeqCst) == 0
    }

    // Waits until that has come, for 2^24 turns at most.
    fn wait_for(&self, flag: &AtomicU64) {
        for _ in 0..1u32 << 24 {
            if flag.load(Ordering::SeqCst) != 0 {
                return;
            }
            yield_now();
        }
        self.spent.store(1, Ordering::SeqCst);
    }
}

impl Gate for TestGate {
    fn pass(&self, _order: u8, _npix: u64) {
        self.entered.fetch_add(1, Ordering::SeqCst);
        self.wait_for(&self.opened);
    }
}

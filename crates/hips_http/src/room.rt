//! Accepted edits in the log, and how much of a survey's room they take.
use edit_journal::{Edit, Journal, MOST_CHARGE, leaf_charge};
use healpix_nested::Cell;
use log::{Log, debug, info, warn};
use std::fmt;
use survey_core::State;
use tile_path::Path;

// The most edits of a survey.
const MOST_EDITS: u64 = 65_536;

// At how many percent of a limit a warning is logged.
const MARKS: [u64; 3] = [80, 95, 100];

/// Logs how much of a survey's room is used where its server starts, and how many more tiles fit.
pub fn say_room<R: Log>(rt: &R, state: &State) {
    let journal = state.journal();
    let charge = journal.charge();
    let each = leaf_charge(journal.shape()).max(1);
    let free = MOST_CHARGE.saturating_sub(charge) / each;
    let (bytes, edits) = (Used::bytes(charge), Used::edits(journal.len()));
    info!(rt; "room: {bytes} and {edits} are used; {free} more tiles of {each} bytes fit");
}

/// Logs the last edit of a state, which was accepted alone.
pub(crate) fn say_edit<R: Log>(rt: &R, state: &State) {
    let journal = state.journal();
    let first = journal.len().saturating_sub(1);
    if let Some(edit) = journal.edit(first) {
        let (number, line) = (journal.len(), EditLine::of(journal, edit));
        info!(rt; "edit {number} {line}");
    }
    say_marks(rt, journal, first);
}

/// Logs the last `count` edits of a state, which were accepted as a batch.
pub(crate) fn say_batch<R: Log>(rt: &R, state: &State, count: u32) {
    let journal = state.journal();
    let (first, last) = (journal.len().saturating_sub(count), journal.len());
    info!(rt; "edits {} to {last} are a batch", first.saturating_add(1));
    for i in first..last {
        if let Some(edit) = journal.edit(i) {
            let (number, line) = (i.saturating_add(1), EditLine::of(journal, edit));
            debug!(rt; "edit {number} {line}");
        }
    }
    say_marks(rt, journal, first);
}

// Warns where the edits from `first` on, counted from 0, have made the use of a limit reach 80, 95 or 100 percent.
fn say_marks<R: Log>(rt: &R, journal: &Journal, first: u32) {
    let charge = journal.charge();
    let before = charge.saturating_sub(charge_from(journal, first));
    say_mark(rt, Used::bytes(before), Used::bytes(charge));
    say_mark(rt, Used::edits(first), Used::edits(journal.len()));
}

// What the edits from `first` on are charged with.
fn charge_from(journal: &Journal, first: u32) -> u64 {
    let mut charge = 0_u64;
    for i in first..journal.len() {
        if let Some(edit) = journal.edit(i) {
            charge = charge.saturating_add(edit.charge());
        }
    }
    charge
}

// Warns where the use of a limit has come to a mark, or past it.
fn say_mark<R: Log>(rt: &R, before: Used, used: Used) {
    let (low, high) = (before.percent(), used.percent());
    if MARKS.iter().any(|mark| low < *mark && *mark <= high) {
        warn!(rt; "{used} are used. When all are, edits are answered 507: renew the server by rollover.sh");
    }
}

// How much of a limit is used.
#[derive(Clone, Copy)]
struct Used {
    used: u64,
    limit: u64,
    unit: &'static str,
}

impl Used {
    fn bytes(charge: u64) -> Used {
        Used {
            used: charge,
            limit: MOST_CHARGE,
            unit: "bytes of tiles",
        }
    }

    fn edits(count: u32) -> Used {
        Used {
            used: u64::from(count),
            limit: MOST_EDITS,
            unit: "edits",
        }
    }

    fn percent(self) -> u64 {
        self.used.saturating_mul(100) / self.limit.max(1)
    }
}

impl fmt::Display for Used {
    fn fmt<W: fmt::Write>(&self, f: &mut fmt::Formatter<W>) -> fmt::Result {
        let Used { used, limit, unit } = *self;
        write!(f, "{used} of {limit} {unit} ({} percent)", self.percent())
    }
}

// What an edit does, as in `puts Norder3/Dir0/Npix7.fits`.
#[derive(Clone, Copy)]
struct EditLine {
    verb: &'static str,
    leaf: Option<Cell>,
}

impl EditLine {
    fn of(journal: &Journal, edit: &Edit) -> EditLine {
        EditLine {
            verb: if edit.tile().is_some() {
                "puts"
            } else {
                "removes"
            },
            leaf: Cell::new(journal.shape().top, edit.leaf()),
        }
    }
}

impl fmt::Display for EditLine {
    fn fmt<W: fmt::Write>(&self, f: &mut fmt::Formatter<W>) -> fmt::Result {
        f.write_str(self.verb)?;
        match self.leaf {
            Some(leaf) => write!(f, " {}", Path::Tile(leaf)),
            None => Ok(()),
        }
    }
}

//! One history, and whether it explains what boards recorded.
use crate::calling::{ADD, Answer, Asked, Call, PUT, REMOVE, REPLACE, Seen, Told};
use edit_journal::{Edit, Journal};
use reader_pin::Published;
use std::alloc::{AllocError, Global};
use survey_core::State;

/// What the history is after so many edits, and what boards recorded of it.
#[derive(Clone, Copy)]
struct Place {
    // The edit behind it, and the leaves before that one, a bit each.
    edit: Asked,
    leaves: u32,
    // Whether a batch ends here.
    is_end: bool,
    // How many calls made the edit behind it, and how many publications published the edits before it.
    made: u32,
    published: u32,
    // Whether a board saw so many edits published.
    is_tip: bool,
    // The least and the greatest number of published edits that a board saw with so many edits.
    least: u32,
    most: u32,
}

// No edit, of none of the four kinds.
const NONE: Asked = Asked { kind: 4, leaf: 0 };

// What nobody recorded, and where no history leads.
const NOWHERE: Place = Place {
    edit: Asked { kind: 4, leaf: 0 },
    leaves: 0,
    is_end: false,
    made: 0,
    published: 0,
    is_tip: false,
    least: u32::MAX,
    most: 0,
};

/// The history that all boards have seen in the end.
#[derive(Drop)]
pub struct Replay {
    places: Vec<Place>,
    last: Seen,
}

// The bit of a leaf.
fn bit(leaf: u32) -> u32 {
    1 << (leaf % 16)
}

// The leaves after an edit.
fn after(leaves: u32, edit: Asked) -> u32 {
    if edit.kind == REMOVE {
        return leaves & !bit(edit.leaf);
    }
    leaves | bit(edit.leaf)
}

// The fault of an edit: 1 to add a leaf that is there, 2 to replace or to remove one that isn't, 0 for none.
fn fault(leaves: u32, edit: Asked) -> u8 {
    let is_there = leaves & bit(edit.leaf) != 0;
    match edit.kind {
        PUT => 0,
        ADD => u8::from(is_there),
        _ => { if is_there { 0 } else { 2 } }
    }
}

// Whether a state may follow another.
fn rises(before: Seen, last: Seen) -> bool {
    before.edits <= last.edits && before.tip <= last.tip && last.tip <= last.edits
}

// What a board holds after a call.
fn held_after(held: Option<Seen>, told: &Told) -> Option<Seen> {
    match told.call {
        Call::Hold => Some(told.last),
        Call::Release => None,
        _ => held,
    }
}

// What was asked for by the edit behind so many; none of the four kinds where there is none.
fn asked_behind(journal: &Journal, k: u32) -> Asked {
    let Some(edit) = journal.edit(k) else {
        return NONE;
    };
    let kind = match edit {
        Edit::Put { .. } => PUT,
        Edit::Add { .. } => ADD,
        Edit::Replace { .. } => REPLACE,
        Edit::Remove { .. } => REMOVE,
    };
    Asked {
        kind,
        leaf: u32::try_from(edit.leaf()).unwrap_or(u32::MAX),
    }
}

// Appends what the history is after each number of edits.
fn push_places(places: &mut Vec<Place>, journal: &Journal) -> Result<(), AllocError> {
    let mut leaves = 0;
    for k in 0..=journal.len() {
        let edit = asked_behind(journal, k);
        places.push(Place {
            edit,
            leaves,
            is_end: journal.is_end(k),
            ..NOWHERE
        })?;
        leaves = after(leaves, edit);
    }
    Ok(())
}

impl Replay {
    /// The history that leads to a state.
    pub fn of(alloc: Global, state: &State) -> Result<Replay, AllocError> {
        let mut places = Vec::new(alloc);
        push_places(&mut places, state.journal())?;
        Ok(Replay {
            places,
            last: Seen::of(state),
        })
    }

    // What the history is after so many edits, if it has as many.
    fn place(&self, k: u32) -> Place {
        match self.places.get(k as usize) {
            Some(place) => *place,
            None => NOWHERE,
        }
    }

    // A board saw a state.
    fn see(&mut self, seen: Seen) {
        if let Some(place) = self.places.get_mut(seen.tip as usize) {
            place.is_tip = true;
        }
        if let Some(place) = self.places.get_mut(seen.edits as usize) {
            place.least = place.least.min(seen.tip);
            place.most = place.most.max(seen.tip);
        }
    }

    // Somebody made an edit; whether it is the history's.
    fn make(&mut self, k: u32, edit: Asked) -> bool {
        match self.places.get_mut(k as usize) {
            Some(place) => {
                place.made = place.made.saturating_add(1);
                place.edit.kind == edit.kind && place.edit.leaf == edit.leaf
            }
            None => false,
        }
    }

    // Whether a batch of so many edits is just before there.
    fn has_batch(&mut self, first: Asked, count: u32, number: u32) -> bool {
        let Some(start) = number.checked_sub(count) else {
            return false;
        };
        let mut is_one = self.place(start).is_end && self.place(number).is_end;
        for at in 0..count {
            let k = start.saturating_add(at);
            is_one &= self.make(k, first.behind(at)) && (at == 0 || !self.place(k).is_end);
        }
        is_one
    }

    // Whether the first edit of a batch with a fault, after so many edits, is the one at that place.
    fn has_fault(&self, first: Asked, at: u32, number: u8, edits: u32) -> bool {
        let place = self.place(edits);
        let mut leaves = place.leaves;
        for before in 0..at {
            let edit = first.behind(before);
            if fault(leaves, edit) != 0 {
                return false;
            }
            leaves = after(leaves, edit);
        }
        place.is_end && number != 0 && fault(leaves, first.behind(at)) == number
    }

    // Whether the answer to an accepted edit says rightly whether its leaf was absent.
    fn tells_created(&self, edit: Asked, answer: Answer) -> bool {
        match answer {
            Answer::Accepted(number, created) => {
                let before = self.place(number.saturating_sub(1));
                created == Some(before.leaves & bit(edit.leaf) == 0)
            }
            _ => true,
        }
    }

    // Somebody published so many edits; whether a batch ends there.
    fn publish(&mut self, k: u32) -> bool {
        match self.places.get_mut(k as usize) {
            Some(place) => {
                place.published = place.published.saturating_add(1);
                place.is_end
            }
            None => false,
        }
    }

    // Whether the history explains what was answered to so many edits, where that was the last state seen before.
    fn explains_edits(
        &mut self,
        first: Asked,
        count: u32,
        answer: Answer,
        before: Seen,
        last: Seen,
    ) -> bool {
        match answer {
            Answer::Accepted(number, _) => {
                number == last.edits
                    && number >= before.edits.saturating_add(count)
                    && self.has_batch(first, count, number)
            }
            Answer::Fault(at, fault, edits) => {
                at < count
                    && before.edits <= edits
                    && edits <= last.edits
                    && self.has_fault(first, at, fault, edits)
            }
            _ => false,
        }
    }

    // Whether it explains what was answered to a publication.
    fn explains_publication(&mut self, answer: Answer, before: Seen, last: Seen) -> bool {
        match answer {
            Answer::Published(Published::New(k), _) => {
                k == last.tip && k >= before.edits && k > before.tip && self.publish(k)
            }
            Answer::Published(Published::Already(k), _) => k == last.tip && k == last.edits,
            _ => false,
        }
    }

    // Whether the history explains an answer, where that was the last state seen before.
    fn explains(&mut self, before: Seen, told: &Told) -> bool {
        let (answer, last) = (told.answer, told.last);
        match told.call {
            Call::Edit(edit) => {
                self.tells_created(edit, answer)
                    && self.explains_edits(edit, 1, answer, before, last)
            }
            Call::Batch(first, count) => {
                !matches!(answer, Answer::Accepted(_, Some(_)))
                    && self.explains_edits(first, count, answer, before, last)
            }
            Call::Publish => self.explains_publication(answer, before, last),
            Call::Pin => matches!(answer, Answer::Nothing),
            Call::Hold | Call::Release => matches!(answer, Answer::Nothing) && last == before,
        }
    }

    /// The history explains all that a board recorded.
    ///
    /// # Errors
    ///
    /// Where it doesn't.
    pub fn explain_all(&mut self, all: &[Told]) -> Result<(), &'static str> {
        let mut before = Seen { edits: 0, tip: 0 };
        let mut held = None;
        for told in all {
            held = held_after(held, told);
            self.see(told.last);
            if !rises(before, told.last) || held != told.held || !self.explains(before, told) {
                return Err("the history doesn't explain an answer");
            }
            before = told.last;
        }
        Ok(())
    }

    /// Each edit was made once, each tip was published once, and all states that were seen follow one another.
    ///
    /// # Errors
    ///
    /// Where it isn't so.
    pub fn end(&self) -> Result<(), &'static str> {
        let mut most = 0;
        let mut k = 0;
        for place in &self.places {
            self.end_at(k, place)?;
            if place.least < most {
                return Err("fewer edits were published after more");
            }
            most = most.max(place.most);
            k = k.saturating_add(1);
        }
        if most != self.last.tip {
            return Err("the last publication was seen by no board");
        }
        Ok(())
    }

    // The edit behind so many was made once, and they were published once, if at all.
    fn end_at(&self, k: u32, place: &Place) -> Result<(), &'static str> {
        if place.made != u32::from(k < self.last.edits) {
            return Err("an edit was lost, or made twice");
        }
        if place.published != u32::from(place.is_tip && k > 0) {
            return Err("a publication was lost, or made twice");
        }
        Ok(())
    }
}

//! A survey, and the journal of its edits.
ghost use Rattle.std.specs.Prelude.{◌≡◌, IfOk};

use crate::bytes::bytes_of;
use edit_journal::Journal;
use leaf_store::Store;
use parent_rule::Steps;
use small_files::SURVEY;
use std::alloc::Global;
use std::sync::Arc;
use std::test::Fail;
use survey_conf::Conf;
use survey_core::read_batch;

// The description of the survey.
pub(crate) fn survey(alloc: Global) -> Result<Arc<Conf>, Fail> {
    Ok(Arc::new(alloc, Conf::read(alloc, SURVEY.as_bytes())?)?)
}

// The journal with the batch of that body at its end.
fn grown(alloc: Global, conf: &Conf, journal: &Journal, text: &str) -> Result<Journal, Fail>
    requires { journal.now.shape ≡ conf.now.shape }
    ensures { IfOk result (λ next. next.shape ≡ conf.now.shape) }
{
    let body = bytes_of(alloc, text)?;
    let edits = read_batch(alloc, &body, conf, &mut Steps::new())?;
    Ok(journal.append_all(edits)?)
}

// Batches of one, two and one edits.
static BATCHES: &str = "put 0 2888;%leaf 4 0 1 2 3 5%
remove 0;put 1 2888;%leaf 4 1 1 2 3 5%
add 3071 2888;%leaf 4 3071 1 2 3 5%";

// The journal of these batches, over no leaves.
pub(crate) fn journal(alloc: Global, conf: &Conf) -> Result<Journal, Fail>
    ensures { IfOk result (λ journal. journal.shape ≡ conf.now.shape) }
{
    let mut journal = Journal::start(alloc, conf.shape(), Store::new(alloc))?;
    for text in BATCHES.lines() {
        journal = grown(alloc, conf, &journal, text)?;
    }
    Ok(journal)
}

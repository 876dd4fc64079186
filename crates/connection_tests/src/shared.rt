//! Connections to one survey, each by a board of its own.
ghost use Rattle.std.specs.Prelude.{◌≡◌};

use crate::conversations::{EDIT, EDITED};
use crate::surveys::asks;
use log::Log;
use parent_rule::Steps;
use reader_pin::{Shared, Survey, SurveyBook, SurveySeat, open_shared};
use shared_history::Naming;
use small_files::SURVEY;
use small_survey::first_state;
use std::alloc::Global;
use std::marker::Brand;
use std::process::Abort;
use std::sync::Wait;
use std::test::Fail;
use std::thread::Threads;
use std::time::Clock;

// What one connection asks after another one has edited and published, and what it is answered.
static PIN: &str = "POST /pin
GET /Norder3/Dir0/Npix0.fits
";

static PINNED: &str =
    "200 OK;Content-Type: text/plain;Content-Length: 9;Survey-Prefix: 1|line pinned 1
200 OK;Content-Type: application/fits;Content-Length: 5760;Survey-Prefix: 1|tile 3 0&short -32768 -32768 3 -32768&pad
";

// One connection edits and publishes; then another one pins, and sees it.
fn pinned<'a, J: Naming, R: Threads + Wait + Sync + Clock + Log + Abort>(
    rt: &R,
    alloc: Global,
    survey: &'a Survey<J>,
    seats: Vec<SurveySeat<J>>,
) -> Result<(), Fail> {
    let mut boards = Vec::new(alloc);
    for seat in seats {
        boards.push(Shared::new(alloc, survey, seat))?;
    }
    let (first, others) = boards.split_first_mut().ok_or("no board")?;
    let (second, _) = others.split_first_mut().ok_or("one board")?;
    let mut steps = Steps::new();
    assert!(rt; asks(rt, alloc, first, EDIT, EDITED, &mut steps)?);
    assert!(rt; asks(rt, alloc, second, PIN, PINNED, &mut steps)?);
    Ok(())
}

// The same at a survey that is opened for it.
fn opened_and_pinned<J: Naming, R: Threads + Wait + Sync + Clock + Log + Abort>(
    rt: &R,
    alloc: Global,
    book: SurveyBook,
) -> Result<(), Fail>
    requires { book ≡ J.book }
{
    let state = first_state(rt, alloc, SURVEY)?;
    let (survey, seats): (Survey<J>, Vec<SurveySeat<J>>) = open_shared(rt, alloc, book, state, 2)?;
    let pinned = pinned(rt, alloc, &survey, seats);
    survey.close(rt);
    pinned
}

#[test]
fn a_pin_sees_what_another_connection_published(rt: HostRuntime) -> Result<(), Fail> {
    opened_and_pinned::<Brand, HostRuntime>(&rt, rt.alloc(), SurveyBook::new())
}

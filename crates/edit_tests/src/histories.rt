//! A history of plain numbers.
ghost use Rattle.std.specs.Prelude.{◌≡◌, ◌<◌};

use shared_history::{Blank, Law, Naming, Seat, SharedHistory, Shown, Window};
use std::alloc::{AllocError, Global};
use std::marker::Brand;
use std::process::Abort;
use std::sync::Wait;
use std::test::Fail;

// Any numbers are a history.
struct Numbers;

impl Law<u64> for Numbers {
    ghost legal = { λ _. Unit {0} };
}

// Appends a number, where the history has that seat.
fn add<J: Naming, R: Wait>(
    rt: &R,
    history: &SharedHistory<u64, Numbers, J>,
    seat: usize,
    number: u64,
) -> Result<Shown<u64, Numbers, J>, Fail> {
    let mut desk = history.lock(rt);
    if seat >= (**desk).newest().seats() {
        return Err("no such seat".into());
    }
    Ok((**desk).append(rt, seat, number)?)
}

// How many numbers were seen, and the last of them.
fn seen<J: Naming>(shown: &Shown<u64, Numbers, J>) -> (u64, u64) {
    (shown.len(), **shown.last())
}

// How many numbers the other has seen and the last of them, where these are more and none is that seat's.
fn more<J: Naming>(
    shown: &Shown<u64, Numbers, J>,
    other: &Shown<u64, Numbers, J>,
    seat: usize,
) -> Result<Option<(u64, u64)>, AllocError> {
    if seat >= shown.seats() {
        return Err(AllocError);
    }
    match shown.newer(other, seat)? {
        Some(more) => Ok(Some(seen(&more))),
        None => Ok(None),
    }
}

// Whether the window of a seat finds nothing that wasn't seen.
fn finds_nothing<J: Naming>(
    window: &mut Window<u64, Numbers, J>,
    shown: &Shown<u64, Numbers, J>,
    seat: usize,
) -> bool
    requires { seat < shown.now.seats }
{
    match window.look(shown, seat) {
        Some(_more) => false,
        None => true,
    }
}

// Two numbers are appended by the other seat, and seen through a window.
fn appended<J: Naming, R: Wait + Abort>(
    rt: &R,
    history: &SharedHistory<u64, Numbers, J>,
    seat: Seat<u64, Numbers, J>,
) -> Result<(), Fail> {
    let (number, mut window, first) = seat.into_parts();
    if number != 1 || seen(&first) != (1, 7) || first.seats() != 2 {
        return Err("not the first number of two seats".into());
    }
    check_first(rt, history, &mut window, &first)
}

// Only the first number was appended, and then a second.
fn check_first<J: Naming, R: Wait + Abort>(
    rt: &R,
    history: &SharedHistory<u64, Numbers, J>,
    window: &mut Window<u64, Numbers, J>,
    first: &Shown<u64, Numbers, J>,
) -> Result<(), Fail>
    requires { first.now.seats ≡ 2 }
{
    assert!(rt; finds_nothing(window, first, 1));
    let second = add(rt, history, 0, 9)?;
    check_second(rt, history, window, first, &second)
}

// The second number was appended too, and wasn't looked for, and then a third.
fn check_second<J: Naming, R: Wait + Abort>(
    rt: &R,
    history: &SharedHistory<u64, Numbers, J>,
    window: &mut Window<u64, Numbers, J>,
    first: &Shown<u64, Numbers, J>,
    second: &Shown<u64, Numbers, J>,
) -> Result<(), Fail>
    requires { first.now.seats ≡ 2 }
{
    add(rt, history, 0, 8)?;
    match window.look(first, 1) {
        Some(third) => check_third(rt, first, second, &third),
        None => Err("nothing was shown".into()),
    }
}

// All three were seen. A seat whose own numbers these are doesn't take them for another's.
fn check_third<J: Naming>(
    rt: &impl Abort,
    first: &Shown<u64, Numbers, J>,
    second: &Shown<u64, Numbers, J>,
    third: &Shown<u64, Numbers, J>,
) -> Result<(), Fail> {
    assert!(rt; seen(second) == (2, 9) && seen(third) == (3, 8));
    assert!(rt; more(first, second, 1)? == Some((2, 9)) && more(third, third, 0)?.is_none());
    assert!(rt; more(third, second, 1).is_err() && more(first, third, 0).is_err());
    Ok(())
}

// Opens a history with two seats, and ends it.
fn opened<J: Naming, R: Wait + Abort>(
    rt: &R,
    alloc: Global,
    book: Blank<u64, Numbers>,
) -> Result<(), Fail>
    requires { book ≡ J.book }
{
    let (history, mut seats): (SharedHistory<u64, Numbers, J>, Vec<Seat<u64, Numbers, J>>) =
        book.open(rt, alloc, 7, 2)?;
    let told = match seats.pop() {
        Some(seat) => appended(rt, &history, seat),
        None => Err("no seat".into()),
    };
    history.close(rt);
    told?;
    match seats.pop() {
        Some(seat) => assert!(rt; ended(seat)),
        None => return Err("no seat".into()),
    }
    Ok(())
}

// Once the history has ended its window finds nothing, however often one looks, though less was seen than was shown.
fn ended<J: Naming>(seat: Seat<u64, Numbers, J>) -> bool {
    let (number, mut window, first) = seat.into_parts();
    number == 0
        && seen(&first) == (1, 7)
        && finds_nothing(&mut window, &first, number)
        && finds_nothing(&mut window, &first, number)
}

#[test]
fn numbers_are_appended_and_seen(rt: HostRuntime) -> Result<(), Fail> {
    opened::<Brand, HostRuntime>(&rt, rt.alloc(), Blank::new())
}

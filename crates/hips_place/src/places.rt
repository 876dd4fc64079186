//! The places of a server, at once.
ghost use Rattle.std.specs.Prelude.{◌≡◌, ◌<◌, map, length};
ghost use denote.Param.Send.{IsSync, IsSend};
ghost use Rattle.hips_place.specs.Place.{ArePlaces, door_of};

use crate::place::{NamesConnections, PlaceEnd, serve_place};
use log::Log;
use parent_rule::Steps;
use reader_pin::ChangedWith;
use std::thread::{Threads, join_mut};
use std::time::Clock;
use survey_link::{Door, Gate, Means};

/// Serves the doors at once, each by the board at its place: up to `most` connections of each, one after another. Each place
/// has a thread and a counter of steps of its own; where no thread can be started, the places that it was for are served
/// before or after others. A place goes on to its end however another one ends. `first` is the number of the first place, for
/// the log alone.
///
/// It answers `Failed` where a place ended so; else `OutOfMemory` where one did; else `Done`.
#[cycle(places)]
pub(crate) fn serve_places<
    R: Threads + Sync + Log + NamesConnections<N>,
    N: Threads + Sync + Clock + Log + Drop,
    B: ChangedWith<N> + Send,
    D: Door + Send,
    G: Gate + Sync,
>(means: &Means<'_, R, G>, first: usize, most: u32, boards: &mut [B], doors: &mut [D]) -> PlaceEnd
where
    D::In: Send,
    D::Out: Send,
    requires { length boards.old ≡ length doors.old }
    ensures { ArePlaces most (map B.content boards.old) (map B.content boards.new)
        (map (door_of D.Door) doors.old) (map (door_of D.Door) doors.new) result }
{
    if boards.is_empty() {
        return PlaceEnd::Done;
    }
    if boards.len() == 1 {
        let mut steps = Steps::new();
        return serve_place::<R, N, B, D, G>(
            means.rt,
            means.alloc,
            first,
            &mut boards[0],
            &mut doors[0],
            most,
            means.gate,
            &mut steps,
        );
    }
    let halves = Halves {
        first,
        middle: boards.len() / 2,
        most,
    };
    serve_halves::<R, N, B, D, G>(means, &halves, boards, doors)
}

// Places from the first of these numbers on, of which so many are the near half, each with this limit of connections.
#[derive(Clone, Copy)]
struct Halves {
    first: usize,
    middle: usize,
    most: u32,
}

impl Halves {
    // The number of the first place of the far half, for the log.
    fn far(&self) -> usize {
        self.first.saturating_add(self.middle)
    }
}

// Serves the places of both halves at once. The closures capture only references that this function was given: of one that
// borrows a local number, the proof doesn't know what it writes through the slices.
#[cycle(places)]
fn serve_halves<
    R: Threads + Sync + Log + NamesConnections<N>,
    N: Threads + Sync + Clock + Log + Drop,
    B: ChangedWith<N> + Send,
    D: Door + Send,
    G: Gate + Sync,
>(means: &Means<'_, R, G>, halves: &Halves, boards: &mut [B], doors: &mut [D]) -> PlaceEnd
where
    D::In: Send,
    D::Out: Send,
    requires same { length boards.old ≡ length doors.old }
    requires near { 0 < halves.now.middle }
    requires far { halves.now.middle < length boards.old }
    ensures { ArePlaces halves.now.most (map B.content boards.old) (map B.content boards.new)
        (map (door_of D.Door) doors.old) (map (door_of D.Door) doors.new) result }
{
    let (rt, alloc, gate) = (means.rt, &means.alloc, means.gate);
    let (near_boards, far_boards) = boards.split_at_mut(halves.middle);
    let (near_doors, far_doors) = doors.split_at_mut(halves.middle);
    let (near, far) = join_mut(
        rt,
        &mut || -> PlaceEnd
            requires { IsSync R.row × IsSync G.row × IsSend B.row × IsSend D.row × (length near_boards.now ≡ length near_doors.now) }
            ensures { ArePlaces halves.entry.now.most (map B.content near_boards.entry.now) (map B.content near_boards.exit.now)
                (map (door_of D.Door) near_doors.entry.now) (map (door_of D.Door) near_doors.exit.now) result }
        {
            let alloc = *alloc;
            let means = Means { rt, alloc, gate };
            let (first, most) = (halves.first, halves.most);
            serve_places::<R, N, B, D, G>(&means, first, most, near_boards, near_doors)
        },
        &mut || -> PlaceEnd
            requires { IsSync R.row × IsSync G.row × IsSend B.row × IsSend D.row × (length far_boards.now ≡ length far_doors.now) }
            ensures { ArePlaces halves.entry.now.most (map B.content far_boards.entry.now) (map B.content far_boards.exit.now)
                (map (door_of D.Door) far_doors.entry.now) (map (door_of D.Door) far_doors.exit.now) result }
        {
            let alloc = *alloc;
            let means = Means { rt, alloc, gate };
            let (first, most) = (halves.far(), halves.most);
            serve_places::<R, N, B, D, G>(&means, first, most, far_boards, far_doors)
        },
    );
    near.worse(far)
}

//! A survey through the board of its only connection.
use board_story::Asking::{Batch, One};
use board_story::{ADD, Answer, Asked, Call, PUT, REMOVE, REPLACE, Row, told_alone};
use reader_pin::Published;
use std::test::Fail;

static CALLS: [Row; 22] = [
    (One(Call::Pin), Answer::Nothing, (0, 0, 0), None),
    (
        One(Call::Publish),
        Answer::Published(Published::Already(0), 0),
        (0, 0, 0),
        None,
    ),
    (
        One(Call::Edit(Asked { kind: PUT, leaf: 0 })),
        Answer::Accepted(1, Some(true)),
        (1, 0, 0),
        None,
    ),
    (One(Call::Pin), Answer::Nothing, (1, 0, 0), None),
    (
        One(Call::Publish),
        Answer::Published(Published::New(1), 1),
        (1, 1, 1),
        None,
    ),
    (
        One(Call::Publish),
        Answer::Published(Published::Already(1), 0),
        (1, 1, 1),
        None,
    ),
    (One(Call::Hold), Answer::Nothing, (1, 1, 1), Some((1, 1, 1))),
    (
        One(Call::Edit(Asked { kind: PUT, leaf: 0 })),
        Answer::Accepted(2, Some(false)),
        (2, 1, 1),
        Some((1, 1, 1)),
    ),
    (
        One(Call::Edit(Asked { kind: ADD, leaf: 0 })),
        Answer::Fault(0, 1, 2),
        (2, 1, 1),
        Some((1, 1, 1)),
    ),
    (
        One(Call::Edit(Asked {
            kind: REMOVE,
            leaf: 5,
        })),
        Answer::Fault(0, 2, 2),
        (2, 1, 1),
        Some((1, 1, 1)),
    ),
    (
        Batch(&[Asked { kind: ADD, leaf: 1 }, Asked { kind: ADD, leaf: 1 }]),
        Answer::Fault(1, 1, 2),
        (2, 1, 1),
        Some((1, 1, 1)),
    ),
    (
        Batch(&[
            Asked { kind: ADD, leaf: 1 },
            Asked {
                kind: REMOVE,
                leaf: 0,
            },
            Asked {
                kind: PUT,
                leaf: 3071,
            },
        ]),
        Answer::Accepted(5, None),
        (5, 1, 1),
        Some((1, 1, 1)),
    ),
    (
        Batch(&[
            Asked {
                kind: REPLACE,
                leaf: 1,
            },
            Asked {
                kind: REPLACE,
                leaf: 0,
            },
            Asked {
                kind: REMOVE,
                leaf: 1,
            },
        ]),
        Answer::Fault(1, 2, 5),
        (5, 1, 1),
        Some((1, 1, 1)),
    ),
    (
        One(Call::Edit(Asked { kind: ADD, leaf: 0 })),
        Answer::Accepted(6, Some(true)),
        (6, 1, 1),
        Some((1, 1, 1)),
    ),
    (
        One(Call::Publish),
        Answer::Published(Published::New(6), 2),
        (6, 6, 3),
        Some((1, 1, 1)),
    ),
    (One(Call::Pin), Answer::Nothing, (6, 6, 3), Some((1, 1, 1))),
    (One(Call::Hold), Answer::Nothing, (6, 6, 3), Some((6, 6, 3))),
    (
        One(Call::Edit(Asked {
            kind: REMOVE,
            leaf: 3071,
        })),
        Answer::Accepted(7, Some(false)),
        (7, 6, 3),
        Some((6, 6, 3)),
    ),
    (One(Call::Hold), Answer::Nothing, (7, 6, 3), Some((7, 6, 3))),
    (
        One(Call::Publish),
        Answer::Published(Published::New(7), 1),
        (7, 7, 2),
        Some((7, 6, 3)),
    ),
    (One(Call::Release), Answer::Nothing, (7, 7, 2), None),
    (
        One(Call::Publish),
        Answer::Published(Published::Already(7), 0),
        (7, 7, 2),
        None,
    ),
];

#[test]
fn a_survey_has_one_board(rt: HostRuntime) -> Result<(), Fail> {
    let told = told_alone(&rt, rt.alloc(), &CALLS)?;
    assert!(rt; told == CALLS.len(), "row {told}");
    Ok(())
}

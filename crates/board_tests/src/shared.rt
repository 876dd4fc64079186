//! A survey through boards of several connections.
use board_story::{Tale, with_boards};
use std::test::Fail;

#[test]
fn connections_are_served_at_once(rt: HostRuntime) -> Result<(), Fail> {
    with_boards(&rt, rt.alloc(), 8, Tale::AtOnce)
}

#[test]
fn boards_see_one_history(rt: HostRuntime) -> Result<(), Fail> {
    with_boards(&rt, rt.alloc(), 3, Tale::ThreeBoards)
}

#[test]
fn edits_go_on_while_a_publication_is_built(rt: HostRuntime) -> Result<(), Fail> {
    with_boards(&rt, rt.alloc(), 2, Tale::OpenLock)
}

#[test]
fn one_leaf_passes_the_gate_once(rt: HostRuntime) -> Result<(), Fail> {
    with_boards(&rt, rt.alloc(), 1, Tale::Counted)
}

#[test]
fn one_history_explains_a_storm(rt: HostRuntime) -> Result<(), Fail> {
    with_boards(&rt, rt.alloc(), 8, Tale::Storm)
}

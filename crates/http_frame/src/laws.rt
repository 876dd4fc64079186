//! What follows from the definitions: each law is the whole contract of its function.
ghost use Rattle.std.specs.Prelude.{◌≤◌, ◌^◌};
ghost use Rattle.http_frame.specs.Laws.{NextIsOne, NextHeadIsOne, SomeStands};

use crate::fill::{MAX_HEAD, head_length};
use crate::head::read_head;

/// One thing comes next in the unread bytes of a connection, and no other.
pub fn next_is_one()
    ensures { NextIsOne }
{}

/// One head, one refusal of a head or one end of the input comes next in the unread bytes of a connection, and no other.
pub fn next_head_is_one()
    ensures { NextHeadIsOne }
{}

/// Something comes next in the unread bytes of a connection, if a body may have `room` bytes: it is found by looking at all
/// of them.
pub fn some_next_stands(unread: &[u8], room: usize)
    requires { room ≤ 2 ^ 30 }
    ensures { SomeStands room unread.now }
{
    let front = &unread[..unread.len().min(MAX_HEAD)];
    match head_length(front, 0) {
        Some(length) => match read_head(&front[..length], room) {
            Ok(_) => return,
            Err(_) => return,
        },
        None => return,
    }
}

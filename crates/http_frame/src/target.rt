//! The path of a request target.
ghost use Rattle.std.specs.Prelude.{◌≡◌, ◌+◌, ◌≤◌, ◌==◌, length};
ghost use Rattle.std.specs.List.{before_first};
ghost use Rattle.http_frame.specs.Target.{local_part, after_host, question_mark};

use crate::text::same_text;

/// The target before its first `?`, without the host that it can name (RFC 9112, section 3.2).
pub(crate) fn local_part(target: &[u8]) -> &[u8]
    ensures value { result.now ≡ local_part (before_first (λ byte. byte == question_mark) target.now) }
    ensures short { length result.now ≤ length target.now + 1 }
{
    without_host(before_query(target))
}

// The target before its first `?`.
fn before_query(target: &[u8]) -> &[u8]
    ensures value { result.now ≡ before_first (λ byte. byte == question_mark) target.now }
    ensures short { length result.now ≤ length target.now }
{
    match target.iter().position(|byte| *byte == b'?') {
        Some(end) => &target[..end],
        None => target,
    }
}

// The target without the host that it may name.
fn without_host(target: &[u8]) -> &[u8]
    ensures value { result.now ≡ local_part target.now }
    ensures short { length result.now ≤ length target.now + 1 }
{
    match target.split_at_checked(7) {
        Some((scheme, rest)) => {
            if same_text(scheme, b"http://") {
                after_host(rest)
            } else {
                target
            }
        }
        None => target,
    }
}

// What begins at the first `/`, and `/` where there is none.
fn after_host(rest: &[u8]) -> &[u8]
    ensures value { result.now ≡ after_host rest.now }
    ensures short { length result.now ≤ length rest.now + 1 }
{
    match rest.iter().position(|byte| *byte == b'/') {
        Some(start) => &rest[start..],
        None => b"/",
    }
}

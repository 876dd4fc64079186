//! Four parts that are written one after another.
ghost use Rattle.std.specs.Prelude.{◌≡◌, ◌-◌, ◌^◌, ◌≤◌, min, length, drop};
ghost use Rattle.survey_link.specs.Link.{parts_bytes};

/// How many bytes the parts have, at most `usize::MAX`.
pub(crate) fn total(parts: [&[u8]; 4]) -> usize
    ensures { result ≡ min (length (parts_bytes parts.entry)) (2 ^ 64 - 1) }
{
    let [first, second, third, fourth] = parts;
    first
        .len()
        .saturating_add(second.len())
        .saturating_add(third.len())
        .saturating_add(fourth.len())
}

/// The parts without their first `count` bytes.
pub(crate) fn rest_of<'a>(parts: [&'a [u8]; 4], count: usize) -> [&'a [u8]; 4]
    requires { count ≤ length (parts_bytes parts) }
    ensures { parts_bytes result ≡ drop count (parts_bytes parts.entry) }
{
    let [first, second, third, fourth] = parts;
    let (first, count) = without(first, count);
    let (second, count) = without(second, count);
    let (third, count) = without(third, count);
    let (fourth, _) = without(fourth, count);
    [first, second, third, fourth]
}

// The part without its first `count` bytes, and how many more than it has are to go.
fn without(part: &[u8], count: usize) -> (&[u8], usize)
    ensures rest { result.0.now ≡ drop count part.now }
    ensures more { result.1 ≡ count - length part.now }
{
    let gone = part.len().min(count);
    (&part[gone..], count - gone)
}

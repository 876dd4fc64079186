//! What the reply that is due must say.
ghost use Rattle.std.specs.Prelude.{◌≡◌, ◌↔◌, ◌∷◌, ◌++◌, [], decimal, IsTrue};
ghost use Rattle.mirror_frame.specs.Reply.{FitsPrefix, FitsBody, pinned_line};

use itoa::Buffer;

/// What the reply that is due must say.
#[derive(Clone, Copy, Debug, PartialEq, Eq)]
pub enum Due {
    /// Which state was pinned.
    Pinned,
    /// That it is of the state with so many edits, which was pinned.
    Survey(u32),
    /// Nothing.
    Any,
}

impl Due {
    /// Whether a head with this Survey-Prefix is one of such a reply.
    pub(crate) fn fits_prefix(self, prefix: Option<u32>) -> bool
        ensures { IsTrue result ↔ FitsPrefix self prefix }
    {
        match self {
            Due::Pinned => prefix.is_some(),
            Due::Survey(pinned) => prefix == Some(pinned),
            Due::Any => true,
        }
    }

    /// Whether such a reply with this Survey-Prefix has this body.
    pub(crate) fn fits_body(self, prefix: Option<u32>, body: &[u8]) -> bool
        ensures { IsTrue result ↔ FitsBody self prefix body.now }
    {
        match (self, prefix) {
            (Due::Pinned, Some(pinned)) => is_pinned_line(pinned, body),
            _ => true,
        }
    }
}

// Whether the body says that the state with so many edits was pinned.
fn is_pinned_line(pinned: u32, body: &[u8]) -> bool
    ensures { IsTrue result ↔ (body.now ≡ pinned_line pinned) }
{
    match body.strip_prefix(b"pinned ") {
        Some(line) => is_number_line(pinned, line),
        None => false,
    }
}

// Whether the line is the number in plain decimals and a line feed.
fn is_number_line(number: u32, line: &[u8]) -> bool
    ensures { IsTrue result ↔ (line.now ≡ decimal number ++ 10 ∷ []) }
{
    match line.strip_suffix(b"\n") {
        Some(digits) => digits == Buffer::new().format(number).as_bytes(),
        None => false,
    }
}

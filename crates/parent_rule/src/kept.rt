//! Which of four numbers are kept.
ghost use Rattle.std.specs.Prelude.{◌≡◌};
ghost use Rattle.parent_rule.specs.Kept.{count_kept};

/// Which of four numbers are kept: those that aren't blank.
#[derive(Clone, Copy)]
pub(crate) struct Kept {
    /// Whether the first is.
    pub(crate) a: bool,
    /// Whether the second is.
    pub(crate) b: bool,
    /// Whether the third is.
    pub(crate) c: bool,
    /// Whether the fourth is.
    pub(crate) d: bool,
}

impl Kept {
    /// How many are kept.
    #[inline(always)]
    pub(crate) fn count(self) -> u8
        ensures { result ≡ count_kept self.a self.b self.c self.d }
    {
        u8::from(self.a) + u8::from(self.b) + u8::from(self.c) + u8::from(self.d)
    }
}

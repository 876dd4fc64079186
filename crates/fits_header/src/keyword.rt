//! The keywords that are read.
ghost use Rattle.std.specs.Prelude.{◌≡◌, find};
ghost use Rattle.fits_header.specs.Values.{keywords, columns, is_named};

/// A keyword that is read.
#[derive(Clone, Copy, Debug, PartialEq, Eq)]
pub(crate) enum Keyword {
    Simple,
    Bitpix,
    Naxis,
    Naxis1,
    Naxis2,
    Bscale,
    Bzero,
    Blank,
}

const KEYWORDS: [Keyword; 8] = [
    Keyword::Simple,
    Keyword::Bitpix,
    Keyword::Naxis,
    Keyword::Naxis1,
    Keyword::Naxis2,
    Keyword::Bscale,
    Keyword::Bzero,
    Keyword::Blank,
];

impl Keyword {
    /// The keyword of a named card; `None` if and only if the card is none.
    pub(crate) fn of(card: &[u8]) -> Option<Keyword>
        ensures { result ≡ find (λ keyword. is_named keyword card.now) keywords }
    {
        KEYWORDS.iter().copied().find(|keyword| keyword.names(card))
    }

    /// Whether the card is a named card of this keyword.
    pub(crate) fn names(self, card: &[u8]) -> bool
        ensures { result ≡ is_named self card.now }
    {
        card.starts_with(self.columns())
    }

    // Columns 1 to 10 of its cards.
    fn columns(self) -> &'static [u8]
        ensures { result.now ≡ columns self }
    {
        match self {
            Keyword::Simple => b"SIMPLE  = ",
            Keyword::Bitpix => b"BITPIX  = ",
            Keyword::Naxis => b"NAXIS   = ",
            Keyword::Naxis1 => b"NAXIS1  = ",
            Keyword::Naxis2 => b"NAXIS2  = ",
            Keyword::Bscale => b"BSCALE  = ",
            Keyword::Bzero => b"BZERO   = ",
            Keyword::Blank => b"BLANK   = ",
        }
    }
}

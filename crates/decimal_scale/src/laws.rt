//! What follows from the definitions alone. Each function does nothing: its contract is the law.
ghost use Rattle.decimal_scale.specs.Laws.{WrittenIsRead, ReadIsNormal, WrittenIsShort, WholeIsRead, PlainIsRead};

/// What is written of a number in normal form is read again as that number.
pub fn written_is_read()
    ensures { WrittenIsRead }
{}

/// What is read is in normal form.
pub fn read_is_normal()
    ensures { ReadIsNormal }
{}

/// The text of a number in normal form has at most 26 bytes.
pub fn written_is_short()
    ensures { WrittenIsShort }
{}

/// What is written of a whole number of 64 bits is read again as that number.
pub fn whole_is_read()
    ensures { WholeIsRead }
{}

/// Plain decimals are read as their number, and nothing else is read.
pub fn plain_is_read()
    ensures { PlainIsRead }
{}

//! Why a text is no description.
ghost use Rattle.std.specs.Prelude.{◌≡◌, Some, decimal};
ghost use Rattle.survey_conf.specs.FaultTexts.{number_of, fault_text, refusal_text};

use std::error::Error;
use std::fmt;

/// What is wrong with a description. It is shown as its number, from 1.
#[derive(Clone, Copy, Debug, PartialEq, Eq)]
pub enum ConfKind {
    /// The line has no `=`, or its key or its value is not of the form that keys and values have.
    Syntax = 1,
    /// The key begins with `survey_` and is not known, or it is `survey_rule` in a description of version 1.
    Unknown = 2,
    /// The key stood in an earlier line.
    Twice = 3,
    /// The value is not one that the key takes.
    Range = 4,
    /// A required key is not there.
    Missing = 5,
}

impl ConfKind {
    /// The number of the kind: 1 for `Syntax`, 2 for `Unknown`, 3 for `Twice`, 4 for `Range`, 5 for `Missing`.
    pub fn number(self) -> u8
        ensures { result ≡ number_of self }
    {
        self as u8
    }
}

impl fmt::Display for ConfKind {
    ghost output = { λ kind. Some (decimal (number_of kind)) };

    fn fmt<W: fmt::Write>(&self, f: &mut fmt::Formatter<W>) -> fmt::Result {
        write!(f, "{}", self.number())
    }
}

/// The first fault of a description: the line where it is, counted from 1, or 0 where a line is missing, and its kind. It
/// is shown as the two numbers with a space between, as in `5 4`.
#[derive(Clone, Copy, Debug, PartialEq, Eq)]
pub struct ConfFault {
    pub line: u64,
    pub kind: ConfKind,
}

impl fmt::Display for ConfFault {
    ghost output = { λ fault. Some (fault_text fault) };

    fn fmt<W: fmt::Write>(&self, f: &mut fmt::Formatter<W>) -> fmt::Result {
        write!(f, "{} {}", self.line, self.kind)
    }
}

impl Error for ConfFault {}

/// Why no description was read. It is shown as its fault, or as `out of memory`.
#[derive(Clone, Copy, Debug, PartialEq, Eq)]
pub enum ConfRefusal {
    /// The text is no description.
    Fault(ConfFault),
    /// A growth of memory was refused.
    OutOfMemory,
}

impl fmt::Display for ConfRefusal {
    ghost output = { λ refusal. Some (refusal_text refusal) };

    fn fmt<W: fmt::Write>(&self, f: &mut fmt::Formatter<W>) -> fmt::Result {
        match self {
            ConfRefusal::Fault(fault) => write!(f, "{fault}"),
            ConfRefusal::OutOfMemory => f.write_str("out of memory"),
        }
    }
}

impl Error for ConfRefusal {}

//! Where bytes come from.
ghost use Rattle.std.specs.Prelude.{◌≡◌, ℕ, ◌<◌, ◌≤◌, List, Option, length, take, is_err, IfOk, OnErr, Ok};
ghost use Rattle.std.specs.Io.KnownBytes.{Consumes, IsAtEnd};
ghost use Rattle.survey_link.specs.Link.{CountsFault, readings_after};

use crate::faults::Failed;

/// Where bytes come from.
pub trait Source {
    /// The bytes left, where the proof can see them.
    ghost left: { Self → Option (List ℕ) };

    /// The number of calls of `read`, refused or not, where the proof can see it.
    ghost readings: { Self → Option ℕ };

    /// How often it has failed: a call that answers `Failed` raises the count, and no other call does.
    ghost faults: { Self → ℕ };

    /// The number of its connection among those of the door that it came through, where the proof can see it. It never
    /// changes.
    ghost number: { Self → Option ℕ };

    /// Reads the next bytes to the front of `buf`, and answers how many: 0 if and only if nothing is left.
    ///
    /// # Errors
    ///
    /// `Failed` only where the count of faults rose; what is left stays.
    fn read(&mut self, buf: &mut [u8]) -> Result<usize, Failed>
        requires { 0 < length buf.old }
        ensures count { IfOk result (λ m. m ≤ length buf.old) }
        ensures taken { IfOk result (λ m. Consumes (left self.old) (left self.new) (take m buf.new)) }
        ensures end { result ≡ Ok 0 → IsAtEnd (left self.new) }
        ensures kept { OnErr result (left self.new ≡ left self.old) }
        ensures counted { readings self.new ≡ readings_after 1 (readings self.old) }
        ensures faults { CountsFault (is_err result) (faults self.old) (faults self.new) }
        ensures never_falls { faults self.old ≤ faults self.new }
        ensures same { number self.new ≡ number self.old };
}

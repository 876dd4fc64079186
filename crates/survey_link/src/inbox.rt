//! The bytes that were read of a source and not yet used.
ghost use Rattle.std.specs.Prelude.{◌≡◌, ◌+◌, ◌<◌, ◌≤◌, ◌⊎◌, ℕ, List, [], ◌++◌, ◌==◌, length, take, drop, position, Ok, is_err, IfOk, OnErr};
ghost use Rattle.std.specs.Io.KnownBytes.{Consumes, IsAtEnd};
ghost use Rattle.survey_link.specs.Link.{CountsFault, readings_after};

use crate::faults::Failed;
use crate::source::Source;
use std::alloc::{AllocError, Global};

/// The bytes that were read of a source and not yet given to whoever uses them, with room for more behind them.
#[derive(Drop)]
pub struct Inbox {
    bytes: Vec<u8>,
    start: usize,
    end: usize,
    ghost ordered: { start ≤ end },
    ghost within: { end ≤ length bytes.items },
}

impl Inbox {
    ghost use Rattle.survey_link.specs.Inbox.{given, held, size};

    /// An inbox for so many bytes, which holds none.
    ///
    /// # Errors
    ///
    /// `AllocError` where there is no memory for them.
    pub fn new(alloc: Global, capacity: usize) -> Result<Inbox, AllocError>
        ensures empty { IfOk result (λ b. held b ≡ []) }
        ensures size { IfOk result (λ b. size b ≡ capacity) }
        ensures places { IfOk result (λ b. (b.start ≡ 0) × (b.end ≡ 0)) }
    {
        let bytes = Vec::from_elem(alloc, 0, capacity)?;
        Ok(Inbox {
            bytes,
            start: 0,
            end: 0,
        })
    }

    /// Holds no bytes any more.
    pub fn clear(&mut self)
        ensures empty { held self.new ≡ [] }
        ensures size { size self.new ≡ size self.old }
        ensures places { (self.new.start ≡ 0) × (self.new.end ≡ 0) }
    {
        self.start = 0;
        self.end = 0;
    }

    /// The bytes that are held.
    pub fn held(&self) -> &[u8]
        ensures { result.now ≡ held self.now }
    {
        &self.bytes[self.start..self.end]
    }

    /// The place of the first byte that is held.
    pub fn start(&self) -> usize
        ensures { result ≡ self.now.start }
    {
        self.start
    }

    /// Gives the first `count` bytes, which are then no longer held.
    pub fn give(&mut self, count: usize)
        requires { count ≤ length (held self.old) }
        ensures given { given count self.new ≡ take count (held self.old) }
        ensures rest { held self.new ≡ drop count (held self.old) }
        ensures size { size self.new ≡ size self.old }
        ensures places { (self.new.start ≡ self.old.start + count) × (self.new.end ≡ self.old.end) }
    {
        self.start += count;
    }

    /// Gives the first bytes to the front of `out`, as many as are held and fit, and answers how many these are.
    pub fn give_to(&mut self, out: &mut [u8]) -> usize
        ensures within { result ≤ length out.new }
        ensures given { take result out.new ++ held self.new ≡ held self.old }
        ensures all { (held self.new ≡ []) ⊎ (result ≡ length out.new) }
        ensures len { length out.new ≡ length out.old }
        ensures size { size self.new ≡ size self.old }
    {
        let held = self.held();
        let count = held.len().min(out.len());
        out[..count].copy_from_slice(&held[..count]);
        self.give(count);
        count
    }

    /// The last `count` bytes that were given.
    pub fn given(&self, count: usize) -> &[u8]
        requires { count ≤ self.now.start }
        ensures { result.now ≡ given count self.now }
    {
        &self.bytes[self.start - count..self.start]
    }

    /// Moves the bytes to the front, so that all room is after them.
    pub fn move_to_front(&mut self)
        ensures same { held self.new ≡ held self.old }
        ensures size { size self.new ≡ size self.old }
        ensures places { (self.new.start ≡ 0) × (self.new.end ≡ length (held self.old)) }
    {
        if self.start > 0 {
            let (start, end) = (self.start, self.end);
            self.bytes.copy_within(start..end, 0);
            self.start = 0;
            self.end = end - start;
        }
    }

    /// Reads once behind the bytes that are held, up to the place `limit` of the buffer, and answers how many bytes came.
    ///
    /// # Errors
    ///
    /// `Failed` only where the source's count of faults rose; the bytes that are held stay.
    pub fn read<S: Source>(&mut self, src: &mut S, limit: usize) -> Result<usize, Failed>
        requires room { self.old.end < limit }
        requires within { limit ≤ size self.old }
        ensures read { IfOk result (λ count. (more : List ℕ) × (length more ≡ count) × (held self.new ≡ held self.old ++ more)
            × Consumes (S.left src.old) (S.left src.new) more) }
        ensures counted { S.readings src.new ≡ readings_after 1 (S.readings src.old) }
        ensures end { result ≡ Ok 0 → IsAtEnd (S.left src.new) }
        ensures kept { OnErr result ((held self.new ≡ held self.old) × (S.left src.new ≡ S.left src.old)) }
        ensures faults { CountsFault (is_err result) (S.faults src.old) (S.faults src.new) }
        ensures never_falls { S.faults src.old ≤ S.faults src.new }
        ensures size { size self.new ≡ size self.old }
        ensures start { self.new.start ≡ self.old.start }
        ensures limit { self.new.end ≤ limit }
        ensures grown { IfOk result (λ count. self.new.end ≡ self.old.end + count) }
    {
        let count = src.read(&mut self.bytes[self.end..limit])?;
        self.end += count;
        Ok(count)
    }

    /// Moves the bytes to the front, reads once behind them, up to the place `limit` of the buffer, and answers how many bytes
    /// came.
    ///
    /// # Errors
    ///
    /// `Failed` only where the source's count of faults rose; the bytes that are held stay.
    pub fn read_more<S: Source>(&mut self, src: &mut S, limit: usize) -> Result<usize, Failed>
        requires room { length (held self.old) < limit }
        requires within { limit ≤ size self.old }
        ensures read { IfOk result (λ count. (more : List ℕ) × (length more ≡ count) × (held self.new ≡ held self.old ++ more)
            × Consumes (S.left src.old) (S.left src.new) more) }
        ensures counted { S.readings src.new ≡ readings_after 1 (S.readings src.old) }
        ensures end { result ≡ Ok 0 → IsAtEnd (S.left src.new) }
        ensures kept { OnErr result ((held self.new ≡ held self.old) × (S.left src.new ≡ S.left src.old)) }
        ensures faults { CountsFault (is_err result) (S.faults src.old) (S.faults src.new) }
        ensures never_falls { S.faults src.old ≤ S.faults src.new }
        ensures size { size self.new ≡ size self.old }
        ensures limit { self.new.end ≤ limit }
    {
        self.move_to_front();
        self.read(src, limit)
    }
}

/// Where a byte first is.
pub fn place_of(byte: u8, bytes: &[u8]) -> Option<usize>
    ensures { result ≡ position (λ b. b == byte) bytes.now }
{
    bytes.iter().position(|b| *b == byte)
}

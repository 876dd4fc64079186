//! The leaf records that `probe` reads.
ghost use Rattle.std.specs.Prelude.{◌≡◌, ℕ, ◌*◌, ◌^◌, ◌<◌, ◌≤◌, List, length, take, is_err, is_some, nat_lt, if◌then◌else◌, IfOk, IfErr, IfSome, IfNone, Some, [], MatchOption, MatchResult};
ghost use Rattle.std.specs.Io.KnownBytes.{Consumes, IsAtEnd};
ghost use Rattle.survey_link.specs.Link.{CountsFault};
ghost use Rattle.healpix_nested.specs.Cells.{cell_count};
ghost use Rattle.tile_pixels.specs.Stored.{numbers_from};
ghost use Rattle.leaf_probe.specs.Probe.{probe_depth};
ghost use Rattle.leaf_probe.specs.Status.{read_failed};
ghost use Rattle.leaf_probe.specs.Reading.{TakesRecord, StopsRecord, HasStatusIn, record_statuses, ReadsPieces, empty_readings};

use crate::fault::ProbeFault;
use byteorder::{BigEndian, ByteOrder};
use healpix_nested::cells;
use parent_rule::Depth;
use survey_link::{Failed, Source};

/// The blank number of the records.
const BLANK: i64 = -32_768;

// Reads until the buffer is full or the source at its end, and answers how many bytes were read.
fn read_full<S: Source>(source: &mut S, buf: &mut [u8]) -> Result<usize, Failed>
    ensures count { IfOk result (λ m. m ≤ length buf.old) }
    ensures taken { IfOk result (λ m. Consumes (S.left source.old) (S.left source.new) (take m buf.new)) }
    ensures end { IfOk result (λ m. m < length buf.old → IsAtEnd (S.left source.new)) }
    ensures reads { MatchResult result
        (λ m. ReadsPieces (if nat_lt m (length buf.old) then 1 else 0) (S.left source.old) (S.left source.new) (S.readings source.old) (S.readings source.new))
        (λ _. ReadsPieces 1 (S.left source.old) (S.left source.new) (S.readings source.old) (S.readings source.new)) }
    ensures faults { CountsFault (is_err result) (S.faults source.old) (S.faults source.new) }
{
    let mut filled = 0;
    while filled < buf.len() {
        let count = source.read(&mut buf[filled..])?;
        if count == 0 {
            return Ok(filled);
        }
        filled += count;
    }
    Ok(filled)
}

/// What the stored numbers of a record are.
pub fn depth() -> Depth
    ensures { result ≡ probe_depth }
{
    Depth::new(16, BLANK).unwrap()
}

/// The number of the next leaf, whose stored bytes are read into `raw`; `None` where the input is at its end.
///
/// # Errors
///
/// `Cut` where the input ends within the record, `OutOfRange` where its number is no leaf's, found once its 8 bytes are read;
/// `Read` only where the source's count of faults rose. After a reading that was refused, or that found the end, none is made.
pub fn next_record<S: Source>(
    top: u8,
    n: u8,
    source: &mut S,
    raw: &mut [u8],
) -> Result<Option<u64>, ProbeFault>
    requires top { top ≤ 20 }
    requires raw { length raw.old ≡ 2 * 4 ^ n }
    ensures told { (input : List ℕ) → S.left source.old ≡ Some input → IfOk result (λ next. MatchOption next (input ≡ [])
        (λ leaf. TakesRecord top n input (S.left source.new) leaf (numbers_from 16 (4 ^ n) raw.new))) }
    ensures stopped { (input : List ℕ) → S.left source.old ≡ Some input → IfErr result (StopsRecord top n input) }
    ensures kinds { IfErr result (HasStatusIn record_statuses) }
    ensures leaf { IfOk result (λ next. IfSome next (λ leaf. leaf < cell_count top)) }
    ensures end { IfOk result (λ next. IfNone next (IsAtEnd (S.left source.new))) }
    ensures reads { MatchResult result
        (λ next. ReadsPieces (if is_some next then 0 else 1) (S.left source.old) (S.left source.new) (S.readings source.old) (S.readings source.new))
        (λ fault. ReadsPieces (empty_readings fault) (S.left source.old) (S.left source.new) (S.readings source.old) (S.readings source.new)) }
    ensures faults { CountsFault (read_failed result) (S.faults source.old) (S.faults source.new) }
{
    let mut head = [0; 8];
    let count = read_full(source, &mut head)?;
    if count == 0 {
        return Ok(None);
    }
    if count < head.len() {
        return Err(ProbeFault::Cut);
    }
    let leaf = BigEndian::read_u64(&head);
    if leaf >= cells(top) {
        return Err(ProbeFault::OutOfRange);
    }
    if read_full(source, raw)? < raw.len() {
        return Err(ProbeFault::Cut);
    }
    Ok(Some(leaf))
}

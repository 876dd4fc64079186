//! The header of a write-ahead log.
ghost use Rattle.std.specs.Prelude.{◌≡◌, ◌≤◌, length};
ghost use Rattle.std.specs.Result.{result_err};
ghost use Rattle.wal_frame.specs.Header.{header_bytes, header_refusal, field_refusal};

use crate::refusal::{Reason, WalRefusal};
use crate::survey::SurveyMark;

/// The length of a header.
pub const HEADER_LEN: usize = 64;

/// What a header begins with. Its first byte is the header's gate.
const MAGIC: [u8; 8] = *b"HIPSDWAL";

const VERSION: u32 = 1;

/// The header of a survey's WAL.
pub fn header_of(mark: &SurveyMark) -> [u8; HEADER_LEN]
    ensures { result ≡ header_bytes mark.now }
{
    let mut bytes = [0; HEADER_LEN];
    bytes[..8].copy_from_slice(&MAGIC);
    bytes[8..12].copy_from_slice(&VERSION.to_be_bytes());
    bytes[12..16].copy_from_slice(&mark.tile_length.to_be_bytes());
    bytes[16..48].copy_from_slice(&mark.digest);
    bytes
}

/// Whether the bytes begin with the header of the survey's WAL.
///
/// # Errors
///
/// The first that stands: `NoHeader` at 0 where they don't begin with `HIPSDWAL`; `OtherVersion` at 8; `NoHeader` at 48 where the
/// last 16 bytes aren't zero; `OtherSurvey` at 12 where tiles have another length, at 16 where the digest is another.
#[tactic(auto, unfolding(crate::specs::Header::header_refusal))]
pub fn check_header(bytes: &[u8], mark: &SurveyMark) -> Result<(), WalRefusal>
    requires { 64 ≤ length bytes.now }
    ensures { result_err result ≡ header_refusal mark.now bytes.now }
{
    let header = header_of(mark);
    check_field(bytes, &header, 0, 8, Reason::NoHeader)?;
    check_field(bytes, &header, 8, 12, Reason::OtherVersion)?;
    check_field(bytes, &header, 48, 64, Reason::NoHeader)?;
    check_field(bytes, &header, 12, 16, Reason::OtherSurvey)?;
    check_field(bytes, &header, 16, 48, Reason::OtherSurvey)
}

// Whether the bytes from `start` to `end` are the header's.
#[tactic(auto, unfolding(crate::specs::Header::field_refusal))]
fn check_field(
    bytes: &[u8],
    header: &[u8],
    start: usize,
    end: usize,
    reason: Reason,
) -> Result<(), WalRefusal>
    requires order { start ≤ end }
    requires bytes { end ≤ length bytes.now }
    requires header { end ≤ length header.now }
    ensures { result_err result ≡ field_refusal reason start end bytes.now header.now }
{
    if bytes[start..end] != header[start..end] {
        return Err(WalRefusal {
            reason,
            offset: start as u64,
        });
    }
    Ok(())
}

//! How many leaves a shelf may have.
ghost use Rattle.std.specs.Prelude.{◌≡◌};
ghost use Rattle.std.specs.Result.{result_err};
ghost use Rattle.shelf_io.specs.Opening.{count_refusal};

use crate::logging::say_too_many;
use crate::refusal::LoadRefusal;
use edit_journal::{MOST_CHARGE, leaf_charge};
use log::Log;
use pyramid_model::Shape;

/// Judges how many leaves there are. If they need too many bytes, how many is logged.
///
/// # Errors
///
/// `TooMany` if and only if their charge exceeds 2^29 bytes.
pub(crate) fn judge_count<R: Log>(rt: &R, shape: Shape, count: usize) -> Result<(), LoadRefusal>
    ensures { result_err result ≡ count_refusal shape count }
{
    let leaves = count as u64;
    let charge = leaves.saturating_mul(leaf_charge(shape));
    if charge > MOST_CHARGE {
        say_too_many(rt, leaves, charge);
        return Err(LoadRefusal::TooMany { leaves });
    }
    Ok(())
}

//! Whether an edit is accepted.
ghost use Rattle.std.specs.Prelude.{◌≡◌};
ghost use Rattle.std.specs.Option.{option_or};
ghost use Rattle.std.specs.Result.{result_err};
ghost use Rattle.edit_journal.specs.Edit.{edit_of};
ghost use Rattle.edit_journal.specs.Faults.{leaf_fault, limit_fault, most_edits, most_charge};

use crate::charge::MOST_CHARGE;
use crate::edit::Edit;
use crate::fault::EditFault;

/// How many edits a journal accepts.
pub(crate) const MOST_EDITS: u32 = 65_536;

// Judges an edit whose leaf is there or isn't, as one more than so many edits, with which the charge is that.
pub(crate) fn judge(edit: &Edit, there: bool, count: u32, charge: u64) -> Result<(), EditFault>
    ensures { result_err result ≡ option_or (leaf_fault there (edit_of edit.now)) (limit_fault count charge) }
{
    match edit {
        Edit::Add { .. } if there => return Err(EditFault::Exists),
        Edit::Replace { .. } | Edit::Remove { .. } if !there => return Err(EditFault::Absent),
        _ => {}
    }
    if count >= MOST_EDITS {
        return Err(EditFault::Edits);
    }
    if charge > MOST_CHARGE {
        return Err(EditFault::Bytes);
    }
    Ok(())
}

//! What is asked of the lines of a description together.
ghost use Rattle.std.specs.Prelude.{◌≡◌, IfErr, IfOk, OnOk, MatchOption, None, Some, true, false, pos};
ghost use Rattle.std.specs.List.{list_all};
ghost use Rattle.survey_conf.specs.Numbers;
ghost use Rattle.survey_conf.specs.Keys.{name, required_keys};
ghost use Rattle.survey_conf.specs.Entries;
ghost use Rattle.survey_conf.specs.Faults;
ghost use Rattle.survey_conf.specs.Description.{description};
ghost use Rattle.survey_conf.specs.EntriesView.{entries_view};
ghost use Rattle.survey_conf.specs.declared.key.Key.TheVariants.{SurveyBitpix, SurveyBlank};

use crate::entries::{Entries, is_there, line_of};
use crate::fault::{ConfFault, ConfKind};
use crate::key::Key;
use crate::values;
use parent_rule::Depth;

const REQUIRED: [Key; 7] = [
    Key::CreatorDid,
    Key::ObsTitle,
    Key::HipsReleaseDate,
    Key::HipsStatus,
    Key::HipsOrder,
    Key::SurveyBitpix,
    Key::SurveyBlank,
];

/// The depth that the lines describe; what is wrong with the lines together, where something is.
pub(crate) fn depth_of(entries: &Entries<'_>) -> Result<Depth, ConfFault>
    ensures depth { IfOk result (λ depth. depth ≡ (description (entries_view entries.now.entries)).shape.depth) }
    ensures accepted { OnOk result (Faults.fault_together (entries_view entries.now.entries) ≡ None) }
    ensures refused { IfErr result (λ fault. Faults.fault_together (entries_view entries.now.entries) ≡ Some fault) }
{
    if !is_complete(entries) {
        return Err(ConfFault {
            line: 0,
            kind: ConfKind::Missing,
        });
    }
    match mean_depth(entries) {
        None => Err(ConfFault {
            line: line_of(entries, Key::SurveyBlank),
            kind: ConfKind::Range,
        }),
        Some(_) if has_stray_rule(entries) => Err(ConfFault {
            line: line_of(entries, Key::SurveyRule),
            kind: ConfKind::Unknown,
        }),
        Some(depth) => Ok(depth.with(values::combine(entries))),
    }
}

// Whether each required key is there.
fn is_complete(entries: &Entries<'_>) -> bool
    ensures { result ≡ list_all (λ key. Entries.is_there (entries_view entries.now.entries) (name key)) required_keys }
{
    REQUIRED.iter().all(|key| is_there(entries, *key))
}

// The depth of the lines under the mean, where the blank number is one of it.
fn mean_depth(entries: &Entries<'_>) -> Option<Depth>
    ensures { MatchOption result (Faults.is_blank_of_depth (entries_view entries.now.entries) ≡ false) (λ depth.
        (Faults.is_blank_of_depth (entries_view entries.now.entries) ≡ true)
        × (depth.bitpix ≡ Entries.read_as Numbers.bitpix 8 (entries_view entries.now.entries) SurveyBitpix)
        × (depth.blank ≡ Entries.read_as Numbers.whole (pos 0) (entries_view entries.now.entries) SurveyBlank)) }
{
    Depth::new(values::bitpix(entries), values::blank(entries))
}

// Whether there is a rule where the version has none.
fn has_stray_rule(entries: &Entries<'_>) -> bool
    ensures { result ≡ Faults.has_stray_rule (entries_view entries.now.entries) }
{
    is_there(entries, Key::SurveyRule) && values::version(entries) == 1
}

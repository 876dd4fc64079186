//! What the lines of a description say: keys, each with its value and the line where it stands.
ghost use Rattle.std.specs.Prelude.{◌≡◌, ◌++◌, IfOk, OnOk, IfErr, None};
ghost use Rattle.std.specs.Option.{option_copied, option_map, option_to_list};
ghost use Rattle.survey_conf.specs.Lines.{contents};
ghost use Rattle.survey_conf.specs.Entries;
ghost use Rattle.survey_conf.specs.Keys.{name};
ghost use Rattle.survey_conf.specs.Faults;
ghost use Rattle.survey_conf.specs.declared.fault.ConfRefusal.TheVariants.{Fault};
ghost use Rattle.survey_conf.specs.EntriesView.{entries_view, setting_view};

use crate::fault::{ConfFault, ConfKind, ConfRefusal};
use crate::key::{Key, has_own_prefix};
use crate::line::{content, first_line, is_skipped, pair};
use indexmap::IndexMap;
use std::alloc::Global;

/// The value of a key, and the number of its line.
#[derive(Clone, Copy)]
pub(crate) struct Setting<'a> {
    pub(crate) line: u64,
    pub(crate) value: &'a [u8],
}

/// The keys in the order of their lines, none twice.
pub(crate) type Entries<'a> = IndexMap<&'a [u8], Setting<'a>>;

/// What the lines of a text say; the fault of the least line that has one.
pub(crate) fn read_lines(alloc: Global, text: &[u8]) -> Result<Entries<'_>, ConfRefusal>
    ensures read { IfOk result (λ entries. entries_view entries.entries ≡ Entries.entries (contents text.now)) }
    ensures accepted { OnOk result (Faults.first_fault (contents text.now) ≡ None) }
    ensures refused { IfErr result (λ e. Faults.IsRefusedBy (Faults.first_fault (contents text.now)) e) }
{
    let mut entries = IndexMap::new(alloc);
    let mut rest = text;
    let mut line = 0;
    while !rest.is_empty() {
        let (first, after) = first_line(rest);
        line += 1;
        match add_line(&mut entries, line, content(first)) {
            Ok(()) => rest = after,
            Err(refusal) => return Err(refusal),
        }
    }
    Ok(entries)
}

// Adds what a line says.
fn add_line<'a>(entries: &mut Entries<'a>, line: u64, written: &'a [u8]) -> Result<(), ConfRefusal>
    ensures added { OnOk result (entries_view entries.new.entries
        ≡ entries_view entries.old.entries ++ option_to_list (Entries.entry (line, written.now))) }
    ensures accepted { OnOk result (Faults.kind_after (entries_view entries.old.entries) written.now ≡ None) }
    ensures refused { IfErr result (λ e. Faults.IsRefusedBy (Faults.at_line line (Faults.kind_after (entries_view entries.old.entries) written.now)) e) }
{
    if is_skipped(written) {
        return Ok(());
    }
    let Some((key, value)) = pair(written) else {
        return Err(at(line, ConfKind::Syntax));
    };
    if let Some(kind) = kind_of_pair(entries, key, value) {
        return Err(at(line, kind));
    }
    match entries.insert(key, Setting { line, value }) {
        Ok(_) => Ok(()),
        Err(_) => Err(ConfRefusal::OutOfMemory),
    }
}

fn at(line: u64, kind: ConfKind) -> ConfRefusal
    ensures { result ≡ Fault (record { line = line; kind = kind }) }
{
    ConfRefusal::Fault(ConfFault { line, kind })
}

// The first kind of fault of a line with that key and value after other lines.
fn kind_of_pair(entries: &Entries<'_>, key: &[u8], value: &[u8]) -> Option<ConfKind>
    ensures { result ≡ Faults.kind_of_pair (entries_view entries.now.entries) key.now value.now }
{
    let known = Key::of(key);
    if known.is_none() && has_own_prefix(key) {
        return Some(ConfKind::Unknown);
    }
    if find(entries, key).is_some() {
        return Some(ConfKind::Twice);
    }
    match known {
        Some(known) if !known.takes(value) => Some(ConfKind::Range),
        _ => None,
    }
}

// The value and the line of a key, where it is there.
fn find<'a>(entries: &Entries<'a>, key: &[u8]) -> Option<Setting<'a>>
    ensures { option_map {U = Entries.Setting} setting_view result ≡ Entries.setting (entries_view entries.now.entries) key.now }
{
    entries.get(key).copied()
}

/// The value of a known key, where it is there.
pub(crate) fn value_of<'a>(entries: &Entries<'a>, key: Key) -> Option<&'a [u8]>
    ensures { option_copied result ≡ Entries.value_of (entries_view entries.now.entries) key }
{
    match find(entries, key.name()) {
        Some(setting) => Some(setting.value),
        None => None,
    }
}

/// The line of a known key, and 0 where it is not there.
pub(crate) fn line_of(entries: &Entries<'_>, key: Key) -> u64
    ensures { result ≡ Entries.line_of (entries_view entries.now.entries) key }
{
    match find(entries, key.name()) {
        Some(setting) => setting.line,
        None => 0,
    }
}

/// Whether a known key is there.
pub(crate) fn is_there(entries: &Entries<'_>, key: Key) -> bool
    ensures { result ≡ Entries.is_there (entries_view entries.now.entries) (name key) }
{
    find(entries, key.name()).is_some()
}

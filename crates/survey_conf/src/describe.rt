//! From the lines of a description to the description.
ghost use Rattle.std.specs.Prelude.{◌≡◌, [], ◌∷◌, ◌++◌, true, None, IfOk, OnOk};
ghost use Rattle.std.specs.Map.{keys_of, lookup};
ghost use Rattle.std.specs.Option.{unwrap_or};
ghost use Rattle.std.specs.Str.{bytes_eq};
ghost use Rattle.survey_conf.specs.Entries;
ghost use Rattle.survey_conf.specs.Description.{description, extras_of, are_distinct, IsDescription};
ghost use Rattle.survey_conf.specs.EntriesView.{entries_view};
ghost use Rattle.survey_conf.specs.ConfView.{extras_view};

use crate::conf::Conf;
use crate::entries::{Entries, value_of};
use crate::key::{Key, is_extra_key};
use crate::values;
use indexmap::IndexMap;
use parent_rule::Depth;
use pyramid_model::Shape;
use std::alloc::{AllocError, Global};

/// What lines without a fault describe, with their depth.
pub(crate) fn describe(
    alloc: Global,
    entries: &Entries<'_>,
    depth: Depth,
) -> Result<Conf, AllocError>
    requires kept { IsDescription (description (entries_view entries.now.entries)) }
    requires depth { depth ≡ (description (entries_view entries.now.entries)).shape.depth }
    ensures { IfOk result (λ conf. conf ≡ description (entries_view entries.now.entries)) }
{
    let creator_did = text(alloc, entries, Key::CreatorDid)?;
    let obs_title = text(alloc, entries, Key::ObsTitle)?;
    let hips_release_date = text(alloc, entries, Key::HipsReleaseDate)?;
    let hips_status = text(alloc, entries, Key::HipsStatus)?;
    let extras = extras(alloc, entries)?;
    Ok(Conf {
        creator_did,
        obs_title,
        hips_release_date,
        hips_status,
        shape: shape(entries, depth),
        bscale: values::scale(entries),
        bzero: values::zero(entries),
        version: values::version(entries),
        extras,
    })
}

// The shape with that depth.
fn shape(entries: &Entries<'_>, depth: Depth) -> Shape
    requires { depth ≡ (description (entries_view entries.now.entries)).shape.depth }
    ensures { result ≡ (description (entries_view entries.now.entries)).shape }
{
    Shape {
        top: values::order(entries),
        low: values::lowest_order(entries),
        n: values::width_exponent(entries),
        depth,
    }
}

// A copy of the value of a key, empty where it is not there.
fn text(alloc: Global, entries: &Entries<'_>, key: Key) -> Result<Vec<u8>, AllocError>
    ensures { IfOk result (λ text. text.items ≡ unwrap_or (Entries.value_of (entries_view entries.now.entries) key) []) }
{
    Vec::from_slice(alloc, value_of(entries, key).unwrap_or(&[]))
}

// Copies of the extra keys and of their values.
fn extras(alloc: Global, entries: &Entries<'_>) -> Result<IndexMap<Vec<u8>, Vec<u8>>, AllocError>
    requires { are_distinct (keys_of (extras_of (entries_view entries.now.entries))) ≡ true }
    ensures { IfOk result (λ extras. extras_view extras.entries ≡ extras_of (entries_view entries.now.entries)) }
{
    let mut extras = IndexMap::new(alloc);
    for (key, setting) in entries.iter() {
        if is_extra_key(*key) {
            match add_extra(alloc, &mut extras, *key, setting.value) {
                Ok(()) => {}
                Err(error) => return Err(error),
            }
        }
    }
    Ok(extras)
}

// Adds copies of a new key and of its value at the end.
fn add_extra(
    alloc: Global,
    extras: &mut IndexMap<Vec<u8>, Vec<u8>>,
    key: &[u8],
    value: &[u8],
) -> Result<(), AllocError>
    requires { lookup (bytes_eq key.now) (extras_view extras.old.entries) ≡ None }
    ensures { OnOk result (extras_view extras.new.entries ≡ extras_view extras.old.entries ++ (key.now, value.now) ∷ []) }
{
    let key = Vec::from_slice(alloc, key)?;
    let value = Vec::from_slice(alloc, value)?;
    match extras.insert(key, value) {
        Ok(_) => Ok(()),
        Err(_) => Err(AllocError),
    }
}

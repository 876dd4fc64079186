//! The script of the made survey.
ghost use Rattle.std.specs.Prelude.{◌≡◌, ◌≤◌, ◌++◌, IfOk, OnOk};
ghost use Rattle.survey_make.specs.Conf.{made};
ghost use Rattle.survey_make.specs.Script.{edit_requests, requests_to, made_script};

use crate::conf::read_conf;
use crate::edit::next_number;
use crate::request::{push_delete, push_publish, push_put};
use std::alloc::{AllocError, Global};
use survey_conf::Conf;

/// How long the requests of one edit are at most.
const EDIT_ROOM: usize = 6_000;

/// The requests of a connection that edits and publishes the made survey, one after another: so many edits, whose numbers
/// are made from `number`. Each eighth takes its leaf away, the others put a tile of 32 by 32 numbers below 4,096; a
/// publication follows each 64th, and the last.
///
/// # Errors
///
/// `AllocError` where there is no memory for the requests.
#[tactic(auto, unfolding(crate::specs::Script::made_script))]
pub fn script(alloc: Global, number: u64, edits: u32) -> Result<Vec<u8>, AllocError>
    requires least { 1 ≤ edits }
    requires most { edits ≤ 4096 }
    ensures { IfOk result (λ script. script.items ≡ made_script number edits) }
{
    let conf = read_conf(alloc)?;
    let mut script = Vec::with_capacity(alloc, (edits as usize + 1) * EDIT_ROOM)?;
    push_edits(alloc, &mut script, &conf, number, edits)?;
    push_publish(&mut script)?;
    Ok(script)
}

// Appends the requests of all edits.
fn push_edits(
    alloc: Global,
    script: &mut Vec<u8>,
    conf: &Conf,
    number: u64,
    edits: u32,
) -> Result<(), AllocError>
    requires conf { conf.now ≡ made }
    requires most { edits ≤ 4096 }
    ensures { OnOk result (script.new.items ≡ script.old.items ++ requests_to number edits) }
{
    let mut x = number;
    for before in 0..edits {
        x = next_number(x);
        push_edit(alloc, script, conf, before + 1, x)?;
    }
    Ok(())
}

// Appends the requests of edit `i`, whose number is `x`.
#[tactic(auto, unfolding(crate::specs::Script::edit_requests))]
fn push_edit(
    alloc: Global,
    script: &mut Vec<u8>,
    conf: &Conf,
    i: u32,
    x: u64,
) -> Result<(), AllocError>
    requires { conf.now ≡ made }
    ensures { OnOk result (script.new.items ≡ script.old.items ++ edit_requests i x) }
{
    if i % 8 == 0 {
        push_delete(script, x)?;
    } else {
        push_put(alloc, script, conf, x)?;
    }
    if i % 64 == 0 {
        push_publish(script)?;
    }
    Ok(())
}

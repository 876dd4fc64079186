//! The description of a shelf's survey.
ghost use Rattle.std.specs.Prelude.{◌≡◌, Ok, IfOk, IfErr, OnOk, IfSome, None};
ghost use Rattle.std.specs.Result.{result_err};
ghost use Rattle.survey_link.specs.Link.{CountsFault};
ghost use Rattle.shelf_io.specs.Refusals.{at_shelf};
ghost use Rattle.survey_conf.specs.Description.{description_of};
ghost use Rattle.survey_conf.specs.Faults.{fault_of, IsRefusedBy as IsConfRefusal};
ghost use Rattle.shelf_io.specs.Opening.{conf_on, IsRefusedBy};

use crate::logging::{say_conf_fault, say_likely_keys, say_no_conf};
use crate::refusal::LoadRefusal;
use log::Log;
use std::alloc::Global;
use survey_conf::{Conf, ConfRefusal};
use survey_link::Shelf;

// Where the description is.
const CONF: &str = "survey.conf";

/// The description that the shelf has.
///
/// # Errors
///
/// `NoConf` if and only if it has none; `Conf` with the first fault of its text; `ShelfFault` if and only if the shelf's
/// count of faults rose; `OutOfMemory`.
pub(crate) fn read_conf<R: Log, H: Shelf>(
    rt: &R,
    alloc: Global,
    shelf: &mut H,
) -> Result<Conf, LoadRefusal>
    ensures conf { IfOk result (λ conf. IfSome (H.files shelf.old) (λ files. conf_on files ≡ Ok conf)) }
    ensures refused { IfErr result (λ refusal. IfSome (H.files shelf.old) (λ files.
        IsRefusedBy (result_err (conf_on files)) refusal)) }
    ensures kept { H.files shelf.new ≡ H.files shelf.old }
    ensures faults { CountsFault (at_shelf result) (H.faults shelf.old) (H.faults shelf.new) }
{
    match shelf.get(alloc, CONF)? {
        Some(text) => Ok(described(rt, alloc, &text)?),
        None => {
            say_no_conf(rt);
            Err(LoadRefusal::NoConf)
        }
    }
}

// The description that a text gives.
fn described<R: Log>(rt: &R, alloc: Global, text: &[u8]) -> Result<Conf, ConfRefusal>
    ensures described { IfOk result (λ conf. conf ≡ description_of text.now) }
    ensures accepted { OnOk result (fault_of text.now ≡ None) }
    ensures refused { IfErr result (λ e. IsConfRefusal (fault_of text.now) e) }
{
    match Conf::read(alloc, text) {
        Ok(conf) => {
            say_likely_keys(rt, &conf);
            Ok(conf)
        }
        Err(ConfRefusal::Fault(fault)) => {
            say_conf_fault(rt, text, fault);
            Err(ConfRefusal::Fault(fault))
        }
        Err(ConfRefusal::OutOfMemory) => Err(ConfRefusal::OutOfMemory),
    }
}

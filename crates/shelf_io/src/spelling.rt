//! Paths as a shelf knows them.
ghost use Rattle.std.specs.Prelude.{◌≡◌, string_bytes, IfOk, IfErr};
ghost use Rattle.tile_path.specs.Spelling.{spelling};
ghost use Rattle.survey_link.specs.declared.faults.LinkFault.TheVariants.{OutOfMemory};

use std::alloc::Global;
use survey_link::LinkFault;
use tile_path::Path;

/// The spelling of a path.
pub(crate) fn spelled(alloc: Global, path: &Path) -> Result<String, LinkFault>
    ensures text { IfOk result (λ text. string_bytes text ≡ spelling path.now) }
    ensures refused { IfErr result (λ fault. fault ≡ OutOfMemory) }
{
    match path.to_string(alloc) {
        Ok(text) => Ok(text),
        Err(_) => Err(LinkFault::OutOfMemory),
    }
}

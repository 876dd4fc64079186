//! Room for a file.
ghost use Rattle.std.specs.Prelude.{◌≡◌, vec_len, IfOk, IfErr};
ghost use Rattle.survey_link.specs.declared.faults.LinkFault.TheVariants.{OutOfMemory};

use std::alloc::{AllocError, Global};
use survey_link::LinkFault;

/// The length in bytes of the part of a file that `Generation::file_parts` writes.
pub(crate) const FRONT_LEN: usize = 2880;

/// So many bytes.
pub(crate) fn buffer(alloc: Global, len: usize) -> Result<Vec<u8>, LinkFault>
    ensures len { IfOk result (λ buffer. vec_len buffer ≡ len) }
    ensures refused { IfErr result (λ fault. fault ≡ OutOfMemory) }
{
    match zeros(alloc, len) {
        Ok(zeros) => Ok(zeros),
        Err(_) => Err(LinkFault::OutOfMemory),
    }
}

// So many zero bytes.
fn zeros(alloc: Global, len: usize) -> Result<Vec<u8>, AllocError>
    ensures { IfOk result (λ zeros. vec_len zeros ≡ len) }
{
    let mut zeros = Vec::new(alloc);
    zeros.resize(len, 0)?;
    Ok(zeros)
}

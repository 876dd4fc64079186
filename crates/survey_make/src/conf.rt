//! The description of the made survey.
ghost use Rattle.std.specs.Prelude.{◌≡◌, IfOk};
ghost use Rattle.survey_make.specs.Conf.{made_conf, made};

use std::alloc::{AllocError, Global};
use survey_conf::{Conf, ConfRefusal};

const CONF: &[u8] = b"creator_did = ivo://example/P/make
obs_title = Made survey
hips_release_date = 2024-05-01T00:00Z
hips_status = public master clonable
hips_order = 5
hips_tile_width = 32
survey_bitpix = 16
survey_blank = -32768
";

/// The description of the made survey: leaves of order 5, tiles of 32 columns and lines, numbers of 16 bits of which -32768
/// is blank.
#[tactic(auto, unfolding(crate::specs::Conf::made_conf))]
pub fn make_conf() -> &'static [u8]
    ensures { result.now ≡ made_conf }
{
    CONF
}

/// The description, as it is read.
///
/// # Errors
///
/// `AllocError` where there is no memory for it.
#[tactic(auto, using(crate::proofs::MadeLemmas::made_accepted))]
pub fn read_conf(alloc: Global) -> Result<Conf, AllocError>
    ensures { IfOk result (λ conf. conf ≡ made) }
{
    match Conf::read(alloc, make_conf()) {
        Ok(conf) => Ok(conf),
        Err(ConfRefusal::OutOfMemory) => Err(AllocError),
        Err(ConfRefusal::Fault(_)) => unreachable!(),
    }
}

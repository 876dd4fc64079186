//! What follows from the definitions alone: the contract of each function is the law.
ghost use Rattle.survey_conf.specs.Laws.{PropertiesReadAgain};

use decimal_scale::laws::{whole_is_read, written_is_read};

/// The properties of a description, without their last line, have no fault and describe the same.
pub fn properties_read_again()
    ensures { PropertiesReadAgain }
{
    whole_is_read();
    written_is_read();
}

//! The description of a survey: read from the text of `survey.conf`, and written as the `properties` file of HiPS 1.0
//! (section 4.4.1).
#![tactic(auto)]

mod blanks;
mod conf;
mod depth;
mod describe;
mod entries;
mod fault;
mod fault_words;
mod key;
pub mod laws;
mod line;
mod number;
mod properties;
mod real;
mod values;

pub use conf::Conf;
pub use fault::{ConfFault, ConfKind, ConfRefusal};
pub use fault_words::{FaultWords, likely_key};
pub use pyramid_model::Shape;

//! The whole program but for its real ends.
//!
//! `run` runs the command that the words of a command line ask for, over whatever ends it is given, and answers its status;
//! `words` makes these words of the arguments, and `second_word` is the address at which the ends are. The program `hipsd`
//! makes the ends and calls these.
#![tactic(auto)]

mod address;
mod arguments;
mod command;
mod help;
mod program;
mod version;

pub use address::second_word;
pub use arguments::words;
pub use command::{Command, command_for, read_command};
pub use program::run;
pub use version::{TOOLCHAIN, VERSION, say_version};

//! Which program this is.
use log::{Log, info};

/// The version of the program.
pub const VERSION: &str = "0.1.0";

/// The toolchain by which it is proved and built, as `rt version` names it.
pub const TOOLCHAIN: &str = "rattle-kit-13f logic dac8208d650f15bf";

/// Logs both. No clause covers it.
pub fn say_version<R: Log>(rt: &R) {
    info!(rt; "hipsd {VERSION}, toolchain {TOOLCHAIN}");
}

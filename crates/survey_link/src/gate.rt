//! What is passed before each merge of tiles.

/// What is passed before each merge of tiles. It does nothing to the tiles: tests hold a worker there.
pub trait Gate {
    /// Returns, sooner or later.
    fn pass(&self, order: u8, npix: u64);
}

/// A gate that is always open.
#[derive(Drop)]
pub struct OpenGate;

impl OpenGate {
    /// A gate.
    pub fn new() -> OpenGate {
        OpenGate
    }
}

impl Gate for OpenGate {
    fn pass(&self, _order: u8, _npix: u64) {}
}

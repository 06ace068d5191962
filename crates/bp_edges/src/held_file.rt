//! A file in memory, as a shelf there holds it.
ghost use Rattle.std.specs.Prelude.{◌≡◌, string_bytes};

use std::marker::Model;

/// A name and the bytes that a shelf holds under it.
#[derive(Drop)]
pub struct HeldFile {
    name: String,
    bytes: Vec<u8>,
}

impl Model for HeldFile {
    ghost use Rattle.std.specs.Prelude.{string_bytes};
    ghost use Rattle.bp_edges.specs.Memory.{NamedBytes};

    ghost Value = { NamedBytes };

    ghost view = { λ file. record { name = string_bytes file.name; bytes = file.bytes.items } };
}

impl HeldFile {
    /// A file of this name that holds these bytes.
    pub fn new(name: String, bytes: Vec<u8>) -> HeldFile
        ensures name { result.name ≡ string_bytes name }
        ensures bytes { result.bytes ≡ bytes.items }
    {
        HeldFile { name, bytes }
    }

    /// Its name.
    pub(crate) fn name(&self) -> &str
        ensures { result.now ≡ self.now.name }
    {
        self.name.as_str()
    }

    /// Its bytes.
    pub(crate) fn bytes(&self) -> &[u8]
        ensures { result.now ≡ self.now.bytes }
    {
        &self.bytes
    }
}

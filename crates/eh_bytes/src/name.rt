// Names as bytes.
ghost use Rattle.std.specs.Prelude.{◌≡◌};

use std::marker::Model;

/// The name of a function or a type, as its bytes. Contracts see it as the list of them.
#[derive(Drop)]
pub struct RowName {
    bytes: Vec<u8>,
}

impl Model for RowName {
    ghost use Rattle.std.specs.Prelude.{List, ℕ};

    ghost Value = { List ℕ };

    ghost view = { λ name. name.bytes.items };
}

impl RowName {
    /// The name of these bytes.
    pub fn new(bytes: Vec<u8>) -> RowName
        ensures { result ≡ bytes.items }
    {
        RowName { bytes }
    }

    pub fn as_bytes(&self) -> &[u8]
        ensures { result.now ≡ self.now }
    {
        self.bytes.as_slice()
    }

    /// Gives the bytes back.
    pub fn into_bytes(self) -> Vec<u8>
        ensures { result.items ≡ self }
    {
        let RowName { bytes } = self;
        bytes
    }
}

// What frames are seen as.
ghost use Rattle.std.specs.Prelude.{◌≡◌};
ghost use Rattle.table_forms.specs.Fde.{is_in};

use eh_bytes::Region64;
use std::marker::Model;

/// The bytes of an augmentation. Contracts see it as the list of them.
#[derive(Drop)]
pub struct Augmentation {
    bytes: Vec<u8>,
}

impl Model for Augmentation {
    ghost use Rattle.std.specs.Prelude.{List, ℕ};

    ghost Value = { List ℕ };

    ghost view = { λ augmentation. augmentation.bytes.items };
}

impl Augmentation {
    /// The augmentation of these bytes.
    pub fn new(bytes: Vec<u8>) -> Augmentation
        ensures { result ≡ bytes.items }
    {
        Augmentation { bytes }
    }

    pub fn as_bytes(&self) -> &[u8]
        ensures { result.now ≡ self.now }
    {
        self.bytes.as_slice()
    }
}

/// A common information entry: its version 1 or 3, its augmentation, the factors of its
/// instructions, the number of the return register, and its place in the file.
#[derive(Drop)]
pub struct Cie {
    pub version: u8,
    pub augmentation: Augmentation,
    pub code_factor: u64,
    pub data_factor: i64,
    pub return_register: u8,
    pub place: u64,
}

/// A frame description entry: the region of its function, the address of the function's exception
/// table or 0, whether the next frame outward is one that a signal interrupted, the number of the
/// return register, and where the entry stands: its place in the file, and its address.
#[derive(Clone, Copy, Debug, Drop, PartialEq, Eq)]
pub struct Fde {
    pub region: Region64,
    pub lsda: u64,
    pub signal: bool,
    pub return_register: u8,
    pub place: u64,
    pub address: u64,
}

impl Fde {
    /// Whether the region holds a place.
    pub fn holds(&self, pc: u64) -> bool
        ensures { result ≡ is_in self.now.region pc }
    {
        let end = self.region.start as u128 + self.region.length as u128;
        self.region.start <= pc && (pc as u128) < end
    }
}

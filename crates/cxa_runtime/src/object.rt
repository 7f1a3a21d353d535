// Exception objects by their addresses.
ghost use Rattle.std.specs.Prelude.{◌≡◌, ◌<◌, ◌+◌, not};
ghost use Rattle.cxa_runtime.specs.Objects as objects;

use caught_stack::{Header, HeaderKind};

// The slots have 4 KiB each, from this address on.
const FIRST: u64 = 0x6000_0000;

const END: u64 = 0x6040_0000;

const SIZE: u64 = 0x1000;

/// A live exception object: its slot and its header.
#[derive(Clone, Copy, Debug, PartialEq, Eq)]
pub struct Object {
    pub slot: u32,
    pub header: Header,
}

/// The address of the object in a slot.
pub fn object_of(slot: u32) -> u64
    ensures { result ≡ objects.object_of slot }
{
    FIRST + SIZE * u64::from(slot)
}

/// The slot of which this is the object's address.
pub fn slot_of(address: u64) -> Option<u32>
    ensures { result ≡ objects.slot_of address }
{
    if FIRST <= address && address < END && address % SIZE == 0 {
        Some(((address - FIRST) / SIZE) as u32)
    } else {
        None
    }
}

/// Whether it is not thrown yet, or is to be given back.
pub fn is_building(kind: HeaderKind) -> bool
    ensures { result ≡ objects.is_building kind }
{
    matches!(kind, HeaderKind::Building)
}

/// Whether it was thrown by compiled code.
pub fn is_native(kind: HeaderKind) -> bool
    ensures { result ≡ objects.is_native kind }
{
    matches!(kind, HeaderKind::Native(_, _))
}

/// Whether a module of another language raised it.
pub fn is_foreign(kind: HeaderKind) -> bool
    ensures { result ≡ objects.is_foreign kind }
{
    matches!(kind, HeaderKind::Foreign(_, _))
}

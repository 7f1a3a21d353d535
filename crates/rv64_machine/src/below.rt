// Numbers in a slice that has the byte of the highest address first.
ghost use Rattle.std.specs.Prelude.{◌≡◌, ◌<◌, ◌≤◌, ◌^◌, length};
ghost use Rattle.rv64_machine.specs.Bytes.{size_of};
ghost use Rattle.rv64_machine.specs.Reserved.{number_below, with_number_below};

use crate::bytes::Size;

#[tactic(auto, using(crate::proofs::Descending::numbers))]
fn half(bytes: &[u8], at: usize) -> u16
    requires from { 2 ≤ at }
    requires to { at ≤ length bytes.now }
    ensures { result ≡ number_below bytes.now at 2 }
{
    u16::from_le_bytes([bytes[at - 1], bytes[at - 2]])
}

#[tactic(auto, using(crate::proofs::Descending::numbers))]
fn word(bytes: &[u8], at: usize) -> u32
    requires from { 4 ≤ at }
    requires to { at ≤ length bytes.now }
    ensures { result ≡ number_below bytes.now at 4 }
{
    u32::from_le_bytes([bytes[at - 1], bytes[at - 2], bytes[at - 3], bytes[at - 4]])
}

#[tactic(auto, using(crate::proofs::Descending::numbers))]
fn double(bytes: &[u8], at: usize) -> u64
    requires from { 8 ≤ at }
    requires to { at ≤ length bytes.now }
    ensures { result ≡ number_below bytes.now at 8 }
{
    u64::from_le_bytes([
        bytes[at - 1],
        bytes[at - 2],
        bytes[at - 3],
        bytes[at - 4],
        bytes[at - 5],
        bytes[at - 6],
        bytes[at - 7],
        bytes[at - 8],
    ])
}

/// The number that stands in front of a place, its lowest byte nearest to the place.
#[inline(always)]
#[tactic(auto, using(crate::proofs::Descending::numbers))]
pub fn number_below(bytes: &[u8], at: usize, size: Size) -> u64
    requires from { size_of size ≤ at }
    requires to { at ≤ length bytes.now }
    ensures value { result ≡ number_below bytes.now at (size_of size) }
    ensures small { result < 256 ^ size_of size }
{
    match size {
        Size::Byte => u64::from(bytes[at - 1]),
        Size::Half => u64::from(half(bytes, at)),
        Size::Word => u64::from(word(bytes, at)),
        Size::Double => double(bytes, at),
    }
}

/// Writes the low bytes of a value in front of a place, the lowest nearest to the place.
#[inline(always)]
pub fn put_number_below(bytes: &mut [u8], at: usize, size: Size, value: u64)
    requires from { size_of size ≤ at }
    requires to { at ≤ length bytes.old }
    ensures { bytes.new ≡ with_number_below bytes.old at (size_of size) value }
{
    let mut rest = value;
    for k in 0..size.bytes() as usize {
        bytes[at - k - 1] = (rest % 0x100) as u8;
        rest /= 0x100;
    }
}

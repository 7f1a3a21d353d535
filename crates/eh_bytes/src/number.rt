// Numbers of fixed width, low byte first (ELF-64, "Data Representation": ELFDATA2LSB).
ghost use Rattle.std.specs.Prelude.{◌≡◌, ◌≤◌, length, take};
ghost use Rattle.std.specs.Int.{w16, w32, w64, from_le_bytes, to_le_bytes};

use byteorder::{ByteOrder, LittleEndian};

/// The number of the first two bytes.
#[tactic(auto, using(crate::proofs::Numbers::of_two))]
pub fn u16_from(bytes: &[u8]) -> u16
    requires { 2 ≤ length bytes.now }
    ensures { result ≡ from_le_bytes w16 (take 2 bytes.now) }
{
    LittleEndian::read_u16(bytes)
}

/// The number of the first four bytes.
#[tactic(auto, using(crate::proofs::Numbers::of_four))]
pub fn u32_from(bytes: &[u8]) -> u32
    requires { 4 ≤ length bytes.now }
    ensures { result ≡ from_le_bytes w32 (take 4 bytes.now) }
{
    LittleEndian::read_u32(bytes)
}

/// The number of the first eight bytes.
#[tactic(auto, using(crate::proofs::Numbers::of_eight))]
pub fn u64_from(bytes: &[u8]) -> u64
    requires { 8 ≤ length bytes.now }
    ensures { result ≡ from_le_bytes w64 (take 8 bytes.now) }
{
    LittleEndian::read_u64(bytes)
}

/// The two bytes of a number.
pub fn u16_bytes(number: u16) -> [u8; 2]
    ensures { result ≡ to_le_bytes w16 number }
{
    let mut bytes = [0; 2];
    LittleEndian::write_u16(&mut bytes, number);
    bytes
}

/// The four bytes of a number.
pub fn u32_bytes(number: u32) -> [u8; 4]
    ensures { result ≡ to_le_bytes w32 number }
{
    let mut bytes = [0; 4];
    LittleEndian::write_u32(&mut bytes, number);
    bytes
}

/// The eight bytes of a number.
pub fn u64_bytes(number: u64) -> [u8; 8]
    ensures { result ≡ to_le_bytes w64 number }
{
    let mut bytes = [0; 8];
    LittleEndian::write_u64(&mut bytes, number);
    bytes
}

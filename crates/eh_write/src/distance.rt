// Addresses relative to a place.
ghost use Rattle.std.specs.Prelude.{◌≡◌};
ghost use Rattle.eh_write.specs.Distance.{distance_bytes};

use eh_bytes::u32_bytes;

const RANGE: u128 = 0x1_0000_0000;

/// The four bytes that lead from a place to an address that lies less than 2^31 from it.
pub fn distance_bytes(place: u128, address: u64) -> [u8; 4]
    ensures { result ≡ distance_bytes place address }
{
    let distance = (address as u128 % RANGE + RANGE - place % RANGE) % RANGE;
    u32_bytes(distance as u32)
}

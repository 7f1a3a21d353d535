// Type entries.
ghost use Rattle.std.specs.Prelude.{◌≡◌, ◌++◌, ◌<◌, ◌^◌, reverse, OnOk};
ghost use Rattle.std.specs.List.{AllByRecursion};
ghost use Rattle.eh_write.specs.Fits.{IsWord};
ghost use Rattle.eh_write.specs.Written.{entry_bytes, entries_from};

use crate::NoMemory;
use crate::distance::distance_bytes;
use eh_bytes::u32_bytes;

/// The four bytes that lead from a place to an address; 0 stays 0.
pub fn entry_bytes(place: u128, value: u64) -> [u8; 4]
    ensures bytes { result ≡ entry_bytes place value }
    ensures words { IsWord value }
{
    if value == 0 {
        u32_bytes(0)
    } else {
        distance_bytes(place, value)
    }
}

/// Appends the entries of the types, the last one first, from an address on.
pub fn put_entries(out: &mut Vec<u8>, types: &[u64], address: u128) -> Result<(), NoMemory>
    requires { address < 2 ^ 65 }
    ensures bytes { OnOk result (out.new.items ≡ out.old.items ++ entries_from address (reverse types.now)) }
    ensures words { OnOk result (AllByRecursion IsWord (reverse types.now)) }
{
    let mut place = address;
    let mut rest = types;
    'entries: while let Some((value, others)) = rest.split_last() {
        out.extend_from_slice(entry_bytes(place, *value).as_slice())?;
        place += 4;
        rest = others;
    }
    Ok(())
}

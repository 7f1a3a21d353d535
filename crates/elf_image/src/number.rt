// Numbers of a file, low bytes first.
ghost use Rattle.std.specs.Prelude.{◌≡◌, ◌<◌, ◌^◌, option_map};
ghost use Rattle.std.specs.Int.{w8, w16, w32, w64};
ghost use Rattle.elf_image.specs.Numbers.{bytes_at, number_at, field, holds};

use eh_bytes::{u16_from, u32_from, u64_from};

// So many bytes at a place, where they lie whole in the file.
fn bytes_at(file: &[u8], place: u128, count: usize) -> Option<&[u8]>
    requires small { count < 16 }
    requires near { place < 2 ^ 127 }
    ensures { option_map (λ bytes. bytes.now) result ≡ bytes_at count file.now place }
{
    if place + count as u128 > file.len() as u128 {
        return None;
    }
    let start = place as usize;
    Some(&file[start..start + count])
}

pub fn u8_at(file: &[u8], place: u128) -> Option<u8>
    requires { place < 2 ^ 127 }
    ensures { result ≡ number_at w8 file.now place }
{
    let bytes = bytes_at(file, place, 1)?;
    Some(bytes[0])
}

pub fn u16_at(file: &[u8], place: u128) -> Option<u16>
    requires { place < 2 ^ 127 }
    ensures { result ≡ number_at w16 file.now place }
{
    let bytes = bytes_at(file, place, 2)?;
    Some(u16_from(bytes))
}

pub fn u32_at(file: &[u8], place: u128) -> Option<u32>
    requires { place < 2 ^ 127 }
    ensures { result ≡ number_at w32 file.now place }
{
    let bytes = bytes_at(file, place, 4)?;
    Some(u32_from(bytes))
}

pub fn u64_at(file: &[u8], place: u128) -> Option<u64>
    requires { place < 2 ^ 127 }
    ensures { result ≡ number_at w64 file.now place }
{
    let bytes = bytes_at(file, place, 8)?;
    Some(u64_from(bytes))
}

/// The number at a place, or 0 where it is not whole in the file.
pub fn word(file: &[u8], place: u128) -> u64
    requires { place < 2 ^ 127 }
    ensures { result ≡ field w64 file.now place }
{
    u64_at(file, place).unwrap_or(0)
}

// New bytes in the place of a table.
ghost use Rattle.std.specs.Prelude.{◌≡◌, ◌+◌, ◌-◌, ◌≤◌, ◌++◌, length, replicate, OnOk};
ghost use Rattle.lsda_pack.specs.PackedImage.{put_at};

use crate::NoMemory;
use eh_write::put_zeros;

// The bytes stand in the place of as many at a place.
fn put_at(file: &mut Vec<u8>, place: usize, bytes: &[u8])
    requires { place + length bytes.now ≤ length file.old.items }
    ensures { file.new.items ≡ put_at place bytes.now file.old.items }
{
    let end = place + bytes.len();
    file[place..end].copy_from_slice(bytes);
}

/// The new bytes of a table that took so many bytes, and zeros behind them.
pub fn rewrite(
    file: &mut Vec<u8>,
    place: usize,
    mut bytes: Vec<u8>,
    size: u64,
) -> Result<(), NoMemory>
    requires fewer { length bytes.items ≤ size }
    requires inside { place + size ≤ length file.old.items }
    ensures { OnOk result (file.new.items ≡ put_at place (bytes.items ++ replicate (size - length bytes.items) 0) file.old.items) }
{
    let spare = size - bytes.len() as u64;
    put_zeros(&mut bytes, spare)?;
    put_at(file, place, bytes.as_slice());
    Ok(())
}

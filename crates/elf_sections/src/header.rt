// The header of a file with sections.
ghost use Rattle.std.specs.Prelude.{◌≡◌, ◌≤◌, length, IfOk};
ghost use Rattle.elf_sections.specs.Written.{headed};

use eh_bytes::{u16_bytes, u64_bytes};
use std::alloc::{AllocError, Global};

/// A file whose header says that so many section headers stand at a place, of 64 bytes each, and that the last of them has
/// the names.
#[tactic(auto, unfolding(crate::specs::Written::headed))]
pub fn headed(alloc: Global, file: &[u8], place: u64, count: u16) -> Result<Vec<u8>, AllocError>
    requires whole { 64 ≤ length file.now }
    requires some { 1 ≤ count }
    ensures { IfOk result (λ bytes. bytes.items ≡ headed file.now place count) }
{
    let (front, _) = file.split_at(40);
    let (_, flags) = file.split_at(48);
    let (flags_and_sizes, _) = flags.split_at(10);
    let (_, behind) = file.split_at(64);
    let mut bytes = Vec::new(alloc);
    bytes.extend_from_slice(front)?;
    bytes.extend_from_slice(u64_bytes(place).as_slice())?;
    bytes.extend_from_slice(flags_and_sizes)?;
    bytes.extend_from_slice(u16_bytes(64).as_slice())?;
    bytes.extend_from_slice(u16_bytes(count).as_slice())?;
    bytes.extend_from_slice(u16_bytes(count - 1).as_slice())?;
    bytes.extend_from_slice(behind)?;
    Ok(bytes)
}

// Numbers of 32 bits.
ghost use Rattle.std.specs.Prelude.{◌≡◌, ◌+◌, IfOk};

use crate::NoMemory;

/// The number so many behind another; where it is none of 32 bits, memory is wanting.
pub fn behind(first: u32, count: usize) -> Result<u32, NoMemory>
    ensures { IfOk result (λ n. n ≡ first + count) }
{
    match u32::try_from(count) {
        Ok(count) => first.checked_add(count).ok_or(NoMemory),
        Err(_) => Err(NoMemory),
    }
}

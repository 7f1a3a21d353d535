// The numbers of a class's functions.
ghost use Rattle.std.specs.Prelude.{◌≡◌, ◌+◌, IfOk};

use crate::NoMemory;

/// Where the functions of a class begin: those that it declares, then the implicit ones; and its destructor.
#[derive(Drop, Clone, Copy)]
pub struct ClassNumbers {
    pub declared: u32,
    pub implicit: u32,
    pub destructor: u32,
}

/// The number so many behind another; where it is none of 32 bits, memory is wanting.
pub fn behind(first: u32, count: usize) -> Result<u32, NoMemory>
    ensures { IfOk result (λ n. n ≡ first + count) }
{
    match u32::try_from(count) {
        Ok(count) => first.checked_add(count).ok_or(NoMemory),
        Err(_) => Err(NoMemory),
    }
}

// What is owned across a call that may fail. Trees are put behind others and into boxes here alone, for any type of tree.
ghost use Rattle.std.specs.Prelude.{◌≡◌, ◌++◌, ◌∷◌, [], IfOk, OnOk, Ok};

use crate::NoMemory;
use std::alloc::Global;

/// What a call gave, beside what is kept meanwhile: no exit of the caller drops it.
pub fn beside<T: Drop, R>(held: T, given: Result<R, NoMemory>) -> Result<(T, R), NoMemory>
    ensures { IfOk result (λ p. (p.0 ≡ held) × (given ≡ Ok p.1)) }
{
    match given {
        Ok(it) => Ok((held, it)),
        Err(e) => Err(e),
    }
}

/// Something in a box.
pub fn boxed<T: Drop>(alloc: Global, it: T) -> Result<Box<T>, NoMemory>
    ensures { IfOk result (λ b. b.value ≡ it) }
{
    Ok(Box::new(alloc, it)?)
}

/// Puts something behind others.
pub fn put<T: Drop>(it: T, others: &mut Vec<T>) -> Result<(), NoMemory>
    ensures { OnOk result (others.new.items ≡ others.old.items ++ it ∷ []) }
{
    others.push(it)?;
    Ok(())
}

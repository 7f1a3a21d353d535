// Where the base stands.
ghost use Rattle.std.specs.Prelude.{◌≡◌, ◌+◌, ◌≤◌, ◌++◌, replicate, IfOk, OnOk};
ghost use Rattle.eh_write.specs.Written.{is_aligned, base_offset};

use crate::NoMemory;
use eh_bytes::put_uleb;
use std::alloc::{AllocError, Global};

// Whether the base is at a multiple of 4 with this offset.
fn is_aligned(alloc: Global, offset: u64) -> Result<bool, NoMemory>
    ensures { IfOk result (λ yes. yes ≡ is_aligned offset) }
{
    let mut spelled = Vec::new(alloc);
    put_uleb(&mut spelled, offset)?;
    Ok((2 + spelled.len() as u128 + offset as u128) % 4 == 0)
}

/// Appends so many zeros.
pub fn put_zeros(out: &mut Vec<u8>, count: u64) -> Result<(), NoMemory>
    ensures { OnOk result (out.new.items ≡ out.old.items ++ replicate count 0) }
{
    let mut left = count;
    'zeros: while left > 0 {
        out.push(0)?;
        left -= 1;
    }
    Ok(())
}

/// The least offset of the base at or above this one with which the base is at a multiple of 4.
#[tactic(auto, unfolding(crate::specs::Written::base_offset))]
pub fn base_offset(alloc: Global, least: u64) -> Result<u64, NoMemory>
    ensures offset { IfOk result (λ offset. offset ≡ base_offset least) }
    ensures above { IfOk result (λ offset. least ≤ offset) }
    ensures near { IfOk result (λ offset. offset ≤ least + 8) }
{
    let mut offset = least;
    'tries: for _ in 0..8u64 {
        if is_aligned(alloc, offset)? {
            return Ok(offset);
        }
        offset = offset.checked_add(1).ok_or(AllocError)?;
    }
    Ok(offset)
}

// The types that chains and lists name, at the indices that they had.
ghost use Rattle.std.specs.Prelude.{◌≡◌, ℕ, IfOk};
ghost use Rattle.std.specs.BTreeSet.{contains};
ghost use Rattle.std.specs.Ordering.{nat_cmp};
ghost use Rattle.lsda_pack.specs.KeptTypes.{is_among, greatest, kept_types};

use crate::NoMemory;
use std::alloc::Global;
use std::collections::BTreeSet;

// The indices as a set.
fn set_of(alloc: Global, indices: &[u64]) -> Result<BTreeSet<u64>, NoMemory>
    ensures { IfOk result (λ set. (i : ℕ) → contains nat_cmp set i ≡ is_among indices.now i) }
{
    let mut set = BTreeSet::new(alloc);
    let mut rest = indices;
    'indices: while let Some((index, others)) = rest.split_first() {
        set.insert(*index)?;
        rest = others;
    }
    Ok(set)
}

#[tactic(auto, unfolding(crate::specs::KeptTypes::greatest))]
pub fn greatest(indices: &[u64]) -> u64
    ensures { result ≡ greatest indices.now }
{
    let mut last = 0;
    let mut rest = indices;
    'indices: while let Some((index, others)) = rest.split_first() {
        if last < *index {
            last = *index;
        }
        rest = others;
    }
    last
}

/// The types up to the greatest of the indices, and 0 in place of each that none of them names.
pub fn kept_types(alloc: Global, indices: &[u64], types: &[u64]) -> Result<Vec<u64>, NoMemory>
    ensures { IfOk result (λ kept. kept.items ≡ kept_types indices.now types.now) }
{
    let last = greatest(indices);
    let named = set_of(alloc, indices)?;
    let mut kept = Vec::new(alloc);
    let mut rest = types;
    'types: while let Some((value, others)) = rest.split_first() {
        let index = kept.len() as u64 + 1;
        if last < index {
            return Ok(kept);
        }
        kept.push(if named.contains(&index) { *value } else { 0 })?;
        rest = others;
    }
    Ok(kept)
}

// Chains of action records, one after the other.
ghost use Rattle.std.specs.Prelude.{◌≡◌, ◌+◌, ◌++◌, ◌∷◌, [], map, OnOk, IfOk, if◌then◌else◌};
ghost use Rattle.eh_bytes.specs.Spelling.{sleb_spelling};
ghost use Rattle.std.specs.List.{AllByRecursion};
ghost use Rattle.eh_write.specs.Fits.{IsSignedWord};
ghost use Rattle.eh_write.specs.Written.{chain_bytes, action_bytes, actions_from};

use crate::NoMemory;
use eh_bytes::put_sleb;
use std::alloc::Global;

// Appends a record, which leads to the byte behind itself or ends the chain.
fn put_record(out: &mut Vec<u8>, filter: i64, ends: bool) -> Result<(), NoMemory>
    ensures bytes { OnOk result (out.new.items ≡ out.old.items ++ sleb_spelling filter ++ (if ends then 0 else 1) ∷ []) }
    ensures words { IsSignedWord filter }
{
    put_sleb(out, filter)?;
    out.push(if ends { 0 } else { 1 })?;
    Ok(())
}

// Appends the records of a chain: each but the last leads to the one behind it.
fn put_chain(out: &mut Vec<u8>, filters: &[i64]) -> Result<(), NoMemory>
    ensures bytes { OnOk result (out.new.items ≡ out.old.items ++ chain_bytes filters.now) }
    ensures words { OnOk result (AllByRecursion IsSignedWord filters.now) }
{
    let mut rest = filters;
    'records: while let Some((filter, others)) = rest.split_first() {
        put_record(out, *filter, others.is_empty())?;
        rest = others;
    }
    Ok(())
}

/// The action table of some chains, and the action of each.
pub fn action_table(alloc: Global, chains: &[Vec<i64>]) -> Result<(Vec<u8>, Vec<u64>), NoMemory>
    ensures bytes { IfOk result (λ r. r.0.items ≡ action_bytes (map (λ chain. chain.items) chains.now)) }
    ensures actions { IfOk result (λ r. r.1.items ≡ actions_from 0 (map (λ chain. chain.items) chains.now)) }
    ensures words { OnOk result (AllByRecursion (AllByRecursion IsSignedWord) (map (λ chain. chain.items) chains.now)) }
{
    let mut bytes = Vec::new(alloc);
    let mut actions = Vec::new(alloc);
    let mut rest = chains;
    'chains: while let Some((chain, others)) = rest.split_first() {
        actions.push(bytes.len() as u64 + 1)?;
        put_chain(&mut bytes, chain.as_slice())?;
        rest = others;
    }
    Ok((bytes, actions))
}

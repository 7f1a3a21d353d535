// Tables that share bytes with another table, or with anything else that is read.
ghost use Rattle.std.specs.Prelude.{◌≡◌, max, min, flat_map, option_map, map, IfOk, OnOk, ◌++◌};
ghost use Rattle.table_forms.specs.Fault.{least};
ghost use Rattle.table_forms.specs.Seen.{fault_of};
ghost use Rattle.lsda_pack.specs.Reaches.{with_taken, among_taken, beside_taken, shared_taken, reaches_of, table_reach, taken_reach};

use crate::NoMemory;
use crate::reach::{Reach, TableTaken, Taken, are_apart};
use std::alloc::Global;
use table_forms::{Reason, Refusal, joined, refused};

fn greater(a: u128, b: u128) -> u128
    ensures { result ≡ max a b }
{
    if a < b { b } else { a }
}

fn lesser(a: u128, b: u128) -> u128
    ensures { result ≡ min a b }
{
    if a < b { a } else { b }
}

// Of two that share bytes the later place is refused.
#[tactic(auto, unfolding(table_forms::specs::Fault::least))]
fn pair_refusal(t: &Taken, u: &Taken) -> Option<Refusal>
    ensures { option_map fault_of result ≡ least (with_taken t.now u.now) }
{
    if greater(t.first, u.first) < lesser(t.end, u.end) {
        Some(refused(Reason::TableShared, greater(t.place, u.place)))
    } else {
        None
    }
}

#[tactic(auto, using(crate::proofs::LeastOf::one_more))]
fn with_others(t: &Taken, others: &[Taken]) -> Option<Refusal>
    ensures { option_map fault_of result ≡ least (flat_map (with_taken t.now) others.now) }
{
    let mut first = None;
    let mut rest = others;
    'others: while let Some((other, behind)) = rest.split_first() {
        first = joined(first, pair_refusal(t, other));
        rest = behind;
    }
    first
}

#[tactic(auto, using(crate::proofs::LeastOf::one_more))]
fn with_tables(t: &Taken, tables: &[TableTaken]) -> Option<Refusal>
    ensures { option_map fault_of result ≡ least (flat_map (λ u. with_taken t.now u.memory) tables.now) }
{
    let mut first = None;
    let mut rest = tables;
    'tables: while let Some((table, behind)) = rest.split_first() {
        first = joined(first, pair_refusal(t, &table.memory));
        rest = behind;
    }
    first
}

// Each table with those behind it.
#[tactic(auto, using(crate::proofs::LeastOf::one_more))]
fn among_tables(tables: &[TableTaken]) -> Option<Refusal>
    ensures { option_map fault_of result ≡ least (among_taken tables.now) }
{
    let mut first = None;
    let mut rest = tables;
    'tables: while let Some((table, behind)) = rest.split_first() {
        first = joined(first, with_tables(&table.memory, behind));
        rest = behind;
    }
    first
}

// A table with what else is read of memory, and with the headers of the file.
#[tactic(auto, using(crate::proofs::LeastOf::of_both))]
fn beside(t: &TableTaken, others: &[Taken], parts: &[Taken]) -> Option<Refusal>
    ensures { option_map fault_of result ≡ least (beside_taken others.now parts.now t.now) }
{
    joined(with_others(&t.memory, others), with_others(&t.file, parts))
}

#[tactic(auto, using(crate::proofs::LeastOf::one_more))]
fn beside_tables(tables: &[TableTaken], others: &[Taken], parts: &[Taken]) -> Option<Refusal>
    ensures { option_map fault_of result ≡ least (flat_map (beside_taken others.now parts.now) tables.now) }
{
    let mut first = None;
    let mut rest = tables;
    'tables: while let Some((table, behind)) = rest.split_first() {
        first = joined(first, beside(table, others, parts));
        rest = behind;
    }
    first
}

fn push_others(reaches: &mut Vec<Reach>, others: &[Taken]) -> Result<(), NoMemory>
    ensures { OnOk result (reaches.new.items ≡ reaches.old.items ++ map taken_reach others.now) }
{
    let mut rest = others;
    'others: while let Some((other, behind)) = rest.split_first() {
        reaches.push(Reach {
            table: false,
            first: other.first,
            end: other.end,
        })?;
        rest = behind;
    }
    Ok(())
}

fn push_tables(reaches: &mut Vec<Reach>, tables: &[TableTaken]) -> Result<(), NoMemory>
    ensures { OnOk result (reaches.new.items ≡ reaches.old.items ++ map table_reach tables.now) }
{
    let mut rest = tables;
    'tables: while let Some((table, behind)) = rest.split_first() {
        reaches.push(Reach {
            table: true,
            first: table.memory.first,
            end: table.memory.end,
        })?;
        rest = behind;
    }
    Ok(())
}

fn reaches_of(
    alloc: Global,
    tables: &[TableTaken],
    others: &[Taken],
) -> Result<Vec<Reach>, NoMemory>
    ensures { IfOk result (λ reaches. reaches.items ≡ reaches_of tables.now others.now) }
{
    let mut reaches = Vec::new(alloc);
    push_tables(&mut reaches, tables)?;
    push_others(&mut reaches, others)?;
    Ok(reaches)
}

/// What is refused of tables that share bytes. Where a sweep finds them apart no pairs are looked
/// at.
#[tactic(auto, using(crate::proofs::LeastOf::when_apart, crate::proofs::LeastOf::all_shared))]
pub fn shared_refusal(
    alloc: Global,
    tables: &[TableTaken],
    others: &[Taken],
    parts: &[Taken],
) -> Result<Option<Refusal>, NoMemory>
    ensures { IfOk result (λ first. option_map fault_of first ≡ least (shared_taken tables.now others.now parts.now)) }
{
    let mut reaches = reaches_of(alloc, tables, others)?;
    if are_apart(&mut reaches)? {
        return Ok(beside_tables(tables, &others[..0], parts));
    }
    Ok(joined(among_tables(tables), beside_tables(tables, others, parts)))
}

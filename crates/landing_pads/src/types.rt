// The types that a function's landing pads name, each once, in order of first use.
ghost use Rattle.std.specs.Prelude.{◌≡◌, ◌+◌, map, IfOk, OnOk};
ghost use Rattle.region_forms.specs.Form.{regions_from};
ghost use Rattle.region_forms.specs.Guard.{types_of};
ghost use Rattle.linear_forms.specs.Distinct.{added, added_all, same_number};
ghost use Rattle.linear_forms.specs.Filters as rules;
ghost use Rattle.region_ir.specs.View.{clauses_of, region_of};

use crate::NoMemory;
use crate::numbers::behind;
use indexmap::IndexSet;
use region_ir::region::{Clause, Region};
use std::alloc::Global;

// A type of a table, behind others unless it is among them.
#[tactic(auto, using(crate::proofs::Distinct::key_added))]
fn put_type(ty: u32, types: &mut IndexSet<u32>) -> Result<(), NoMemory>
    ensures { OnOk result (types.new.keys ≡ added same_number types.old.keys ty) }
{
    types.insert(ty)?;
    Ok(())
}

/// The type of a clause as a table has it: 0 for `catch (...)`, else one more than its number.
pub fn table_type(ty: Option<u32>) -> Result<u32, NoMemory>
    ensures { IfOk result (λ n. n ≡ rules.table_type ty) }
{
    match ty {
        None => Ok(0),
        Some(number) => behind(number, 1),
    }
}

// The types of clauses, behind others.
fn put_clause_types(clauses: &[Clause], types: &mut IndexSet<u32>) -> Result<(), NoMemory>
    ensures { OnOk result (types.new.keys ≡ added_all same_number types.old.keys (map rules.table_type (types_of (clauses_of clauses.now)))) }
{
    for clause in clauses {
        put_type(table_type(clause.ty)?, types)?;
    }
    Ok(())
}

// The types of a specification, behind others.
fn put_listed(listed: &[u32], types: &mut IndexSet<u32>) -> Result<(), NoMemory>
    ensures { OnOk result (types.new.keys ≡ added_all same_number types.old.keys (map (λ t. t + 1) listed.now)) }
{
    for ty in listed {
        put_type(behind(*ty, 1)?, types)?;
    }
    Ok(())
}

// The types that a region's landing pads name, behind others.
#[cycle(type_uses)]
#[tactic(auto, using(region_ir::proofs::Rows::region_rows, crate::proofs::Distinct::then_added))]
fn put_types(region: &Region, types: &mut IndexSet<u32>) -> Result<(), NoMemory>
    ensures { OnOk result (types.new.keys ≡ added_all same_number types.old.keys (rules.type_uses (region_of region.now))) }
{
    match region {
        Region::Seq(regions) => put_types_of_all(regions.as_slice(), types),
        Region::Branch(_, first, second) => {
            put_types(first, types)?;
            put_types(second, types)
        }
        Region::Loop(_, body) | Region::Protect(body, _) | Region::Barrier(body) => {
            put_types(body, types)
        }
        Region::Catch(body, clauses) => {
            put_clause_types(clauses.as_slice(), types)?;
            put_types_of_clauses(clauses.as_slice(), types)?;
            put_types(body, types)
        }
        Region::Limit(body, listed) => {
            put_listed(listed.as_slice(), types)?;
            put_types(body, types)
        }
        Region::Op(_) | Region::Leave(_) => Ok(()),
    }
}

#[cycle(type_uses)]
#[tactic(auto, using(crate::proofs::Distinct::then_added))]
fn put_types_of_all(regions: &[Region], types: &mut IndexSet<u32>) -> Result<(), NoMemory>
    ensures { OnOk result (types.new.keys ≡ added_all same_number types.old.keys (rules.type_uses_all (regions_from (map region_of regions.now)))) }
{
    for region in regions {
        put_types(region, types)?;
    }
    Ok(())
}

#[cycle(type_uses)]
#[tactic(auto, using(crate::proofs::Distinct::then_added))]
fn put_types_of_clauses(clauses: &[Clause], types: &mut IndexSet<u32>) -> Result<(), NoMemory>
    ensures { OnOk result (types.new.keys ≡ added_all same_number types.old.keys (rules.type_uses_clauses (clauses_of clauses.now))) }
{
    for clause in clauses {
        put_types(&clause.body, types)?;
    }
    Ok(())
}

/// The types of a region's tables.
pub fn types_in(alloc: Global, region: &Region) -> Result<IndexSet<u32>, NoMemory>
    ensures { IfOk result (λ types. types.keys ≡ rules.types_in (region_of region.now)) }
{
    let mut types = IndexSet::new(alloc);
    put_types(region, &mut types)?;
    Ok(types)
}

/// The place of a type in a table, counted from 1; that of one that is not there is behind the last.
#[tactic(auto, using(crate::proofs::Distinct::index_found, crate::proofs::Distinct::index_missing))]
pub fn index_of(ty: u32, types: &IndexSet<u32>) -> u64
    ensures { result ≡ rules.index_of ty types.now.keys }
{
    let count = types.len();
    match types.get_index_of(&ty) {
        Some(index) => index as u64 + 1,
        None => count as u64 + 1,
    }
}

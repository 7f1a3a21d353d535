// The ways out of regions.
ghost use Rattle.std.specs.Prelude.{◌≡◌, map, IfOk, OnOk};
ghost use Rattle.region_forms.specs.Form.{regions_from};
ghost use Rattle.linear_forms.specs.Distinct.{added, added_all, distinct, same_number};
ghost use Rattle.linear_forms.specs.Exits as rules;
ghost use Rattle.region_ir.specs.View.{clauses_of, region_of};
ghost use Rattle.landing_pads.specs.Past.{past};

use crate::NoMemory;
use crate::numbers::behind;
use region_ir::region::{Clause, Region};
use std::alloc::Global;

// A region that is left, behind others unless it is among them.
#[tactic(auto, using(crate::proofs::Distinct::key_added))]
fn put_out(region: u32, outs: &mut Vec<u32>) -> Result<(), NoMemory>
    ensures { OnOk result (outs.new.items ≡ added same_number outs.old.items region) }
{
    if !outs.contains(&region) {
        outs.push(region)?;
    }
    Ok(())
}

// The exits out of so many regions that hold a region, and out of itself, behind others.
#[cycle(outs)]
#[tactic(auto, using(region_ir::proofs::Rows::region_rows, crate::proofs::Past::past_beyond, crate::proofs::Past::past_inside))]
fn put_outs(region: &Region, depth: u32, outs: &mut Vec<u32>) -> Result<(), NoMemory>
    ensures { OnOk result (outs.new.items ≡ added_all same_number outs.old.items (past depth (rules.outs_of (region_of region.now)))) }
{
    match region {
        Region::Seq(regions) => put_outs_of_all(regions.as_slice(), behind(depth, 1)?, outs),
        Region::Branch(_, first, second) => {
            let inside = behind(depth, 1)?;
            put_outs(first, inside, outs)?;
            put_outs(second, inside, outs)
        }
        Region::Catch(body, clauses) => {
            let inside = behind(depth, 1)?;
            put_outs_of_clauses(clauses.as_slice(), inside, outs)?;
            put_outs(body, inside, outs)
        }
        Region::Loop(_, body)
        | Region::Protect(body, _)
        | Region::Limit(body, _)
        | Region::Barrier(body) => put_outs(body, behind(depth, 1)?, outs),
        Region::Op(_) => Ok(()),
        Region::Leave(number) => match number.saturating_sub(1).checked_sub(depth) {
            None => Ok(()),
            Some(left) => put_out(left, outs),
        },
    }
}

#[cycle(outs)]
#[tactic(auto, using(crate::proofs::Past::past_added))]
fn put_outs_of_all(regions: &[Region], depth: u32, outs: &mut Vec<u32>) -> Result<(), NoMemory>
    ensures { OnOk result (outs.new.items ≡ added_all same_number outs.old.items (past depth (rules.outs_of_all (regions_from (map region_of regions.now))))) }
{
    for region in regions {
        put_outs(region, depth, outs)?;
    }
    Ok(())
}

#[cycle(outs)]
#[tactic(auto, using(crate::proofs::Past::past_added))]
fn put_outs_of_clauses(clauses: &[Clause], depth: u32, outs: &mut Vec<u32>) -> Result<(), NoMemory>
    ensures { OnOk result (outs.new.items ≡ added_all same_number outs.old.items (past depth (rules.outs_of_clauses (clauses_of clauses.now)))) }
{
    for clause in clauses {
        put_outs(&clause.body, depth, outs)?;
    }
    Ok(())
}

/// The exits out of a region that holds a region, each once. It takes the time of the region.
#[tactic(auto, using(crate::proofs::Past::past_one))]
pub fn outs_beyond(alloc: Global, region: &Region) -> Result<Vec<u32>, NoMemory>
    ensures { IfOk result (λ outs. outs.items ≡ distinct (rules.beyond (rules.outs_of (region_of region.now)))) }
{
    let mut outs = Vec::new(alloc);
    put_outs(region, 1, &mut outs)?;
    Ok(outs)
}

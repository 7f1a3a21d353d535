// Segments whose bytes are the same bytes of the file.
ghost use Rattle.std.specs.Prelude.{◌≡◌, ◌++◌, [], map, not, option_map, IfOk, OnOk};
ghost use Rattle.std.specs.List.{list_any};
ghost use Rattle.table_forms.specs.declared.reason.Reason.TheVariants.{FileShared};
ghost use Rattle.table_forms.specs.Fault.{least, unless};
ghost use Rattle.table_forms.specs.Seen.{fault_of};
ghost use Rattle.lsda_pack.specs.Reaches.{meet_taken, file_taken, part_reach};

use crate::NoMemory;
use crate::reach::{Reach, Taken, are_apart};
use std::alloc::Global;
use table_forms::{Reason, Refusal, joined, unless};

fn meet(t: &Taken, u: &Taken) -> bool
    ensures { result ≡ meet_taken t.now u.now }
{
    t.first < t.end && u.first < u.end && t.first < u.end && u.first < t.end
}

fn meets_any(t: &Taken, before: &[Taken]) -> bool
    ensures { result ≡ list_any (meet_taken t.now) before.now }
{
    before.iter().any(|other| meet(t, other))
}

// A segment with those before it.
fn part_refusal(t: &Taken, before: &[Taken]) -> Option<Refusal>
    ensures { option_map fault_of result ≡ least (unless (not (list_any (meet_taken t.now) before.now)) FileShared t.now.place) }
{
    unless(!meets_any(t, before), Reason::FileShared, t.place)
}

// Each segment with those before it.
#[tactic(auto, using(crate::proofs::LeastOf::one_more))]
fn pairs_refusal(alloc: Global, parts: &[Taken]) -> Result<Option<Refusal>, NoMemory>
    ensures { IfOk result (λ first. option_map fault_of first ≡ least (file_taken [] parts.now)) }
{
    let mut first = None;
    let mut before = Vec::new(alloc);
    let mut rest = parts;
    'parts: while let Some((part, behind)) = rest.split_first() {
        first = joined(first, part_refusal(part, before.as_slice()));
        before.push(*part)?;
        rest = behind;
    }
    Ok(first)
}

fn push_parts(reaches: &mut Vec<Reach>, parts: &[Taken]) -> Result<(), NoMemory>
    ensures { OnOk result (reaches.new.items ≡ reaches.old.items ++ map part_reach parts.now) }
{
    let mut rest = parts;
    'parts: while let Some((part, behind)) = rest.split_first() {
        reaches.push(Reach {
            table: true,
            first: part.first,
            end: part.end,
        })?;
        rest = behind;
    }
    Ok(())
}

/// What is refused of segments that share bytes of the file. Where a sweep finds them apart no
/// pairs are looked at.
#[tactic(auto, using(crate::proofs::FileApart::none_in_file), unfolding(table_forms::specs::Fault::least))]
pub fn file_refusal(alloc: Global, parts: &[Taken]) -> Result<Option<Refusal>, NoMemory>
    ensures { IfOk result (λ first. option_map fault_of first ≡ least (file_taken [] parts.now)) }
{
    let mut reaches = Vec::new(alloc);
    push_parts(&mut reaches, parts)?;
    if are_apart(&mut reaches)? {
        return Ok(None);
    }
    pairs_refusal(alloc, parts)
}

// Exits of regions, by way of the cleanups that stand on the way out.
ghost use Rattle.std.specs.Prelude.{◌≡◌, pos, IfOk};
ghost use Rattle.linear_forms.specs.Exits as rules;
ghost use Rattle.linear_forms.specs.Emission.{protect_exit as protect_exit_meant};
ghost use Rattle.region_ir.specs.View.{cleanup_of};
ghost use Rattle.landing_pads.specs.Given.{exit_of, exits_of};

use crate::NoMemory;
use crate::numbers::behind;
use region_ir::operation::Cleanup;

/// A region that holds a part: the label of its cleanup at normal exits, if it has one, and the label of its end.
#[derive(Drop, Clone, Copy)]
pub struct Exit {
    pub cleanup: Option<u32>,
    pub end: u32,
}

/// The exit of a region without a cleanup.
pub fn exit_to(label: u32) -> Exit
    ensures { exit_of result ≡ rules.exit_to label }
{
    Exit {
        cleanup: None,
        end: label,
    }
}

/// The exit of a region with a cleanup.
pub fn protect_exit(cleanup: Cleanup, label: u32) -> Result<Exit, NoMemory>
    ensures { IfOk result (λ x. exit_of x ≡ protect_exit_meant (cleanup_of cleanup) label) }
{
    match cleanup {
        Cleanup::Scope(_, _) | Cleanup::Leave => Ok(Exit {
            cleanup: Some(behind(label, 2)?),
            end: label,
        }),
        Cleanup::Part(_, _) | Cleanup::Free(_) => Ok(exit_to(label)),
    }
}

/// Where an exit from a region goes first: to a cleanup, or to the region's end. Regions count outwards from 0.
#[tactic(auto, using(crate::proofs::Stack::exits_split))]
pub fn first_label(region: u32, exits: &[Exit]) -> u32
    ensures { result ≡ rules.first_label region (exits_of exits.now) }
{
    match exits.split_last() {
        None => 0,
        Some((exit, outer)) => match exit.cleanup {
            Some(label) => label,
            None if region == 0 => exit.end,
            None => first_label(region - 1, outer),
        },
    }
}

/// Whether a cleanup stands on the way out of a region.
#[tactic(auto, using(crate::proofs::Stack::exits_split))]
pub fn crosses(region: u32, exits: &[Exit]) -> bool
    ensures { result ≡ rules.crosses region (exits_of exits.now) }
{
    match exits.split_last() {
        None => false,
        Some((exit, outer)) => match exit.cleanup {
            Some(_) => true,
            None => region > 0 && crosses(region - 1, outer),
        },
    }
}

/// The name of a region that holds a part: how many hold it, itself included.
#[tactic(auto, using(crate::proofs::Stack::name_counted))]
pub fn name_of(region: u32, exits: &[Exit]) -> usize
    ensures { result ≡ rules.name_of region (exits_of exits.now) }
{
    exits.len().saturating_sub(region as usize)
}

/// A name as a slot holds it.
pub fn name_number(name: usize) -> Result<i32, NoMemory>
    ensures { IfOk result (λ n. n ≡ pos name) }
{
    match i32::try_from(name) {
        Ok(number) => Ok(number),
        Err(_) => Err(NoMemory),
    }
}

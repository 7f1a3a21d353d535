// Landing pads and exits of regions with a cleanup.
ghost use Rattle.std.specs.Prelude.{◌≡◌, [], ◌∷◌, ◌+◌, OnOk};
ghost use Rattle.linear_forms.specs.Distinct.{distinct};
ghost use Rattle.linear_forms.specs.Emission as rules;
ghost use Rattle.linear_forms.specs.Exits.{beyond, outs_of};
ghost use Rattle.linear_forms.specs.Linear.{jump, label as label_meant, pad, resume};
ghost use Rattle.region_ir.specs.View.{cleanup_of, region_of};
ghost use Rattle.landing_pads.specs.Emitted.{Emitted};
ghost use Rattle.landing_pads.specs.Given.{emitting_of, exits_of};
ghost use Rattle.landing_pads.specs.View.{cover_of};

use crate::NoMemory;
use crate::emitting::Emitting;
use crate::exits::Exit;
use crate::numbers::behind;
use crate::outs::outs_beyond;
use crate::placed::{Cover, Placed};
use crate::put::{put_outward, put_quiet};
use crate::unit::LinearOp;
use crate::ways::with_cleanup;
use region_ir::operation::{Cleanup, RegionOp};
use region_ir::region::Region;

// The cleanup of a landing pad.
fn pad_cleanup(cleanup: Cleanup, code: &mut Vec<Placed>) -> Result<(), NoMemory>
    ensures { OnOk result (Emitted code.old.items code.new.items (rules.pad_cleanup (cleanup_of cleanup) ∷ [])) }
{
    let op = match cleanup {
        Cleanup::Scope(place, function) | Cleanup::Part(place, function) => {
            LinearOp::Op(RegionOp::Destroy(place, function))
        }
        Cleanup::Free(slot) => LinearOp::Free(slot),
        Cleanup::Leave => LinearOp::Op(RegionOp::Leave),
    };
    put_quiet(op, code)
}

/// The landing pad of a region with a cleanup, which normal code jumps over.
#[tactic(auto, using(crate::proofs::Behind::five_emitted))]
pub fn put_protect_pad(
    e: &Emitting<'_>,
    cleanup: Cleanup,
    cover: &Cover,
    label: u32,
    code: &mut Vec<Placed>,
) -> Result<(), NoMemory>
    ensures { OnOk result (Emitted code.old.items code.new.items (rules.quiet (jump (label + 1)) ∷ rules.quiet (pad e.now.object e.now.selector) ∷ rules.pad_cleanup (cleanup_of cleanup) ∷ rules.outward (resume e.now.object) (cover_of cover.now) ∷ rules.quiet (label_meant (label + 1)) ∷ [])) }
{
    let begin = behind(label, 1)?;
    put_quiet(LinearOp::Jump(begin), code)?;
    put_quiet(LinearOp::Pad(e.object, e.selector), code)?;
    pad_cleanup(cleanup, code)?;
    put_outward(LinearOp::Resume(e.object), cover, code)?;
    put_quiet(LinearOp::Label(begin), code)
}

// The cleanup of normal exits, if there is one.
#[tactic(auto, using(crate::proofs::Behind::none_emitted))]
fn put_exit_code(
    e: &Emitting<'_>,
    cleanup: Cleanup,
    cover: &Cover,
    exits: &[Exit],
    label: u32,
    outs: &[u32],
    code: &mut Vec<Placed>,
) -> Result<(), NoMemory>
    ensures { OnOk result (Emitted code.old.items code.new.items (rules.exit_code (emitting_of e.now) (rules.exit_cleanup (cleanup_of cleanup)) (cover_of cover.now) (exits_of exits.now) label outs.now)) }
{
    match cleanup {
        Cleanup::Scope(place, function) => {
            let operation = RegionOp::Destroy(place, function);
            with_cleanup(e, &operation, cover, exits, label, outs, code)
        }
        Cleanup::Leave => with_cleanup(e, &RegionOp::Leave, cover, exits, label, outs, code),
        Cleanup::Part(_, _) | Cleanup::Free(_) => Ok(()),
    }
}

/// The cleanup of a region's normal exits, if there is one: those to its end, and those out of it.
pub fn put_exits(
    e: &Emitting<'_>,
    cleanup: Cleanup,
    body: &Region,
    cover: &Cover,
    exits: &[Exit],
    label: u32,
    code: &mut Vec<Placed>,
) -> Result<(), NoMemory>
    ensures { OnOk result (Emitted code.old.items code.new.items (rules.exit_code (emitting_of e.now) (rules.exit_cleanup (cleanup_of cleanup)) (cover_of cover.now) (exits_of exits.now) label (distinct (beyond (outs_of (region_of body.now)))))) }
{
    let outs = outs_beyond(e.alloc, body)?;
    put_exit_code(e, cleanup, cover, exits, label, outs.as_slice(), code)?;
    Ok(())
}

// Exits, and where they go on behind cleanups.
ghost use Rattle.std.specs.Prelude.{◌≡◌, [], ◌∷◌, Some, OnOk, IfOk};
ghost use Rattle.linear_forms.specs.Emission as rules;
ghost use Rattle.linear_forms.specs.Exits.{inner};
ghost use Rattle.region_ir.specs.View.{operation_of, place_of};
ghost use Rattle.landing_pads.specs.Emitted.{Emitted};
ghost use Rattle.landing_pads.specs.Given.{emitting_of, exits_of};
ghost use Rattle.landing_pads.specs.View.{cover_of};

use crate::NoMemory;
use crate::emitting::Emitting;
use crate::exits::{Exit, crosses, first_label, name_number, name_of};
use crate::numbers::behind;
use crate::placed::{Cover, Placed};
use crate::put::{put_operation, put_quiet};
use crate::unit::LinearOp;
use cxx_ast::expression::BinaryOp;
use region_ir::held::{beside, boxed};
use region_ir::operation::RegionOp;
use region_ir::place::{Place, Root};
use region_ir::value::Value;

// The slot for where an exit goes on.
fn way_place(e: &Emitting<'_>) -> Place
    ensures { place_of result ≡ rules.way_place (emitting_of e.now) }
{
    Place {
        root: Root::Slot(e.way),
        offset: 0,
    }
}

// The slot says a name.
fn set_way(e: &Emitting<'_>, name: usize, code: &mut Vec<Placed>) -> Result<(), NoMemory>
    ensures { OnOk result (Emitted code.old.items code.new.items (rules.set_way (emitting_of e.now) name ∷ [])) }
{
    let number = Value::Number(name_number(name)?);
    let op = RegionOp::Store(way_place(e), number);
    put_quiet(LinearOp::Op(op), code)
}

/// An exit to the end of a region with a number, the innermost being 1: it says where it goes, if a cleanup is on the way, and jumps.
#[tactic(auto, using(crate::proofs::Behind::both_emitted))]
pub fn leave_code(
    e: &Emitting<'_>,
    number: u32,
    exits: &[Exit],
    code: &mut Vec<Placed>,
) -> Result<(), NoMemory>
    ensures { OnOk result (Emitted code.old.items code.new.items (rules.leave_code (emitting_of e.now) (inner number) (exits_of exits.now))) }
{
    let region = number.saturating_sub(1);
    if crosses(region, exits) {
        set_way(e, name_of(region, exits), code)?;
    }
    put_quiet(LinearOp::Jump(first_label(region, exits)), code)
}

// Behind a cleanup an exit goes on to where the slot says, if that is the region.
fn way_test(
    e: &Emitting<'_>,
    exits: &[Exit],
    region: u32,
    code: &mut Vec<Placed>,
) -> Result<(), NoMemory>
    ensures { OnOk result (Emitted code.old.items code.new.items (rules.way_test (emitting_of e.now) (exits_of exits.now) region ∷ [])) }
{
    let name = Value::Number(name_number(name_of(region, exits))?);
    let held = boxed(e.alloc, Value::Load(way_place(e)));
    let (name, held) = beside(name, held)?;
    let (held, name) = beside(held, boxed(e.alloc, name))?;
    let differs = Value::Binary(BinaryOp::NotEqual, held, name);
    put_quiet(
        LinearOp::JumpZero(differs, first_label(region, exits)),
        code,
    )
}

// A test for each way out.
fn way_tests(
    e: &Emitting<'_>,
    exits: &[Exit],
    outs: &[u32],
    code: &mut Vec<Placed>,
) -> Result<(), NoMemory>
    ensures { OnOk result (Emitted code.old.items code.new.items (rules.way_tests (emitting_of e.now) (exits_of exits.now) outs.now)) }
{
    for region in outs {
        way_test(e, exits, *region, code)?;
    }
    Ok(())
}

// Where some exit goes on behind the cleanup, a normal end says that it does not.
#[tactic(auto, using(crate::proofs::Behind::none_emitted))]
fn no_way_out(e: &Emitting<'_>, outs: &[u32], code: &mut Vec<Placed>) -> Result<(), NoMemory>
    ensures { OnOk result (Emitted code.old.items code.new.items (rules.no_way_out (emitting_of e.now) outs.now)) }
{
    if outs.is_empty() {
        return Ok(());
    }
    set_way(e, 0, code)
}

/// The cleanup of normal exits, which are those to the region's end and those that go on.
#[tactic(auto, using(crate::proofs::Behind::both_emitted))]
pub fn with_cleanup(
    e: &Emitting<'_>,
    operation: &RegionOp,
    cover: &Cover,
    exits: &[Exit],
    label: u32,
    outs: &[u32],
    code: &mut Vec<Placed>,
) -> Result<(), NoMemory>
    ensures { OnOk result (Emitted code.old.items code.new.items (rules.exit_code (emitting_of e.now) (Some (operation_of operation.now)) (cover_of cover.now) (exits_of exits.now) label outs.now)) }
{
    no_way_out(e, outs, code)?;
    put_quiet(LinearOp::Label(behind(label, 2)?), code)?;
    put_operation(e.alloc, operation, cover, code)?;
    way_tests(e, exits, outs, code)
}

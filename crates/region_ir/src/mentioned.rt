// The slots that a region mentions: one more than the greatest.
ghost use Rattle.std.specs.Prelude.{◌≡◌, map};
ghost use Rattle.region_forms.specs.Form.{regions_from};
ghost use Rattle.region_forms.specs.Mentioned as rules;
ghost use Rattle.region_ir.specs.View.{argument_of, arguments_of, clauses_of, cleanup_of, operation_of, region_of, root_of, value_of};

use crate::operation::{Cleanup, RegionOp};
use crate::place::Root;
use crate::region::{Clause, Region};
use crate::value::{Arg, Value};

fn slots_of_root(root: Root) -> u64
    ensures { result ≡ rules.slots_of_root (root_of root) }
{
    match root {
        Root::Slot(slot) | Root::Through(slot) => u64::from(slot) + 1,
        Root::Global(_) => 0,
    }
}

#[cycle(mentioned_values)]
#[tactic(auto, using(crate::proofs::Rows::rows))]
fn slots_of_value(value: &Value) -> u64
    ensures { result ≡ rules.slots_of_value (value_of value.now) }
{
    match value {
        Value::Number(_) => 0,
        Value::Load(place) => slots_of_root(place.root),
        Value::Unary(_, operand) => slots_of_value(operand),
        Value::Binary(_, left, right) => slots_of_value(left).max(slots_of_value(right)),
        Value::Call(_, arguments) => slots_of_arguments(arguments.as_slice()),
    }
}

#[cycle(mentioned_values)]
fn slots_of_argument(argument: &Arg) -> u64
    ensures { result ≡ rules.slots_of_argument (argument_of argument.now) }
{
    match argument {
        Arg::Int(value) => slots_of_value(value),
        Arg::Address(place) => slots_of_root(place.root),
        Arg::Handler(_) => 0,
    }
}

#[cycle(mentioned_values)]
fn slots_of_arguments(arguments: &[Arg]) -> u64
    ensures { result ≡ rules.slots_of_arguments (arguments_of arguments.now) }
{
    let mut slots = 0;
    for argument in arguments {
        slots = slots_of_argument(argument).max(slots);
    }
    slots
}

fn slots_of_operation(operation: &RegionOp) -> u64
    ensures { result ≡ rules.slots_of_op (operation_of operation.now) }
{
    match operation {
        RegionOp::Evaluate(value) => slots_of_value(value),
        RegionOp::Store(place, value) => slots_of_root(place.root).max(slots_of_value(value)),
        RegionOp::Bind(slot, place) => (u64::from(*slot) + 1).max(slots_of_root(place.root)),
        RegionOp::Call(_, arguments) => slots_of_arguments(arguments.as_slice()),
        RegionOp::Construct(place, _, arguments) => {
            slots_of_root(place.root).max(slots_of_arguments(arguments.as_slice()))
        }
        RegionOp::Destroy(place, _) => slots_of_root(place.root),
        RegionOp::Make(slot) | RegionOp::Throw(slot, _, _) | RegionOp::Enter(slot) => {
            u64::from(*slot) + 1
        }
        RegionOp::Rethrow | RegionOp::Leave => 0,
    }
}

fn slots_of_cleanup(cleanup: Cleanup) -> u64
    ensures { result ≡ rules.slots_of_cleanup (cleanup_of cleanup) }
{
    match cleanup {
        Cleanup::Scope(place, _) | Cleanup::Part(place, _) => slots_of_root(place.root),
        Cleanup::Free(slot) => u64::from(slot) + 1,
        Cleanup::Leave => 0,
    }
}

/// The slots that a region mentions: one more than the greatest, and 0 where it mentions none.
#[cycle(mentioned_regions)]
#[tactic(auto, using(crate::proofs::Rows::region_rows))]
pub fn slots_of(region: &Region) -> u64
    ensures { result ≡ rules.slots_of (region_of region.now) }
{
    match region {
        Region::Seq(regions) => slots_of_all(regions.as_slice()),
        Region::Op(operation) => slots_of_operation(operation),
        Region::Branch(test, first, second) => {
            slots_of_value(test).max(slots_of(first).max(slots_of(second)))
        }
        Region::Loop(test, body) => slots_of_value(test).max(slots_of(body)),
        Region::Protect(body, cleanup) => slots_of(body).max(slots_of_cleanup(*cleanup)),
        Region::Catch(body, clauses) => slots_of(body).max(slots_of_clauses(clauses.as_slice())),
        Region::Limit(body, _) | Region::Barrier(body) => slots_of(body),
        Region::Leave(_) => 0,
    }
}

#[cycle(mentioned_regions)]
fn slots_of_all(regions: &[Region]) -> u64
    ensures { result ≡ rules.slots_of_all (regions_from (map region_of regions.now)) }
{
    let mut slots = 0;
    for region in regions {
        slots = slots_of(region).max(slots);
    }
    slots
}

#[cycle(mentioned_regions)]
fn slots_of_clauses(clauses: &[Clause]) -> u64
    ensures { result ≡ rules.slots_of_clauses (clauses_of clauses.now) }
{
    let mut slots = 0;
    for clause in clauses {
        let object = u64::from(clause.object) + 1;
        slots = object.max(slots_of(&clause.body)).max(slots);
    }
    slots
}

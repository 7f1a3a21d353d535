// Calls with their arguments.
ghost use Rattle.std.specs.Prelude.{◌≡◌, ◌++◌, List, map, IfOk, OnOk};
ghost use Rattle.cxx_ast.specs.View.{expressions_of};
ghost use Rattle.meaning_forms.specs.Expression.{function_named};
ghost use Rattle.region_forms.specs.Form.{Region as RegionMeant, call_value};
ghost use Rattle.region_forms.specs.LowerExpression as rules;
ghost use Rattle.region_forms.specs.LowerExpression.{Lowered as LoweredMeant, LoweredCall as CallMeant};
ghost use Rattle.region_ir.specs.Lowers.{Lowers};
ghost use Rattle.region_ir.specs.Passed.{CallLowers, PassesOne, none_passed, takes_handler};
ghost use Rattle.region_ir.specs.View.{argument_of, arguments_of, callee_of, place_of, region_of, value_of};

use crate::NoMemory;
use crate::expression::{Lowered, in_slot, stored_in};
use crate::held::put;
use crate::numbers::behind;
use crate::operation::RegionOp;
use crate::place::Place;
use crate::region::Region;
use crate::value::{Arg, Callee, Value};
use cxx_ast::expression::Expr;
use cxx_ast::name::{Bound, Builtin};
use scope_flow::function_named;

/// What is called, and its arguments.
#[derive(Drop)]
pub struct LoweredCall {
    pub callee: Callee,
    pub arguments: Vec<Arg>,
}

/// Whether what is called is set_terminate or set_unexpected, whose argument is not evaluated.
pub fn takes_handler(bound: Bound) -> bool
    ensures { result ≡ takes_handler bound }
{
    matches!(
        bound,
        Bound::Builtin(Builtin::SetTerminate | Builtin::SetUnexpected)
    )
}

/// The function that set_terminate or set_unexpected is given, if one is named, behind other arguments.
pub fn pass_handler(es: &[Expr], given: &mut Vec<Arg>) -> Result<(), NoMemory>
    ensures { OnOk result (map argument_of given.new.items ≡ map argument_of given.old.items ++ rules.handler_arguments (function_named (expressions_of es.now))) }
{
    match function_named(es) {
        Some(function) => {
            put(Arg::Handler(function), given)?;
            Ok(())
        }
        None => Ok(()),
    }
}

/// An int is passed behind other arguments: it is stored where arguments behind it make calls.
#[inline(never)]
pub fn pass_int(
    stored: bool,
    slot: u32,
    a: Lowered,
    before: &mut Vec<Region>,
    given: &mut Vec<Arg>,
) -> Result<u32, NoMemory>
    ensures { (x : LoweredMeant) (others : List RegionMeant) → Lowers x others before.old.items a.value a.next → IfOk result (λ free. PassesOne (rules.int_passed stored slot x none_passed) others before.new.items (map argument_of given.old.items) given.new.items free) }
{
    if !stored {
        put(Arg::Int(a.value), given)?;
        return Ok(a.next);
    }
    put(stored_in(slot, a.value), before)?;
    put(Arg::Int(in_slot(slot)), given)?;
    behind(slot, 1)
}

// The value of a call.
#[tactic(auto, using(crate::proofs::Rows::rows))]
fn call_value(callee: Callee, arguments: Vec<Arg>) -> Value
    ensures { value_of result ≡ call_value (callee_of callee) (arguments_of arguments.items) }
{
    Value::Call(callee, arguments)
}

/// A call's value is stored in a slot.
#[inline(never)]
pub fn call_stored(
    slot: u32,
    call: LoweredCall,
    before: &mut Vec<Region>,
) -> Result<Lowered, NoMemory>
    ensures { (x : CallMeant) (others : List RegionMeant) → CallLowers x others before.old.items call.callee call.arguments.items → IfOk result (λ r. Lowers (rules.call_stored slot x) others before.new.items r.value r.next) }
{
    let value = call_value(call.callee, call.arguments);
    put(stored_in(slot, value), before)?;
    let next = behind(slot, 1)?;
    Ok(Lowered {
        value: in_slot(slot),
        next,
    })
}

/// A call's value is stored in a place.
#[inline(never)]
pub fn call_placed(
    place: Place,
    call: LoweredCall,
    before: &mut Vec<Region>,
) -> Result<(), NoMemory>
    ensures { (x : CallMeant) (others : List RegionMeant) → CallLowers x others before.old.items call.callee call.arguments.items → OnOk result (map region_of before.new.items ≡ others ++ rules.call_placed (place_of place) x) }
{
    let value = call_value(call.callee, call.arguments);
    put(Region::Op(RegionOp::Store(place, value)), before)?;
    Ok(())
}

/// A call's value is dropped.
pub fn call_dropped(call: LoweredCall, before: &mut Vec<Region>) -> Result<(), NoMemory>
    ensures { (x : CallMeant) (others : List RegionMeant) → CallLowers x others before.old.items call.callee call.arguments.items → OnOk result (map region_of before.new.items ≡ others ++ rules.call_dropped x) }
{
    put(
        Region::Op(RegionOp::Call(call.callee, call.arguments)),
        before,
    )?;
    Ok(())
}

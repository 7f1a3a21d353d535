// Expressions as values without calls, behind the calls that come before them.
ghost use Rattle.std.specs.Prelude.{◌≡◌, ◌++◌, ◌∷◌, [], List, ℕ, false, map, IfOk, OnOk};
ghost use Rattle.cxx_ast.specs.View.{expression_of, expressions_of};
ghost use Rattle.scope_flow.specs.Asked.{parameter_types_of};
ghost use Rattle.region_forms.specs.Form.{Region as RegionMeant, binary as binary_value, evaluate, in_order, op, store};
ghost use Rattle.region_forms.specs.LowerExpression as rules;
ghost use Rattle.region_forms.specs.LowerExpression.{Lowered as LoweredMeant};
ghost use Rattle.region_ir.specs.Given.{lowering_of};
ghost use Rattle.region_ir.specs.Lowers.{Lowers};
ghost use Rattle.region_ir.specs.Passed.{CallLowers, Passes, PassesOne, named_call, named_std_call, one_passed};
ghost use Rattle.region_ir.specs.View.{argument_of, place_of, region_of, value_of};

use crate::NoMemory;
use crate::called::{callee_of, constructor_chosen, receiver_argument, refers};
use crate::calling::{
    LoweredCall, call_dropped, call_placed, call_stored, pass_handler, pass_int, takes_handler,
};
use crate::calls::{calls_among, calls_behind, has_call};
use crate::expression::{
    Lowered, binary, decided_and, decided_or, in_slot, stored_in, truth_stored, unary,
};
use crate::held::{beside, put};
use crate::lowering::Lowering;
use crate::numbers::behind;
use crate::operation::RegionOp;
use crate::place::Place;
use crate::pure::pure_value;
use crate::region::Region;
use crate::value::{Arg, Value};
use cxx_ast::expression::{BinaryOp, Expr};
use cxx_ast::name::{Bound, Name};
use scope_flow::{
    Parameters, callee_bound, constructor_parameters, names_of, parameters_for, receiver,
};

/// The value of an expression, whose calls are put behind other regions; the slots from the given one on are free.
#[cycle(expressions)]
pub fn lower(
    l: &Lowering<'_>,
    e: &Expr,
    slot: u32,
    before: &mut Vec<Region>,
) -> Result<Lowered, NoMemory>
    ensures { IfOk result (λ r. Lowers (rules.lower (lowering_of l.now) (expression_of e.now) slot) (map region_of before.old.items) before.new.items r.value r.next) }
{
    match e {
        Expr::Number(value, _) => Ok(Lowered {
            value: Value::Number(*value),
            next: slot,
        }),
        Expr::Path(it) => {
            let place = l.place_of(it.path.as_slice())?;
            Ok(Lowered {
                value: Value::Load(place),
                next: slot,
            })
        }
        Expr::Paren(inner, _) => lower(l, inner, slot, before),
        Expr::Unary(op, inner, _) => {
            let operand = lower(l, inner, slot, before)?;
            let next = operand.next;
            let value = unary(l.alloc, *op, operand.value)?;
            Ok(Lowered { value, next })
        }
        Expr::Binary(op, left, right) => {
            let left = lower(l, left, slot, before)?;
            with_right_side(l, right, *op, left, slot, before)
        }
        Expr::Call(callee, es) => {
            let names = callee.path.as_slice();
            let call = lower_named_call(l, es.as_slice(), names, slot, before)?;
            call_stored(slot, call, before)
        }
        Expr::StdCall(name, es, _) => {
            let call = lower_std_call(l, es.as_slice(), name.bound, slot, before)?;
            call_stored(slot, call, before)
        }
    }
}

// An operator, from its left side, whose right side makes no calls.
#[inline(never)]
fn with_quiet_side(
    l: &Lowering<'_>,
    right: &Expr,
    op: BinaryOp,
    left: Lowered,
) -> Result<Lowered, NoMemory>
    requires { rules.has_call (expression_of right.now) ≡ false }
    ensures value { (t : ℕ) → IfOk result (λ r. value_of r.value ≡ binary_value op (value_of left.value) (rules.lower (lowering_of l.now) (expression_of right.now) t).value) }
    ensures next { IfOk result (λ r. r.next ≡ left.next) }
{
    let next = left.next;
    let (left, right) = beside(left.value, pure_value(l, right))?;
    let value = binary(l.alloc, op, left, right)?;
    Ok(Lowered { value, next })
}

// An operator, from its left side. What was computed before calls of its right side is stored before them.
#[inline(never)]
#[cycle(expressions)]
fn with_right_side(
    l: &Lowering<'_>,
    right: &Expr,
    op: BinaryOp,
    left: Lowered,
    slot: u32,
    before: &mut Vec<Region>,
) -> Result<Lowered, NoMemory>
    ensures { (x : LoweredMeant) (others : List RegionMeant) → Lowers x others before.old.items left.value left.next → IfOk result (λ r. Lowers (rules.both op (rules.has_call (expression_of right.now)) slot x (λ u. rules.lower (lowering_of l.now) (expression_of right.now) u)) others before.new.items r.value r.next) }
{
    if !has_call(right) {
        let it = with_quiet_side(l, right, op, left)?;
        return Ok(it);
    }
    match op {
        BinaryOp::And => {
            let (left, right) = beside(left.value, lower_stored(l, right, slot))?;
            decided_and(l.alloc, slot, left, right, before)
        }
        BinaryOp::Or => {
            let (left, right) = beside(left.value, lower_stored(l, right, slot))?;
            decided_or(l.alloc, slot, left, right, before)
        }
        _ => {
            put(stored_in(slot, left.value), before)?;
            let second = lower(l, right, behind(slot, 1)?, before)?;
            let next = second.next;
            let value = binary(l.alloc, op, in_slot(slot), second.value)?;
            Ok(Lowered { value, next })
        }
    }
}

// The truth of an expression is stored in a slot.
#[cycle(expressions)]
fn lower_stored(l: &Lowering<'_>, e: &Expr, slot: u32) -> Result<Region, NoMemory>
    ensures { IfOk result (λ r. region_of r ≡ in_order ((rules.lower (lowering_of l.now) (expression_of e.now) slot).before ++ rules.stored_in slot (rules.truth_of (rules.lower (lowering_of l.now) (expression_of e.now) slot).value) ∷ [])) }
{
    let mut before = Vec::new(l.alloc);
    let it = lower(l, e, slot, &mut before)?;
    truth_stored(l.alloc, slot, before, it.value)
}

// An argument behind others: the address of what it names, or an int, stored or not.
#[cycle(expressions)]
fn lower_argument(
    l: &Lowering<'_>,
    e: &Expr,
    refers: bool,
    stored: bool,
    slot: u32,
    before: &mut Vec<Region>,
    given: &mut Vec<Arg>,
) -> Result<u32, NoMemory>
    ensures { IfOk result (λ free. PassesOne (one_passed (lowering_of l.now) refers stored (expression_of e.now) slot) (map region_of before.old.items) before.new.items (map argument_of given.old.items) given.new.items free) }
{
    if refers {
        let place = l.place_of(names_of(e))?;
        put(Arg::Address(place), given)?;
        return Ok(slot);
    }
    let it = lower(l, e, slot, before)?;
    pass_int(stored, slot, it, before, given)
}

// Arguments behind others, evaluated left to right.
#[cycle(expressions)]
fn lower_arguments(
    l: &Lowering<'_>,
    es: &[Expr],
    parameters: Parameters<'_>,
    slot: u32,
    before: &mut Vec<Region>,
    given: &mut Vec<Arg>,
) -> Result<(), NoMemory>
    ensures { OnOk result (Passes (rules.lower_arguments (lowering_of l.now) (expressions_of es.now) (parameter_types_of parameters.entry) slot) (map region_of before.old.items) before.new.items (map argument_of given.old.items) given.new.items) }
{
    let mut calls = calls_among(es);
    let mut wanted = parameters;
    let mut free = slot;
    for e in es {
        calls = calls_behind(e, calls);
        free = lower_argument(l, e, refers(wanted), calls > 0, free, before, given)?;
        wanted = wanted.behind();
    }
    Ok(())
}

// A call of what a name is bound to, on the object that names lead to.
#[inline(never)]
#[cycle(expressions)]
fn lower_call(
    l: &Lowering<'_>,
    es: &[Expr],
    bound: Bound,
    object: &[Name],
    parameters: Parameters<'_>,
    slot: u32,
    before: &mut Vec<Region>,
) -> Result<LoweredCall, NoMemory>
    ensures { IfOk result (λ c. CallLowers (rules.call_of (lowering_of l.now) bound object.now (expressions_of es.now) (rules.lower_arguments (lowering_of l.now) (expressions_of es.now) (parameter_types_of parameters.entry) slot)) (map region_of before.old.items) before.new.items c.callee c.arguments.items) }
{
    let callee = callee_of(l, bound)?;
    let mut arguments = receiver_argument(l, bound, object)?;
    if takes_handler(bound) {
        pass_handler(es, &mut arguments)?;
        return Ok(LoweredCall { callee, arguments });
    }
    lower_arguments(l, es, parameters, slot, before, &mut arguments)?;
    Ok(LoweredCall { callee, arguments })
}

// A call of what `a.b.f` names.
#[cycle(expressions)]
fn lower_named_call(
    l: &Lowering<'_>,
    es: &[Expr],
    names: &[Name],
    slot: u32,
    before: &mut Vec<Region>,
) -> Result<LoweredCall, NoMemory>
    ensures { IfOk result (λ c. CallLowers (named_call (lowering_of l.now) names.now (expressions_of es.now) slot) (map region_of before.old.items) before.new.items c.callee c.arguments.items) }
{
    let bound = callee_bound(names);
    let parameters = parameters_for(l.numbering.program, bound);
    lower_call(l, es, bound, receiver(names), parameters, slot, before)
}

// A call of `std::` and a name.
#[cycle(expressions)]
fn lower_std_call(
    l: &Lowering<'_>,
    es: &[Expr],
    bound: Bound,
    slot: u32,
    before: &mut Vec<Region>,
) -> Result<LoweredCall, NoMemory>
    ensures { IfOk result (λ c. CallLowers (named_std_call (lowering_of l.now) bound (expressions_of es.now) slot) (map region_of before.old.items) before.new.items c.callee c.arguments.items) }
{
    lower_call(l, es, bound, &[], Parameters::Of(&[]), slot, before)
}

// The value of an expression is computed, and dropped.
fn evaluated(
    l: &Lowering<'_>,
    e: &Expr,
    slot: u32,
    before: &mut Vec<Region>,
) -> Result<(), NoMemory>
    ensures { OnOk result (map region_of before.new.items ≡ map region_of before.old.items ++ ((rules.lower (lowering_of l.now) (expression_of e.now) slot).before ++ op (evaluate (rules.lower (lowering_of l.now) (expression_of e.now) slot).value) ∷ [])) }
{
    let it = lower(l, e, slot, before)?;
    put(Region::Op(RegionOp::Evaluate(it.value)), before)?;
    Ok(())
}

/// An expression that is evaluated for its effects alone, behind other regions.
pub fn dropped(
    l: &Lowering<'_>,
    e: &Expr,
    slot: u32,
    before: &mut Vec<Region>,
) -> Result<(), NoMemory>
    ensures { OnOk result (map region_of before.new.items ≡ map region_of before.old.items ++ rules.dropped (lowering_of l.now) (expression_of e.now) slot) }
{
    match e {
        Expr::Paren(inner, _) => dropped(l, inner, slot, before),
        Expr::Call(callee, es) => {
            let names = callee.path.as_slice();
            let call = lower_named_call(l, es.as_slice(), names, slot, before)?;
            call_dropped(call, before)
        }
        Expr::StdCall(name, es, _) => {
            let call = lower_std_call(l, es.as_slice(), name.bound, slot, before)?;
            call_dropped(call, before)
        }
        Expr::Number(_, _) | Expr::Path(_) | Expr::Unary(_, _, _) | Expr::Binary(_, _, _) => {
            evaluated(l, e, slot, before)
        }
    }
}

/// The value of an expression is computed, and stored in a place, behind other regions.
#[inline(never)]
#[tactic(auto, using(crate::proofs::Behind::put_behind))]
pub fn value_stored(
    l: &Lowering<'_>,
    e: &Expr,
    place: Place,
    slot: u32,
    before: &mut Vec<Region>,
) -> Result<(), NoMemory>
    ensures { OnOk result (map region_of before.new.items ≡ map region_of before.old.items ++ ((rules.lower (lowering_of l.now) (expression_of e.now) slot).before ++ op (store (place_of place) (rules.lower (lowering_of l.now) (expression_of e.now) slot).value) ∷ [])) }
{
    let it = lower(l, e, slot, before)?;
    put(Region::Op(RegionOp::Store(place, it.value)), before)?;
    Ok(())
}

/// The value of an expression is stored in a place, behind other regions: that of a call by the operation that makes the call.
pub fn lower_store(
    l: &Lowering<'_>,
    e: &Expr,
    place: Place,
    slot: u32,
    before: &mut Vec<Region>,
) -> Result<(), NoMemory>
    ensures { OnOk result (map region_of before.new.items ≡ map region_of before.old.items ++ rules.lower_store (lowering_of l.now) (expression_of e.now) (place_of place) slot) }
{
    match e {
        Expr::Paren(inner, _) => lower_store(l, inner, place, slot, before),
        Expr::Call(callee, es) => {
            let names = callee.path.as_slice();
            let call = lower_named_call(l, es.as_slice(), names, slot, before)?;
            call_placed(place, call, before)
        }
        Expr::StdCall(name, es, _) => {
            let call = lower_std_call(l, es.as_slice(), name.bound, slot, before)?;
            call_placed(place, call, before)
        }
        Expr::Number(_, _) | Expr::Path(_) | Expr::Unary(_, _, _) | Expr::Binary(_, _, _) => {
            value_stored(l, e, place, slot, before)
        }
    }
}

/// An object of a class is built in a place by the constructor that its arguments select, behind other regions.
pub fn lower_construct(
    l: &Lowering<'_>,
    class: u32,
    arguments: &[Expr],
    place: Place,
    slot: u32,
    before: &mut Vec<Region>,
) -> Result<(), NoMemory>
    ensures { OnOk result (map region_of before.new.items ≡ map region_of before.old.items ++ rules.lower_construct (lowering_of l.now) class (expressions_of arguments.now) (place_of place) slot) }
{
    let which = constructor_chosen(l, class, arguments);
    let parameters = constructor_parameters(l.numbering.program, class, which);
    let function = l.numbering.constructor(class, which)?;
    let mut given = Vec::new(l.alloc);
    lower_arguments(l, arguments, parameters, slot, before, &mut given)?;
    put(
        Region::Op(RegionOp::Construct(place, function, given)),
        before,
    )?;
    Ok(())
}

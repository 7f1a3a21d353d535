// What statements are lowered to that go no deeper into the tree than an expression.
ghost use Rattle.std.specs.Prelude.{◌≡◌, ◌++◌, ◌∷◌, [], true, false, map, IfOk, OnOk};
ghost use Rattle.cxx_ast.specs.View.{expression_of, expressions_of, option_of};
ghost use Rattle.meaning_forms.specs.Frame.{local_number};
ghost use Rattle.meaning_forms.specs.Running.{destructor};
ghost use Rattle.region_forms.specs.Form.{branch, destroy_scope, leave_region, protect};
ghost use Rattle.region_forms.specs.LowerExpression.{first_temporary, has_call, lower, lower_construct, slot_place};
ghost use Rattle.region_forms.specs.LowerStatement as rules;
ghost use Rattle.region_forms.specs.Numbering.{number_of};
ghost use Rattle.region_ir.specs.Given.{lowering_of};
ghost use Rattle.region_ir.specs.Standing.{loop_regions};
ghost use Rattle.region_ir.specs.View.{place_of, region_of, value_of};

use crate::NoMemory;
use crate::calls::has_call;
use crate::expression::{branch_of, in_order};
use crate::held::{beside, boxed, put};
use crate::lower::{lower, lower_construct, lower_store};
use crate::lowering::{Lowering, slot_place};
use crate::numbers::behind;
use crate::operation::{Cleanup, RegionOp};
use crate::place::Place;
use crate::region::Region;
use crate::value::Value;
use cxx_ast::expression::Expr;
use cxx_ast::name::{Bound, Name};

// A branch between two regions, behind others.
#[tactic(auto, using(crate::proofs::Behind::one_behind))]
fn put_branch(
    l: &Lowering<'_>,
    value: Value,
    yes: Region,
    no: Region,
    before: &mut Vec<Region>,
) -> Result<(), NoMemory>
    ensures { OnOk result (map region_of before.new.items ≡ map region_of before.old.items ++ branch (value_of value) (region_of yes) (region_of no) ∷ []) }
{
    let made = branch_of(l.alloc, value, yes, no)?;
    put(made, before)?;
    Ok(())
}

// The value of an expression, behind other regions.
fn tested(l: &Lowering<'_>, test: &Expr, before: &mut Vec<Region>) -> Result<Value, NoMemory>
    ensures value { IfOk result (λ v. value_of v ≡ (lower (lowering_of l.now) (expression_of test.now) (first_temporary (lowering_of l.now))).value) }
    ensures before { OnOk result (map region_of before.new.items ≡ map region_of before.old.items ++ (lower (lowering_of l.now) (expression_of test.now) (first_temporary (lowering_of l.now))).before) }
{
    let lowered = lower(l, test, l.first_temporary()?, before)?;
    Ok(lowered.value)
}

/// The value of an expression decides between two regions, behind others.
#[inline(never)]
#[tactic(auto, using(crate::proofs::Behind::both_behind))]
pub fn decided(
    l: &Lowering<'_>,
    test: &Expr,
    yes: Region,
    no: Region,
    before: &mut Vec<Region>,
) -> Result<(), NoMemory>
    ensures { OnOk result (map region_of before.new.items ≡ map region_of before.old.items ++ rules.with_value (lower (lowering_of l.now) (expression_of test.now) (first_temporary (lowering_of l.now))) (λ v. branch v (region_of yes) (region_of no))) }
{
    let ((yes, no), value) = beside((yes, no), tested(l, test, before))?;
    put_branch(l, value, yes, no, before)
}

// A loop whose test makes no calls, behind other regions.
#[tactic(auto, using(crate::proofs::Behind::quiet_behind))]
fn tested_loop(
    l: &Lowering<'_>,
    test: &Expr,
    body: Region,
    before: &mut Vec<Region>,
) -> Result<(), NoMemory>
    requires { has_call (expression_of test.now) ≡ false }
    ensures { OnOk result (map region_of before.new.items ≡ map region_of before.old.items ++ rules.looping false (lower (lowering_of l.now) (expression_of test.now) (first_temporary (lowering_of l.now))) (λ d. region_of body) 0 ∷ []) }
{
    let (body, value) = beside(body, tested(l, test, before))?;
    let (value, body) = beside(value, boxed(l.alloc, body))?;
    put(Region::Loop(value, body), before)?;
    Ok(())
}

// A loop whose test makes calls, which are made inside it, behind other regions.
#[tactic(auto, using(crate::proofs::Behind::put_behind, crate::proofs::Rows::region_rows))]
fn testing_loop(
    l: &Lowering<'_>,
    test: &Expr,
    body: Region,
    before: &mut Vec<Region>,
) -> Result<(), NoMemory>
    ensures { OnOk result (map region_of before.new.items ≡ map region_of before.old.items ++ rules.looping true (lower (lowering_of l.now) (expression_of test.now) (first_temporary (lowering_of l.now))) (λ d. region_of body) 0 ∷ []) }
{
    let mut inside = Vec::new(l.alloc);
    decided(l, test, body, Region::Leave(3), &mut inside)?;
    let inside = boxed(l.alloc, in_order(inside))?;
    put(Region::Loop(Value::Number(1), inside), before)?;
    Ok(())
}

/// How many regions of a loop hold its body.
pub fn loop_regions(test: &Expr) -> usize
    ensures { result ≡ loop_regions (has_call (expression_of test.now)) }
{
    if has_call(test) { 4 } else { 2 }
}

/// A loop, behind other regions: a test that makes calls is evaluated inside it.
#[inline(never)]
pub fn looping(
    l: &Lowering<'_>,
    test: &Expr,
    body: Region,
    before: &mut Vec<Region>,
) -> Result<(), NoMemory>
    ensures { OnOk result (map region_of before.new.items ≡ map region_of before.old.items ++ rules.looping (has_call (expression_of test.now)) (lower (lowering_of l.now) (expression_of test.now) (first_temporary (lowering_of l.now))) (λ d. region_of body) 0 ∷ []) }
{
    if has_call(test) {
        testing_loop(l, test, body, before)
    } else {
        tested_loop(l, test, body, before)
    }
}

/// The region number so many that holds a statement is left, behind other regions.
pub fn left(regions: u32, before: &mut Vec<Region>) -> Result<(), NoMemory>
    ensures { OnOk result (map region_of before.new.items ≡ map region_of before.old.items ++ leave_region regions ∷ []) }
{
    put(Region::Leave(regions), before)?;
    Ok(())
}

/// `return` leaves every region.
#[inline(never)]
pub fn returning(
    l: &Lowering<'_>,
    e: &Option<Expr>,
    depth: u32,
    before: &mut Vec<Region>,
) -> Result<(), NoMemory>
    ensures { OnOk result (map region_of before.new.items ≡ map region_of before.old.items ++ rules.returning (lowering_of l.now) (option_of expression_of e.now) depth) }
{
    match e {
        None => left(depth, before),
        Some(e) => {
            let result = slot_place(l.result_slot()?);
            lower_store(l, e, result, l.first_temporary()?, before)?;
            left(depth, before)
        }
    }
}

// The number of a local variable.
fn local_number(name: &Name) -> u32
    ensures { result ≡ local_number name.now.bound }
{
    match name.bound {
        Bound::Local(number) => number,
        _ => 0,
    }
}

/// The slot of a local variable.
pub fn local_slot(l: &Lowering<'_>, name: &Name) -> Result<u32, NoMemory>
    ensures { IfOk result (λ s. s ≡ rules.variable_slot (lowering_of l.now) (local_number name.now.bound)) }
{
    behind(l.first_variable, local_number(name) as usize)
}

/// A local object of a class is built, behind other regions.
#[inline(never)]
pub fn object_built(
    l: &Lowering<'_>,
    class: u32,
    name: &Name,
    arguments: &[Expr],
    before: &mut Vec<Region>,
) -> Result<(), NoMemory>
    ensures { OnOk result (map region_of before.new.items ≡ map region_of before.old.items ++ lower_construct (lowering_of l.now) class (expressions_of arguments.now) (slot_place (rules.variable_slot (lowering_of l.now) (local_number name.now.bound))) (first_temporary (lowering_of l.now))) }
{
    let place = slot_place(local_slot(l, name)?);
    let free = l.first_temporary()?;
    lower_construct(l, class, arguments, place, free, before)?;
    Ok(())
}

/// What is done in the scope of a local object of a class, behind other regions.
#[inline(never)]
pub fn put_object_scope(
    l: &Lowering<'_>,
    class: u32,
    name: &Name,
    inside: Region,
    before: &mut Vec<Region>,
) -> Result<(), NoMemory>
    ensures { OnOk result (map region_of before.new.items ≡ map region_of before.old.items ++ protect (region_of inside) (destroy_scope (slot_place (rules.variable_slot (lowering_of l.now) (local_number name.now.bound))) (number_of (lowering_of l.now).program (destructor class))) ∷ []) }
{
    let (inside, slot) = beside(inside, local_slot(l, name))?;
    put_scope(l, class, slot_place(slot), inside, before)?;
    Ok(())
}

/// The initial value of a local int, behind other regions.
#[inline(never)]
pub fn initialised(
    l: &Lowering<'_>,
    name: &Name,
    e: &Option<Expr>,
    before: &mut Vec<Region>,
) -> Result<(), NoMemory>
    ensures { OnOk result (map region_of before.new.items ≡ map region_of before.old.items ++ rules.initialised (lowering_of l.now) name.now (option_of expression_of e.now)) }
{
    match e {
        None => Ok(()),
        Some(e) => {
            let place = slot_place(local_slot(l, name)?);
            lower_store(l, e, place, l.first_temporary()?, before)
        }
    }
}

/// The slot of a named reference gets the address of a place, behind other regions.
#[inline(never)]
pub fn bound_to(
    l: &Lowering<'_>,
    name: &Option<Name>,
    place: Place,
    before: &mut Vec<Region>,
) -> Result<(), NoMemory>
    ensures { OnOk result (map region_of before.new.items ≡ map region_of before.old.items ++ rules.bound_to (lowering_of l.now) name.now (place_of place)) }
{
    match name {
        None => Ok(()),
        Some(name) => {
            let slot = local_slot(l, name)?;
            put(Region::Op(RegionOp::Bind(slot, place)), before)?;
            Ok(())
        }
    }
}

// What is done in the scope of an object of a class, which is destroyed at every exit.
fn in_scope(l: &Lowering<'_>, class: u32, place: Place, inside: Region) -> Result<Region, NoMemory>
    ensures { IfOk result (λ r. region_of r ≡ protect (region_of inside) (destroy_scope (place_of place) (number_of (lowering_of l.now).program (destructor class)))) }
{
    let cleanup = Cleanup::Scope(place, l.numbering.destructor(class));
    let inside = boxed(l.alloc, inside)?;
    Ok(Region::Protect(inside, cleanup))
}

/// What is done in the scope of an object of a class, behind other regions.
#[tactic(auto, using(crate::proofs::Behind::one_behind))]
pub fn put_scope(
    l: &Lowering<'_>,
    class: u32,
    place: Place,
    inside: Region,
    before: &mut Vec<Region>,
) -> Result<(), NoMemory>
    ensures { OnOk result (map region_of before.new.items ≡ map region_of before.old.items ++ protect (region_of inside) (destroy_scope (place_of place) (number_of (lowering_of l.now).program (destructor class))) ∷ []) }
{
    let scope = in_scope(l, class, place, inside)?;
    put(scope, before)?;
    Ok(())
}

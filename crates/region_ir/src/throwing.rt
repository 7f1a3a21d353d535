// What is thrown: the exception object is made, built, and thrown.
ghost use Rattle.std.specs.Prelude.{◌≡◌, ◌++◌, ◌∷◌, [], map, OnOk};
ghost use Rattle.cxx_ast.specs.View.{expression_of, expressions_of, option_of};
ghost use Rattle.meaning_forms.specs.Class.{class_type};
ghost use Rattle.meaning_forms.specs.Expression.{lvalue_of};
ghost use Rattle.scope_world.specs.Objects.{type_of};
ghost use Rattle.region_forms.specs.LowerExpression.{lvalue_type, place_of};
ghost use Rattle.region_forms.specs.LowerStatement as rules;
ghost use Rattle.region_ir.specs.Given.{lowering_of};
ghost use Rattle.region_ir.specs.View.{region_of};

use crate::NoMemory;
use crate::called::lvalue_type;
use crate::expression::in_order;
use crate::handling::{copied, thrown_place};
use crate::held::{beside, boxed, put};
use crate::lower::{lower_construct, value_stored};
use crate::lowering::Lowering;
use crate::numbering::type_number;
use crate::operation::{Cleanup, RegionOp};
use crate::region::Region;
use cxx_ast::expression::Expr;
use cxx_ast::name::{Bound, Builtin, Name};
use scope_flow::{callee_bound, lvalue_of};
use scope_world::ObjectType;

// An exception object is made, built, and thrown, behind other regions; where building exits by an exception, it is freed.
#[tactic(auto, using(crate::proofs::Behind::three_behind, crate::proofs::Rows::region_rows))]
fn thrown_as(
    l: &Lowering<'_>,
    ty: ObjectType,
    build: Vec<Region>,
    before: &mut Vec<Region>,
) -> Result<(), NoMemory>
    ensures { OnOk result (map region_of before.new.items ≡ map region_of before.old.items ++ rules.thrown_as (lowering_of l.now) (type_of ty) (map region_of build.items)) }
{
    let (build, object) = beside(build, l.exception_slot())?;
    let (build, number) = beside(build, type_number(ty))?;
    let build = boxed(l.alloc, in_order(build))?;
    let (build, _) = beside(build, put(Region::Op(RegionOp::Make(object)), before))?;
    put(Region::Protect(build, Cleanup::Free(object)), before)?;
    let thrown = RegionOp::Throw(object, number, l.numbering.destructor_of(ty));
    put(Region::Op(thrown), before)?;
    Ok(())
}

// An int is thrown.
fn int_thrown(l: &Lowering<'_>, e: &Expr, before: &mut Vec<Region>) -> Result<(), NoMemory>
    ensures { OnOk result (map region_of before.new.items ≡ map region_of before.old.items ++ rules.int_thrown (lowering_of l.now) (expression_of e.now)) }
{
    let object = thrown_place(l)?;
    let free = l.first_temporary()?;
    let mut build = Vec::new(l.alloc);
    value_stored(l, e, object, free, &mut build)?;
    thrown_as(l, ObjectType::Int, build, before)
}

// An object of a class is built from arguments and thrown.
fn object_thrown(
    l: &Lowering<'_>,
    class: u32,
    arguments: &[Expr],
    before: &mut Vec<Region>,
) -> Result<(), NoMemory>
    ensures { OnOk result (map region_of before.new.items ≡ map region_of before.old.items ++ rules.object_thrown (lowering_of l.now) class (expressions_of arguments.now)) }
{
    let object = thrown_place(l)?;
    let free = l.first_temporary()?;
    let mut build = Vec::new(l.alloc);
    lower_construct(l, class, arguments, object, free, &mut build)?;
    thrown_as(l, ObjectType::Class(class), build, before)
}

// The operand is a call: that of a class's name builds an object.
fn call_thrown(
    l: &Lowering<'_>,
    bound: Bound,
    e: &Expr,
    arguments: &[Expr],
    before: &mut Vec<Region>,
) -> Result<(), NoMemory>
    ensures { OnOk result (map region_of before.new.items ≡ map region_of before.old.items ++ rules.call_thrown (lowering_of l.now) bound (expression_of e.now) (expressions_of arguments.now)) }
{
    match bound {
        Bound::Class(class) => object_thrown(l, class, arguments, before),
        Bound::Builtin(Builtin::BadException) => object_thrown(l, 0, arguments, before),
        _ => int_thrown(l, e, before),
    }
}

// An object of a class is copied and thrown.
fn copy_thrown(
    l: &Lowering<'_>,
    class: u32,
    names: &[Name],
    before: &mut Vec<Region>,
) -> Result<(), NoMemory>
    ensures { OnOk result (map region_of before.new.items ≡ map region_of before.old.items ++ rules.thrown_as (lowering_of l.now) (class_type class) (rules.copied (lowering_of l.now) class (rules.thrown_place (lowering_of l.now)) (place_of (lowering_of l.now) names.now) ∷ [])) }
{
    let copy = copied(l, class, thrown_place(l)?, l.place_of(names)?)?;
    let mut build = Vec::new(l.alloc);
    put(copy, &mut build)?;
    thrown_as(l, ObjectType::Class(class), build, before)
}

// The operand names an int or an object.
fn part_thrown(
    l: &Lowering<'_>,
    e: &Expr,
    names: &[Name],
    before: &mut Vec<Region>,
) -> Result<(), NoMemory>
    ensures { OnOk result (map region_of before.new.items ≡ map region_of before.old.items ++ rules.part_thrown (lowering_of l.now) (expression_of e.now) names.now (lvalue_type (lowering_of l.now) names.now)) }
{
    match lvalue_type(l, names) {
        ObjectType::Int => int_thrown(l, e, before),
        ObjectType::Class(class) => copy_thrown(l, class, names, before),
    }
}

// The operand is a value, or names something.
fn lvalue_thrown(l: &Lowering<'_>, e: &Expr, before: &mut Vec<Region>) -> Result<(), NoMemory>
    ensures { OnOk result (map region_of before.new.items ≡ map region_of before.old.items ++ rules.lvalue_thrown (lowering_of l.now) (expression_of e.now) (lvalue_of (expression_of e.now))) }
{
    match lvalue_of(e) {
        None => int_thrown(l, e, before),
        Some(names) => part_thrown(l, e, names, before),
    }
}

// The operand of a throw.
#[tactic(auto, using(cxx_ast::proofs::Rows::rows))]
fn operand_thrown(l: &Lowering<'_>, e: &Expr, before: &mut Vec<Region>) -> Result<(), NoMemory>
    ensures { OnOk result (map region_of before.new.items ≡ map region_of before.old.items ++ rules.operand_thrown (lowering_of l.now) (expression_of e.now)) }
{
    match e {
        Expr::Call(callee, es) => {
            let bound = callee_bound(callee.path.as_slice());
            call_thrown(l, bound, e, es.as_slice(), before)
        }
        Expr::StdCall(name, es, _) => call_thrown(l, name.bound, e, es.as_slice(), before),
        _ => lvalue_thrown(l, e, before),
    }
}

/// `throw expression;` and `throw;`, behind other regions.
#[inline(never)]
pub fn throwing(
    l: &Lowering<'_>,
    operand: &Option<Expr>,
    before: &mut Vec<Region>,
) -> Result<(), NoMemory>
    ensures { OnOk result (map region_of before.new.items ≡ map region_of before.old.items ++ rules.throwing (lowering_of l.now) (option_of expression_of operand.now)) }
{
    match operand {
        None => {
            put(Region::Op(RegionOp::Rethrow), before)?;
            Ok(())
        }
        Some(operand) => operand_thrown(l, operand, before),
    }
}

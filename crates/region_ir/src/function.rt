// Functions that a program declares.
ghost use Rattle.std.specs.Prelude.{◌≡◌, ◌+◌, ◌++◌, ◌∷◌, length, map, IfOk, OnOk};
ghost use Rattle.cxx_ast.specs.View.{checked_of, function_of as function_meant};
ghost use Rattle.meaning_forms.specs.Call.{initialiser_for, statements_in};
ghost use Rattle.meaning_forms.specs.Class.{object_type, parts_of};
ghost use Rattle.class_layout.specs.View.{laid_out};
ghost use Rattle.region_forms.specs.Form.{catch, in_order, limit};
ghost use Rattle.region_forms.specs.LowerProgram as rules;
ghost use Rattle.region_forms.specs.LowerStatement.{statements as statements_meant};
ghost use Rattle.region_forms.specs.Numbering.{type_number};
ghost use Rattle.region_ir.specs.Given.{lowering_of};
ghost use Rattle.region_ir.specs.View.{function_of, region_of};

use crate::NoMemory;
use crate::catching::ending;
use crate::expression::in_order;
use crate::handling::listed;
use crate::held::{beside, boxed, put};
use crate::lowering::{Lowering, slot_place};
use crate::numbers::behind;
use crate::operation::RegionOp;
use crate::part::Plan;
use crate::parts::{Construction, Destruction, build_parts, destroy_parts};
use crate::program::RegionFunc;
use crate::region::Region;
use crate::slots::result_for;
use crate::source::{Source, lowering, with_body};
use crate::statement::{Standing, statements};
use crate::value::Value;
use crate::variable::variables_of;
use cxx_ast::declaration::{Func, FuncKind, Spec};
use cxx_ast::types::Ty;
use scope_world::{body_of as statements_in, parts_of};

// The result of main is 0 where control flows off its end.
#[tactic(auto, using(crate::proofs::Behind::one_behind))]
fn last_result(l: &Lowering<'_>, is_main: bool, regions: &mut Vec<Region>) -> Result<(), NoMemory>
    ensures { OnOk result (map region_of regions.new.items ≡ map region_of regions.old.items ++ rules.last_result (lowering_of l.now) is_main) }
{
    if is_main {
        let zero = RegionOp::Store(slot_place(l.result_slot()?), Value::Number(0));
        put(Region::Op(zero), regions)?;
    }
    Ok(())
}

// The body of a constructor, which builds the parts of its class first, behind other regions.
fn put_construction(
    l: &Lowering<'_>,
    class: u32,
    function: &Func,
    at: Standing,
    regions: &mut Vec<Region>,
) -> Result<(), NoMemory>
    ensures { OnOk result (map region_of regions.new.items ≡ map region_of regions.old.items ++ rules.build_parts (lowering_of l.now) class (λ i. rules.initial_part (lowering_of l.now) class i (initialiser_for (lowering_of l.now).program (function_meant function.now).initialisers i)) 0 (parts_of (lowering_of l.now).program class) (λ e. statements_meant (lowering_of l.now) (statements_in (function_meant function.now).body) at.innermost_loop at.next_variable e) at.depth) }
{
    let parts = parts_of(l.alloc, l.numbering.program, class)?;
    let work = Construction {
        class,
        plan: Plan::Declared(function.inits.as_slice()),
        left: statements_in(Some(function)),
    };
    build_parts(l, work, 0, parts.as_slice(), at, regions)
}

// The body of a destructor, which destroys the parts of its class last, behind other regions.
fn put_destruction(
    l: &Lowering<'_>,
    class: u32,
    function: &Func,
    at: Standing,
    regions: &mut Vec<Region>,
) -> Result<(), NoMemory>
    ensures { OnOk result (map region_of regions.new.items ≡ map region_of regions.old.items ++ rules.destroy_parts (lowering_of l.now) class 0 (parts_of (lowering_of l.now).program class) (λ e. statements_meant (lowering_of l.now) (statements_in (function_meant function.now).body) at.innermost_loop at.next_variable e) at.depth) }
{
    let parts = parts_of(l.alloc, l.numbering.program, class)?;
    let work = Destruction {
        class,
        body: statements_in(Some(function)),
    };
    destroy_parts(l, work, 0, parts.as_slice(), at, regions)
}

// The body of a function, of a constructor or of a destructor, behind other regions.
fn put_body(
    l: &Lowering<'_>,
    class: u32,
    function: &Func,
    depth: u32,
    regions: &mut Vec<Region>,
) -> Result<(), NoMemory>
    ensures { OnOk result (map region_of regions.new.items ≡ map region_of regions.old.items ++ rules.body_of (lowering_of l.now) function.now.kind class (function_meant function.now) depth) }
{
    let at = Standing {
        innermost_loop: 0,
        next_variable: behind(0, function.params.len())?,
        depth,
    };
    match function.kind {
        FuncKind::Constructor => put_construction(l, class, function, at, regions),
        FuncKind::Destructor => put_destruction(l, class, function, at, regions),
        FuncKind::Plain | FuncKind::Method => {
            statements(l, statements_in(Some(function)), at, regions)
        }
    }
}

// The body of a function, of a constructor or of a destructor as one region.
fn body_of(l: &Lowering<'_>, class: u32, function: &Func, depth: u32) -> Result<Region, NoMemory>
    ensures { IfOk result (λ r. region_of r ≡ in_order (rules.body_of (lowering_of l.now) function.now.kind class (function_meant function.now) depth)) }
{
    let mut regions = Vec::new(l.alloc);
    put_body(l, class, function, depth, &mut regions)?;
    Ok(in_order(regions))
}

// A body in the extent of a specification that lists types.
fn listing(
    l: &Lowering<'_>,
    class: u32,
    function: &Func,
    types: &[Ty],
    depth: u32,
) -> Result<Region, NoMemory>
    ensures { IfOk result (λ r. region_of r ≡ limit (in_order (rules.body_of (lowering_of l.now) function.now.kind class (function_meant function.now) (depth + 2))) (map (λ t. type_number (object_type t)) types.now)) }
{
    let body = body_of(l, class, function, behind(depth, 2)?)?;
    let (body, types) = beside(body, listed(l.alloc, types))?;
    let (types, body) = beside(types, boxed(l.alloc, body))?;
    Ok(Region::Limit(body, types))
}

// A body that is `noexcept`.
#[tactic(auto, using(crate::proofs::Rows::region_rows))]
fn ended(l: &Lowering<'_>, class: u32, function: &Func, depth: u32) -> Result<Region, NoMemory>
    ensures { IfOk result (λ r. region_of r ≡ catch (in_order (rules.body_of (lowering_of l.now) function.now.kind class (function_meant function.now) (depth + 2))) (rules.ending (lowering_of l.now))) }
{
    let body = body_of(l, class, function, behind(depth, 2)?)?;
    let (body, clauses) = beside(body, ending(l))?;
    let (clauses, body) = beside(clauses, boxed(l.alloc, body))?;
    Ok(Region::Catch(body, clauses))
}

// A specification guards all of a body, a constructor's initialisers and a destructor's destruction of parts too.
#[tactic(auto, using(crate::proofs::Rows::region_rows))]
fn limited(l: &Lowering<'_>, class: u32, function: &Func, depth: u32) -> Result<Region, NoMemory>
    ensures { IfOk result (λ r. region_of r ≡ rules.limited (lowering_of l.now) (function_meant function.now).specification (rules.body_of (lowering_of l.now) function.now.kind class (function_meant function.now)) depth) }
{
    match &function.spec {
        None => body_of(l, class, function, behind(depth, 1)?),
        Some(Spec::Throw(types)) => {
            let made = listing(l, class, function, types.as_slice(), depth)?;
            Ok(made)
        }
        Some(Spec::Noexcept(_, _)) => {
            let made = ended(l, class, function, depth)?;
            Ok(made)
        }
    }
}

// A body under its specification, then the result at its end, behind other regions.
#[tactic(auto, using(crate::proofs::Behind::one_behind))]
fn put_guarded(
    l: &Lowering<'_>,
    is_main: bool,
    class: u32,
    function: &Func,
    regions: &mut Vec<Region>,
) -> Result<(), NoMemory>
    ensures { OnOk result (map region_of regions.new.items ≡ map region_of regions.old.items ++ rules.limited (lowering_of l.now) (function_meant function.now).specification (rules.body_of (lowering_of l.now) function.now.kind class (function_meant function.now)) 1 ∷ rules.last_result (lowering_of l.now) is_main) }
{
    let body = limited(l, class, function, 1)?;
    put(body, regions)?;
    last_result(l, is_main, regions)?;
    Ok(())
}

// A body under its specification, then the result at its end, as one region.
fn guarded(l: &Lowering<'_>, is_main: bool, class: u32, function: &Func) -> Result<Region, NoMemory>
    ensures { IfOk result (λ r. region_of r ≡ in_order (rules.limited (lowering_of l.now) (function_meant function.now).specification (rules.body_of (lowering_of l.now) function.now.kind class (function_meant function.now)) 1 ∷ rules.last_result (lowering_of l.now) is_main)) }
{
    let mut regions = Vec::new(l.alloc);
    put_guarded(l, is_main, class, function, &mut regions)?;
    Ok(in_order(regions))
}

// A declared function, by what its lowering is given.
fn declared_by(
    l: &Lowering<'_>,
    is_member: bool,
    is_main: bool,
    class: u32,
    function: &Func,
) -> Result<RegionFunc, NoMemory>
    ensures { IfOk result (λ f. function_of f ≡ rules.with_body (lowering_of l.now).layout is_member (lowering_of l.now).variables ((lowering_of l.now).first_variable + length (function_meant function.now).parameters) (function_meant function.now).name.text (rules.result_for (lowering_of l.now) (function_meant function.now).result) (in_order (rules.limited (lowering_of l.now) (function_meant function.now).specification (rules.body_of (lowering_of l.now) function.now.kind class (function_meant function.now)) 1 ∷ rules.last_result (lowering_of l.now) is_main))) }
{
    let params = behind(l.first_variable, function.params.len())?;
    let result_slot = result_for(l, &function.result)?;
    let body = guarded(l, is_main, class, function)?;
    let made = with_body(l, is_member, params, &function.name.text, result_slot, body)?;
    Ok(made)
}

/// A function that a program declares by itself, of which one is main, or a function that a class declares.
pub fn declared_function(
    source: Source<'_>,
    is_member: bool,
    is_main: bool,
    class: u32,
    function: &Func,
) -> Result<RegionFunc, NoMemory>
    ensures { IfOk result (λ f. function_of f ≡ rules.declared_function (checked_of source.entry.numbering.now.program.now) (laid_out source.entry.layout.now) is_member is_main class (function_meant function.now)) }
{
    let variables = variables_of(source.alloc, function)?;
    let l = lowering(source, is_member, variables.as_slice());
    declared_by(&l, is_member, is_main, class, function)
}

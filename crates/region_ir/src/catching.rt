// Try blocks, and their handlers.
ghost use Rattle.std.specs.Prelude.{◌≡◌, ◌+◌, ◌++◌, ◌∷◌, [], length, map, option_map, IfOk, OnOk};
ghost use Rattle.cxx_ast.specs.Plain.{try};
ghost use Rattle.cxx_ast.specs.View.{statements_of, handlers_of};
ghost use Rattle.cxx_ast.specs.declared.name.Builtin.TheVariants.{Terminate};
ghost use Rattle.meaning_forms.specs.Running.{destructor};
ghost use Rattle.region_forms.specs.Form.{builtin, call, catch, destroy_scope, enter, in_order, leave_handler, no_arguments, op, protect};
ghost use Rattle.region_forms.specs.LowerExpression.{exception_slot};
ghost use Rattle.region_forms.specs.LowerProgram.{ending};
ghost use Rattle.region_forms.specs.LowerStatement as rules;
ghost use Rattle.region_forms.specs.Numbering.{all_declared_in, declared_in, declared_in_handlers, number_of};
ghost use Rattle.region_ir.specs.Given.{lowering_of};
ghost use Rattle.region_ir.specs.Standing.{handler_in};
ghost use Rattle.region_ir.specs.Variables.{declared_by};
ghost use Rattle.region_ir.specs.View.{clauses_of, place_of, region_of};

use crate::NoMemory;
use crate::expression::in_order;
use crate::handling::{caught_parameter, clause_type};
use crate::held::{beside, boxed, put};
use crate::lowering::{Lowering, slot_place};
use crate::numbers::behind;
use crate::operation::{Cleanup, RegionOp};
use crate::place::Place;
use crate::region::{Clause, Region};
use crate::simple::put_scope;
use crate::statement::{Nested, Standing, block};
use crate::value::Callee;
use cxx_ast::name::Builtin;
use cxx_ast::statement::{Handler, Stmt};
use cxx_ast::types::Ty;
use scope_world::class_named;
use std::alloc::Global;

// A call of terminate.
#[tactic(auto, using(crate::proofs::Rows::region_rows))]
fn terminating(l: &Lowering<'_>) -> Result<Region, NoMemory>
    ensures { IfOk result (λ r. region_of r ≡ in_order (op (call (builtin Terminate) no_arguments) ∷ [])) }
{
    let terminate = Callee::Builtin(Builtin::Terminate);
    let mut regions = Vec::new(l.alloc);
    put(
        Region::Op(RegionOp::Call(terminate, Vec::new(l.alloc))),
        &mut regions,
    )?;
    Ok(in_order(regions))
}

// A handler is entered, behind other regions.
#[tactic(auto, using(crate::proofs::Behind::one_behind))]
fn put_entry(l: &Lowering<'_>, before: &mut Vec<Region>) -> Result<(), NoMemory>
    ensures { OnOk result (map region_of before.new.items ≡ map region_of before.old.items ++ op (enter (exception_slot (lowering_of l.now))) ∷ []) }
{
    let object = l.exception_slot()?;
    put(Region::Op(RegionOp::Enter(object)), before)?;
    Ok(())
}

// A handler without a parameter is entered.
fn plain_entry(l: &Lowering<'_>) -> Result<Vec<Region>, NoMemory>
    ensures { IfOk result (λ rs. map region_of rs.items ≡ op (enter (exception_slot (lowering_of l.now))) ∷ []) }
{
    let mut regions = Vec::new(l.alloc);
    put_entry(l, &mut regions)?;
    Ok(regions)
}

// A handler's parameter in a slot, behind other regions.
#[tactic(auto, using(crate::proofs::Behind::listed_behind))]
fn put_parameter(
    l: &Lowering<'_>,
    ty: &Ty,
    slot: u32,
    before: &mut Vec<Region>,
) -> Result<(), NoMemory>
    ensures { OnOk result (map region_of before.new.items ≡ map region_of before.old.items ++ rules.caught_parameter (lowering_of l.now) ty.now slot) }
{
    let parameter = caught_parameter(l, ty, slot)?;
    put(parameter, before)?;
    Ok(())
}

// A handler is entered behind its parameter in a slot.
fn entry_behind(l: &Lowering<'_>, ty: &Ty, slot: u32) -> Result<Vec<Region>, NoMemory>
    ensures { IfOk result (λ rs. map region_of rs.items ≡ rules.caught_parameter (lowering_of l.now) ty.now slot ++ op (enter (exception_slot (lowering_of l.now))) ∷ []) }
{
    let mut regions = Vec::new(l.alloc);
    put_parameter(l, ty, slot, &mut regions)?;
    put_entry(l, &mut regions)?;
    Ok(regions)
}

// A handler that is entered, and left at every exit of its body.
#[tactic(auto, using(crate::proofs::Behind::put_behind, crate::proofs::Rows::region_rows))]
fn handled(alloc: Global, entry: Vec<Region>, body: Region) -> Result<Region, NoMemory>
    ensures { IfOk result (λ r. region_of r ≡ in_order (map region_of entry.items ++ protect (region_of body) leave_handler ∷ [])) }
{
    let (mut regions, inside) = beside(entry, boxed(alloc, body))?;
    put(Region::Protect(inside, Cleanup::Leave), &mut regions)?;
    Ok(in_order(regions))
}

// A handler that ends with a call of terminate.
fn ended(l: &Lowering<'_>) -> Result<Region, NoMemory>
    ensures { IfOk result (λ r. region_of r ≡ in_order (op (enter (exception_slot (lowering_of l.now))) ∷ protect (in_order (op (call (builtin Terminate) no_arguments) ∷ [])) leave_handler ∷ [])) }
{
    let entry = plain_entry(l)?;
    let (entry, body) = beside(entry, terminating(l))?;
    let region = handled(l.alloc, entry, body)?;
    Ok(region)
}

/// The one clause of what is `noexcept`: whatever comes out is handled by a call of terminate.
#[tactic(auto, using(crate::proofs::Rows::region_rows))]
pub fn ending(l: &Lowering<'_>) -> Result<Vec<Clause>, NoMemory>
    ensures { IfOk result (λ cs. clauses_of cs.items ≡ ending (lowering_of l.now)) }
{
    let object = l.exception_slot()?;
    let body = ended(l)?;
    let mut clauses = Vec::new(l.alloc);
    let clause = Clause {
        ty: None,
        object,
        body,
    };
    put(clause, &mut clauses)?;
    Ok(clauses)
}

// Clauses, and the number of the next variable behind theirs.
#[derive(Drop)]
struct Caught {
    clauses: Vec<Clause>,
    next_variable: u32,
}

// A clause, and the number of the next variable behind its own.
#[derive(Drop)]
struct OneCaught {
    clause: Clause,
    next_variable: u32,
}

// A region with clauses, behind other regions.
#[tactic(auto, using(crate::proofs::Behind::one_behind, crate::proofs::Rows::region_rows))]
fn put_catch(
    alloc: Global,
    body: Region,
    clauses: Vec<Clause>,
    before: &mut Vec<Region>,
) -> Result<(), NoMemory>
    ensures { OnOk result (map region_of before.new.items ≡ map region_of before.old.items ++ catch (region_of body) (clauses_of clauses.items) ∷ []) }
{
    let (clauses, body) = beside(clauses, boxed(alloc, body))?;
    put(Region::Catch(body, clauses), before)?;
    Ok(())
}

/// A try block, behind other regions, and the number of the next variable behind its own.
#[inline(never)]
#[cycle(statements)]
pub fn with_try(
    l: &Lowering<'_>,
    ss: &[Stmt],
    hs: &[Handler],
    at: Standing,
    before: &mut Vec<Region>,
) -> Result<u32, NoMemory>
    ensures put { OnOk result (map region_of before.new.items ≡ map region_of before.old.items ++ rules.statement (lowering_of l.now) (try (statements_of ss.now) (handlers_of hs.now)) rules.nothing_more at.innermost_loop at.next_variable at.depth) }
    ensures next { IfOk result (λ n. n ≡ at.next_variable + length (declared_in (try (statements_of ss.now) (handlers_of hs.now)))) }
{
    let inside = at.inside(2)?;
    let body = block(l, ss, inside)?;
    let behind_body = inside.at_variable(body.next_variable);
    let (body, caught) = beside(body.region, clauses(l, hs, behind_body))?;
    let next_variable = caught.next_variable;
    put_catch(l.alloc, body, caught.clauses, before)?;
    Ok(next_variable)
}

// The clauses of a try block's handlers; the depth is that inside a clause.
#[inline(never)]
#[cycle(statements)]
fn clauses(l: &Lowering<'_>, hs: &[Handler], at: Standing) -> Result<Caught, NoMemory>
    ensures clauses { IfOk result (λ r. clauses_of r.clauses.items ≡ rules.clauses (lowering_of l.now) (handlers_of hs.now) at.innermost_loop at.next_variable at.depth) }
    ensures next { IfOk result (λ r. r.next_variable ≡ at.next_variable + length (declared_in_handlers (handlers_of hs.now))) }
{
    let mut clauses = Vec::new(l.alloc);
    let mut next_variable = at.next_variable;
    for h in hs {
        let one = clause(l, h, at.at_variable(next_variable))?;
        next_variable = one.next_variable;
        put(one.clause, &mut clauses)?;
    }
    Ok(Caught {
        clauses,
        next_variable,
    })
}

// The number of the type that a handler catches, if it has one.
fn type_caught(h: &Handler) -> Result<Option<u32>, NoMemory>
    ensures { IfOk result (λ t. t ≡ option_map rules.clause_type h.now.ty) }
{
    match &h.ty {
        None => Ok(None),
        Some(ty) => Ok(Some(clause_type(ty)?)),
    }
}

// The clause of a handler, and the number of the next variable behind its own.
#[inline(never)]
#[cycle(statements)]
fn clause(l: &Lowering<'_>, h: &Handler, at: Standing) -> Result<OneCaught, NoMemory>
    ensures ty { IfOk result (λ r. r.clause.ty ≡ option_map rules.clause_type h.now.ty) }
    ensures object { IfOk result (λ r. r.clause.object ≡ exception_slot (lowering_of l.now)) }
    ensures body { IfOk result (λ r. region_of r.clause.body ≡ handler_in (lowering_of l.now) h.now.ty (statements_of h.now.body.items) at.innermost_loop at.next_variable at.depth) }
    ensures next { IfOk result (λ r. r.next_variable ≡ at.next_variable + length (declared_by h.now.ty) + length (all_declared_in (statements_of h.now.body.items))) }
{
    let ty = type_caught(h)?;
    let object = l.exception_slot()?;
    let inner = handler(l, h, at)?;
    let next_variable = inner.next_variable;
    let clause = Clause {
        ty,
        object,
        body: inner.region,
    };
    Ok(OneCaught {
        clause,
        next_variable,
    })
}

// The body of a handler behind its entry.
fn entered(alloc: Global, entry: Vec<Region>, body: Nested) -> Result<Nested, NoMemory>
    ensures region { IfOk result (λ r. region_of r.region ≡ in_order (map region_of entry.items ++ protect (region_of body.region) leave_handler ∷ [])) }
    ensures next { IfOk result (λ r. r.next_variable ≡ body.next_variable) }
{
    let next_variable = body.next_variable;
    let region = handled(alloc, entry, body.region)?;
    Ok(Nested {
        region,
        next_variable,
    })
}

// The body of a handler without a parameter.
fn entered_plainly(l: &Lowering<'_>, body: Nested) -> Result<Nested, NoMemory>
    ensures region { IfOk result (λ r. region_of r.region ≡ in_order (op (enter (exception_slot (lowering_of l.now))) ∷ protect (region_of body.region) leave_handler ∷ [])) }
    ensures next { IfOk result (λ r. r.next_variable ≡ body.next_variable) }
{
    let (body, entry) = beside(body, plain_entry(l))?;
    let made = entered(l.alloc, entry, body)?;
    Ok(made)
}

// The body of a handler with a parameter in a slot.
fn entered_behind(l: &Lowering<'_>, ty: &Ty, slot: u32, body: Nested) -> Result<Nested, NoMemory>
    ensures region { IfOk result (λ r. region_of r.region ≡ in_order (rules.caught_parameter (lowering_of l.now) ty.now slot ++ op (enter (exception_slot (lowering_of l.now))) ∷ protect (region_of body.region) leave_handler ∷ [])) }
    ensures next { IfOk result (λ r. r.next_variable ≡ body.next_variable) }
{
    let (body, entry) = beside(body, entry_behind(l, ty, slot))?;
    let made = entered(l.alloc, entry, body)?;
    Ok(made)
}

// A handler as one region, and the number of the next variable behind its own; the depth is that inside its clause.
#[inline(never)]
#[cycle(statements)]
fn handler(l: &Lowering<'_>, h: &Handler, at: Standing) -> Result<Nested, NoMemory>
    ensures region { IfOk result (λ r. region_of r.region ≡ handler_in (lowering_of l.now) h.now.ty (statements_of h.now.body.items) at.innermost_loop at.next_variable at.depth) }
    ensures next { IfOk result (λ r. r.next_variable ≡ at.next_variable + length (declared_by h.now.ty) + length (all_declared_in (statements_of h.now.body.items))) }
{
    let inside = at.inside(2)?;
    match &h.ty {
        None => {
            let body = block(l, h.body.as_slice(), inside)?;
            entered_plainly(l, body)
        }
        Some(ty) => {
            let slot = behind(l.first_variable, at.next_variable as usize)?;
            let inside = inside.at_variable(behind(at.next_variable, 1)?);
            let body = with_caught(l, ty, slot, h.body.as_slice(), inside)?;
            entered_behind(l, ty, slot, body)
        }
    }
}

// Statements in the scope of a handler's parameter.
#[tactic(auto, using(crate::proofs::Rows::region_rows))]
fn scoped(l: &Lowering<'_>, class: u32, place: Place, inner: Nested) -> Result<Nested, NoMemory>
    ensures region { IfOk result (λ r. region_of r.region ≡ in_order (protect (region_of inner.region) (destroy_scope (place_of place) (number_of (lowering_of l.now).program (destructor class))) ∷ [])) }
    ensures next { IfOk result (λ r. r.next_variable ≡ inner.next_variable) }
{
    let next_variable = inner.next_variable;
    let mut regions = Vec::new(l.alloc);
    put_scope(l, class, place, inner.region, &mut regions)?;
    Ok(Nested {
        region: in_order(regions),
        next_variable,
    })
}

// The body of a handler with a parameter, in whose scope it stands where it is an object.
#[inline(never)]
#[cycle(statements)]
fn with_caught(
    l: &Lowering<'_>,
    ty: &Ty,
    slot: u32,
    ss: &[Stmt],
    at: Standing,
) -> Result<Nested, NoMemory>
    ensures region { IfOk result (λ r. region_of r.region ≡ in_order (rules.with_caught (lowering_of l.now) ty.now slot (λ d. rules.statements (lowering_of l.now) (statements_of ss.now) at.innermost_loop at.next_variable d) at.depth)) }
    ensures next { IfOk result (λ r. r.next_variable ≡ at.next_variable + length (all_declared_in (statements_of ss.now))) }
{
    match ty {
        Ty::Object(name) => {
            let inner = block(l, ss, at.inside(2)?)?;
            scoped(l, class_named(name), slot_place(slot), inner)
        }
        _ => block(l, ss, at),
    }
}

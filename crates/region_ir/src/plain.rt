// Statements that hold no others, and how a block ends.
ghost use Rattle.std.specs.Prelude.{◌≡◌, ◌+◌, ◌++◌, [], length, map, IfOk, OnOk};
ghost use Rattle.cxx_ast.specs.Plain.{local_int, local_ref};
ghost use Rattle.cxx_ast.specs.View.{expression_of, option_of, statement_of, statements_of};
ghost use Rattle.region_forms.specs.LowerStatement as rules;
ghost use Rattle.region_forms.specs.Numbering.{all_declared_in, declared_in};
ghost use Rattle.region_ir.specs.Given.{lowering_of};
ghost use Rattle.region_ir.specs.Standing.{leaves};
ghost use Rattle.region_ir.specs.View.{region_of};

use crate::NoMemory;
use crate::lower::{dropped, lower_store};
use crate::lowering::Lowering;
use crate::numbers::behind;
use crate::region::Region;
use crate::simple::{bound_to, initialised, left, returning};
use crate::statement::Standing;
use crate::throwing::throwing;
use crate::variable::with_statements as with_variables;
use cxx_ast::expression::Expr;
use cxx_ast::name::Name;
use cxx_ast::statement::Stmt;
use cxx_ast::types::Param;

// A statement that holds no other and declares nothing, behind other regions; any other is want of memory.
#[inline(never)]
#[tactic(auto, using(cxx_ast::proofs::Rows::statement_rows, crate::proofs::Stated::alone))]
fn with_plain(
    l: &Lowering<'_>,
    s: &Stmt,
    at: Standing,
    before: &mut Vec<Region>,
) -> Result<(), NoMemory>
    ensures put { OnOk result (map region_of before.new.items ≡ map region_of before.old.items ++ rules.statement (lowering_of l.now) (statement_of s.now) rules.nothing_more at.innermost_loop at.next_variable at.depth) }
    ensures declares { OnOk result (declared_in (statement_of s.now) ≡ []) }
{
    match s {
        Stmt::Empty => Ok(()),
        Stmt::Return(_, e) => returning(l, e, at.depth, before),
        Stmt::Break(_) => left(behind(at.outward(), 1)?, before),
        Stmt::Continue(_) => left(at.outward(), before),
        Stmt::Throw(_, e) => throwing(l, e, before),
        Stmt::Assign(it, e) => {
            let place = l.place_of(it.path.as_slice())?;
            lower_store(l, e, place, l.first_temporary()?, before)
        }
        Stmt::Call(e) => dropped(l, e, l.first_temporary()?, before),
        _ => Err(NoMemory),
    }
}

/// A local int, behind other regions, and the number of the next variable.
#[inline(never)]
#[tactic(auto, using(crate::proofs::Stated::alone))]
pub fn with_int(
    l: &Lowering<'_>,
    name: &Name,
    e: &Option<Expr>,
    at: Standing,
    before: &mut Vec<Region>,
) -> Result<u32, NoMemory>
    ensures put { OnOk result (map region_of before.new.items ≡ map region_of before.old.items ++ rules.statement (lowering_of l.now) (local_int name.now (option_of expression_of e.now)) rules.nothing_more at.innermost_loop at.next_variable at.depth) }
    ensures next { IfOk result (λ n. n ≡ at.next_variable + length (declared_in (local_int name.now (option_of expression_of e.now)))) }
{
    initialised(l, name, e, before)?;
    behind(at.next_variable, 1)
}

/// A local reference to what names lead to, behind other regions, and the number of the next variable.
#[inline(never)]
#[tactic(auto, using(crate::proofs::Stated::alone))]
pub fn with_reference(
    l: &Lowering<'_>,
    reference: &Param,
    names: &[Name],
    at: Standing,
    before: &mut Vec<Region>,
) -> Result<u32, NoMemory>
    ensures put { OnOk result (map region_of before.new.items ≡ map region_of before.old.items ++ rules.statement (lowering_of l.now) (local_ref reference.now names.now) rules.nothing_more at.innermost_loop at.next_variable at.depth) }
    ensures next { IfOk result (λ n. n ≡ at.next_variable + length (declared_in (local_ref reference.now names.now))) }
{
    let place = l.place_of(names)?;
    bound_to(l, &reference.name, place, before)?;
    behind(at.next_variable, 1)
}

/// A statement that holds no other and declares nothing, behind other regions, and the number of the next variable.
#[inline(never)]
pub fn with_other(
    l: &Lowering<'_>,
    s: &Stmt,
    at: Standing,
    before: &mut Vec<Region>,
) -> Result<u32, NoMemory>
    ensures put { OnOk result (map region_of before.new.items ≡ map region_of before.old.items ++ rules.statement (lowering_of l.now) (statement_of s.now) rules.nothing_more at.innermost_loop at.next_variable at.depth) }
    ensures next { IfOk result (λ n. n ≡ at.next_variable + length (declared_in (statement_of s.now))) }
{
    with_plain(l, s, at, before)?;
    Ok(at.next_variable)
}

/// Whether what stands behind a statement is never reached.
pub fn leaves(s: &Stmt) -> bool
    ensures { result ≡ leaves (statement_of s.now) }
{
    matches!(
        s,
        Stmt::Return(_, _) | Stmt::Break(_) | Stmt::Continue(_) | Stmt::Throw(_, _)
    )
}

/// The number of the next variable behind statements that are never reached.
#[inline(never)]
pub fn behind_unreached(l: &Lowering<'_>, ss: &[Stmt], next: u32) -> Result<u32, NoMemory>
    ensures { IfOk result (λ n. n ≡ next + length (all_declared_in (statements_of ss.now))) }
{
    let mut variables = Vec::new(l.alloc);
    with_variables(&mut variables, ss)?;
    behind(next, variables.len())
}

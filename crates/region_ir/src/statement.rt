// Statements. The scope of a local object is the rest of its block.
ghost use Rattle.std.specs.Prelude.{◌≡◌, ◌+◌, ◌-◌, ◌++◌, length, map, IfOk, OnOk};
ghost use Rattle.cxx_ast.specs.Plain.{block, if_else, local_object, no_else, else_do, while};
ghost use Rattle.cxx_ast.specs.View.{expression_of, expressions_of, statement_of, statements_of};
ghost use Rattle.region_forms.specs.Form.{in_order};
ghost use Rattle.region_forms.specs.LowerStatement as rules;
ghost use Rattle.region_forms.specs.Numbering.{all_declared_in, declared_in};
ghost use Rattle.region_ir.specs.Given.{lowering_of};
ghost use Rattle.region_ir.specs.View.{region_of};

use crate::NoMemory;
use crate::catching::with_try;
use crate::expression::in_order;
use crate::held::{beside, put};
use crate::lowering::Lowering;
use crate::numbers::behind;
use crate::plain::{behind_unreached, leaves, with_int, with_other, with_reference};
use crate::region::Region;
use crate::simple::{decided, loop_regions, looping, object_built, put_object_scope};
use cxx_ast::expression::Expr;
use cxx_ast::name::Name;
use cxx_ast::statement::Stmt;
use scope_world::class_named;

/// Where a statement stands: the number of the innermost loop's region counted from outside, the number of the next variable, and how many
/// regions hold it.
#[derive(Clone, Copy)]
pub struct Standing {
    pub innermost_loop: u32,
    pub next_variable: u32,
    pub depth: u32,
}

impl Standing {
    /// Inside so many more regions.
    pub fn inside(&self, regions: usize) -> Result<Self, NoMemory>
        ensures { IfOk result (λ s. s ≡ record self.now { depth = self.now.depth + regions }) }
    {
        Ok(Standing {
            depth: behind(self.depth, regions)?,
            ..*self
        })
    }

    /// Where another variable is the next.
    pub fn at_variable(&self, variable: u32) -> Self
        ensures { result ≡ record self.now { next_variable = variable } }
    {
        Standing {
            next_variable: variable,
            ..*self
        }
    }

    // Inside a loop that begins here, and inside so many regions more than before.
    fn in_loop(&self, regions: usize) -> Result<Self, NoMemory>
        ensures { IfOk result (λ s. s ≡ record self.now { innermost_loop = self.now.depth + 1; depth = self.now.depth + regions }) }
    {
        Ok(Standing {
            innermost_loop: behind(self.depth, 1)?,
            ..self.inside(regions)?
        })
    }

    // Behind the declaration of an object, in its scope.
    fn in_scope(&self) -> Result<Self, NoMemory>
        ensures { IfOk result (λ s. s ≡ record self.now { next_variable = self.now.next_variable + 1; depth = self.now.depth + 2 }) }
    {
        let variable = behind(self.next_variable, 1)?;
        let inside = self.inside(2)?;
        Ok(inside.at_variable(variable))
    }

    /// How many regions hold a statement inside its innermost loop.
    pub fn outward(&self) -> u32
        ensures { result ≡ self.now.depth - self.now.innermost_loop }
    {
        self.depth.saturating_sub(self.innermost_loop)
    }
}

/// Statements as one region, and the number of the next variable behind theirs.
#[derive(Drop)]
pub struct Nested {
    pub region: Region,
    pub next_variable: u32,
}

/// The statements of a block, behind other regions.
pub fn statements(
    l: &Lowering<'_>,
    ss: &[Stmt],
    at: Standing,
    before: &mut Vec<Region>,
) -> Result<(), NoMemory>
    ensures { OnOk result (map region_of before.new.items ≡ map region_of before.old.items ++ rules.statements (lowering_of l.now) (statements_of ss.now) at.innermost_loop at.next_variable at.depth) }
{
    with_statements(l, ss, at, before)?;
    Ok(())
}

// The statements of a block, behind other regions, and the number of the next variable behind theirs.
#[cycle(statements)]
fn with_statements(
    l: &Lowering<'_>,
    ss: &[Stmt],
    at: Standing,
    before: &mut Vec<Region>,
) -> Result<u32, NoMemory>
    ensures put { OnOk result (map region_of before.new.items ≡ map region_of before.old.items ++ rules.statements (lowering_of l.now) (statements_of ss.now) at.innermost_loop at.next_variable at.depth) }
    ensures next { IfOk result (λ n. n ≡ at.next_variable + length (all_declared_in (statements_of ss.now))) }
{
    let mut rest = ss;
    let mut next = at.next_variable;
    'statements: while let Some((s, others)) = rest.split_first() {
        let here = at.at_variable(next);
        if let Stmt::LocalObject(class, name, es) = s {
            return with_object(l, class, name, es.as_slice(), others, here, before);
        }
        next = with_statement(l, s, here, before)?;
        if leaves(s) {
            return behind_unreached(l, others, next);
        }
        rest = others;
    }
    Ok(next)
}

// A local object is built, and then the rest of its block stands in its scope.
#[inline(never)]
#[cycle(statements)]
fn with_object(
    l: &Lowering<'_>,
    class: &Name,
    name: &Name,
    arguments: &[Expr],
    rest: &[Stmt],
    at: Standing,
    before: &mut Vec<Region>,
) -> Result<u32, NoMemory>
    ensures put { OnOk result (map region_of before.new.items ≡ map region_of before.old.items ++ rules.statement (lowering_of l.now) (local_object class.now name.now (expressions_of arguments.now)) (λ d. rules.statements (lowering_of l.now) (statements_of rest.now) at.innermost_loop (at.next_variable + 1) d) at.innermost_loop at.next_variable at.depth) }
    ensures next { IfOk result (λ n. n ≡ at.next_variable + 1 + length (all_declared_in (statements_of rest.now))) }
{
    let number = class_named(class);
    object_built(l, number, name, arguments, before)?;
    let inner = block(l, rest, at.in_scope()?)?;
    let next_variable = inner.next_variable;
    put_object_scope(l, number, name, inner.region, before)?;
    Ok(next_variable)
}

/// The statements of a block as one region.
#[inline(never)]
#[cycle(statements)]
pub fn block(l: &Lowering<'_>, ss: &[Stmt], at: Standing) -> Result<Nested, NoMemory>
    ensures region { IfOk result (λ r. region_of r.region ≡ in_order (rules.statements (lowering_of l.now) (statements_of ss.now) at.innermost_loop at.next_variable at.depth)) }
    ensures next { IfOk result (λ r. r.next_variable ≡ at.next_variable + length (all_declared_in (statements_of ss.now))) }
{
    let mut regions = Vec::new(l.alloc);
    let next_variable = with_statements(l, ss, at, &mut regions)?;
    Ok(Nested {
        region: in_order(regions),
        next_variable,
    })
}

// A single statement as one region.
#[inline(never)]
#[cycle(statements)]
fn single(l: &Lowering<'_>, s: &Stmt, at: Standing) -> Result<Nested, NoMemory>
    ensures region { IfOk result (λ r. region_of r.region ≡ in_order (rules.statement (lowering_of l.now) (statement_of s.now) rules.nothing_more at.innermost_loop at.next_variable at.depth)) }
    ensures next { IfOk result (λ r. r.next_variable ≡ at.next_variable + length (declared_in (statement_of s.now))) }
{
    let mut regions = Vec::new(l.alloc);
    let next_variable = with_statement(l, s, at, &mut regions)?;
    Ok(Nested {
        region: in_order(regions),
        next_variable,
    })
}

// `if` without `else`, behind other regions.
#[inline(never)]
#[cycle(statements)]
fn with_if(
    l: &Lowering<'_>,
    test: &Expr,
    yes: &Stmt,
    at: Standing,
    before: &mut Vec<Region>,
) -> Result<u32, NoMemory>
    ensures put { OnOk result (map region_of before.new.items ≡ map region_of before.old.items ++ rules.statement (lowering_of l.now) (if_else (expression_of test.now) (statement_of yes.now) no_else) rules.nothing_more at.innermost_loop at.next_variable at.depth) }
    ensures next { IfOk result (λ n. n ≡ at.next_variable + length (declared_in (statement_of yes.now))) }
{
    let yes = single(l, yes, at.inside(2)?)?;
    let next_variable = yes.next_variable;
    decided(l, test, yes.region, in_order(Vec::new(l.alloc)), before)?;
    Ok(next_variable)
}

// `if` and `else`, behind other regions.
#[inline(never)]
#[cycle(statements)]
#[tactic(auto, using(crate::proofs::Stated::both_counted))]
fn with_if_else(
    l: &Lowering<'_>,
    test: &Expr,
    yes: &Stmt,
    no: &Stmt,
    at: Standing,
    before: &mut Vec<Region>,
) -> Result<u32, NoMemory>
    ensures put { OnOk result (map region_of before.new.items ≡ map region_of before.old.items ++ rules.statement (lowering_of l.now) (if_else (expression_of test.now) (statement_of yes.now) (else_do (statement_of no.now))) rules.nothing_more at.innermost_loop at.next_variable at.depth) }
    ensures next { IfOk result (λ n. n ≡ at.next_variable + length (declared_in (if_else (expression_of test.now) (statement_of yes.now) (else_do (statement_of no.now))))) }
{
    let inside = at.inside(2)?;
    let yes = single(l, yes, inside)?;
    let behind_yes = inside.at_variable(yes.next_variable);
    let (yes, no) = beside(yes.region, single(l, no, behind_yes))?;
    let next_variable = no.next_variable;
    decided(l, test, yes, no.region, before)?;
    Ok(next_variable)
}

// `while`, behind other regions: a test that makes calls is evaluated inside the loop.
#[inline(never)]
#[cycle(statements)]
fn with_while(
    l: &Lowering<'_>,
    test: &Expr,
    body: &Stmt,
    at: Standing,
    before: &mut Vec<Region>,
) -> Result<u32, NoMemory>
    ensures put { OnOk result (map region_of before.new.items ≡ map region_of before.old.items ++ rules.statement (lowering_of l.now) (while (expression_of test.now) (statement_of body.now)) rules.nothing_more at.innermost_loop at.next_variable at.depth) }
    ensures next { IfOk result (λ n. n ≡ at.next_variable + length (declared_in (statement_of body.now))) }
{
    let body = single(l, body, at.in_loop(loop_regions(test))?)?;
    let next_variable = body.next_variable;
    looping(l, test, body.region, before)?;
    Ok(next_variable)
}

// A statement with nothing behind it in its block, behind other regions, and the number of the next variable behind its own.
#[inline(never)]
#[cycle(statements)]
#[tactic(auto, using(cxx_ast::proofs::Rows::statement_rows, crate::proofs::Stated::alone))]
fn with_statement(
    l: &Lowering<'_>,
    s: &Stmt,
    at: Standing,
    before: &mut Vec<Region>,
) -> Result<u32, NoMemory>
    ensures put { OnOk result (map region_of before.new.items ≡ map region_of before.old.items ++ rules.statement (lowering_of l.now) (statement_of s.now) rules.nothing_more at.innermost_loop at.next_variable at.depth) }
    ensures next { IfOk result (λ n. n ≡ at.next_variable + length (declared_in (statement_of s.now))) }
{
    match s {
        Stmt::Block(ss) => with_block(l, ss.as_slice(), at, before),
        Stmt::If(test, yes, None) => with_if(l, test, yes, at, before),
        Stmt::If(test, yes, Some(no)) => with_if_else(l, test, yes, no, at, before),
        Stmt::While(test, body) => with_while(l, test, body, at, before),
        Stmt::Try(ss, hs) => with_try(l, ss.as_slice(), hs.as_slice(), at, before),
        Stmt::LocalObject(class, name, es) => {
            with_object(l, class, name, es.as_slice(), &[], at, before)
        }
        Stmt::LocalInt(name, e) => with_int(l, name, e, at, before),
        Stmt::LocalRef(reference, it) => {
            with_reference(l, reference, it.path.as_slice(), at, before)
        }
        _ => with_other(l, s, at, before),
    }
}

// A block inside another, behind other regions.
#[inline(never)]
#[cycle(statements)]
fn with_block(
    l: &Lowering<'_>,
    ss: &[Stmt],
    at: Standing,
    before: &mut Vec<Region>,
) -> Result<u32, NoMemory>
    ensures put { OnOk result (map region_of before.new.items ≡ map region_of before.old.items ++ rules.statement (lowering_of l.now) (block (statements_of ss.now)) rules.nothing_more at.innermost_loop at.next_variable at.depth) }
    ensures next { IfOk result (λ n. n ≡ at.next_variable + length (all_declared_in (statements_of ss.now))) }
{
    let inner = block(l, ss, at.inside(1)?)?;
    let next_variable = inner.next_variable;
    put(inner.region, before)?;
    Ok(next_variable)
}

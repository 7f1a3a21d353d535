// Landing pads of regions with handlers, and of those with a specification.
ghost use Rattle.std.specs.Prelude.{◌≡◌, ℤ, [], ◌∷◌, ◌++◌, ◌+◌, OnOk, IfOk};
ghost use Rattle.region_forms.specs.Form.{bind, through};
ghost use Rattle.region_forms.specs.Guard.{types_of};
ghost use Rattle.linear_forms.specs.Code.{clause_tests};
ghost use Rattle.linear_forms.specs.Emission as rules;
ghost use Rattle.linear_forms.specs.Linear.{jump, jump_filter, label as label_meant, pad, plain, resume, unexpected};
ghost use Rattle.region_ir.specs.View.{clauses_of};
ghost use Rattle.landing_pads.specs.Emitted.{Emitted};
ghost use Rattle.landing_pads.specs.Given.{emitting_of};
ghost use Rattle.landing_pads.specs.View.{cover_of, linear_of};

use crate::NoMemory;
use crate::covers::guarded;
use crate::emitting::Emitting;
use crate::numbers::behind;
use crate::placed::{Chain, Cover, Placed};
use crate::put::{put_outward, put_quiet};
use crate::unit::LinearOp;
use region_ir::operation::RegionOp;
use region_ir::place::{Place, Root};
use region_ir::region::Clause;
use smallvec::SmallVec;

/// A slot gets the address of the object that a landing pad got.
pub fn bind_object(e: &Emitting<'_>, slot: u32) -> LinearOp
    ensures { linear_of result ≡ plain (bind slot (record { root = through e.now.object; offset = 0 })) }
{
    let place = Place {
        root: Root::Through(e.object),
        offset: 0,
    };
    LinearOp::Op(RegionOp::Bind(slot, place))
}

// The filters of clauses, in their order.
fn clause_filters(e: &Emitting<'_>, clauses: &[Clause]) -> Result<Chain, NoMemory>
    ensures { IfOk result (λ chain. chain.items ≡ rules.filters_of (emitting_of e.now) (types_of (clauses_of clauses.now))) }
{
    let mut chain = SmallVec::new(e.alloc);
    for clause in clauses {
        chain.push(e.tables.clause_filter(clause.ty)?)?;
    }
    Ok(chain)
}

/// In the extent of a pad with clauses.
pub fn cover_of_clauses(
    e: &Emitting<'_>,
    pad: u32,
    clauses: &[Clause],
    cover: &Cover,
) -> Result<Cover, NoMemory>
    ensures { IfOk result (λ c. cover_of c ≡ rules.guarded pad (rules.filters_of (emitting_of e.now) (types_of (clauses_of clauses.now))) (cover_of cover.now)) }
{
    let filters = clause_filters(e, clauses)?;
    let made = guarded(e.alloc, pad, filters, cover)?;
    Ok(made)
}

// A test for each clause, whose handlers begin at labels from the given one on.
fn put_tests(
    e: &Emitting<'_>,
    clauses: &[Clause],
    label: u32,
    code: &mut Vec<Placed>,
) -> Result<(), NoMemory>
    ensures { OnOk result (Emitted code.old.items code.new.items (clause_tests (emitting_of e.now) label (clauses_of clauses.now))) }
{
    let mut handler = label;
    for clause in clauses {
        let filter = e.tables.clause_filter(clause.ty)?;
        put_quiet(LinearOp::JumpFilter(e.selector, filter, handler), code)?;
        handler = behind(handler, 1)?;
    }
    Ok(())
}

/// The landing pad of a region with handlers, which normal code jumps over: it tests for each clause, and goes on outwards.
#[tactic(auto, using(crate::proofs::Behind::four_emitted))]
pub fn put_clause_pad(
    e: &Emitting<'_>,
    clauses: &[Clause],
    cover: &Cover,
    label: u32,
    code: &mut Vec<Placed>,
) -> Result<(), NoMemory>
    ensures { OnOk result (Emitted code.old.items code.new.items (rules.quiet (jump (label + 1)) ∷ rules.quiet (pad e.now.object e.now.selector) ∷ (clause_tests (emitting_of e.now) (label + 2) (clauses_of clauses.now) ++ rules.outward (resume e.now.object) (cover_of cover.now) ∷ []))) }
{
    put_quiet(LinearOp::Jump(behind(label, 1)?), code)?;
    put_quiet(LinearOp::Pad(e.object, e.selector), code)?;
    put_tests(e, clauses, behind(label, 2)?, code)?;
    put_outward(LinearOp::Resume(e.object), cover, code)
}

// The part of a specification's landing pad that passes the object to the runtime.
fn put_unexpected(
    e: &Emitting<'_>,
    cover: &Cover,
    label: u32,
    code: &mut Vec<Placed>,
) -> Result<(), NoMemory>
    ensures { OnOk result (Emitted code.old.items code.new.items (rules.quiet (label_meant (label + 2)) ∷ rules.outward (unexpected e.now.object e.now.selector) (cover_of cover.now) ∷ rules.quiet (label_meant (label + 1)) ∷ [])) }
{
    put_quiet(LinearOp::Label(behind(label, 2)?), code)?;
    put_outward(LinearOp::Unexpected(e.object, e.selector), cover, code)?;
    put_quiet(LinearOp::Label(behind(label, 1)?), code)
}

/// The landing pad of a region with a specification, which normal code jumps over: it passes what the list does not allow to the runtime.
#[tactic(auto, using(crate::proofs::Behind::five_emitted))]
pub fn put_limit_pad(
    e: &Emitting<'_>,
    filter: i64,
    cover: &Cover,
    label: u32,
    code: &mut Vec<Placed>,
) -> Result<(), NoMemory>
    ensures { OnOk result (Emitted code.old.items code.new.items (rules.quiet (jump (label + 1)) ∷ rules.quiet (pad e.now.object e.now.selector) ∷ rules.quiet (jump_filter e.now.selector filter (label + 2)) ∷ rules.outward (resume e.now.object) (cover_of cover.now) ∷ rules.quiet (label_meant (label + 2)) ∷ rules.outward (unexpected e.now.object e.now.selector) (cover_of cover.now) ∷ rules.quiet (label_meant (label + 1)) ∷ [])) }
{
    let end = behind(label, 1)?;
    let refused = behind(label, 2)?;
    put_quiet(LinearOp::Jump(end), code)?;
    put_quiet(LinearOp::Pad(e.object, e.selector), code)?;
    put_quiet(LinearOp::JumpFilter(e.selector, filter, refused), code)?;
    put_outward(LinearOp::Resume(e.object), cover, code)?;
    put_unexpected(e, cover, label, code)
}

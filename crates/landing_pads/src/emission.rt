// The code of regions, put behind other operations. Labels count up.
ghost use Rattle.std.specs.Prelude.{◌≡◌, ◌+◌, ◌∷◌, length, map, IfOk, OnOk};
ghost use Rattle.region_forms.specs.Form.{regions_from, branch, loop, protect, catch, limit, barrier, seq};
ghost use Rattle.linear_forms.specs.Code as rules;
ghost use Rattle.linear_forms.specs.Exits.{exit_to as exit_to_meant};
ghost use Rattle.linear_forms.specs.Tables.{Cover as CoverMeant};
ghost use Rattle.region_ir.specs.View.{cleanup_of, clauses_of, region_of, value_of};
ghost use Rattle.landing_pads.specs.Emitted.{Emitted};
ghost use Rattle.landing_pads.specs.Given.{emitting_of, exit_of, exits_of};
ghost use Rattle.landing_pads.specs.View.{cover_of};

use crate::NoMemory;
use crate::covers::{cleaned, limit_cover};
use crate::emitting::Emitting;
use crate::exits::{Exit, exit_to, protect_exit};
use crate::handling::{bind_object, cover_of_clauses, put_clause_pad, put_limit_pad};
use crate::numbers::behind;
use crate::placed::{Cover, Placed};
use crate::protecting::{put_exits, put_protect_pad};
use crate::put::{pad_place, put_operation, put_quiet, put_test};
use crate::unit::LinearOp;
use crate::ways::leave_code;
use region_ir::operation::Cleanup;
use region_ir::region::{Clause, Region};
use region_ir::value::Value;

/// The code of a region in a cover, inside regions with these exits, with labels from the given one on; gives the next label.
#[cycle(emission)]
#[tactic(auto, using(region_ir::proofs::Rows::region_rows))]
pub fn region_code(
    e: &Emitting<'_>,
    region: &Region,
    cover: &Cover,
    exits: &mut Vec<Exit>,
    label: u32,
    code: &mut Vec<Placed>,
) -> Result<u32, NoMemory>
    ensures code { OnOk result (Emitted code.old.items code.new.items (rules.region_code (emitting_of e.now) (cover_of cover.now) (exits_of exits.old.items) label (length code.old.items) (region_of region.now))) }
    ensures next { IfOk result (λ n. n ≡ label + rules.labels (region_of region.now)) }
    ensures exits { OnOk result (exits.new.items ≡ exits.old.items) }
{
    match region {
        Region::Seq(regions) => sequence(e, regions.as_slice(), cover, exits, label, code),
        Region::Op(operation) => {
            put_operation(e.alloc, operation, cover, code)?;
            Ok(label)
        }
        Region::Branch(test, first, second) => {
            branched(e, test, first, second, cover, exits, label, code)
        }
        Region::Loop(test, body) => repeated(e, test, body, cover, exits, label, code),
        Region::Protect(body, cleanup) => {
            protected(e, *cleanup, body, cover, exits, label, code)
        }
        Region::Catch(body, clauses) => {
            caught(e, clauses.as_slice(), body, cover, exits, label, code)
        }
        Region::Limit(body, listed) => {
            limited(e, listed.as_slice(), body, cover, exits, label, code)
        }
        Region::Barrier(body) => closed(e, body, exits, label, code),
        Region::Leave(number) => {
            leave_code(e, *number, exits.as_slice(), code)?;
            Ok(label)
        }
    }
}

// A region inside another with an exit.
#[cycle(emission)]
fn inside(
    e: &Emitting<'_>,
    exit: Exit,
    region: &Region,
    cover: &Cover,
    exits: &mut Vec<Exit>,
    label: u32,
    code: &mut Vec<Placed>,
) -> Result<u32, NoMemory>
    ensures code { OnOk result (Emitted code.old.items code.new.items (rules.region_code (emitting_of e.now) (cover_of cover.now) (exit_of exit ∷ exits_of exits.old.items) label (length code.old.items) (region_of region.now))) }
    ensures next { IfOk result (λ n. n ≡ label + rules.labels (region_of region.now)) }
    ensures exits { OnOk result (exits.new.items ≡ exits.old.items) }
{
    exits.push(exit)?;
    let next = region_code(e, region, cover, exits, label, code)?;
    exits.pop();
    Ok(next)
}

// A region inside another with an exit, in a cover of its own.
#[cycle(emission)]
fn covered(
    e: &Emitting<'_>,
    exit: Exit,
    region: &Region,
    cover: Cover,
    exits: &mut Vec<Exit>,
    label: u32,
    code: &mut Vec<Placed>,
) -> Result<u32, NoMemory>
    ensures code { OnOk result (Emitted code.old.items code.new.items (rules.region_code (emitting_of e.now) (cover_of cover) (exit_of exit ∷ exits_of exits.old.items) label (length code.old.items) (region_of region.now))) }
    ensures next { IfOk result (λ n. n ≡ label + rules.labels (region_of region.now)) }
    ensures exits { OnOk result (exits.new.items ≡ exits.old.items) }
{
    inside(e, exit, region, &cover, exits, label, code)
}

// Regions one after the other.
#[cycle(emission)]
fn all_code(
    e: &Emitting<'_>,
    regions: &[Region],
    cover: &Cover,
    exits: &mut Vec<Exit>,
    label: u32,
    code: &mut Vec<Placed>,
) -> Result<u32, NoMemory>
    ensures code { OnOk result (Emitted code.old.items code.new.items (rules.all_code (emitting_of e.now) (cover_of cover.now) (exits_of exits.old.items) label (length code.old.items) (regions_from (map region_of regions.now)))) }
    ensures next { IfOk result (λ n. n ≡ label + rules.labels_all (regions_from (map region_of regions.now))) }
    ensures exits { OnOk result (exits.new.items ≡ exits.old.items) }
{
    let mut next = label;
    for region in regions {
        next = region_code(e, region, cover, exits, next, code)?;
    }
    Ok(next)
}

// A sequence, and its end.
#[inline(never)]
#[cycle(emission)]
fn sequence(
    e: &Emitting<'_>,
    regions: &[Region],
    cover: &Cover,
    exits: &mut Vec<Exit>,
    label: u32,
    code: &mut Vec<Placed>,
) -> Result<u32, NoMemory>
    ensures code { OnOk result (Emitted code.old.items code.new.items (rules.region_code (emitting_of e.now) (cover_of cover.now) (exits_of exits.old.items) label (length code.old.items) (seq (regions_from (map region_of regions.now))))) }
    ensures next { IfOk result (λ n. n ≡ label + (rules.labels_all (regions_from (map region_of regions.now)) + 1)) }
    ensures exits { OnOk result (exits.new.items ≡ exits.old.items) }
{
    exits.push(exit_to(label))?;
    let next = all_code(e, regions, cover, exits, behind(label, 1)?, code)?;
    exits.pop();
    put_quiet(LinearOp::Label(label), code)?;
    Ok(next)
}

// Two sides of a test.
#[inline(never)]
#[cycle(emission)]
fn branched(
    e: &Emitting<'_>,
    test: &Value,
    first: &Region,
    second: &Region,
    cover: &Cover,
    exits: &mut Vec<Exit>,
    label: u32,
    code: &mut Vec<Placed>,
) -> Result<u32, NoMemory>
    ensures code { OnOk result (Emitted code.old.items code.new.items (rules.region_code (emitting_of e.now) (cover_of cover.now) (exits_of exits.old.items) label (length code.old.items) (branch (value_of test.now) (region_of first.now) (region_of second.now)))) }
    ensures next { IfOk result (λ n. n ≡ label + (rules.labels (region_of first.now) + rules.labels (region_of second.now) + 2)) }
    ensures exits { OnOk result (exits.new.items ≡ exits.old.items) }
{
    let other_side = behind(label, 1)?;
    put_test(e.alloc, test, other_side, code)?;
    let next = inside(
        e,
        exit_to(label),
        first,
        cover,
        exits,
        behind(label, 2)?,
        code,
    )?;
    put_quiet(LinearOp::Jump(label), code)?;
    put_quiet(LinearOp::Label(other_side), code)?;
    let next = inside(e, exit_to(label), second, cover, exits, next, code)?;
    put_quiet(LinearOp::Label(label), code)?;
    Ok(next)
}

// A loop with its test in front.
#[inline(never)]
#[cycle(emission)]
fn repeated(
    e: &Emitting<'_>,
    test: &Value,
    body: &Region,
    cover: &Cover,
    exits: &mut Vec<Exit>,
    label: u32,
    code: &mut Vec<Placed>,
) -> Result<u32, NoMemory>
    ensures code { OnOk result (Emitted code.old.items code.new.items (rules.region_code (emitting_of e.now) (cover_of cover.now) (exits_of exits.old.items) label (length code.old.items) (loop (value_of test.now) (region_of body.now)))) }
    ensures next { IfOk result (λ n. n ≡ label + (rules.labels (region_of body.now) + 2)) }
    ensures exits { OnOk result (exits.new.items ≡ exits.old.items) }
{
    let start = behind(label, 1)?;
    put_quiet(LinearOp::Label(start), code)?;
    put_test(e.alloc, test, label, code)?;
    let next = inside(
        e,
        exit_to(label),
        body,
        cover,
        exits,
        behind(label, 2)?,
        code,
    )?;
    put_quiet(LinearOp::Jump(start), code)?;
    put_quiet(LinearOp::Label(label), code)?;
    Ok(next)
}

// A region with a cleanup: its landing pad, the region, the cleanup of normal exits.
#[inline(never)]
#[cycle(emission)]
fn protected(
    e: &Emitting<'_>,
    cleanup: Cleanup,
    body: &Region,
    cover: &Cover,
    exits: &mut Vec<Exit>,
    label: u32,
    code: &mut Vec<Placed>,
) -> Result<u32, NoMemory>
    ensures code { OnOk result (Emitted code.old.items code.new.items (rules.region_code (emitting_of e.now) (cover_of cover.now) (exits_of exits.old.items) label (length code.old.items) (protect (region_of body.now) (cleanup_of cleanup)))) }
    ensures next { IfOk result (λ n. n ≡ label + (rules.labels (region_of body.now) + 3)) }
    ensures exits { OnOk result (exits.new.items ≡ exits.old.items) }
{
    let pad = pad_place(code.as_slice())?;
    put_protect_pad(e, cleanup, cover, label, code)?;
    let exit = protect_exit(cleanup, label)?;
    let first = behind(label, 3)?;
    let inner = cleaned(e.alloc, pad, cover)?;
    let next = covered(e, exit, body, inner, exits, first, code)?;
    put_exits(e, cleanup, body, cover, exits.as_slice(), label, code)?;
    put_quiet(LinearOp::Label(label), code)?;
    Ok(next)
}

// The handlers of clauses, which begin at labels from `first` on and jump to the end.
#[cycle(emission)]
fn clauses_code(
    e: &Emitting<'_>,
    clauses: &[Clause],
    cover: &Cover,
    exits: &mut Vec<Exit>,
    end: u32,
    first: u32,
    label: u32,
    code: &mut Vec<Placed>,
) -> Result<u32, NoMemory>
    ensures code { OnOk result (Emitted code.old.items code.new.items (rules.clauses_code (emitting_of e.now) (cover_of cover.now) (exits_of exits.old.items) end first label (length code.old.items) (clauses_of clauses.now))) }
    ensures next { IfOk result (λ n. n ≡ label + rules.labels_clauses (clauses_of clauses.now)) }
    ensures exits { OnOk result (exits.new.items ≡ exits.old.items) }
{
    let mut begin = first;
    let mut next = label;
    for clause in clauses {
        put_quiet(LinearOp::Label(begin), code)?;
        put_quiet(bind_object(e, clause.object), code)?;
        next = region_code(e, &clause.body, cover, exits, next, code)?;
        put_quiet(LinearOp::Jump(end), code)?;
        begin = behind(begin, 1)?;
    }
    Ok(next)
}

// The handlers of clauses, whose end is that of the region.
#[inline(never)]
#[cycle(emission)]
fn handlers(
    e: &Emitting<'_>,
    clauses: &[Clause],
    cover: &Cover,
    exits: &mut Vec<Exit>,
    label: u32,
    first: u32,
    code: &mut Vec<Placed>,
) -> Result<u32, NoMemory>
    ensures code { OnOk result (Emitted code.old.items code.new.items (rules.clauses_code (emitting_of e.now) (cover_of cover.now) (exit_to_meant label ∷ exits_of exits.old.items) label first (first + length clauses.now) (length code.old.items) (clauses_of clauses.now))) }
    ensures next { IfOk result (λ n. n ≡ first + length clauses.now + rules.labels_clauses (clauses_of clauses.now)) }
    ensures exits { OnOk result (exits.new.items ≡ exits.old.items) }
{
    exits.push(exit_to(label))?;
    let inner = behind(first, clauses.len())?;
    let next = clauses_code(e, clauses, cover, exits, label, first, inner, code)?;
    exits.pop();
    Ok(next)
}

// A region with handlers: its landing pad, the handlers, the region.
#[inline(never)]
#[cycle(emission)]
fn caught(
    e: &Emitting<'_>,
    clauses: &[Clause],
    body: &Region,
    cover: &Cover,
    exits: &mut Vec<Exit>,
    label: u32,
    code: &mut Vec<Placed>,
) -> Result<u32, NoMemory>
    ensures code { OnOk result (Emitted code.old.items code.new.items (rules.region_code (emitting_of e.now) (cover_of cover.now) (exits_of exits.old.items) label (length code.old.items) (catch (region_of body.now) (clauses_of clauses.now)))) }
    ensures next { IfOk result (λ n. n ≡ label + rules.labels (catch (region_of body.now) (clauses_of clauses.now))) }
    ensures exits { OnOk result (exits.new.items ≡ exits.old.items) }
{
    let pad = pad_place(code.as_slice())?;
    put_clause_pad(e, clauses, cover, label, code)?;
    let first = behind(label, 2)?;
    let next = handlers(e, clauses, cover, exits, label, first, code)?;
    put_quiet(LinearOp::Label(behind(label, 1)?), code)?;
    let inner = cover_of_clauses(e, pad, clauses, cover)?;
    let next = covered(e, exit_to(label), body, inner, exits, next, code)?;
    put_quiet(LinearOp::Label(label), code)?;
    Ok(next)
}

// A region with a specification: its landing pad, and the region.
#[inline(never)]
#[cycle(emission)]
fn limited(
    e: &Emitting<'_>,
    listed: &[u32],
    body: &Region,
    cover: &Cover,
    exits: &mut Vec<Exit>,
    label: u32,
    code: &mut Vec<Placed>,
) -> Result<u32, NoMemory>
    ensures code { OnOk result (Emitted code.old.items code.new.items (rules.region_code (emitting_of e.now) (cover_of cover.now) (exits_of exits.old.items) label (length code.old.items) (limit (region_of body.now) listed.now))) }
    ensures next { IfOk result (λ n. n ≡ label + (rules.labels (region_of body.now) + 3)) }
    ensures exits { OnOk result (exits.new.items ≡ exits.old.items) }
{
    let pad = pad_place(code.as_slice())?;
    let filter = e.tables.list_filter(e.alloc, listed)?;
    put_limit_pad(e, filter, cover, label, code)?;
    let first = behind(label, 3)?;
    let inner = limit_cover(e.alloc, pad, filter, cover)?;
    let next = covered(e, exit_to(label), body, inner, exits, first, code)?;
    put_quiet(LinearOp::Label(label), code)?;
    Ok(next)
}

// A region out of which nothing comes, and its end.
#[inline(never)]
#[cycle(emission)]
fn closed(
    e: &Emitting<'_>,
    body: &Region,
    exits: &mut Vec<Exit>,
    label: u32,
    code: &mut Vec<Placed>,
) -> Result<u32, NoMemory>
    ensures code { (c : CoverMeant) → OnOk result (Emitted code.old.items code.new.items (rules.region_code (emitting_of e.now) c (exits_of exits.old.items) label (length code.old.items) (barrier (region_of body.now)))) }
    ensures next { IfOk result (λ n. n ≡ label + (rules.labels (region_of body.now) + 1)) }
    ensures exits { OnOk result (exits.new.items ≡ exits.old.items) }
{
    let exit = exit_to(label);
    let next = inside(e, exit, body, &Cover::Bare, exits, behind(label, 1)?, code)?;
    put_quiet(LinearOp::Label(label), code)?;
    Ok(next)
}

// The code of a function, with its tables.
ghost use Rattle.std.specs.Prelude.{◌≡◌, [], ◌∷◌, ◌++◌, length, map, IfOk, OnOk};
ghost use Rattle.linear_forms.specs.Code.{region_code as region_code_meant};
ghost use Rattle.linear_forms.specs.Emission.{quiet};
ghost use Rattle.linear_forms.specs.Linear.{return};
ghost use Rattle.linear_forms.specs.Frame.{code_slots as slots_meant, frame_bytes as bytes_meant};
ghost use Rattle.linear_forms.specs.Sites.{sites_of as sites_meant};
ghost use Rattle.linear_forms.specs.Tables.{unpadded};
ghost use Rattle.linear_forms.specs.Filters.{lists_in, types_in};
ghost use Rattle.linear_forms.specs.Unit as rules;
ghost use Rattle.region_ir.specs.View.{function_of, region_of, slot_of};
ghost use Rattle.landing_pads.specs.Given.{emitting_of};
ghost use Rattle.landing_pads.specs.Emitted.{Emitted};
ghost use Rattle.landing_pads.specs.View.{code_of, cover_of, linear_of, placed_of, site_of};

use crate::NoMemory;
use crate::emission::region_code;
use crate::emitting::Emitting;
use crate::filters::Tables;
use crate::frame::{code_slots, frame_bytes};
use crate::numbers::behind;
use crate::placed::{Cover, Placed};
use crate::put::put_quiet;
use crate::sites::sites_of;
use crate::unit::{CodeSite, FuncCode, LinearOp};
use cxx_ast::text::Text;
use region_ir::held::{beside, put};
use region_ir::place::Slot;
use region_ir::program::RegionFunc;
use region_ir::region::Region;
use std::alloc::Global;

// The code of a body in a cover, behind other operations.
fn put_body(
    e: &Emitting<'_>,
    body: &Region,
    cover: &Cover,
    code: &mut Vec<Placed>,
) -> Result<(), NoMemory>
    ensures { OnOk result (Emitted code.old.items code.new.items (region_code_meant (emitting_of e.now) (cover_of cover.now) [] 0 (length code.old.items) (region_of body.now))) }
{
    let mut exits = Vec::new(e.alloc);
    region_code(e, body, cover, &mut exits, 0, code)?;
    Ok(())
}

// The code of a body, out of which all may come, then the return, behind other operations.
#[tactic(auto, using(crate::proofs::Behind::both_emitted))]
fn put_returning(
    e: &Emitting<'_>,
    body: &Region,
    given: Option<u32>,
    code: &mut Vec<Placed>,
) -> Result<(), NoMemory>
    ensures { OnOk result (Emitted code.old.items code.new.items (region_code_meant (emitting_of e.now) unpadded [] 0 (length code.old.items) (region_of body.now) ++ quiet (return given) ∷ [])) }
{
    put_body(e, body, &Cover::Unpadded, code)?;
    put_quiet(LinearOp::Return(given), code)?;
    Ok(())
}

// The code of a body, out of which all may come, then the return.
#[tactic(auto, using(crate::proofs::Behind::all_emitted))]
fn placed_code(e: &Emitting<'_>, body: &Region, given: Option<u32>) -> Result<Vec<Placed>, NoMemory>
    ensures { IfOk result (λ code. map placed_of code.items ≡ region_code_meant (emitting_of e.now) unpadded [] 0 0 (region_of body.now) ++ quiet (return given) ∷ []) }
{
    let mut code = Vec::new(e.alloc);
    put_returning(e, body, given, &mut code)?;
    Ok(code)
}

// The operations by themselves.
fn ops_of(alloc: Global, code: Vec<Placed>) -> Result<Vec<LinearOp>, NoMemory>
    ensures { IfOk result (λ ops. map linear_of ops.items ≡ map (λ x. x.op) (map placed_of code.items)) }
{
    let mut ops = Vec::new(alloc);
    for placed in code {
        put(placed.op, &mut ops)?;
    }
    Ok(ops)
}

// The code of a function's body with these tables; the slots of landing pads stand behind its own.
fn body_code(alloc: Global, function: &RegionFunc, tables: &Tables) -> Result<Vec<Placed>, NoMemory>
    requires types { tables.now.types.keys ≡ types_in (region_of function.now.body) }
    requires lists { map (λ l. l.items) tables.now.lists.items ≡ lists_in (region_of function.now.body) }
    ensures { IfOk result (λ code. map placed_of code.items ≡ rules.placed_code (function_of function.now)) }
{
    let object = behind(0, function.slots.len())?;
    let emitting = Emitting {
        alloc,
        tables,
        object,
        selector: behind(object, 1)?,
        way: behind(object, 2)?,
    };
    placed_code(&emitting, &function.body, function.result)
}

// Operations, and their call sites.
#[derive(Drop)]
struct Sited {
    ops: Vec<LinearOp>,
    sites: Vec<CodeSite>,
}

// The operations of a function with these tables, and their call sites.
fn operations_of(alloc: Global, function: &RegionFunc, tables: &Tables) -> Result<Sited, NoMemory>
    requires types { tables.now.types.keys ≡ types_in (region_of function.now.body) }
    requires lists { map (λ l. l.items) tables.now.lists.items ≡ lists_in (region_of function.now.body) }
    ensures ops { IfOk result (λ s. map linear_of s.ops.items ≡ map (λ x. x.op) (rules.placed_code (function_of function.now))) }
    ensures sites { IfOk result (λ s. map site_of s.sites.items ≡ sites_meant (rules.placed_code (function_of function.now))) }
{
    let code = body_code(alloc, function, tables)?;
    let sites = sites_of(alloc, code.as_slice());
    let (code, sites) = beside(code, sites)?;
    let (sites, ops) = beside(sites, ops_of(alloc, code))?;
    Ok(Sited { ops, sites })
}

// The slots of a function's code, and the size of their frame.
#[derive(Drop)]
struct Framed {
    slots: Vec<Slot>,
    bytes: u32,
}

fn frame_of(alloc: Global, function: &RegionFunc) -> Result<Framed, NoMemory>
    ensures slots { IfOk result (λ f. map slot_of f.slots.items ≡ slots_meant (function_of function.now)) }
    ensures bytes { IfOk result (λ f. f.bytes ≡ bytes_meant (slots_meant (function_of function.now))) }
{
    let slots = code_slots(alloc, function)?;
    let bytes = frame_bytes(slots.as_slice());
    let (slots, bytes) = beside(slots, bytes)?;
    Ok(Framed { slots, bytes })
}

// The types and the lists of tables, as they are given.
#[derive(Drop)]
struct Listed {
    types: Vec<u32>,
    lists: Vec<Vec<u64>>,
}

fn tables_given(alloc: Global, tables: Tables) -> Result<Listed, NoMemory>
    ensures types { IfOk result (λ l. l.types.items ≡ tables.types.keys) }
    ensures lists { IfOk result (λ l. l.lists ≡ tables.lists) }
{
    let Tables { types, lists } = tables;
    let (lists, types) = beside(lists, Vec::from_slice(alloc, types.as_slice()))?;
    Ok(Listed { types, lists })
}

/// The code of a function.
pub fn function_code(alloc: Global, function: &RegionFunc) -> Result<FuncCode, NoMemory>
    ensures { IfOk result (λ f. code_of f ≡ rules.function_code (function_of function.now)) }
{
    let tables = Tables::new(alloc, &function.body)?;
    let code = operations_of(alloc, function, &tables);
    let (tables, code) = beside(tables, code)?;
    let (code, tables) = beside(code, tables_given(alloc, tables))?;
    let ((code, tables), frame) = beside((code, tables), frame_of(alloc, function))?;
    let name = Text::copied(alloc, function.name.as_bytes());
    let ((code, tables, frame), name) = beside((code, tables, frame), name)?;
    Ok(FuncCode {
        name,
        params: function.params,
        slots: frame.slots,
        ops: code.ops,
        sites: code.sites,
        types: tables.types,
        lists: tables.lists,
        frame: frame.bytes,
    })
}
